//! Laws of rows that don't depend on a call: the function does nothing, and its contract is the law.
ghost use Rattle.std.specs.Prelude.{◌≡◌};
ghost use Rattle.educe_attrs_rows.specs.Rows as spec;
ghost use Rattle.educe_attrs_rows.specs.declared.row.TheConstants.Row.{EMPTY};

/// The constant `Row::EMPTY` allows no form.
pub fn row_laws()
    ensures empty { EMPTY ≡ spec.empty_row }
{}
