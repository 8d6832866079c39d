//! Laws of bodies that hold with no call: each function does nothing, and its contract is the law.
ghost use Rattle.educe_body_values.specs.Laws.{KeyLaws, ScopeLaws, FormLaws};

/// Where the names of fields are apart, a leading `r#` aside, the keys of the fields differ without
/// it, and so as they are written. Keys that differ select the values at their positions.
pub fn key_laws()
    ensures { KeyLaws }
{}

/// A path whose identifiers are words of an input calls what it names wherever the names in scope,
/// `self` aside, are none of its words, an expression of such identifiers has its number there, and no
/// other text of such identifiers has a name in scope.
/// A path that is built in calls its function in any scope.
pub fn scope_laws()
    ensures { ScopeLaws }
{}

/// The value of a form that holds forms is made of their values.
pub fn form_laws()
    ensures { FormLaws }
{}
