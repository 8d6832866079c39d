//! The names that the block of `Debug` declares.
ghost use Rattle.std.specs.Prelude.{◌≡◌, ◌++◌, ◌∷◌, [], IfOk, IsTrue, IfSome};
ghost use Rattle.std.specs.Option.{option_copied};
ghost use Rattle.educe_body.specs.Held.{AreWordsOf};
ghost use Rattle.educe_body.specs.Chosen.{AreChosen};
ghost use Rattle.educe_tokens.specs.Appends.{no_place};
ghost use Rattle.educe_tokens.specs.Quote.{is_ascii_name};
ghost use Rattle.educe_tokens.specs.Spells.{IsWord};
ghost use Rattle.educe_handlers.specs.OneWord.{IsWord-prop};
ghost use Rattle.educe_meaning.specs.ShownBodies.{AreDebugNames, plain_fmt_names};

use educe_body::{ArgumentNames, InputWords, Shared, UsedIdents};
use educe_handlers::{select, select_prefix, used_idents};
use educe_syntax::{DeriveInput, Duplicate, Ident};
use educe_tokens::Spelling;
use std::alloc::{AllocError, Global};

/// The names that the block of `Debug` declares, at no place, and the prefix of its variables.
#[derive(Drop)]
pub struct DebugNames {
    /// The formatter.
    pub formatter: Ident,
    /// The builder.
    pub builder: Ident,
    /// The type of the keys of a map.
    pub helper: Ident,
    /// The names of the argument of a method.
    pub argument: Shared<ArgumentNames>,
    /// The function of a marker.
    pub function: Ident,
    /// The formatter of a marker.
    pub marker_formatter: Ident,
    /// What the variables for the fields of `self` begin with.
    pub prefix: Spelling,
    pub ghost formatter_nowhere: { formatter.span ≡ no_place },
    pub ghost builder_nowhere: { builder.span ≡ no_place },
    pub ghost helper_nowhere: { helper.span ≡ no_place },
    pub ghost argument_nowhere: { argument.argument.span ≡ no_place },
    pub ghost wrapper_nowhere: { argument.wrapper.span ≡ no_place },
    pub ghost value_type_nowhere: { argument.value_type.span ≡ no_place },
    pub ghost function_type_nowhere: { argument.function_type.span ≡ no_place },
    pub ghost own_formatter_nowhere: { argument.formatter.span ≡ no_place },
    pub ghost value_nowhere: { argument.own_value.span ≡ no_place },
    pub ghost value_formatter_nowhere: { argument.own_formatter.span ≡ no_place },
    pub ghost formatter_same: { argument.formatter.text ≡ formatter.text },
    pub ghost prefix_word: { IsWord prefix } by { IsWord-prop prefix },
}

/// Two names, at no place.
#[derive(Drop)]
pub struct Two {
    pub first: Ident,
    pub second: Ident,
    pub ghost first_nowhere: { first.span ≡ no_place },
    pub ghost second_nowhere: { second.span ≡ no_place },
}

/// Two names, chosen one after the other.
fn select_two(
    alloc: Global,
    used: &mut UsedIdents,
    first: &str,
    second: &str,
) -> Result<Two, AllocError>
    requires first { IsTrue (is_ascii_name first.now) }
    requires second { IsTrue (is_ascii_name second.now) }
    ensures chosen { IfOk result (λ two. AreChosen used.old (first.now ∷ second.now ∷ []) (two.first.text ∷ two.second.text ∷ [])) }
    ensures held { IfOk result (λ two. used.new ≡ used.old ++ two.first.text ∷ two.second.text ∷ []) }
{
    let one = select(alloc, used, first)?;
    let other = select(alloc, used, second)?;
    Ok(Two {
        first: one,
        second: other,
    })
}

/// The names that `fmt` declares, at no place.
#[derive(Drop)]
pub struct FmtNames {
    /// The formatter and the builder.
    pub own: Two,
    /// The argument of a method, and the type that wraps it.
    pub wrapped: Two,
    /// The type of the keys of a map.
    pub helper: Ident,
    /// The parameters of the type that wraps an argument.
    pub types: Two,
    /// The parameters of the closure that calls the method.
    pub values: Two,
    pub ghost helper_nowhere: { helper.span ≡ no_place },
}

impl FmtNames {
    ghost use Rattle.educe_make_debug.specs.DebugNames.{fmt_texts};

    /// These names, chosen one after the other.
    fn select(alloc: Global, used: &mut UsedIdents) -> Result<FmtNames, AllocError>
        ensures chosen { IfOk result (λ names. AreChosen used.old plain_fmt_names (fmt_texts names)) }
        ensures held { IfOk result (λ names. used.new ≡ used.old ++ fmt_texts names) }
    {
        let own = select_two(alloc, used, "f", "builder")?;
        let wrapped = select_two(alloc, used, "arg", "Educe__DebugField")?;
        let helper = select(alloc, used, "Educe__RawString")?;
        let types = select_two(alloc, used, "V", "F")?;
        let values = select_two(alloc, used, "educe__value", "educe__formatter")?;
        Ok(FmtNames {
            own,
            wrapped,
            helper,
            types,
            values,
        })
    }
}

/// The names of the argument of a method: of the argument and the type that wraps it, of the two
/// parameters of this, and of the parameters of the closure; and that of the formatter once more.
fn argument_names(
    alloc: Global,
    formatter: &Ident,
    wrapped: Two,
    types: Two,
    values: Two,
) -> Result<Shared<ArgumentNames>, AllocError>
    ensures { IfOk result (λ own. own ≡ record {
      argument = wrapped.first;
      wrapper = wrapped.second;
      value_type = types.first;
      function_type = types.second;
      formatter = formatter.now;
      own_value = values.first;
      own_formatter = values.second;
    }) }
{
    let formatter = formatter.duplicate(alloc)?;
    let names = ArgumentNames {
        argument: wrapped.first,
        wrapper: wrapped.second,
        value_type: types.first,
        function_type: types.second,
        formatter,
        own_value: values.first,
        own_formatter: values.second,
    };
    Shared::new(alloc, names)
}

impl DebugNames {
    ghost use Rattle.educe_make_debug.specs.DebugNames.{names_of, with_marker};

    /// The names for a definition: each is chosen apart from the words of the input and from the names
    /// before it.
    pub fn choose(
        alloc: Global,
        ast: &DeriveInput,
        words: Option<&InputWords>,
    ) -> Result<DebugNames, AllocError>
        requires words { IfSome (option_copied words) (AreWordsOf ast.now.tokens) }
        ensures { IfOk result (λ names. AreDebugNames ast.now (names_of names)) }
    {
        let mut used = used_idents(alloc, ast, words)?;
        let names = FmtNames::select(alloc, &mut used)?;
        let prefix = select_prefix(alloc, &used, "_")?;
        let marker = select_two(alloc, &mut used, "__educe_debug_method_used", "educe__f")?;
        DebugNames::with_marker(alloc, names, prefix, marker)
    }

    /// These names with the prefix of the variables, and those of a marker.
    fn with_marker(
        alloc: Global,
        names: FmtNames,
        prefix: Spelling,
        marker: Two,
    ) -> Result<DebugNames, AllocError>
        requires { IsWord prefix }
        ensures { IfOk result (λ all. names_of all ≡ with_marker names prefix marker) }
    {
        let FmtNames {
            own,
            wrapped,
            helper,
            types,
            values,
        } = names;
        let argument = argument_names(alloc, &own.first, wrapped, types, values)?;
        Ok(DebugNames {
            formatter: own.first,
            builder: own.second,
            helper,
            argument,
            function: marker.first,
            marker_formatter: marker.second,
            prefix,
        })
    }
}
