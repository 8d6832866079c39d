//! The names that the functions of an enum declare.
ghost use Rattle.std.specs.Prelude.{◌≡◌, IfOk, IfSome};
ghost use Rattle.std.specs.Option.{option_copied};
ghost use Rattle.educe_body.specs.Held.{AreWordsOf};
ghost use Rattle.educe_tokens.specs.Appends.{no_place};
ghost use Rattle.educe_tokens.specs.Spells.{IsWord};
ghost use Rattle.educe_meaning.specs.Arms.{AreNames};
ghost use Rattle.educe_handlers.specs.OneWord.{IsWord-prop};

use educe_body::InputWords;
use educe_handlers::{select, select_prefix, used_idents};
use educe_syntax::{DeriveInput, Ident};
use educe_tokens::Spelling;
use std::alloc::{AllocError, Global};

/// The names that the functions of an enum declare, at no place, and the prefixes of their variables.
#[derive(Drop)]
pub struct Names {
    /// The second value.
    pub other: Ident,
    /// The key function.
    pub discriminant: Ident,
    /// The parameter of the key function.
    pub this: Ident,
    /// The value that a distance is added to.
    pub base: Ident,
    /// What the variables for the fields of `self` begin with.
    pub own: Spelling,
    /// What those for the fields of the second value begin with.
    pub others: Spelling,
    pub ghost other_nowhere: { other.span ≡ no_place },
    pub ghost discriminant_nowhere: { discriminant.span ≡ no_place },
    pub ghost this_nowhere: { this.span ≡ no_place },
    pub ghost base_nowhere: { base.span ≡ no_place },
    pub ghost own_word: { IsWord own } by { IsWord-prop own },
    pub ghost others_word: { IsWord others } by { IsWord-prop others },
}

impl Names {
    ghost use Rattle.educe_cmp.specs.Names.{names_of};

    /// The names for a definition: each is chosen apart from the words of the input and from the names
    /// before it, and then the prefixes are.
    pub fn choose(
        alloc: Global,
        ast: &DeriveInput,
        words: Option<&InputWords>,
    ) -> Result<Names, AllocError>
        requires words { IfSome (option_copied words) (AreWordsOf ast.now.tokens) }
        ensures { IfOk result (λ names. AreNames ast.now (names_of names)) }
    {
        let mut used = used_idents(alloc, ast, words)?;
        let other = select(alloc, &mut used, "other")?;
        let discriminant = select(alloc, &mut used, "discriminant")?;
        let this = select(alloc, &mut used, "this")?;
        let base = select(alloc, &mut used, "base")?;
        let own = select_prefix(alloc, &used, "_s_")?;
        let others = select_prefix(alloc, &used, "_o_")?;
        Ok(Names {
            other,
            discriminant,
            this,
            base,
            own,
            others,
        })
    }
}
