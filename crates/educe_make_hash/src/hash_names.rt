//! The names that `hash` declares.
ghost use Rattle.std.specs.Prelude.{◌≡◌, IfOk, IfSome};
ghost use Rattle.std.specs.Option.{option_copied};
ghost use Rattle.educe_body.specs.Held.{AreWordsOf};
ghost use Rattle.educe_tokens.specs.Appends.{no_place};
ghost use Rattle.educe_tokens.specs.Spells.{IsWord};
ghost use Rattle.educe_handlers.specs.OneWord.{IsWord-prop};
ghost use Rattle.educe_meaning.specs.HashBodies.{AreHashNames};

use educe_body::InputWords;
use educe_handlers::{select, select_prefix, used_idents};
use educe_syntax::{DeriveInput, Ident};
use educe_tokens::Spelling;
use std::alloc::{AllocError, Global};

/// The names that `hash` declares, at no place, and the prefix of its variables.
#[derive(Drop)]
pub struct HashNames {
    /// The hasher.
    pub state: Ident,
    /// The type of the hasher.
    pub hasher: Ident,
    /// What the variables for the fields of `self` begin with.
    pub prefix: Spelling,
    pub ghost state_nowhere: { state.span ≡ no_place },
    pub ghost prefix_word: { IsWord prefix } by { IsWord-prop prefix },
}

impl HashNames {
    ghost use Rattle.educe_make_hash.specs.HashNames.{names_of};

    /// The names for a definition: each is chosen apart from the words of the input and from the names
    /// before it, and then the prefix is.
    pub fn choose(
        alloc: Global,
        ast: &DeriveInput,
        words: Option<&InputWords>,
    ) -> Result<HashNames, AllocError>
        requires words { IfSome (option_copied words) (AreWordsOf ast.now.tokens) }
        ensures { IfOk result (λ names. AreHashNames ast.now (names_of names)) }
    {
        let mut used = used_idents(alloc, ast, words)?;
        let state = select(alloc, &mut used, "state")?;
        let hasher = select(alloc, &mut used, "H")?;
        let prefix = select_prefix(alloc, &used, "_v_")?;
        Ok(HashNames {
            state,
            hasher,
            prefix,
        })
    }
}
