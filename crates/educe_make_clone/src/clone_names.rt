//! The names that the block of `Clone` declares.
ghost use Rattle.std.specs.Prelude.{◌≡◌, None, IfOk, IfSome};
ghost use Rattle.std.specs.Option.{option_copied};
ghost use Rattle.educe_body.specs.Held.{AreWordsOf};
ghost use Rattle.educe_tokens.specs.Appends.{no_place};
ghost use Rattle.educe_tokens.specs.Spells.{IsWord};
ghost use Rattle.educe_handlers.specs.OneWord.{IsWord-prop};
ghost use Rattle.educe_meaning.specs.CloneBodies.{AreCloneNames};

use educe_body::InputWords;
use educe_handlers::{select, select_prefix, used_idents};
use educe_make_markers::MarkerNames;
use educe_syntax::{DeriveInput, Ident};
use educe_tokens::Spelling;
use std::alloc::{AllocError, Global};

/// The names that the block of `Clone` declares, at no place, and the prefixes of its variables.
#[derive(Drop)]
pub struct CloneNames {
    /// The value that `clone_from` reads.
    pub source: Ident,
    /// The names of a marker.
    pub marker: MarkerNames,
    /// What the variables for the fields of the value that `clone_from` reads begin with, and in `clone`
    /// those for the fields of `self`.
    pub sources: Spelling,
    /// What the variables for the fields of `self` in `clone_from` begin with.
    pub own: Spelling,
    pub ghost source_nowhere: { source.span ≡ no_place },
    pub ghost unformatted: { marker.formatter ≡ None },
    pub ghost sources_word: { IsWord sources } by { IsWord-prop sources },
    pub ghost own_word: { IsWord own } by { IsWord-prop own },
}

impl CloneNames {
    ghost use Rattle.educe_make_clone.specs.CloneNames.{names_of};

    /// The names for a definition: each is chosen apart from the words of the input and from the names
    /// before it.
    pub fn choose(
        alloc: Global,
        ast: &DeriveInput,
        words: Option<&InputWords>,
    ) -> Result<CloneNames, AllocError>
        requires words { IfSome (option_copied words) (AreWordsOf ast.now.tokens) }
        ensures { IfOk result (λ names. AreCloneNames ast.now (names_of names)) }
    {
        let mut used = used_idents(alloc, ast, words)?;
        let source = select(alloc, &mut used, "source")?;
        let sources = select_prefix(alloc, &used, "_s_")?;
        let own = select_prefix(alloc, &used, "_d_")?;
        let function = select(alloc, &mut used, "__educe_clone_method_used")?;
        let value = select(alloc, &mut used, "educe__value")?;
        Ok(CloneNames {
            source,
            marker: MarkerNames {
                function,
                value,
                formatter: None,
            },
            sources,
            own,
        })
    }
}
