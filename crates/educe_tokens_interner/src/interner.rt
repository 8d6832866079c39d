//! Token lists under numbers.
ghost use Rattle.std.specs.Prelude.{◌≡◌, ◌≤◌, ◌++◌, ◌∷◌, [], length, IfOk, IfSome, IfNone, OnOk, OnErr, map, slice_get};
ghost use Rattle.std.specs.Option.{option_copied};
ghost use Rattle.educe_tokens_interner.specs.Interned as spec;
ghost use Rattle.educe_tokens_interner.specs.Keys.{tokens_key};
ghost use Rattle.educe_tokens_interner.specs.Places.{place_from};

use crate::keyed::Keyed;
use educe_tokens::{Seq, Token};
use std::alloc::{AllocError, Global};
use std::collections::BTreeMap;
use std::marker::Model;

/// Token lists, each under a number. Lists are equal by their tokens: spans and jointness make no
/// difference. A contract sees the lists in the order of their numbers.
#[derive(Drop)]
pub struct Interner {
    alloc: Global,
    lists: Vec<Seq<Token>>,
    numbers: BTreeMap<Vec<u32>, usize>,
}

impl Model for Interner {
    ghost use Rattle.std.specs.Prelude.{List};
    ghost use Rattle.educe_tokens.specs.declared.token.Token.{Token};
    ghost use Rattle.educe_tokens_interner.specs.Interned.{AreApart};
    ghost use Rattle.educe_tokens_interner.specs.Places.{Numbers};

    ghost Value = { List (List Token) };

    ghost view = { λ interner. interner.lists.items };

    ghost invariant = { λ interner. AreApart interner.lists.items × Numbers interner.numbers interner.lists.items };
}

impl Interner {
    /// An interner without lists. It takes no memory.
    pub fn new(alloc: Global) -> Interner
        ensures { result ≡ [] }
    {
        Interner {
            alloc,
            lists: Vec::new(alloc),
            numbers: BTreeMap::new(alloc),
        }
    }

    /// The number of lists.
    pub fn len(&self) -> usize
        ensures len { result ≡ length self.now }
        ensures apart { spec.AreApart self.now }
    {
        self.lists.len()
    }

    /// The list under the number, if there is one.
    pub fn get(&self, number: usize) -> Option<&Seq<Token>>
        ensures list { option_copied result ≡ slice_get self.now number }
        ensures none { IfNone result (length self.now ≤ number) }
    {
        self.lists.get(number)
    }

    /// The number of the list that is equal to these tokens, if there is one.
    pub fn find(&self, tokens: &[Token]) -> Result<Option<usize>, AllocError>
        ensures some { IfOk result (λ found. IfSome found (λ number. spec.IsUnder self.now number tokens.now)) }
        ensures none { IfOk result (λ found. IfNone found (spec.IsHeld self.now tokens.now → ⊥)) }
    {
        let list = Keyed::new(self.alloc, tokens)?;
        Ok(self.find_keyed(&list))
    }

    /// As `find`, for a list whose key is there already. It takes no memory.
    pub fn find_keyed(&self, list: &Keyed<'_>) -> Option<usize>
        ensures some { IfSome result (λ number. spec.IsUnder self.now number list.now) }
        ensures none { IfNone result (spec.IsHeld self.now list.now → ⊥) }
    {
        self.place(list.key())
    }

    /// The place of the key.
    fn place(&self, key: &Vec<u32>) -> Option<usize>
        ensures { result ≡ place_from 0 (map tokens_key self.now) key.now.items }
    {
        self.numbers.get(key).copied()
    }

    /// Adds a list that none of the lists is equal to, under the next number. Where memory fails,
    /// nothing changes.
    pub fn add(&mut self, list: Keyed<'_>) -> Result<usize, AllocError>
        requires { spec.IsHeld self.old list → ⊥ }
        ensures ok { IfOk result (λ number. number ≡ length self.old) }
        ensures added { OnOk result (self.new ≡ self.old ++ list.entry ∷ []) }
        ensures err { OnErr result (self.new ≡ self.old) }
    {
        let number = self.lists.len();
        let copy = copy_of(self.alloc, list.tokens())?;
        self.lists.push(copy)?;
        match self.numbers.insert(list.into_key(), number) {
            Ok(_) => Ok(number),
            Err(_) => {
                self.lists.pop();
                Err(AllocError)
            }
        }
    }

    /// The number of the tokens: that of an equal list, or else the next one, under which they are
    /// added. Where memory fails, nothing changes.
    pub fn intern_tokens(&mut self, tokens: &[Token]) -> Result<usize, AllocError>
        ensures ok { IfOk result (λ number. spec.Interns self.old tokens.now number self.new) }
        ensures err { OnErr result (self.new ≡ self.old) }
    {
        let list = Keyed::new(self.alloc, tokens)?;
        match self.find_keyed(&list) {
            Some(number) => Ok(number),
            None => self.add(list),
        }
    }

    /// The number of the list, as `intern_tokens`.
    pub fn intern(&mut self, tokens: &Seq<Token>) -> Result<usize, AllocError>
        ensures ok { IfOk result (λ number. spec.Interns self.old tokens.now number self.new) }
        ensures err { OnErr result (self.new ≡ self.old) }
    {
        self.intern_tokens(tokens.as_slice())
    }
}

/// The tokens in memory of their own.
fn copy_of(alloc: Global, tokens: &[Token]) -> Result<Seq<Token>, AllocError>
    ensures { IfOk result (λ copy. copy ≡ tokens.now) }
{
    let mut copy = Seq::new(alloc);
    for token in tokens {
        copy.push(token.duplicate(alloc)?)?;
    }
    Ok(copy)
}
