//! The predicates of the where clause of an impl (documentation of `educe`, Bounds).
ghost use Rattle.std.specs.Prelude.{◌≡◌, [], ◌++◌, map, IfOk};
ghost use Rattle.educe_bound_classes.specs.Deriving.{Extends};
ghost use Rattle.educe_bound.specs.Predicates as spec;
ghost use Rattle.educe_bound.specs.Sets.{AreOnceByBound};

use crate::asked::{exceptions_of, needed_predicates, predicates_on_params};
use crate::bound::Bound;
use crate::sets::{PredicateSet, extend_where_predicates};
use educe_bound_classes::BoundExceptions;
use educe_bound_traits::Trait;
use educe_syntax::{Duplicate, GenericParam, Generics, Ident, Params, Predicates, Ty};
use educe_tokens::Seq;
use std::alloc::{AllocError, Global};

impl Bound {
    ghost use Rattle.std.specs.Prelude.{map};
    ghost use Rattle.std.specs.List.{AllByRecursion};
    ghost use Rattle.educe_grammar.specs.Readings.{IsReadType};
    ghost use Rattle.educe_bound_classes.specs.Needs.{AreNames};
    ghost use Rattle.std.specs.Borrow.{Bor};
    ghost use Rattle.educe_syntax.specs.Ty.{Ty};

    /// The predicates that the bound asks for, where the impl uses fields of these types
    /// (documentation of `educe`, Bounds). Those of a list stay as they were written.
    pub fn into_where_predicates_by_generic_parameters_check_types(
        &self,
        alloc: Global,
        params: &Params,
        bound_trait: Trait,
        types: &[&Ty],
        self_ident: &Ident,
        exceptions: &BoundExceptions,
    ) -> Result<Predicates, AllocError>
        ensures keys { IfOk result (λ found. spec.AreByBound self.now exceptions.now params.now self_ident.now.text
            bound_trait (map (λ (t : Bor Ty). t.now) types.now) (spec.keys_of found)) }
        // Under the automatic bound the predicates suffice, and none can be dropped.
        ensures suffice { IfOk result (λ found. spec.SufficeBy self.now exceptions.now params.now self_ident.now.text
            bound_trait (map (λ (t : Bor Ty). t.now) types.now) (spec.keys_of found)) }
        ensures minimal { AllByRecursion IsReadType (map (λ (t : Bor Ty). t.now) types.now) →
            IfOk result (λ found. spec.AreMinimalBy self.now exceptions.now params.now self_ident.now.text bound_trait
            (map (λ (t : Bor Ty). t.now) types.now) (spec.keys_of found)) }
        ensures read { spec.IsReadBound self.now → AreNames params.now →
            AllByRecursion IsReadType (map (λ (t : Bor Ty). t.now) types.now) → IfOk result spec.AreRead }
    {
        match self {
            Bound::Disabled => Ok(Seq::new(alloc)),
            Bound::Auto => {
                let needed = needed_predicates(
                    alloc,
                    params,
                    bound_trait,
                    types,
                    self_ident,
                    exceptions,
                )?;
                Ok(needed.into_list())
            }
            Bound::All => predicates_on_params(alloc, params, bound_trait),
            Bound::Custom(predicates) => predicates.duplicate(alloc),
        }
    }

    /// The predicates that the bound asks for as a set, which others can be added to: each is there once,
    /// also where a list has it twice.
    pub fn predicate_set(
        &self,
        alloc: Global,
        params: &Params,
        bound_trait: Trait,
        types: &[&Ty],
        self_ident: &Ident,
        exceptions: &BoundExceptions,
    ) -> Result<PredicateSet, AllocError>
        ensures keys { IfOk result (λ found. AreOnceByBound self.now exceptions.now params.now self_ident.now.text
            bound_trait (map (λ (t : Bor Ty). t.now) types.now) (spec.keys_of found)) }
        ensures read { spec.IsReadBound self.now → AreNames params.now →
            AllByRecursion IsReadType (map (λ (t : Bor Ty). t.now) types.now) → IfOk result spec.AreRead }
    {
        match self {
            Bound::Disabled => Ok(PredicateSet::new(alloc)),
            Bound::Auto => {
                needed_predicates(alloc, params, bound_trait, types, self_ident, exceptions)
            }
            Bound::All => set_of(alloc, &predicates_on_params(alloc, params, bound_trait)?),
            Bound::Custom(predicates) => set_of(alloc, predicates),
        }
    }

    /// The predicates by which fields of these types may be copied out of a packed struct
    /// (documentation of `educe`, Bounds).
    pub fn packed_copy_predicates(
        &self,
        alloc: Global,
        params: &Params,
        types: &[&Ty],
        self_ident: &Ident,
    ) -> Result<Predicates, AllocError>
        ensures keys { IfOk result (λ found. spec.AreCopies self.now params.now self_ident.now.text
            (map (λ (t : Bor Ty). t.now) types.now) (spec.keys_of found)) }
        ensures read { AreNames params.now → AllByRecursion IsReadType (map (λ (t : Bor Ty). t.now) types.now) → IfOk result spec.AreRead }
    {
        match self {
            Bound::Disabled => Ok(Seq::new(alloc)),
            Bound::Auto => {
                let exceptions = exceptions_of(Trait::Copy);
                let needed = needed_predicates(
                    alloc,
                    params,
                    Trait::Copy,
                    types,
                    self_ident,
                    &exceptions,
                )?;
                Ok(needed.into_list())
            }
            Bound::All => predicates_on_params(alloc, params, Trait::Copy),
            Bound::Custom(_) => Ok(Seq::new(alloc)),
        }
    }
}

/// The predicates of a list, each once.
fn set_of(alloc: Global, predicates: &Predicates) -> Result<PredicateSet, AllocError>
    ensures keys { IfOk result (λ set. Extends [] (spec.keys_of predicates.now) (spec.keys_of set)) }
    ensures read { spec.AreRead predicates.now → IfOk result spec.AreRead }
{
    let mut set = PredicateSet::new(alloc);
    extend_where_predicates(&mut set, predicates)?;
    Ok(set)
}

/// The generics with these predicates after their own.
pub fn with_predicates(
    alloc: Global,
    generics: &Generics,
    predicates: &Predicates,
) -> Result<Generics, AllocError>
    ensures params { IfOk result (λ found. found.params ≡ generics.now.params) }
    ensures predicates { IfOk result (λ found. found.predicates ≡ generics.now.predicates ++ predicates.now) }
{
    let mut found = generics.duplicate(alloc)?;
    found.predicates.append(predicates.duplicate(alloc)?)?;
    Ok(found)
}

/// Whether the parameter is a lifetime.
fn is_lifetime(param: &GenericParam) -> bool
    ensures { result ≡ spec.is_lifetime param.now }
{
    matches!(param, GenericParam::Lifetime(_))
}

/// The parameters in the order of an impl: lifetimes first (Rust Reference, Generic parameters).
pub fn lifetimes_first(alloc: Global, params: &Params) -> Result<Params, AllocError>
    ensures { IfOk result (λ found. found ≡ spec.lifetimes_first params.now) }
{
    let mut lifetimes = Seq::new(alloc);
    let mut others = Seq::new(alloc);
    for param in params.as_slice() {
        let copy = param.duplicate(alloc)?;
        if is_lifetime(param) {
            lifetimes.push(copy)?;
        } else {
            others.push(copy)?;
        }
    }
    lifetimes.append(others)?;
    Ok(lifetimes)
}
