//! The replacement of `Self` by the name of the definition.
ghost use Rattle.std.specs.Prelude.{◌≡◌, IsTrue, IfOk};
ghost use Rattle.std.specs.List.{AllByRecursion, AllZip};
ghost use Rattle.educe_tokens.specs.Appends.{LieNowhere};
ghost use Rattle.educe_tokens.specs.Copied.{may_be_copied};
ghost use Rattle.educe_tokens.specs.Lexes.{lexemes};
ghost use Rattle.educe_grammar.specs.Readings.{AreNamed, IsReadType, IsReadPath, IsReadParam, IsReadPredicate, AreReadGenerics};
ghost use Rattle.educe_syntax_self.specs.Heads.{IsHead, head_for};
ghost use Rattle.educe_syntax_self.specs.Splicing as spec;
ghost use Rattle.educe_syntax_self.specs.Visits.{IsVisitedType, IsVisitedPath, IsVisitedParam, IsVisitedPredicate, AreVisitedGenerics};

use crate::again::{path_again, type_again};
use crate::head::push_head;
use crate::notes::{param_notes, path_notes, predicate_notes, type_notes};
use crate::splice::spliced;
use educe_grammar::SelfPath;
use educe_tokens::{Seq, Token, TokenSlice, TokenStream, Written};
use educe_tree::{
    AsWritten, ConstParam, DeriveInput, Duplicate, ExprPath, GenericParam, Generics, LifetimeParam,
    Params, Predicates, Ty, TypeParam, WherePredicate,
};
use std::alloc::{AllocError, Global};

/// The head that replaces `Self`: the name of a definition, with its parameters as arguments.
#[derive(Drop)]
pub struct ReplaceSelf {
    pub head: Seq<Token>,
    pub ghost is_head: { IsHead head },
}

impl ReplaceSelf {
    /// The head of a definition: its name and `::<` its parameters `>`, or the name alone where
    /// there are no parameters.
    pub fn new(alloc: Global, ast: &DeriveInput) -> Result<ReplaceSelf, AllocError>
        requires { AreNamed ast.now }
        ensures head { IfOk result (λ replace. lexemes replace.head ≡ head_for ast.now) }
        ensures nowhere { IfOk result (λ replace. LieNowhere replace.head) }
    {
        let mut head = TokenStream::new(alloc);
        push_head(alloc, &mut head, &ast.ident, ast.generics.params.as_slice())?;
        let head = head.into_tokens(alloc)?;
        Ok(ReplaceSelf { head })
    }

    /// The tokens, with the head in place of each `Self` that was noted. Where nothing was noted, no
    /// token is copied.
    fn visit_written(
        &self,
        alloc: Global,
        written: &Written,
        notes: &[SelfPath],
    ) -> Result<Written, AllocError>
        requires { IsTrue (may_be_copied (lexemes (spec.spliced self.now.head written.now.tokens notes.now))) }
        ensures { IfOk result (λ found. found.tokens ≡ spec.spliced self.now.head written.now.tokens notes.now) }
    {
        if notes.is_empty() {
            let same = written.duplicate()?;
            return Ok(same);
        }
        let found = spliced(
            alloc,
            self.head.as_slice(),
            written.tokens().as_slice(),
            notes,
        )?;
        Ok(Written::new(TokenSlice::new(alloc, found)?))
    }

    /// The type with the name of the definition in place of each `Self` that a path begins with.
    pub fn visit_type(&self, alloc: Global, ty: &Ty) -> Result<Ty, AllocError>
        requires { IsReadType ty.now }
        ensures { IfOk result (IsVisitedType self.now.head ty.now) }
    {
        let notes = type_notes(alloc, ty.written.tokens())?;
        let written = self.visit_written(alloc, &ty.written, notes.as_slice())?;
        let found = type_again(alloc, written.tokens())?;
        Ok(found)
    }

    /// The path with the name of the definition in place of each `Self` that a path begins with.
    pub fn visit_path(&self, alloc: Global, path: &ExprPath) -> Result<ExprPath, AllocError>
        requires { IsReadPath path.now }
        ensures { IfOk result (IsVisitedPath self.now.head path.now) }
    {
        let notes = path_notes(alloc, path.written.tokens())?;
        let written = self.visit_written(alloc, &path.written, notes.as_slice())?;
        let found = path_again(alloc, written.tokens())?;
        Ok(found)
    }

    /// The parameter with the name of the definition in place of each `Self` that a path begins with.
    fn visit_param(&self, alloc: Global, param: &GenericParam) -> Result<GenericParam, AllocError>
        requires { IsReadParam param.now }
        ensures { IfOk result (IsVisitedParam self.now.head param.now) }
    {
        let notes = param_notes(alloc, param.written().tokens())?;
        let written = self.visit_written(alloc, param.written(), notes.as_slice())?;
        let found = match param {
            GenericParam::Lifetime(param) => {
                let lifetime = param.lifetime.duplicate(alloc)?;
                GenericParam::Lifetime(LifetimeParam { lifetime, written })
            }
            GenericParam::TypeParam(param) => {
                let ident = param.ident.duplicate(alloc)?;
                GenericParam::TypeParam(TypeParam { ident, written })
            }
            GenericParam::Const(param) => {
                let ident = param.ident.duplicate(alloc)?;
                GenericParam::Const(ConstParam { ident, written })
            }
        };
        Ok(found)
    }

    /// The predicate with the name of the definition in place of each `Self` that a path begins with.
    fn visit_predicate(
        &self,
        alloc: Global,
        predicate: &WherePredicate,
    ) -> Result<WherePredicate, AllocError>
        requires { IsReadPredicate predicate.now }
        ensures { IfOk result (IsVisitedPredicate self.now.head predicate.now) }
    {
        let notes = predicate_notes(alloc, predicate.written.tokens())?;
        let written = self.visit_written(alloc, &predicate.written, notes.as_slice())?;
        Ok(WherePredicate { written })
    }

    /// The parameters, each with the name of the definition in place of each `Self`.
    fn visit_params(&self, alloc: Global, params: &[GenericParam]) -> Result<Params, AllocError>
        requires { AllByRecursion IsReadParam params.now }
        ensures { IfOk result (λ found. AllZip (IsVisitedParam self.now.head) params.now found) }
    {
        let mut found = Seq::new(alloc);
        for param in params {
            found.push(self.visit_param(alloc, param)?)?;
        }
        Ok(found)
    }

    /// The predicates, each with the name of the definition in place of each `Self`.
    fn visit_predicates(
        &self,
        alloc: Global,
        predicates: &[WherePredicate],
    ) -> Result<Predicates, AllocError>
        requires { AllByRecursion IsReadPredicate predicates.now }
        ensures { IfOk result (λ found. AllZip (IsVisitedPredicate self.now.head) predicates.now found) }
    {
        let mut found = Seq::new(alloc);
        for predicate in predicates {
            found.push(self.visit_predicate(alloc, predicate)?)?;
        }
        Ok(found)
    }

    /// The parameters, without their defaults, and the predicates, each with the name of the
    /// definition in place of each `Self` that a path begins with.
    pub fn visit_generics(&self, alloc: Global, generics: &Generics) -> Result<Generics, AllocError>
        requires { AreReadGenerics generics.now }
        ensures { IfOk result (AreVisitedGenerics self.now.head generics.now) }
    {
        let params = self.visit_params(alloc, generics.params.as_slice())?;
        let predicates = self.visit_predicates(alloc, generics.predicates.as_slice())?;
        Ok(Generics { params, predicates })
    }
}
