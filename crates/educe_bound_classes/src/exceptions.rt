//! Types for which a trait asks nothing, and types that forward to their arguments what is asked.
ghost use Rattle.std.specs.Prelude.{◌≡◌, IfOk, IfSome, IfNone, Some, None, chars};
ghost use Rattle.std.specs.List.{list_any};
ghost use Rattle.std.specs.Option.{option_copied};
ghost use Rattle.std.specs.Str.{bytes_eq};
ghost use Rattle.educe_bound_classes.specs.Asked.{types_of};
ghost use Rattle.educe_bound_classes.specs.Classes as spec;
ghost use Rattle.educe_bound_classes.specs.Names.{params_of};
ghost use Rattle.educe_bound_classes.specs.Texts.{texts_of};

use crate::arguments::{args_types, has_angle, type_count};
use crate::params::Names;
use crate::paths::begins_with_type_param;
use educe_tokens::Spelling;
use educe_tree::{Params, Path, Segment, Ty, TypeForm, is_spelled};
use std::alloc::{AllocError, Global};
use std::marker::Model;

/// The names of types that a trait treats specially (documentation of the crate `educe`, Bounds).
#[derive(Drop)]
pub struct BoundExceptions {
    /// The types for which the trait asks nothing.
    pub unconditional_types: &'static [&'static str],
    /// The types that forward to their arguments what the trait asks.
    pub forwarding_types: &'static [&'static str],
    /// Whether the trait asks nothing for `&T`, whatever `T` is.
    pub shared_reference_is_unconditional: bool,
}

impl Model for BoundExceptions {
    ghost use Rattle.educe_bound_classes.specs.Exceptions.{Exceptions};
    ghost use Rattle.educe_bound_classes.specs.Texts.{texts_of};

    ghost Value = { Exceptions };

    ghost view = { λ exceptions. record {
      unconditional = texts_of exceptions.unconditional_types.now;
      forwarding = texts_of exceptions.forwarding_types.now;
      shared_references = exceptions.shared_reference_is_unconditional;
    } };
}

/// Whether one of the names spells the text.
fn is_spelled_by(names: &[&str], text: &Spelling) -> bool
    ensures { result ≡ list_any (λ name. bytes_eq (chars name.now) text.now) names.now }
{
    names.iter().any(|name| is_spelled(text, name))
}

/// Whether the text is one of the names.
fn is_one_of(names: &[&str], text: &Spelling) -> bool
    ensures { result ≡ spec.is_one_of (texts_of names.now) text.now }
{
    is_spelled_by(names, text)
}

/// Whether the segment is `HashMap` with more than two types, or `HashSet` with more than one.
#[tactic(auto, using(crate::proofs::ClassLaws::chars_HashMap, crate::proofs::ClassLaws::chars_HashSet))]
fn is_overfull(segment: &Segment) -> bool
    ensures { result ≡ spec.is_overfull segment.now }
{
    is_spelled(&segment.ident.text, "HashMap") && type_count(&segment.args) > 2
        || is_spelled(&segment.ident.text, "HashSet") && type_count(&segment.args) > 1
}

/// The last segment of a path.
fn last_segment(path: &Path) -> Option<&Segment>
    ensures { option_copied result ≡ spec.last_segment path.now }
{
    path.segments.as_slice().last()
}

/// Whether the path matches one of the names.
fn matches(names: Names<'_, '_>, texts: &[&str], path: &Path) -> bool
    ensures { result ≡ spec.matches (params_of names.entry) (texts_of texts.now) path.now }
{
    if begins_with_type_param(names, path) {
        return false;
    }
    match last_segment(path) {
        Some(last) => !is_overfull(last) && is_one_of(texts, &last.ident.text),
        None => false,
    }
}

/// Whether the last segment of the path has this name.
fn ends_with(path: &Path, name: &str) -> bool
    ensures { result ≡ spec.is_named_at (chars name.now) (spec.last_segment path.now) }
{
    match last_segment(path) {
        Some(last) => is_spelled(&last.ident.text, name),
        None => false,
    }
}

impl BoundExceptions {
    /// Whether the path is of a type for which nothing is asked.
    #[tactic(auto, using(crate::proofs::ClassLaws::chars_PhantomData))]
    pub(crate) fn is_unconditional_path(&self, path: &Path, names: Names<'_, '_>) -> bool
        ensures { result ≡ spec.is_unconditional_path (params_of names.entry) self.now path.now }
    {
        !begins_with_type_param(names, path) && ends_with(path, "PhantomData")
            || matches(names, self.unconditional_types, path)
    }

    /// Whether nothing is asked for the type, whatever its arguments are (documentation of the
    /// crate `educe`, Bounds).
    pub fn type_is_unconditional(&self, ty: &Ty, params: &Params) -> bool
        ensures { result ≡ spec.is_unconditional params.now self.now ty.now }
    {
        self.is_unconditional(ty, Names::Listed(params))
    }

    /// Whether nothing is asked for the type, whatever its arguments are.
    #[tactic(auto, using(crate::proofs::ClassLaws::class_laws))]
    pub(crate) fn is_unconditional(&self, ty: &Ty, names: Names<'_, '_>) -> bool
        ensures { result ≡ spec.is_unconditional (params_of names.entry) self.now ty.now }
    {
        match &ty.form {
            TypeForm::Pointer(_) => true,
            TypeForm::FnPtr(_, _) => true,
            TypeForm::Reference(mutable, _) => !*mutable && self.shared_reference_is_unconditional,
            TypeForm::Path(self_type, path) => {
                self_type.is_none() && self.is_unconditional_path(path, names)
            }
            _ => false,
        }
    }

    /// Whether the type forwards to its arguments what is asked.
    #[tactic(auto, using(crate::proofs::ClassLaws::class_laws))]
    pub(crate) fn is_forwarding(&self, ty: &Ty, names: Names<'_, '_>) -> bool
        ensures { result ≡ spec.is_forwarding (params_of names.entry) self.now ty.now }
    {
        match &ty.form {
            TypeForm::Path(self_type, path) => self_type.is_none() && self.forwards(path, names),
            _ => false,
        }
    }

    /// The types among the arguments to which the type forwards what is asked, whether it uses
    /// parameters or not. None where it is no path with one of the names and an angle list
    /// (documentation of the crate `educe`, Bounds).
    pub fn forwarding_type_arguments<'a>(
        &self,
        alloc: Global,
        ty: &'a Ty,
        params: &Params,
    ) -> Result<Option<Vec<&'a Ty>>, AllocError>
        ensures some { IfOk result (λ found. IfSome found
            (λ parts. spec.parts_of params.now self.now ty.now ≡ Some (types_of parts.items))) }
        ensures none { IfOk result (λ found. IfNone found (spec.parts_of params.now self.now ty.now ≡ None)) }
    {
        if !self.is_forwarding(ty, Names::Listed(params)) {
            return Ok(None);
        }
        let parts = types_behind(alloc, ty)?;
        Ok(Some(parts))
    }

    /// Whether the path forwards to its arguments what is asked.
    fn forwards(&self, path: &Path, names: Names<'_, '_>) -> bool
        ensures { result ≡ spec.forwards (params_of names.entry) self.now path.now }
    {
        matches(names, self.forwarding_types, path) && ends_with_angle(path)
    }
}

/// Whether the last segment of the path has an angle list.
fn ends_with_angle(path: &Path) -> bool
    ensures { result ≡ spec.has_angle (spec.args_at (spec.last_segment path.now)) }
{
    match last_segment(path) {
        Some(last) => has_angle(&last.args),
        None => false,
    }
}

/// The types among the arguments of the last segment of the path that the type is.
fn types_behind<'a>(alloc: Global, ty: &'a Ty) -> Result<Vec<&'a Ty>, AllocError>
    ensures { IfOk result (λ types. types_of types.items ≡ spec.types_behind ty.now.form) }
{
    match &ty.form {
        TypeForm::Path(_, path) => last_types(alloc, path),
        _ => Ok(Vec::new(alloc)),
    }
}

/// The types among the arguments of the last segment.
fn last_types<'a>(alloc: Global, path: &'a Path) -> Result<Vec<&'a Ty>, AllocError>
    ensures { IfOk result (λ types. types_of types.items ≡ spec.last_types path.now) }
{
    match path.segments.as_slice().last() {
        Some(last) => args_types(alloc, &last.args),
        None => Ok(Vec::new(alloc)),
    }
}
