//! What a body is evaluated over: values, and names that stand for them.
ghost use Rattle.std.specs.Prelude.{◌≡◌, [], ◌∷◌, ◌++◌, length, take, OnOk};

use crate::shape::DebugShape;
use crate::value::{FieldValue, Parts, Value};
use educe_discriminants::Number;
use educe_tokens::{Seq, Spelling};
use educe_tree::DeriveInput;
use std::alloc::{AllocError, Global};
use std::marker::Model;

/// What a body is evaluated over: the definition, and the values of `self` and of the parameter.
#[derive(Drop)]
pub struct Scope<'a> {
    pub ast: &'a DeriveInput,
    pub this: Option<&'a Value>,
    pub other: Option<&'a Value>,
}

/// What a name stands for.
#[derive(Clone, Copy)]
pub enum Referent {
    /// The value of `self`.
    This,
    /// The value of the parameter; where it has none, it may be a formatter.
    Other,
    /// The field at a place of the value of `self`, which a pattern binds.
    OwnField(usize),
    /// A field of the value of the parameter, which a pattern binds.
    Bound(FieldValue),
    /// A key function, by its numbers for the value of `self` and for that of the parameter.
    Keys(Option<Number>, Option<Number>),
    /// The builder of what is shown.
    BuilderName,
    /// The helper type that stands for the type of the keys of a map.
    Helper,
    /// An argument, by its place among those that were made.
    Argument(usize),
    /// What has no value of its own: the parameter of a key function, a hasher and its type.
    Inert,
}

/// A name and what it stands for.
#[derive(Drop)]
pub struct Binding {
    pub name: Spelling,
    pub referent: Referent,
}

/// Bindings, the innermost last. A contract sees them as a list.
#[derive(Drop)]
pub struct Bindings {
    items: Vec<Binding>,
}

impl Model for Bindings {
    ghost use Rattle.std.specs.Prelude.{List};
    ghost use Rattle.educe_body_values.specs.declared.environment.Binding.{Binding};

    ghost Value = { List Binding };

    ghost view = { λ names. names.items.items };
}

impl Bindings {
    /// An empty list of bindings. It takes no memory.
    pub fn new(alloc: Global) -> Bindings
        ensures { result ≡ [] }
    {
        Bindings {
            items: Vec::new(alloc),
        }
    }

    /// How many bindings there are.
    pub fn len(&self) -> usize
        ensures { result ≡ length self.now }
    {
        self.items.len()
    }

    /// The bindings, as a slice.
    pub fn as_slice(&self) -> &[Binding]
        ensures { result.now ≡ self.now }
    {
        self.items.as_slice()
    }

    /// Adds the innermost binding.
    pub fn push(&mut self, binding: Binding) -> Result<(), AllocError>
        ensures { OnOk result (self.new ≡ self.old ++ binding ∷ []) }
    {
        self.items.push(binding)?;
        Ok(())
    }

    /// Keeps so many bindings from the front.
    pub fn truncate(&mut self, count: usize)
        ensures { self.new ≡ take count self.old }
    {
        self.items.truncate(count);
    }
}

/// What `self` is.
#[derive(Drop)]
pub enum Own {
    /// A value whose fields are known.
    Value(Value),
    /// What a call made of a whole value.
    Whole(FieldValue),
}

/// An argument whose `Debug` calls a method on a field: the text of the method, and the value of the
/// field.
#[derive(Drop)]
pub struct ArgumentMade {
    pub method: Spelling,
    pub value: FieldValue,
}

/// What changes as forms are evaluated: the names in scope, what was fed to a hasher, what `self` is,
/// where there is one, what is shown, where something is, and the arguments that were made, in order.
#[derive(Drop)]
pub struct Env {
    pub names: Bindings,
    pub parts: Parts,
    pub own: Option<Own>,
    pub shown: Option<DebugShape>,
    pub arguments: Seq<ArgumentMade>,
}
