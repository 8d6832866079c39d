//! The forms that bodies are made of.
use crate::key_function::KeyArms;
use crate::literal_text::LiteralText;
use crate::pattern::Pattern;
use crate::position::Position;
use crate::shared::Shared;
use crate::shown::{ArgumentNames, EntryKey, Opening};
use educe_discriminants::DiscriminantType;
use educe_tokens::{Boxed, Seq, Word, Written};
use educe_tree::{ExprPath, FieldForm, Ident};
use std::cmp::Ordering;

/// An answer that a body names itself.
#[derive(Clone, Copy, Debug, PartialEq, Eq)]
pub enum Known {
    Truth(bool),
    Order(Ordering),
    PartialOrder(Option<Ordering>),
}

/// One form of a body.
#[cycle(form)]
#[derive(Drop)]
pub enum Form {
    /// A name.
    Local(Ident),
    /// `true`, `::core::cmp::Ordering::Less`, `::core::option::Option::None` and the like.
    Known(Known),
    /// `&base.field`
    Reference(Ident, Word),
    /// `&{ base.field }`: a reference to a copy of the field, which a packed struct needs (Rust
    /// Reference, The alignment modifiers).
    BracedCopy(Ident, Word),
    /// `&function(value)`: a call of a key function.
    Key(Ident, Ident),
    /// The path of a function, which calls of the same function share, and its arguments.
    Call(Shared<ExprPath>, Forms),
    /// `!x`
    Not(Boxed<Form>),
    /// `::core::option::Option::Some(x)`
    SomeOf(Boxed<Form>),
    /// `if x { return false; }`
    IfReturn(Boxed<Form>),
    /// `return x;`
    Return(Boxed<Form>),
    /// A `match` on an order. Without a block it is a step: `Equal` goes on, and the other arms
    /// return. With a block, the arm for `Equal` is that block, and each other arm gives its order.
    /// With true the function is that of `PartialOrd`: orders that are given or returned stand in
    /// `Some`, and in a step those that are matched do too, and `None` is returned. The orders are
    /// those of the arms for `Greater` and `Less`.
    MatchOrdering(Boxed<Form>, bool, Option<Forms>, Ordering, Ordering),
    /// `match name { arms }`
    MatchValue(Ident, Arms),
    /// `if let pattern = name { forms }`, and where there are others `else { forms }`.
    IfLet(Pattern, Ident, Forms, Option<Forms>),
    /// `let function = |this: &Self| -> D { match this { keys } };`: the name of the function, that of
    /// its parameter, and the type of its results.
    KeyFunction(Ident, Ident, DiscriminantType, KeyArms),
    /// `{ forms }`
    Block(Forms),
    /// `x;`: a call that feeds a hasher.
    HashPart(Boxed<Form>),
    /// `&3usize`: the place of a variant.
    Position(Position),
    /// `Self` or `Self::V` with its fields: `{ a: v, }`, `( v, )`, or none (Rust Reference, Struct
    /// expressions).
    Construct(Option<Ident>, FieldForm, Inits),
    /// The tokens of a default value: an expression as it was written or as it is converted, or a call of
    /// `Default::default`.
    Pasted(Written),
    /// `*self`
    WholeCopy,
    /// `::core::unreachable!()`
    Unreachable,
    /// `let _ = name;`
    Discard(Ident),
    /// `self.field = path(x);`, or where the truth value holds `path(&mut self.field, x);`
    AssignField(Word, Shared<ExprPath>, Boxed<Form>, bool),
    /// `*name = path(x);`, or where the truth value holds `path(name, x);`: the name is `self`, or a
    /// variable that a pattern binds to a field of it.
    AssignThrough(Ident, Shared<ExprPath>, Boxed<Form>, bool),
    /// `f.write_str("N")`: the formatter, and the text.
    WriteText(Ident, LiteralText),
    /// `struct Helper(&'static ::core::primitive::str);` and its `Debug`, which writes the text: the name
    /// of the type, and that of the formatter in its `fmt`.
    HelperType(Ident, Ident),
    /// `let mut builder = f.debug_struct("N");` and the like: the name of the builder, and the formatter.
    Builder(Ident, Ident, Opening),
    /// `builder.field("key", x);` and the like; where the truth value holds, `&x` stands in place of `x`.
    BuilderEntry(Ident, EntryKey, Boxed<Form>, bool),
    /// `let argument = { struct W.. impl.. W(x, |..| path(..)) };`: a value whose `Debug` calls a method
    /// on `x`, with the names in it, the type of `x` as it was written, and the path of the method.
    MethodArgument(Shared<ArgumentNames>, Boxed<Form>, Written, Shared<ExprPath>),
    /// `builder.finish()`
    Finish(Ident),
}

/// Forms in their order.
pub type Forms = Seq<Form>;

/// An arm of a `match` on a value: `pattern => { forms }`. A block without braces is one expression.
#[cycle(form)]
#[derive(Drop)]
pub struct Arm {
    pub pattern: Pattern,
    /// Whether braces stand around the block.
    pub braced: bool,
    /// Whether a comma stands behind the block.
    pub comma: bool,
    pub block: Forms,
}

/// Arms in their order.
pub type Arms = Seq<Arm>;

/// A field of a value that is built: `key: value,`, or where the field has no name `value,`.
#[cycle(form)]
#[derive(Drop)]
pub struct Init {
    pub key: Option<Word>,
    pub value: Form,
}

/// Fields of a value that is built, in their order.
pub type Inits = Seq<Init>;
