//! Bodies and items: the forms, the functions and items that hold them, what these are printed as,
//! and what bodies evaluate to. This crate has no code of its own: it passes on what users of bodies
//! name. The evaluator, `eval`, is in the crate `educe_body_eval`.
#![tactic(auto)]

pub use educe_body_forms::{
    ArgumentNames, Arm, Arms, Body, Comparison, Constant, Distance, EntryKey, Form, Forms, Init,
    Inits, KeyArm, KeyArms, Known, LiteralText, Names, Opening, Pattern, PatternField,
    PatternFields, Position, Shared, binding, index_binding, index_word, key_word, name_binding,
};
pub use educe_body_items::{
    CheckItem, Function, Functions, ImplItem, Item, Items, MarkerItem, spell,
};
pub use educe_body_values::{
    Answer, Answers, BuiltIn, Callee, DebugShape, Entry, FieldValue, FieldValues, Outcome, Parts,
    Row, Rows, Scope, ShapeForm, Value, built_in, built_in_path, form_laws, key_laws, scope_laws,
};
pub use educe_names::{InputWords, UsedIdents, has_word, name_laws};
