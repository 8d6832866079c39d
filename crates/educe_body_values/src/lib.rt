//! What bodies evaluate to, over values, names in scope and tables of what calls answer; which
//! functions paths name; and the laws of these. The evaluator is `educe_body_eval`.
#![tactic(auto)]

mod answers;
mod built_in_paths;
mod callee;
mod environment;
mod flow;
mod laws;
mod outcome;
mod plain_texts;
mod shape;
mod stage;
mod value;

pub use answers::{Answer, Answers, Row, Rows};
pub use built_in_paths::built_in_path;
pub use callee::{BuiltIn, Callee, built_in, text_of_path};
pub use environment::{ArgumentMade, Binding, Bindings, Env, Own, Referent, Scope};
pub use flow::{Flow, Thing};
pub use laws::{form_laws, key_laws, scope_laws};
pub use outcome::Outcome;
pub use shape::{DebugShape, Entry, ShapeForm};
pub use stage::Stage;
pub use value::{FieldValue, FieldValues, Parts, Value, with_values};
