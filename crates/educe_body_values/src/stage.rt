//! What forms are evaluated over.
ghost use Rattle.std.specs.Prelude.{◌≡◌};
ghost use Rattle.educe_body_values.specs.Meaning.{for_field, scene_at};

use crate::answers::Answers;
use crate::environment::Scope;
use educe_tree::Field;

/// What forms are evaluated over: a scope, a table, and in an initializer its field.
#[derive(Drop)]
pub struct Stage<'a> {
    pub scope: &'a Scope<'a>,
    pub answers: &'a Answers,
    pub field: Option<&'a Field>,
}

impl<'a> Stage<'a> {
    /// The stage in which the initializer of a field is evaluated.
    pub fn for_field(&self, field: &'a Field) -> Stage<'a>
        ensures { scene_at result ≡ for_field (scene_at self.now) field.entry.now }
    {
        Stage {
            scope: self.scope,
            answers: self.answers,
            field: Some(field),
        }
    }
}
