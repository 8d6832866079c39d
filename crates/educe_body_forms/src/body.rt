//! The bodies of functions.
use crate::form::Forms;
use educe_tokens::Names;

/// The parameters of a function behind `self`, and its forms.
#[derive(Drop)]
pub struct Body {
    pub params: Names,
    pub block: Forms,
}
