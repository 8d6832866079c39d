//! The tables (`educe_tests`, `rows.rt`): a text, and the place and the message of its rejection, or what it says.

mod alike;
mod bounds;
mod calls;
mod classes;
mod debug_fields;
mod debug_types;
mod defaults;
mod fields;
mod generated;
mod keys;
mod orders;
mod places;
mod predicates;
mod switches;
mod values;
