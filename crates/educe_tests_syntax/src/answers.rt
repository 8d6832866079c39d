//! What is answered to the texts of tables.

use crate::parser::{Call, answer_text, calls, limits, parts};
use crate::tree;
use educe_tests::check_rows;
use std::alloc::Global;
use std::test::Fail;

/// What is asked of a text.
#[derive(Clone, Copy)]
pub(crate) enum Asked {
    /// Which answer it gets as a definition.
    Definition,
    /// Where a call rejects it, behind a text that the call reads.
    Pair(Call),
    /// Which answers it gets at a limit, and past it.
    Limit,
    /// Where a call rejects it past a limit.
    LimitOfCall,
    /// Where it is rejected as a definition, and the words.
    Refusal,
    /// The form of the type of its first field, and the text of this, by a copy.
    FormOfCopy,
    TextOfCopy,
    IsName,
    Unraw,
    /// The name of the definition, without the mark.
    NameUnraw,
}

/// What is answered to a text.
fn answer(alloc: Global, asked: Asked, text: &str) -> Result<String, Fail> {
    match asked {
        Asked::Definition => answer_text(alloc, text),
        Asked::Pair(call) => parts::refused_beside(alloc, call, text),
        Asked::Limit => limits::answers(alloc, text),
        Asked::LimitOfCall => limits::refused_at(alloc, text),
        Asked::Refusal => calls::definition_refused(alloc, text),
        Asked::FormOfCopy => tree::form_of_copy(alloc, text),
        Asked::TextOfCopy => tree::text_of_copy(alloc, text),
        Asked::IsName => tree::is_name_text(alloc, text),
        Asked::Unraw => tree::unmarked(alloc, text),
        Asked::NameUnraw => tree::unmarked_name(alloc, text),
    }
}

/// What is answered to each text of a table.
pub(crate) fn check(alloc: Global, asked: Asked, table: &str) -> Result<(), Fail> {
    check_rows(alloc, |alloc, text| answer(alloc, asked, text), table)
}

/// Which answer each text of a table gets as a definition.
pub(crate) fn check_definitions(alloc: Global, table: &str) -> Result<(), Fail> {
    check(alloc, Asked::Definition, table)
}
