//! The table that says what calls answer.
ghost use Rattle.std.specs.Prelude.{◌≡◌, IfOk};
ghost use Rattle.educe_body_values.specs.Answering.{answer_of, row_fits, by_number_answer};

use crate::callee::Callee;
use crate::value::FieldValue;
use educe_tokens::Seq;
use std::alloc::{AllocError, Global};
use std::cmp::Ordering;

/// What a call answers.
#[derive(Clone, Copy, Debug, PartialEq, Eq)]
pub enum Answer {
    Truth(bool),
    Order(Ordering),
    PartialOrder(Option<Ordering>),
    /// The number of an expression.
    Number(i128),
    /// What a value feeds to a hasher.
    Part(i128),
    /// A value that is made.
    Made(FieldValue),
}

/// What a call of these arguments answers.
#[derive(Drop)]
pub struct Row {
    pub callee: Callee,
    pub first: Option<FieldValue>,
    pub second: Option<FieldValue>,
    pub answer: Answer,
}

impl Row {
    /// A copy of the row.
    pub fn duplicate(&self, alloc: Global) -> Result<Row, AllocError>
        ensures { IfOk result (λ row. row ≡ self.now) }
    {
        let callee = self.callee.duplicate(alloc)?;
        Ok(Row {
            callee,
            first: self.first,
            second: self.second,
            answer: self.answer,
        })
    }
}

/// Rows in their order.
pub type Rows = Seq<Row>;

/// A table of answers. Where no row fits, `by_number` has the numbers of two values of one type
/// compared, or that of one value fed to a hasher, by a function that is built in.
#[derive(Drop)]
pub struct Answers {
    pub rows: Rows,
    pub by_number: bool,
}

impl Answers {
    /// The answer of the first row with these three; without one, where the table answers by
    /// number, the comparison of the numbers of two values of one type, and what `Hash::hash` feeds of
    /// one value, its number.
    pub fn answer(
        &self,
        callee: &Callee,
        first: Option<FieldValue>,
        second: Option<FieldValue>,
    ) -> Option<Answer>
        ensures { result ≡ answer_of self.now callee.now first second }
    {
        for row in self.rows.as_slice() {
            if fits(row, callee, first, second) {
                return Some(row.answer);
            }
        }
        if self.by_number {
            by_number(callee, first, second)
        } else {
            None
        }
    }
}

fn fits(row: &Row, callee: &Callee, first: Option<FieldValue>, second: Option<FieldValue>) -> bool
    ensures { result ≡ row_fits row.now callee.now first second }
{
    row.callee.is(callee) && row.first == first && row.second == second
}

fn by_number(
    callee: &Callee,
    first: Option<FieldValue>,
    second: Option<FieldValue>,
) -> Option<Answer>
    ensures { result ≡ by_number_answer callee.now first second }
{
    match (first, second) {
        (Some(x), Some(y)) => {
            if x.ty != y.ty {
                return None;
            }
            match callee {
                Callee::Ne => Some(Answer::Truth(x.number != y.number)),
                Callee::Cmp => Some(Answer::Order(x.number.cmp(&y.number))),
                Callee::PartialCmp => Some(Answer::PartialOrder(Some(x.number.cmp(&y.number)))),
                _ => None,
            }
        }
        (Some(x), None) => match callee {
            Callee::Hash => Some(Answer::Part(x.number)),
            _ => None,
        },
        _ => None,
    }
}
