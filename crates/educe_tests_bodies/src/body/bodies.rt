//! Bodies as texts, and what they evaluate to over one value and one table.
//!
//! A row of a table of bodies is a name, a definition, a body and `: ` with what it evaluates to. A body is its
//! parameters and its forms, as in `|other| answer a::b(self.a, self.b); ..`. A form is one of these:
//!
//! - `text EXPRESSION`: the tokens of an expression
//! - `build NAME(FIELD = EXPRESSION, ..)`: the variant of this name, or the struct where it has none, with these fields,
//!   which may have no names
//! - `answer PATH(ARGUMENT, ..)`: a call's answer; `not ..`, its opposite; `some ..`, the answer in `Some`; `test ..`, it
//!   is tested; `part ..`, it is fed to a hasher
//! - `assign FIELD = PATH(ARGUMENT)`: what a call makes is assigned to a field of `self`
//! - `discard NAME`: nothing is done with what a name stands for
//!
//! An argument is `self.FIELD`, the place of a variant or a name.

use crate::outcomes::lent;
use crate::values::{scope, value};
use educe_body::{
    Answer, Answers, Body, Callee, FieldValue, Form, Forms, Init, Inits, Names, Outcome, Position,
    Row, Scope, Shared, Value, index_word,
};
use educe_body_eval::eval;
use educe_syntax::{DeriveInput, ExprPath, FieldForm, Ident, parse_expr, parse_ident, parse_path};
use educe_tests::{LINE, check_at, definition, found, lexed_slice, rows_of};
use educe_tokens::{Boxed, Seq, Spelling, Word, pair};
use std::alloc::{AllocError, Global};
use std::cmp::Ordering;
use std::test::Fail;

/// The identifier that a text is.
fn ident(alloc: Global, text: &str) -> Result<Ident, Fail> {
    found(parse_ident(alloc, &lexed_slice(alloc, text)?))
}

/// The identifier that a text is; an empty one is none.
fn some_ident(alloc: Global, text: &str) -> Result<Option<Ident>, Fail> {
    if text.is_empty() {
        Ok(None)
    } else {
        Ok(Some(ident(alloc, text)?))
    }
}

/// The words of a list.
fn words(alloc: Global, list: &str) -> Result<Names, Fail> {
    let mut words = Seq::new(alloc);
    for text in list.split(", ") {
        if !text.is_empty() {
            words.push(Word::new(ident(alloc, text)?.text))?;
        }
    }
    Ok(words)
}

/// The field of `self` with this key.
fn field(alloc: Global, key: Word) -> Result<Form, AllocError> {
    let (key, base) = pair(key, Ident::from_name(alloc, "self"))?;
    Ok(Form::Reference(base, key))
}

/// The field of `self` of this name, or at this place where it has none.
fn field_named(alloc: Global, name: &str) -> Result<Form, Fail> {
    match name.parse::<usize>() {
        Ok(place) => Ok(field(alloc, index_word(alloc, place)?)?),
        Err(_) => Ok(field(alloc, Word::new(ident(alloc, name)?.text))?),
    }
}

/// The place of a variant, or a name.
fn place_or_name(alloc: Global, text: &str) -> Result<Form, Fail> {
    match text.parse::<usize>() {
        Ok(place) => Ok(Form::Position(Position { place })),
        Err(_) => Ok(Form::Local(ident(alloc, text)?)),
    }
}

/// What a call is handed.
fn argument(alloc: Global, text: &str) -> Result<Form, Fail> {
    match text.strip_prefix("self.") {
        Some(name) => field_named(alloc, name),
        None => place_or_name(alloc, text),
    }
}

/// What a call is handed, in a list.
fn arguments(alloc: Global, list: &str) -> Result<Forms, Fail> {
    let mut forms = Seq::new(alloc);
    for text in list.split(", ") {
        forms.push(argument(alloc, text)?)?;
    }
    Ok(forms)
}

/// The path that a text is.
fn path(alloc: Global, text: &str) -> Result<Shared<ExprPath>, Fail> {
    let path = found(parse_path(alloc, &lexed_slice(alloc, text)?))?;
    Ok(Shared::new(alloc, path)?)
}

/// The path of a call, and what stands in its brackets.
fn call_parts(text: &str) -> Result<(&str, &str), Fail> {
    let call = text.strip_suffix(')').ok_or(text)?;
    Ok(call.rsplit_once('(').ok_or(text)?)
}

/// The call that a text is.
fn called(alloc: Global, text: &str) -> Result<Form, Fail> {
    let (path_text, list) = call_parts(text)?;
    let path = path(alloc, path_text)?;
    Ok(Form::Call(path, arguments(alloc, list)?))
}

/// What a call makes is assigned to a field of `self`.
fn assigned(alloc: Global, text: &str) -> Result<Form, Fail> {
    let (name, call) = text.split_once(" = ").ok_or(text)?;
    let (path_text, held) = call_parts(call)?;
    let key = Word::new(ident(alloc, name)?.text);
    let path = path(alloc, path_text)?;
    let held = Boxed::new(alloc, argument(alloc, held)?)?;
    Ok(Form::AssignField(key, path, held, false))
}

/// The form that does with a call what a word says.
fn used(alloc: Global, word: &str, call: Form) -> Result<Form, Fail> {
    match word {
        "answer" => Ok(call),
        "not" => Ok(Form::Not(Boxed::new(alloc, call)?)),
        "some" => Ok(Form::SomeOf(Boxed::new(alloc, call)?)),
        "test" => Ok(Form::IfReturn(Boxed::new(alloc, call)?)),
        "part" => Ok(Form::HashPart(Boxed::new(alloc, call)?)),
        _ => Err(Fail::from(word)),
    }
}

/// The tokens of an expression.
fn pasted(alloc: Global, text: &str) -> Result<Form, Fail> {
    let value = found(parse_expr(alloc, &lexed_slice(alloc, text)?))?;
    Ok(Form::Pasted(value.written))
}

/// The key of the field of this name; an empty one is none.
fn key(alloc: Global, name: &str) -> Result<Option<Word>, Fail> {
    match some_ident(alloc, name)? {
        Some(ident) => Ok(Some(Word::new(ident.text))),
        None => Ok(None),
    }
}

/// A field, made of an expression.
fn init(alloc: Global, text: &str) -> Result<Init, Fail> {
    let (name, expression) = text.split_once(" = ").unwrap_or(("", text));
    let key = key(alloc, name)?;
    let value = pasted(alloc, expression)?;
    Ok(Init { key, value })
}

/// The fields of a list.
fn inits(alloc: Global, list: &str) -> Result<Inits, Fail> {
    let mut inits = Seq::new(alloc);
    for text in list.split(", ") {
        if !text.is_empty() {
            inits.push(init(alloc, text)?)?;
        }
    }
    Ok(inits)
}

/// A struct or a variant of fields.
fn built(alloc: Global, text: &str) -> Result<Form, Fail> {
    let (name, rest) = text.split_once('(').ok_or(text)?;
    let list = rest.strip_suffix(')').ok_or(text)?;
    let name = some_ident(alloc, name)?;
    Ok(Form::Construct(name, FieldForm::Named, inits(alloc, list)?))
}

/// The form that a text is.
fn form(alloc: Global, text: &str) -> Result<Form, Fail> {
    let (word, rest) = text.split_once(' ').ok_or(text)?;
    match word {
        "text" => pasted(alloc, rest),
        "build" => built(alloc, rest),
        "assign" => assigned(alloc, rest),
        "discard" => Ok(Form::Discard(ident(alloc, rest)?)),
        _ => used(alloc, word, called(alloc, rest)?),
    }
}

/// The forms that a text is.
fn forms(alloc: Global, text: &str) -> Result<Forms, Fail> {
    let mut forms = Seq::new(alloc);
    for part in text.split("; ") {
        if !part.is_empty() {
            forms.push(form(alloc, part)?)?;
        }
    }
    Ok(forms)
}

/// The body that a text is.
fn body(alloc: Global, text: &str) -> Result<Body, Fail> {
    let behind = text.strip_prefix('|').ok_or(text)?;
    let (params, block) = behind.split_once('|').ok_or(text)?;
    let params = words(alloc, params)?;
    let block = forms(alloc, block.strip_prefix(' ').unwrap_or(block))?;
    Ok(Body { params, block })
}

/// The first field of the value.
const FIVE: FieldValue = FieldValue { ty: 0, number: 5 };

/// The second field of the value, and what the text `7` makes.
const SEVEN: FieldValue = FieldValue { ty: 0, number: 7 };

/// What the text `b` makes, and the function `made` of the second field.
const EIGHT: FieldValue = FieldValue { ty: 0, number: 8 };

/// What the text of the call of `Default::default` makes.
const THREE: FieldValue = FieldValue { ty: 0, number: 3 };

/// The texts of functions, and what each answers on the two fields.
static FUNCTIONS: [(&str, Answer); 7] = [
    ("a :: b", Answer::Truth(true)),
    ("a ::< other >:: c", Answer::Truth(true)),
    ("order", Answer::Order(Ordering::Less)),
    ("partial", Answer::PartialOrder(None)),
    ("other", Answer::Truth(true)),
    ("r#other", Answer::Truth(true)),
    ("self :: other_", Answer::Truth(true)),
];

/// The texts of expressions, and what each makes.
static EXPRESSIONS: [(&str, FieldValue); 3] = [
    (
        "< u8 as :: core :: default :: Default >:: default ( )",
        THREE,
    ),
    ("7", SEVEN),
    ("b", EIGHT),
];

/// What a text answers, as a row of a table.
fn row(
    alloc: Global,
    text: &str,
    first: Option<FieldValue>,
    second: Option<FieldValue>,
    answer: Answer,
) -> Result<Row, AllocError> {
    let callee = Callee::Written(Spelling::from_str(alloc, text)?);
    Ok(Row {
        callee,
        first,
        second,
        answer,
    })
}

/// The table: numbers are compared by functions that are built in.
fn answers(alloc: Global) -> Result<Answers, AllocError> {
    let mut rows = Seq::new(alloc);
    for (text, answer) in &FUNCTIONS {
        rows.push(row(alloc, text, Some(FIVE), Some(SEVEN), *answer)?)?;
    }
    for (text, made) in &EXPRESSIONS {
        rows.push(row(alloc, text, None, None, Answer::Made(*made))?)?;
    }
    let made = Answer::Made(EIGHT);
    rows.push(row(alloc, "made", Some(SEVEN), None, made)?)?;
    let by_number = true;
    Ok(Answers { rows, by_number })
}

/// A definition with a value of `self` alone.
fn scope_of<'a>(ast: &'a DeriveInput, this: &'a Value) -> Scope<'a> {
    scope(ast, this, None)
}

/// What a body evaluates to over a value of the two fields.
fn evaluated(
    alloc: Global,
    ast: &DeriveInput,
    body: &Body,
    answers: &Answers,
) -> Result<Outcome, Fail> {
    let this = value(alloc, &[5, 7])?;
    Ok(eval(alloc, body, &scope_of(ast, &this), answers)?)
}

/// What a body evaluates to in a definition.
fn outcome(alloc: Global, answers: &Answers, source: &str, text: &str) -> Result<Outcome, Fail> {
    let body = body(alloc, text)?;
    evaluated(alloc, &definition(alloc, source)?, &body, answers)
}

/// The text of an outcome. None here is what `fmt` shows.
fn outcome_text(alloc: Global, outcome: &Outcome) -> Result<String, Fail> {
    let seen = lent(outcome).ok_or("what `fmt` shows")?;
    Ok(format!(in alloc; "{seen:?}")?)
}

/// What the body of a row evaluates to.
fn check(alloc: Global, answers: &Answers, row: &str) -> Result<(), Fail> {
    let (front, expected) = row.split_once(LINE).ok_or(row)?;
    let (name, rest) = front.split_once('\n').ok_or(row)?;
    let (source, text) = rest.split_once('\n').ok_or(row)?;
    let found = outcome_text(alloc, &outcome(alloc, answers, source, text)?)?;
    check_at(name, found.as_str(), expected)
}

/// What the body of each row evaluates to over one table.
fn check_each(alloc: Global, answers: &Answers, table: &str) -> Result<(), Fail> {
    for row in rows_of(table)?.split("\n\n") {
        check(alloc, answers, row)?;
    }
    Ok(())
}

/// What the body of each row evaluates to.
pub fn check_bodies(alloc: Global, table: &str) -> Result<(), Fail> {
    check_each(alloc, &answers(alloc)?, table)
}
