//! A realistic definition with all nine traits: how many items it is expanded to, the headers of its impls,
//! which are read back, and parts of the items.

use crate::tables::expansion;
use educe_syntax::{Predicates, parse_path, parse_predicates, text_of_tree};
use educe_tests::{check_at, check_rows, found, lexed_slice, printed};
use std::alloc::Global;
use std::test::Fail;

/// The definition.
const SHAPE: &str = r#"
/// A shape of the plane.
#[derive(Educe)]
#[educe(Debug, Clone, Copy, PartialEq, Eq, PartialOrd, Ord, Hash, Default)]
#[allow(dead_code)]
#[repr(u8)]
pub enum Shape<T> {
    /// No shape.
    #[educe(Default)]
    None,
    Dot(T, T),
    Line { from: (T, T), to: (T, T) },
    Circle { center: (T, T), radius: T } = 10,
    Square(T),
    Rect { w: T, h: T },
    Ring(T, T),
    Arc {
        start: i32,
        end: i32,
        #[educe(PartialEq(ignore), PartialOrd(ignore), Hash(ignore))]
        label: &'static str,
    },
    Star(u8),
    Text(#[educe(Debug(ignore))] &'static str),
    Group(u32, u32),
    Other,
}
"#;

/// What stands in front of the header of each of its impls.
const FRONT: &str = "# [ automatically_derived ] # [ allow ( dead_code ) ] impl < T > ";

/// The header of the impl of a trait in a text, without the parameters, which stand in front.
fn header<'a>(text: &'a str, name: &str) -> Option<&'a str> {
    for line in text.split('\n') {
        if let Some(item) = line.strip_prefix(FRONT) {
            let (header, _) = item.split_once(" { ")?;
            let (path, _) = header.split_once(" for ")?;
            if path.ends_with(name) {
                return Some(header);
            }
        }
    }
    None
}

/// The path that a text is, printed.
fn path_text(alloc: Global, text: &str) -> Result<String, Fail> {
    let path = found(parse_path(alloc, &lexed_slice(alloc, text)?))?;
    Ok(printed(alloc, path)?)
}

/// The predicates that a text is.
fn predicates(alloc: Global, text: &str) -> Result<Predicates, Fail> {
    found(parse_predicates(alloc, &lexed_slice(alloc, text)?))
}

/// The predicates that a text is, printed as a where clause.
fn clause_text(alloc: Global, text: &str) -> Result<String, Fail> {
    let mut clause = String::new(alloc);
    let mut between = " where ";
    for predicate in predicates(alloc, text)?.as_slice() {
        let predicate = text_of_tree(alloc, predicate)?;
        write!(clause, "{between}{predicate}")?;
        between = " , ";
    }
    Ok(clause)
}

/// The header of the impl of a trait in a text, read back and printed.
fn read_back(alloc: Global, text: &str, name: &str) -> Result<String, Fail> {
    let header = header(text, name).ok_or(name)?;
    let (path, rest) = header.split_once(" for ").ok_or(header)?;
    let (ty, listed) = rest.split_once(" where ").unwrap_or((rest, ""));
    let path = path_text(alloc, path)?;
    let clause = clause_text(alloc, listed)?;
    let again = format!(in alloc; "{path} for {ty}{clause}")?;
    check_at(name, again.as_str(), header)?;
    Ok(again)
}

static HEADERS: &str = r#"
:: Debug
: :: core :: fmt :: Debug for Shape < T > where T : :: core :: fmt :: Debug , ( T , T ) : :: core :: fmt :: Debug

:: Clone
: :: core :: clone :: Clone for Shape < T > where T : :: core :: clone :: Clone , ( T , T ) : :: core :: clone :: Clone

:: Copy
: :: core :: marker :: Copy for Shape < T > where T : :: core :: marker :: Copy , ( T , T ) : :: core :: marker :: Copy , T : :: core :: clone :: Clone , ( T , T ) : :: core :: clone :: Clone

:: PartialEq
: :: core :: cmp :: PartialEq for Shape < T > where T : :: core :: cmp :: PartialEq , ( T , T ) : :: core :: cmp :: PartialEq

:: Eq
: :: core :: cmp :: Eq for Shape < T > where T : :: core :: cmp :: Eq , ( T , T ) : :: core :: cmp :: Eq , T : :: core :: cmp :: PartialEq , ( T , T ) : :: core :: cmp :: PartialEq

:: PartialOrd
: :: core :: cmp :: PartialOrd for Shape < T > where T : :: core :: cmp :: PartialOrd , ( T , T ) : :: core :: cmp :: PartialOrd , T : :: core :: cmp :: PartialEq , ( T , T ) : :: core :: cmp :: PartialEq

:: Ord
: :: core :: cmp :: Ord for Shape < T > where T : :: core :: cmp :: Ord , ( T , T ) : :: core :: cmp :: Ord , T : :: core :: cmp :: Eq , ( T , T ) : :: core :: cmp :: Eq , T : :: core :: cmp :: PartialEq , ( T , T ) : :: core :: cmp :: PartialEq , T : :: core :: cmp :: PartialOrd , ( T , T ) : :: core :: cmp :: PartialOrd

:: Hash
: :: core :: hash :: Hash for Shape < T > where T : :: core :: hash :: Hash , ( T , T ) : :: core :: hash :: Hash

:: Default
: :: core :: default :: Default for Shape < T >
"#;

/// Parts of the items: the check of `Eq`, the discriminant of `Other`, and `Ord` of a variant with an ignored field.
const PARTS: [&str; 3] = [
    "{ fn __educe_assert_eq < _T : ? Sized + :: core :: cmp :: Eq > ( ) { }",
    "Self :: Other => const { let base : :: core :: primitive :: u8 = 10 ; base . wrapping_add ( 8usize as :: core :: primitive :: u8 ) } ,",
    "Self :: Arc { start : _s_start , end : _s_end , label : _ , } => { if let Self :: Arc { start : _o_start , end : _o_end , label : _ , } = other { match :: core :: cmp :: Ord :: cmp ( _s_start , _o_start ) {",
];

#[test]
fn a_realistic_definition_has_ten_items_and_headers_that_read_back(
    rt: HostRuntime,
) -> Result<(), Fail> {
    let alloc = rt.alloc();
    let expansion = expansion(alloc, SHAPE)?;
    let text = expansion.text();
    check_at("items", expansion.items().as_slice().len(), 10)?;
    for part in &PARTS {
        check_at(*part, text.contains(*part), true)?;
    }
    check_rows(alloc, |alloc, name| read_back(alloc, text, name), HEADERS)
}
