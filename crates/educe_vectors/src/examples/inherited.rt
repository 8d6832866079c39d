//! What handlers note of predicates, and what is inherited of it (documentation of `educe`, Bounds).

use educe_attrs::Trait;
use educe_bound::{PredicateSet, extend_where_predicates};
use educe_handlers::TraitHandlerContext;
use educe_syntax::{Predicates, parse_predicates, text_of_tree};
use educe_tests::{check_rows, found, lexed_slice};
use std::alloc::{AllocError, Global};
use std::test::Fail;

/// The predicates that a text is.
fn predicates(alloc: Global, source: &str) -> Result<Predicates, Fail> {
    found(parse_predicates(alloc, &lexed_slice(alloc, source)?))
}

/// Notes that the impl of a trait adds the predicates that a text is.
fn note(
    alloc: Global,
    ctx: &mut TraitHandlerContext,
    which: Trait,
    source: &str,
) -> Result<(), Fail> {
    Ok(ctx.note_predicates(which, predicates(alloc, source)?)?)
}

/// What is noted of `Clone` and of `Ord`.
fn noted(alloc: Global, of_clone: &str, of_ord: &str) -> Result<TraitHandlerContext, Fail> {
    let mut ctx = TraitHandlerContext::new(alloc);
    note(alloc, &mut ctx, Trait::Clone, of_clone)?;
    note(alloc, &mut ctx, Trait::Ord, of_ord)?;
    Ok(ctx)
}

/// The texts of predicates, with a comma behind each.
fn texts(alloc: Global, predicates: &Predicates) -> Result<String, AllocError> {
    let mut texts = String::from_str(alloc, "where")?;
    for predicate in predicates.as_slice() {
        let text = text_of_tree(alloc, predicate)?;
        write!(texts, " {text},")?;
    }
    Ok(texts)
}

/// The predicates with those that are inherited of `Ord`, of `Hash` and of `Clone`.
fn inherited(
    alloc: Global,
    ctx: &TraitHandlerContext,
    own: &Predicates,
) -> Result<String, AllocError> {
    let mut all = PredicateSet::new(alloc);
    extend_where_predicates(&mut all, own)?;
    ctx.inherit_from(&[Trait::Ord, Trait::Hash, Trait::Clone], &mut all)?;
    let texts = texts(alloc, all.list());
    drop(all);
    texts
}

/// The predicates with those that are inherited, by own predicates, those of `Clone` and those of `Ord`, as
/// in `T: A; T: B; T: C`.
fn answer(alloc: Global, text: &str) -> Result<String, Fail> {
    let (own, noted_texts) = text.split_once("; ").ok_or(text)?;
    let (of_clone, of_ord) = noted_texts.split_once("; ").ok_or(text)?;
    let ctx = noted(alloc, of_clone, of_ord)?;
    let own = predicates(alloc, own)?;
    let found = inherited(alloc, &ctx, &own);
    drop(own);
    drop(ctx);
    Ok(found?)
}

/// Predicates, those that are noted of `Clone` and of `Ord`, and what stands there when those of `Ord`, of `Hash`, of
/// which nothing is noted, and of `Clone` are inherited.
static NOTED: &str = r#"
T: A; T: B; T: C
: where T : A, T : C, T : B,

T: A; T: B, T: A; U: C, T: B
: where T : A, U : C, T : B,

T: A, T: A; T: A; T: A, T: B, T: B
: where T : A, T : B,

; T: A, T: B; T: B
: where T : B, T : A,
"#;

#[test]
fn predicates_are_inherited(rt: HostRuntime) -> Result<(), Fail> {
    check_rows(rt.alloc(), answer, NOTED)
}
