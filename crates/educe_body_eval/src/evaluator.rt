//! The evaluator.
ghost use Rattle.std.specs.Prelude.{◌≡◌, IfOk};
ghost use Rattle.educe_body_values.specs.declared.environment.Env.{Env};
ghost use Rattle.educe_body_values.specs.Cases as spec;
ghost use Rattle.educe_body_values.specs.Meaning as meaning;
ghost use Rattle.educe_body_values.specs.Meaning.{scene, scene_at, look_up, read_flow, key_of, leave, value, parts_of, outcome_of, own_of, changed_or_given, own_outcome, shown_outcome, outcome_of_thing, list_value, taken, arms_list, with_named, go_on, block_arm, form_value, args_list, inits_list, built, built_value, with_case, call_value, assign};

use crate::arguments::argument_flow;
use crate::assigning::assign;
use crate::calls::called;
use crate::cases::case_named;
use crate::changing::any_assigns;
use crate::environments::started;
use crate::flows::{
    add_counted, end_if, hash_part, known_thing, leave, made_value, number_flow, opposite,
    order_thing, part_flow, returned, some_of, take_arm,
};
use crate::matching::{bind_pattern, fits, fits_named, has_key};
use crate::numbers::bind_keys;
use crate::reading::{field_named, find, key, local, named, reference};
use crate::scoping::callee_in;
use crate::showing::{builder_flow, declared, entry_flow, finished, text_flow};
use crate::types::pasted_callee;
use educe_body_forms::{
    Arm, Body, EntryKey, Form, Forms, Init, Inits, KeyArms, LiteralText, Names, Opening, Pattern,
};
use educe_body_values::{
    Answers, DebugShape, Env, FieldValue, FieldValues, Flow, Outcome, Own, Parts, Referent, Scope,
    Stage, Thing, Value,
};
use educe_tokens::{Seq, Spelling, Word, Written};
use educe_tree::{ExprPath, Field, Ident};
use std::alloc::{AllocError, Global};
use std::cmp::Ordering;

/// What a body evaluates to over a definition, two values and a table: what it returns, or the value of its
/// last form; for a body with two parameters, a hasher and its type, what it feeds to the hasher; for one
/// with fewer in which an assignment or a discard stands, what `self` becomes; and for one that ends in
/// what it hands to its parameter, a formatter, what this shows. `Stuck` where a name stands for nothing, a
/// value has no field of that key, no arm or no field of a pattern fits, a path that is not built in, an
/// expression, a default value or the type of an argument has a name in scope, more than two arguments of a
/// call count, the table has no answer, a form takes another kind of value, no variant has the name of what
/// is built, its fields have other keys or there are more or fewer, what is assigned to is not `self` and
/// no field of it, the fields of `self` are read behind an assignment to the whole, something is shown
/// already or through another name than that of the formatter or of the builder, an entry has a key of
/// another form, or the result is no truth, no order, nothing that is shown, no value that is built and
/// none that is made.
/// What is built of a variant, and a default value by the type of its field, are also `Stuck` where the
/// place of the variant or of the type is 2^32 or more.
pub fn eval<'a>(
    alloc: Global,
    body: &Body,
    scope: &'a Scope<'a>,
    answers: &'a Answers,
) -> Result<Outcome, AllocError>
    ensures { IfOk result (λ outcome. outcome ≡ value body.now (scene scope.now answers.now)) }
{
    let env = started(alloc, &body.params, scope.this)?;
    let stage = Stage {
        scope,
        answers,
        field: None,
    };
    let flow = run_block(alloc, &body.block, env, &stage)?;
    Ok(ended(&body.params, &body.block, flow))
}

/// What a body of these parameters and forms comes to.
fn ended(params: &Names, block: &Forms, flow: Flow) -> Outcome
    ensures { result ≡ meaning.ended params.now block.now flow }
{
    match params.as_slice() {
        [] => changed_or_given(any_assigns(block), flow),
        [_] => changed_or_given(any_assigns(block), flow),
        [_, _] => parts_of(flow),
        _ => outcome_of(flow),
    }
}

/// What `self` becomes, or else the value that is given or returned.
fn changed_or_given(assigns: bool, flow: Flow) -> Outcome
    ensures { result ≡ changed_or_given assigns flow }
{
    if assigns {
        own_of(flow)
    } else {
        outcome_of(flow)
    }
}

/// What `self` becomes.
fn own_of(flow: Flow) -> Outcome
    ensures { result ≡ own_of flow }
{
    match flow {
        Flow::Gives(env, _) => own_outcome(env.own),
        Flow::Returns(env, _) => own_outcome(env.own),
        Flow::Stuck => Outcome::Stuck,
    }
}

/// What was fed to a hasher.
fn parts_of(flow: Flow) -> Outcome
    ensures { result ≡ parts_of flow }
{
    match flow {
        Flow::Gives(env, _) => Outcome::Parts(env.parts),
        Flow::Returns(env, _) => Outcome::Parts(env.parts),
        Flow::Stuck => Outcome::Stuck,
    }
}

/// The value that is given or returned.
fn outcome_of(flow: Flow) -> Outcome
    ensures { result ≡ outcome_of flow }
{
    match flow {
        Flow::Gives(env, thing) => ended_with(env, thing),
        Flow::Returns(env, thing) => ended_with(env, thing),
        Flow::Stuck => Outcome::Stuck,
    }
}

/// What `self` is when a body ends.
fn own_outcome(own: Option<Own>) -> Outcome
    ensures { result ≡ own_outcome own }
{
    match own {
        Some(Own::Value(value)) => Outcome::Made(value),
        Some(Own::Whole(x)) => Outcome::Whole(x),
        None => Outcome::Stuck,
    }
}

/// What is shown when a body ends.
fn shown_outcome(shown: Option<DebugShape>) -> Outcome
    ensures { result ≡ shown_outcome shown }
{
    match shown {
        Some(shown) => Outcome::Shape(shown),
        None => Outcome::Stuck,
    }
}

fn ended_with(env: Env, thing: Thing) -> Outcome
    ensures { result ≡ outcome_of_thing env thing }
{
    match thing {
        Thing::Truth(b) => Outcome::Truth(b),
        Thing::Order(o) => Outcome::Order(o),
        Thing::PartialOrder(p) => Outcome::PartialOrder(p),
        Thing::Built(value) => Outcome::Made(value),
        Thing::Made(x) => Outcome::Whole(x),
        Thing::Shown => shown_outcome(env.shown),
        _ => Outcome::Stuck,
    }
}

/// What a name gives.
fn local_flow(stage: &Stage, env: Env, name: &Spelling) -> Flow
    ensures { result ≡ meaning.local_flow (scene_at stage.now) env (look_up env.names name.now) }
{
    let found = find(env.names.as_slice(), name);
    local(stage, env, &found)
}

/// What a field of a value gives, in place or as a copy.
fn reference_flow(stage: &Stage, env: Env, base: &Spelling, key: &Spelling) -> Flow
    ensures { result ≡ read_flow (scene_at stage.now) env base.now key.now }
{
    let base = find(env.names.as_slice(), base);
    let part = reference(stage, &env, base, key);
    part_flow(env, part)
}

/// What a call of a key function gives.
fn key_flow(env: Env, function: &Spelling, value: &Spelling) -> Flow
    ensures { let number = key_of (look_up env.names function.now) (look_up env.names value.now) in
        result ≡ meaning.number_flow env number }
{
    let names = env.names.as_slice();
    let number = key(find(names, function), find(names, value));
    number_flow(env, number)
}

#[cycle(run)]
fn run_block(alloc: Global, forms: &Forms, env: Env, stage: &Stage) -> Result<Flow, AllocError>
    ensures { let here = scene_at stage.now in
        IfOk result (λ flow. flow ≡ list_value here env Thing.Nothing forms.now) }
{
    let mut env = env;
    let mut last = Thing::Nothing;
    for form in forms.as_slice() {
        match run_form(alloc, form, env, stage)? {
            Flow::Gives(next, thing) => {
                env = next;
                last = thing;
            }
            Flow::Returns(end, thing) => return Ok(Flow::Returns(end, thing)),
            Flow::Stuck => return Ok(Flow::Stuck),
        }
    }
    Ok(Flow::Gives(env, last))
}

#[cycle(run)]
fn run_form(alloc: Global, form: &Form, env: Env, stage: &Stage) -> Result<Flow, AllocError>
    ensures { IfOk result (λ flow. flow ≡ form_value (scene_at stage.now) env form.now) }
{
    match form {
        Form::Local(name) => Ok(local_flow(stage, env, &name.text)),
        Form::Known(known) => Ok(Flow::Gives(env, known_thing(*known))),
        Form::Reference(base, key) => Ok(reference_flow(stage, env, &base.text, &key.text)),
        Form::BracedCopy(base, key) => Ok(reference_flow(stage, env, &base.text, &key.text)),
        Form::Key(function, value) => Ok(key_flow(env, &function.text, &value.text)),
        Form::Call(path, arguments) => run_call(alloc, path.get(), arguments, env, stage),
        Form::Not(inner) => Ok(opposite(run_form(alloc, inner.get(), env, stage)?)),
        Form::SomeOf(inner) => Ok(some_of(run_form(alloc, inner.get(), env, stage)?)),
        Form::IfReturn(test) => Ok(end_if(run_form(alloc, test.get(), env, stage)?)),
        Form::Return(inner) => Ok(returned(run_form(alloc, inner.get(), env, stage)?)),
        Form::MatchOrdering(matched, partial, held, greater, less) => {
            let matched = run_form(alloc, matched.get(), env, stage)?;
            match held {
                None => Ok(take_arm(*partial, *greater, *less, matched)),
                Some(block) => {
                    run_at_equal(alloc, *partial, *greater, *less, matched, block, stage)
                }
            }
        }
        Form::MatchValue(name, arms) => run_arms(alloc, &name.text, arms.as_slice(), env, stage),
        Form::IfLet(pattern, name, forms, others) => {
            let found = find(env.names.as_slice(), &name.text);
            match fits_named(alloc, stage, &env, pattern, &found)? {
                Some(true) => run_taken(alloc, pattern, &found, forms, env, stage),
                Some(false) => match others {
                    Some(forms) => run_inner(alloc, forms, env, stage),
                    None => Ok(Flow::Gives(env, Thing::Nothing)),
                },
                None => Ok(Flow::Stuck),
            }
        }
        Form::KeyFunction(name, this, _, arms) => key_function(alloc, stage, name, this, arms, env),
        Form::Block(forms) => run_inner(alloc, forms, env, stage),
        Form::HashPart(inner) => hash_part(run_form(alloc, inner.get(), env, stage)?),
        Form::Position(position) => Ok(Flow::Gives(env, Thing::Position(position.place))),
        Form::Construct(name, _, inits) => run_construct(alloc, name, inits, env, stage),
        Form::Pasted(written) => pasted_flow(alloc, stage, env, written),
        Form::WholeCopy => own_flow(alloc, env),
        Form::Unreachable => Ok(Flow::Stuck),
        Form::Discard(name) => Ok(discarded(env, &name.text)),
        Form::AssignField(key, path, inner, handed) => {
            run_field(alloc, path.get(), inner.get(), *handed, key, env, stage)
        }
        Form::AssignThrough(name, path, inner, handed) => {
            run_through(alloc, path.get(), inner.get(), *handed, name, env, stage)
        }
        Form::WriteText(formatter, text) => written_text(alloc, env, formatter, text),
        Form::HelperType(helper, _) => declared(alloc, env, &helper.text, Referent::Helper),
        Form::Builder(builder, formatter, opening) => {
            begun(alloc, env, builder, formatter, opening)
        }
        Form::BuilderEntry(builder, key, inner, _) => {
            run_entry(alloc, builder, key, inner.get(), env, stage)
        }
        Form::MethodArgument(own, inner, ty, path) => {
            let inner = run_form(alloc, inner.get(), env, stage)?;
            argument_flow(alloc, own.get(), ty, path.get(), inner)
        }
        Form::Finish(builder) => Ok(ended_builder(env, builder)),
    }
}

/// What is written to a formatter.
fn written_text(
    alloc: Global,
    env: Env,
    formatter: &Ident,
    text: &LiteralText,
) -> Result<Flow, AllocError>
    ensures { let found = look_up env.names formatter.now.text in
        IfOk result (λ flow. flow ≡ meaning.text_flow env found text.now.text) }
{
    let found = find(env.names.as_slice(), &formatter.text);
    text_flow(alloc, env, &found, &text.text)
}

/// A builder, which is in scope from now on.
fn begun(
    alloc: Global,
    env: Env,
    builder: &Ident,
    formatter: &Ident,
    opening: &Opening,
) -> Result<Flow, AllocError>
    ensures { let found = look_up env.names formatter.now.text in
        IfOk result (λ flow. flow ≡ meaning.builder_flow env found builder.now.text opening.now) }
{
    let found = find(env.names.as_slice(), &formatter.text);
    builder_flow(alloc, env, &found, &builder.text, opening)
}

/// What a builder has shown.
fn ended_builder(env: Env, builder: &Ident) -> Flow
    ensures { result ≡ meaning.finished env (look_up env.names builder.now.text) }
{
    let found = find(env.names.as_slice(), &builder.text);
    finished(env, &found)
}

/// What a form gives is the value of an entry of a builder.
#[cycle(run)]
fn run_entry(
    alloc: Global,
    builder: &Ident,
    key: &EntryKey,
    inner: &Form,
    env: Env,
    stage: &Stage,
) -> Result<Flow, AllocError>
    ensures { let found = look_up env.names builder.now.text in
        IfOk result (λ flow. flow ≡ go_on (form_value (scene_at stage.now) env inner.now) (meaning.entry_flow found key.now)) }
{
    let found = find(env.names.as_slice(), &builder.text);
    let inner = run_form(alloc, inner, env, stage)?;
    entry_flow(alloc, &found, key, inner)
}

/// What a call makes of a form is assigned to a field of `self`.
#[cycle(run)]
fn run_field(
    alloc: Global,
    path: &ExprPath,
    inner: &Form,
    handed: bool,
    key: &Word,
    env: Env,
    stage: &Stage,
) -> Result<Flow, AllocError>
    ensures { let here = scene_at stage.now in
        let target = meaning.field_named here key.now.text in
        IfOk result (λ flow. flow ≡ go_on (form_value here env inner.now) (assign here path.now handed target)) }
{
    let target = field_named(stage, &key.text);
    run_assign(alloc, path, inner, handed, &target, env, stage)
}

/// What a call makes of a form is assigned through a name.
#[cycle(run)]
fn run_through(
    alloc: Global,
    path: &ExprPath,
    inner: &Form,
    handed: bool,
    name: &Ident,
    env: Env,
    stage: &Stage,
) -> Result<Flow, AllocError>
    ensures { let here = scene_at stage.now in
        let target = look_up env.names name.now.text in
        IfOk result (λ flow. flow ≡ go_on (form_value here env inner.now) (assign here path.now handed target)) }
{
    let target = find(env.names.as_slice(), &name.text);
    run_assign(alloc, path, inner, handed, &target, env, stage)
}

/// What a call makes of a form is assigned to what a name stands for; where the truth value holds, the
/// call is handed that before the form.
#[cycle(run)]
fn run_assign(
    alloc: Global,
    path: &ExprPath,
    inner: &Form,
    handed: bool,
    target: &Option<Referent>,
    env: Env,
    stage: &Stage,
) -> Result<Flow, AllocError>
    ensures { let here = scene_at stage.now in
        IfOk result (λ flow. flow ≡ go_on (form_value here env inner.now) (assign here path.now handed target.now)) }
{
    match run_form(alloc, inner, env, stage)? {
        Flow::Gives(env, thing) => assign(alloc, path, handed, target, env, thing, stage),
        Flow::Returns(env, thing) => Ok(Flow::Returns(env, thing)),
        Flow::Stuck => Ok(Flow::Stuck),
    }
}

/// What comes of an order: the block where it is Equal, and else the order of its arm.
#[cycle(run)]
fn run_at_equal(
    alloc: Global,
    partial: bool,
    greater: Ordering,
    less: Ordering,
    matched: Flow,
    block: &Forms,
    stage: &Stage,
) -> Result<Flow, AllocError>
    ensures { let here = scene_at stage.now in
        let equal = λ (env : Env). leave env.names (list_value here env Thing.Nothing block.now) in
        IfOk result (λ flow. flow ≡ go_on matched (block_arm partial greater less equal)) }
{
    match matched {
        Flow::Gives(env, thing) => match thing {
            Thing::Order(Ordering::Equal) => run_inner(alloc, block, env, stage),
            Thing::Order(Ordering::Greater) => Ok(Flow::Gives(env, order_thing(partial, greater))),
            Thing::Order(Ordering::Less) => Ok(Flow::Gives(env, order_thing(partial, less))),
            _ => Ok(Flow::Stuck),
        },
        Flow::Returns(env, thing) => Ok(Flow::Returns(env, thing)),
        Flow::Stuck => Ok(Flow::Stuck),
    }
}

/// The forms of a block, whose names end with it.
#[cycle(run)]
fn run_inner(alloc: Global, forms: &Forms, env: Env, stage: &Stage) -> Result<Flow, AllocError>
    ensures { let here = scene_at stage.now in
        IfOk result (λ flow. flow ≡ leave env.names (list_value here env Thing.Nothing forms.now)) }
{
    let count = env.names.len();
    let flow = run_block(alloc, forms, env, stage)?;
    Ok(leave(count, flow))
}

/// The forms behind a pattern, with what it binds of the value of a name.
#[cycle(run)]
fn run_taken(
    alloc: Global,
    pattern: &Pattern,
    found: &Option<Referent>,
    forms: &Forms,
    env: Env,
    stage: &Stage,
) -> Result<Flow, AllocError>
    ensures { let here = scene_at stage.now in
        IfOk result (λ flow. flow ≡ with_named here env found.now (taken here env pattern.now forms.now)) }
{
    let count = env.names.len();
    match bind_pattern(alloc, stage, pattern, found, env)? {
        Some(inner) => {
            let flow = run_block(alloc, forms, inner, stage)?;
            Ok(leave(count, flow))
        }
        None => Ok(Flow::Stuck),
    }
}

/// The first arm whose pattern fits the value of a name, if there is one.
#[cycle(run)]
fn run_arms(
    alloc: Global,
    name: &Spelling,
    arms: &[Arm],
    env: Env,
    stage: &Stage,
) -> Result<Flow, AllocError>
    ensures { let here = scene_at stage.now in
        let found = look_up env.names name.now in
        IfOk result (λ flow. flow ≡ with_named here env found (arms_list here env arms.now)) }
{
    let found = find(env.names.as_slice(), name);
    let Some(value) = named(alloc, stage, &env, &found)? else {
        return Ok(Flow::Stuck);
    };
    for arm in arms {
        if fits(stage.scope.ast, &arm.pattern, &value) {
            return run_taken(alloc, &arm.pattern, &found, &arm.block, env, stage);
        }
    }
    Ok(Flow::Stuck)
}

/// The arguments one after the other, and then the call of what the path names where it stands.
#[cycle(run)]
fn run_call(
    alloc: Global,
    path: &ExprPath,
    arguments: &Forms,
    env: Env,
    stage: &Stage,
) -> Result<Flow, AllocError>
    ensures { let here = scene_at stage.now in
        let next = call_value here env.names path.now in
        IfOk result (λ flow. flow ≡ args_list here env arguments.now next) }
{
    let callee = callee_in(alloc, env.names.as_slice(), path)?;
    let mut env = env;
    let mut things = Seq::new(alloc);
    for argument in arguments.as_slice() {
        match run_form(alloc, argument, env, stage)? {
            Flow::Gives(next, thing) => {
                env = next;
                things = add_counted(things, thing)?;
            }
            Flow::Returns(end, thing) => return Ok(Flow::Returns(end, thing)),
            Flow::Stuck => return Ok(Flow::Stuck),
        }
    }
    Ok(called(env, &callee, things.as_slice(), stage.answers))
}

/// The value that initializers build, where the definition has the case.
#[cycle(run)]
fn run_construct(
    alloc: Global,
    name: &Option<Ident>,
    inits: &Inits,
    env: Env,
    stage: &Stage,
) -> Result<Flow, AllocError>
    ensures { let here = scene_at stage.now in
        let found = spec.case_named here.definition name.now in
        IfOk result (λ flow. flow ≡ with_case found (built_value here env inits.now)) }
{
    match case_named(stage.scope.ast, name) {
        Some(case) => {
            let inits = inits.as_slice();
            run_inits(alloc, case.variant, case.fields, inits, env, stage)
        }
        None => Ok(Flow::Stuck),
    }
}

/// The initializers of fields one after the other, and then the value that they build.
#[cycle(run)]
fn run_inits<'a>(
    alloc: Global,
    variant: u32,
    fields: &'a [Field],
    inits: &[Init],
    env: Env,
    stage: &Stage<'a>,
) -> Result<Flow, AllocError>
    ensures { let here = scene_at stage.now in
        IfOk result (λ flow. flow ≡ inits_list here env inits.now fields.now (built variant)) }
{
    let mut env = env;
    let mut values = Seq::new(alloc);
    for (i, init) in inits.iter().enumerate() {
        if i >= fields.len() {
            return Ok(Flow::Stuck);
        }
        let field = &fields[i];
        if !has_key(&init.key, &field.ident) {
            return Ok(Flow::Stuck);
        }
        match run_form(alloc, &init.value, env, &stage.for_field(field))? {
            Flow::Gives(next, thing) => {
                let Some(value) = made_value(thing) else {
                    return Ok(Flow::Stuck);
                };
                env = next;
                values.push(value)?;
            }
            Flow::Returns(end, thing) => return Ok(Flow::Returns(end, thing)),
            Flow::Stuck => return Ok(Flow::Stuck),
        }
    }
    if inits.len() < fields.len() {
        return Ok(Flow::Stuck);
    }
    Ok(Flow::Gives(env, built(variant, values)))
}

/// The value of this variant and these fields.
fn built(variant: u32, fields: FieldValues) -> Thing
    ensures { (env : _) → Flow.Gives env result ≡ built variant env fields }
{
    Thing::Built(Value { variant, fields })
}

/// What `self` is, as what a form gives.
fn whole_thing(alloc: Global, own: &Own) -> Result<Thing, AllocError>
    ensures { IfOk result (λ thing. thing ≡ meaning.whole_thing own.now) }
{
    match own {
        Own::Value(value) => Ok(Thing::Built(value.duplicate(alloc)?)),
        Own::Whole(x) => Ok(Thing::Made(*x)),
    }
}

/// `self` as a value.
fn own_flow(alloc: Global, env: Env) -> Result<Flow, AllocError>
    ensures { IfOk result (λ flow. flow ≡ meaning.own_flow env env.own) }
{
    match &env.own {
        Some(own) => {
            let thing = whole_thing(alloc, own)?;
            Ok(Flow::Gives(env, thing))
        }
        None => Ok(Flow::Stuck),
    }
}

/// A key function, which is in scope from now on.
fn key_function(
    alloc: Global,
    stage: &Stage,
    name: &Ident,
    this: &Ident,
    arms: &KeyArms,
    env: Env,
) -> Result<Flow, AllocError>
    ensures { let after = meaning.with_keys (scene_at stage.now) env name.now this.now arms.now in
        IfOk result (λ flow. flow ≡ Flow.Gives after Thing.Nothing) }
{
    let env = bind_keys(alloc, stage, name, this, arms.as_slice(), env)?;
    Ok(Flow::Gives(env, Thing::Nothing))
}

/// Nothing is done with what a name stands for.
fn discarded(env: Env, name: &Spelling) -> Flow
    ensures { result ≡ meaning.discarded env (look_up env.names name.now) }
{
    match find(env.names.as_slice(), name) {
        Some(_) => Flow::Gives(env, Thing::Nothing),
        None => Flow::Stuck,
    }
}

/// What tokens give, which are pasted as they were written.
fn pasted_flow(
    alloc: Global,
    stage: &Stage,
    env: Env,
    written: &Written,
) -> Result<Flow, AllocError>
    ensures { IfOk result (λ flow. flow ≡ meaning.pasted_flow (scene_at stage.now) env written.now) }
{
    let names = env.names.as_slice();
    let callee = pasted_callee(alloc, stage.scope.ast, stage.field, names, written)?;
    Ok(called(env, &callee, &[], stage.answers))
}
