// The command `if`.
ghost use Rattle.std.specs.Prelude.{◌≡◌, ◌+◌, ◌-◌, ◌<◌, ◌≤◌, ℕ, true, drop, length, IfOk};
ghost use Rattle.std.specs.List.{All};
ghost use Rattle.tclv_value.specs.Stacks.{top, under};
ghost use Rattle.tclv_engine.specs.Plans.{BranchInside, BranchesInside, PlanOver, WayInside, as_plan, lead_of, placed};
ghost use Rattle.tclv_engine.specs.Answers.{Answers, IsCalm, Leaves, SameState};
ghost use Rattle.tclv_control.specs.IfRows as rows;
ghost use Rattle.tclv_control.specs.IfSteps as steps;

use tclv_engine::{Branch, Branches, End, Machine, Plan, Way};
use tclv_model::MessageId;
use tclv_text::NoMemory;
use tclv_value::At;

/// What stands behind a word of the stack.
#[derive(Clone, Copy, Debug, PartialEq, Eq)]
pub enum Found {
    /// A body, at this place.
    Body(usize),
    /// No word, so that a body is missing behind the word at this place.
    Missing(usize),
}

/// What stands behind a clause.
#[derive(Clone, Copy, Debug, PartialEq, Eq)]
pub enum Behind {
    /// Another clause, behind the word at this place of the stack.
    Another(usize),
    /// No clause more: this counts where no test is true.
    Last(Way),
}

// The place behind a place of the stack.
fn place_behind<W>(machine: &Machine<W>, at: usize) -> usize
    requires { at < length machine.now.values.store.stack }
    ensures { result ≡ at + 1 }
{
    if at < machine.values.height() {
        at + 1
    } else {
        unreachable!()
    }
}

// Whether this word stands at a place of the stack, if any does.
fn begins<W>(machine: &mut Machine<W>, at: usize, word: &[u8]) -> Result<bool, NoMemory>
    requires { at ≤ length machine.old.values.store.stack }
    ensures begins { IfOk result (λ b. b ≡ rows.begins word.now (drop at machine.old.values.store.stack)) }
    ensures place { IfOk result (λ b. (b ≡ true) → at < length machine.old.values.store.stack) }
    ensures same { SameState machine.old machine.new }
    ensures stack { machine.new.values.store.stack ≡ machine.old.values.store.stack }
{
    if at == machine.values.height() {
        return Ok(false);
    }
    machine.values.make_text(At::Stack(at))?;
    Ok(machine.values.lend(At::Stack(at)) == word)
}

// What stands behind the word at a place of the stack.
fn first_body<W>(machine: &Machine<W>, before: usize) -> Found
    requires { before < length machine.now.values.store.stack }
    ensures found { let stack = machine.now.values.store.stack in
        steps.sought_of stack result ≡ rows.first_body (placed stack before) (drop (before + 1) stack) }
    ensures inside { steps.FoundInside machine.now.values.store.stack result }
{
    let next = place_behind(machine, before);
    if next < machine.values.height() {
        Found::Body(next)
    } else {
        Found::Missing(before)
    }
}

// The body behind the test at a place of the stack.
fn body_behind<W>(machine: &mut Machine<W>, test: usize) -> Result<Found, NoMemory>
    requires { test < length machine.old.values.store.stack }
    ensures found { let stack = machine.old.values.store.stack in
        IfOk result (λ f. steps.sought_of stack f ≡ rows.body_behind (placed stack test) (drop (test + 1) stack)) }
    ensures inside { IfOk result (steps.FoundInside machine.old.values.store.stack) }
    ensures same { SameState machine.old machine.new }
    ensures stack { machine.new.values.store.stack ≡ machine.old.values.store.stack }
{
    let next = place_behind(machine, test);
    if begins(machine, next, b"then")? {
        Ok(first_body(machine, next))
    } else {
        Ok(first_body(machine, test))
    }
}

// What the last body leads to, which stands at a place of the stack, and behind which no word may
// stand.
fn last_body<W>(machine: &Machine<W>, body: usize) -> Way
    requires { body < length machine.now.values.store.stack }
    ensures lead { let stack = machine.now.values.store.stack in lead_of stack result ≡ rows.last_body (placed stack body) (drop (body + 1) stack) }
    ensures inside { WayInside machine.now.values.store.stack result }
{
    if place_behind(machine, body) < machine.values.height() {
        Way::Refused(MessageId::ExtraWordsAfterElse, None)
    } else {
        Way::Body(body)
    }
}

// What the last body leads to, if one stands at a place of the stack.
fn bare_body<W>(machine: &Machine<W>, next: usize) -> Way
    requires { next ≤ length machine.now.values.store.stack }
    ensures lead { lead_of machine.now.values.store.stack result ≡ rows.bare_body (drop next machine.now.values.store.stack) }
    ensures inside { WayInside machine.now.values.store.stack result }
{
    if next < machine.values.height() {
        last_body(machine, next)
    } else {
        Way::Nothing
    }
}

// What the body behind an `else` at a place of the stack leads to.
fn else_body<W>(machine: &Machine<W>, word: usize) -> Way
    requires { word < length machine.now.values.store.stack }
    ensures lead { let stack = machine.now.values.store.stack in
        lead_of stack result ≡ rows.else_body (rows.first_body (placed stack word) (drop (word + 1) stack)) }
    ensures inside { WayInside machine.now.values.store.stack result }
{
    match first_body(machine, word) {
        Found::Body(body) => last_body(machine, body),
        Found::Missing(before) => Way::Refused(MessageId::NoScriptAfter, Some(before)),
    }
}

// What the words from a place of the stack on lead to, which are none of a clause.
fn last_lead<W>(machine: &mut Machine<W>, next: usize) -> Result<Way, NoMemory>
    requires { next ≤ length machine.old.values.store.stack }
    ensures lead { IfOk result (λ way. lead_of machine.old.values.store.stack way ≡ rows.last_lead (drop next machine.old.values.store.stack)) }
    ensures inside { IfOk result (WayInside machine.old.values.store.stack) }
    ensures same { SameState machine.old machine.new }
    ensures stack { machine.new.values.store.stack ≡ machine.old.values.store.stack }
{
    if begins(machine, next, b"else")? {
        Ok(else_body(machine, next))
    } else {
        Ok(bare_body(machine, next))
    }
}

// What stands behind the body at a place of the stack.
fn behind_body<W>(machine: &mut Machine<W>, body: usize) -> Result<Behind, NoMemory>
    requires { body < length machine.old.values.store.stack }
    ensures left { let stack = machine.old.values.store.stack in
        IfOk result (λ b. (n : ℕ) → steps.left_of n stack b ≡ rows.behind_body (rows.clauses n) (drop (body + 1) stack)) }
    ensures inside { IfOk result (steps.BehindInside machine.old.values.store.stack) }
    ensures same { SameState machine.old machine.new }
    ensures stack { machine.new.values.store.stack ≡ machine.old.values.store.stack }
{
    let next = place_behind(machine, body);
    if begins(machine, next, b"elseif")? {
        return Ok(Behind::Another(next));
    }
    Ok(Behind::Last(last_lead(machine, next)?))
}

// What a test leads to, and what stands behind its clause.
fn behind_test<W>(machine: &mut Machine<W>, found: Found) -> Result<(Way, Behind), NoMemory>
    requires { steps.FoundInside machine.old.values.store.stack found }
    ensures left { IfOk result (steps.IsLed machine.old.values.store.stack found) }
    ensures way { IfOk result (λ p. WayInside machine.old.values.store.stack p.0) }
    ensures inside { IfOk result (λ p. steps.BehindInside machine.old.values.store.stack p.1) }
    ensures same { SameState machine.old machine.new }
    ensures stack { machine.new.values.store.stack ≡ machine.old.values.store.stack }
{
    match found {
        Found::Body(body) => {
            let behind = behind_body(machine, body)?;
            Ok((Way::Body(body), behind))
        }
        Found::Missing(before) => {
            let way = Way::Refused(MessageId::NoScriptAfter, Some(before));
            Ok((way, Behind::Last(way)))
        }
    }
}

// Reads the clause behind the word at a place of the stack: its test is added, with what it leads to.
fn read_clause<W>(
    machine: &mut Machine<W>,
    items: &mut Vec<Branch>,
    word: usize,
) -> Result<Behind, NoMemory>
    requires word { word < length machine.old.values.store.stack }
    requires items { All (BranchInside machine.old.values.store.stack) items.old.items }
    ensures left { IfOk result (λ b. steps.IsRead machine.old.values.store.stack word items.old.items items.new.items b) }
    ensures items { IfOk result (λ b. All (BranchInside machine.old.values.store.stack) items.new.items) }
    ensures inside { IfOk result (steps.BehindInside machine.old.values.store.stack) }
    ensures same { SameState machine.old machine.new }
    ensures stack { machine.new.values.store.stack ≡ machine.old.values.store.stack }
{
    let test = place_behind(machine, word);
    if test == machine.values.height() {
        return Ok(Behind::Last(Way::Refused(MessageId::NoExpressionAfter, Some(word))));
    }
    let found = body_behind(machine, test)?;
    let (way, behind) = behind_test(machine, found)?;
    items.push(Branch { test, way })?;
    Ok(behind)
}

// Reads all clauses, the first of them behind the word at a place of the stack.
fn read_clauses<W>(machine: &mut Machine<W>, first: usize) -> Result<Branches, NoMemory>
    requires { first < length machine.old.values.store.stack }
    ensures clauses { let stack = machine.old.values.store.stack in
        IfOk result (λ b. steps.clauses_of stack b ≡ rows.clauses (length stack - first) (placed stack first) (drop (first + 1) stack)) }
    ensures inside { IfOk result (BranchesInside machine.old.values.store.stack) }
    ensures same { SameState machine.old machine.new }
    ensures stack { machine.new.values.store.stack ≡ machine.old.values.store.stack }
{
    let mut items = Vec::new(machine.alloc);
    let mut word = first;
    for turn in first..machine.values.height() {
        match read_clause(machine, &mut items, word)? {
            Behind::Another(at) => word = at,
            Behind::Last(last) => return Ok(Branches { items, last }),
        }
    }
    let last = Way::Nothing;
    Ok(Branches { items, last })
}

/// The command `if expr1 ?then? body1 ?elseif expr2 ?then? body2? ... ?else? ?bodyN?`: the body of the
/// first test that is true is to run, or the last body where none is; where there is none, the result
/// is empty. What is wrong with the words is what a test leads to, or what counts where none is true.
/// Its words are the top `n` texts of the stack, the word of the call lowest. (Tcl: if(n).)
pub fn plan_if<W, K>(machine: &mut Machine<W>, n: usize) -> Result<Plan<K>, End>
    requires words { n ≤ length machine.old.values.store.stack }
    requires some { 0 < n }
    ensures answer { Answers (rows.wanted_if (top n machine.old.values.store.stack)) as_plan machine.old result machine.new }
    ensures stack { Leaves (PlanOver (under n machine.old.values.store.stack)) (under n machine.old.values.store.stack) result machine.new.values.store.stack }
    ensures calm { IsCalm result }
    ensures units { machine.new.units ≡ machine.old.units }
{
    let word = machine.values.height() - n;
    let branches = read_clauses(machine, word)?;
    Ok(Plan::Choice(branches))
}
