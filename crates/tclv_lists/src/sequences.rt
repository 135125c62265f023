// The command that makes lists of numbers.
ghost use Rattle.std.specs.Prelude.{◌≡◌, ℕ, ℤ, List, ◌+◌, ◌-◌, ◌<◌, ◌≤◌, [], length, pos, ◌-ℤ◌, if◌then◌else◌, Some, IfOk, IfErr, IfSome, slice_index_or};
ghost use Rattle.std.specs.Ordering.{int_eq};
ghost use Rattle.tclv_model.specs.declared.data_commands.CmdFault.TheVariants.{NoMemory};
ghost use Rattle.tclv_model.specs.Values.{raised, too_large};
ghost use Rattle.tclv_value.specs.Stacks.{top};
ghost use Rattle.tclv_value.specs.Changes.{KeepsTexts};
ghost use Rattle.tclv_value.specs.View.{IsMade};
ghost use Rattle.tclv_value.specs.declared.places.At.TheVariants.{Stack};
ghost use Rattle.tclv_reply.specs.Replies.{call_word, Answers, Grows, Refused, Leaves, Reads};
ghost use Rattle.tclv_lists.specs.Sequences.{sequence_of, count_within, count_to, up_to, step_towards, whole_or, stepping, from_to, counting, is_literal, link_of, linked, behind_by, lseq_count, three_words, four_words, five_words, row_lseq, word_at};

use tclv_model::{CmdFault, MessageId, Usage};
use tclv_reply::{make_word, refuse, refuse_count, settle, whole_of};
use tclv_value::{At, Store, ValueFault};

// What a word of `lseq` says of the numbers beside it.
enum Link {
    // From a start up to an end.
    To,
    // So many from a start on.
    Count,
    // The step follows.
    By,
    // Nothing: it is a number, or no word of the command.
    Other,
}

// Refuses a number of more than 64 bits.
fn refuse_large(store: &mut Store) -> CmdFault
    ensures grows { Grows store.old store.new }
    ensures refused { Refused {A = List ℕ} too_large result store.old.stack store.new.stack }
{
    refuse(
        store,
        MessageId::IntegerTooLarge,
        b"",
        "ARITH IOVERFLOW {integer value too large to represent}",
    )
}

// Pushes the list of so many numbers from a start on.
fn push_sequence(store: &mut Store, start: i64, step: i64, count: u128) -> Result<(), CmdFault>
    ensures { Leaves (sequence_of start step count) store.old store.new result }
{
    if count > 1 << 62 {
        return Err(refuse(store, MessageId::ListTooLong, b"", "NONE"));
    }
    match store.push_seq(start, step, count as u64) {
        Ok(()) => Ok(()),
        Err(ValueFault::TooLarge) => Err(refuse_large(store)),
        Err(ValueFault::NoMemory) => Err(CmdFault::NoMemory),
        Err(_) => unreachable!(),
    }
}

// How many numbers there are from one up to another, at steps of a size.
fn count_within(low: i64, high: i64, size: u64) -> u128
    ensures { result ≡ count_within (high -ℤ low) size }
{
    if size == 0 || high < low {
        return 0;
    }
    (high.abs_diff(low) / size) as u128 + 1
}

// How many numbers there are from a start on that don't pass the end.
fn count_to(start: i64, end: i64, step: i64) -> u128
    ensures { result ≡ count_to start end step }
{
    if step < 0 {
        count_within(end, start, step.unsigned_abs())
    } else {
        count_within(start, end, step.unsigned_abs())
    }
}

// The step where none is given.
fn step_towards(start: i64, end: i64) -> i64
    ensures { result ≡ step_towards start end }
{
    if end < start { -1 } else { 1 }
}

// How many numbers a count asks for.
fn count_at(count: i64, step: i64) -> u64
    ensures { result ≡ if int_eq step (pos 0) then 0 else raised count }
{
    if step == 0 || count < 0 {
        return 0;
    }
    count as u64
}

// The number that a word is, or another where there is no word.
fn whole_or(store: &mut Store, otherwise: i64, at: Option<usize>) -> Result<i64, CmdFault>
    requires { IfSome at (λ k. k < length store.old.stack) }
    ensures { Reads (whole_or otherwise (word_at store.old.stack at)) (λ (z x : ℤ). x ≡ z)
        store.old store.new result }
{
    match at {
        Some(at) => whole_of(store, at),
        None => Ok(otherwise),
    }
}

// The step from a start to an end, which a word is or which is taken where there is none.
fn step_of(store: &mut Store, start: i64, end: i64, at: Option<usize>) -> Result<i64, CmdFault>
    requires { IfSome at (λ k. k < length store.old.stack) }
    ensures { Reads (whole_or (step_towards start end) (word_at store.old.stack at)) (λ (z x : ℤ). x ≡ z)
        store.old store.new result }
{
    whole_or(store, step_towards(start, end), at)
}

// Pushes the list of the numbers from a start on that don't pass the end.
fn push_up_to(store: &mut Store, start: i64, end: i64, step: i64) -> Result<(), CmdFault>
    ensures { Leaves (up_to start end step) store.old store.new result }
{
    push_sequence(store, start, step, count_to(start, end, step))
}

// Pushes the list of the numbers from a start up to an end, at the step that a word is.
fn push_from(store: &mut Store, start: i64, end: i64, step: Option<usize>) -> Result<(), CmdFault>
    requires { IfSome step (λ k. k < length store.old.stack) }
    ensures { Leaves (stepping start end (word_at store.old.stack step)) store.old store.new result }
{
    let step = step_of(store, start, end, step)?;
    push_up_to(store, start, end, step)
}

// Pushes the list of the numbers that words describe by a start and an end.
fn push_between(
    store: &mut Store,
    start: usize,
    end: usize,
    step: Option<usize>,
) -> Result<(), CmdFault>
    requires start { start < length store.old.stack }
    requires end { end < length store.old.stack }
    requires step { IfSome step (λ k. k < length store.old.stack) }
    ensures { Leaves (from_to (slice_index_or store.old.stack start []) (slice_index_or store.old.stack end [])
        (word_at store.old.stack step)) store.old store.new result }
{
    let start = whole_of(store, start)?;
    let end = whole_of(store, end)?;
    push_from(store, start, end, step)
}

// Pushes the list of so many numbers from a start on.
fn push_counting(
    store: &mut Store,
    start: Option<usize>,
    count: usize,
    step: Option<usize>,
) -> Result<(), CmdFault>
    requires start { IfSome start (λ k. k < length store.old.stack) }
    requires count { count < length store.old.stack }
    requires step { IfSome step (λ k. k < length store.old.stack) }
    ensures { Leaves (counting (word_at store.old.stack start) (slice_index_or store.old.stack count [])
        (word_at store.old.stack step)) store.old store.new result }
{
    let start = whole_or(store, 0, start)?;
    let count = whole_of(store, count)?;
    let step = whole_or(store, 1, step)?;
    push_sequence(store, start, step, count_at(count, step) as u128)
}

// Whether the text of a word, which is made, is this one.
fn is_literal(store: &Store, at: usize, literal: &str) -> bool
    requires place { at < length store.now.stack }
    requires made { IsMade store.now (Stack at) }
    ensures { result ≡ is_literal literal.now (slice_index_or store.now.stack at []) }
{
    match store.text(At::Stack(at)) {
        Some(text) => text == literal.as_bytes(),
        None => unreachable!(),
    }
}

// What a word, which is made, says of the numbers beside it.
fn link_of(store: &Store, at: usize) -> Link
    requires place { at < length store.now.stack }
    requires made { IsMade store.now (Stack at) }
    ensures { result ≡ link_of (slice_index_or store.now.stack at []) }
{
    if is_literal(store, at, "..") || is_literal(store, at, "to") {
        Link::To
    } else if is_literal(store, at, "count") {
        Link::Count
    } else if is_literal(store, at, "by") {
        Link::By
    } else {
        Link::Other
    }
}

// The same of a word that may not be made.
fn read_link(store: &mut Store, at: usize) -> Result<Link, CmdFault>
    requires { at < length store.old.stack }
    ensures link { IfOk result (λ link. link ≡ link_of (slice_index_or store.old.stack at [])) }
    ensures fault { IfErr result (λ kind. kind ≡ NoMemory) }
    ensures kept { KeepsTexts store.old store.new }
{
    make_word(store, at)?;
    Ok(link_of(store, at))
}

// Refuses words that no list of numbers has, where the word of the call is at a place.
fn refuse_form(store: &mut Store, call: usize) -> Result<(), CmdFault>
    requires { call < length store.old.stack }
    ensures { Leaves (lseq_count (slice_index_or store.old.stack call [])) store.old store.new result }
{
    Err(refuse_count(store, call, Usage::Lseq))
}

// Pushes the list that three words describe, which are the last ones below a height.
fn push_three(store: &mut Store, height: usize) -> Result<(), CmdFault>
    requires words { 3 ≤ height }
    requires height { height ≤ length store.old.stack }
    ensures { Leaves (three_words (slice_index_or store.old.stack (height - 3) []) (slice_index_or store.old.stack (height - 2) [])
        (slice_index_or store.old.stack (height - 1) [])) store.old store.new result }
{
    match read_link(store, height - 2)? {
        Link::By => push_counting(store, None, height - 3, Some(height - 1)),
        Link::To => push_between(store, height - 3, height - 1, None),
        Link::Count => push_counting(store, Some(height - 3), height - 1, None),
        Link::Other => push_between(store, height - 3, height - 2, Some(height - 1)),
    }
}

// Pushes the list that two numbers and a step behind `by` describe, or refuses the words.
fn push_by(store: &mut Store, height: usize) -> Result<(), CmdFault>
    requires words { 5 ≤ height }
    requires height { height ≤ length store.old.stack }
    ensures { Leaves (behind_by (link_of (slice_index_or store.old.stack (height - 2) []))
        (from_to (slice_index_or store.old.stack (height - 4) []) (slice_index_or store.old.stack (height - 3) [])
        (Some (slice_index_or store.old.stack (height - 1) [])))
        (lseq_count (slice_index_or store.old.stack (height - 5) []))) store.old store.new result }
{
    match read_link(store, height - 2)? {
        Link::By => push_between(store, height - 4, height - 3, Some(height - 1)),
        Link::To | Link::Count | Link::Other => refuse_form(store, height - 5),
    }
}

// Pushes the list that four words describe, or refuses them.
fn push_four(store: &mut Store, height: usize) -> Result<(), CmdFault>
    requires words { 5 ≤ height }
    requires height { height ≤ length store.old.stack }
    ensures { Leaves (four_words (slice_index_or store.old.stack (height - 5) []) (slice_index_or store.old.stack (height - 4) [])
        (slice_index_or store.old.stack (height - 3) []) (slice_index_or store.old.stack (height - 2) [])
        (slice_index_or store.old.stack (height - 1) [])) store.old store.new result }
{
    match read_link(store, height - 3)? {
        Link::To => push_between(store, height - 4, height - 2, Some(height - 1)),
        Link::Count => push_counting(store, Some(height - 4), height - 2, Some(height - 1)),
        Link::By => push_by(store, height),
        Link::Other => push_by(store, height),
    }
}

// Pushes the list that `a op b by s` describes, or refuses the words.
fn push_linked(store: &mut Store, height: usize) -> Result<(), CmdFault>
    requires words { 6 ≤ height }
    requires height { height ≤ length store.old.stack }
    ensures { Leaves (linked (link_of (slice_index_or store.old.stack (height - 4) []))
        (slice_index_or store.old.stack (height - 5) []) (slice_index_or store.old.stack (height - 3) [])
        (Some (slice_index_or store.old.stack (height - 1) []))
        (lseq_count (slice_index_or store.old.stack (height - 6) []))) store.old store.new result }
{
    match read_link(store, height - 4)? {
        Link::To => push_between(store, height - 5, height - 3, Some(height - 1)),
        Link::Count => push_counting(store, Some(height - 5), height - 3, Some(height - 1)),
        Link::By | Link::Other => refuse_form(store, height - 6),
    }
}

// Pushes the list that five words describe, or refuses them.
fn push_five(store: &mut Store, height: usize) -> Result<(), CmdFault>
    requires words { 6 ≤ height }
    requires height { height ≤ length store.old.stack }
    ensures { Leaves (five_words (slice_index_or store.old.stack (height - 6) []) (slice_index_or store.old.stack (height - 5) [])
        (slice_index_or store.old.stack (height - 4) []) (slice_index_or store.old.stack (height - 3) [])
        (slice_index_or store.old.stack (height - 2) []) (slice_index_or store.old.stack (height - 1) [])) store.old store.new result }
{
    match read_link(store, height - 2)? {
        Link::By => push_linked(store, height),
        Link::To | Link::Count | Link::Other => refuse_form(store, height - 6),
    }
}

// Pushes the list that the words on top describe, or refuses them.
fn push_numbers(store: &mut Store, n: usize) -> Result<(), CmdFault>
    requires { n + 1 ≤ length store.old.stack }
    ensures { Leaves (row_lseq (call_word n store.old.stack) (top n store.old.stack)) store.old store.new result }
{
    let height = store.height();
    if n == 1 {
        return push_counting(store, None, height - 1, None);
    }
    if n == 2 {
        return push_between(store, height - 2, height - 1, None);
    }
    if n == 3 {
        return push_three(store, height);
    }
    if n == 4 {
        return push_four(store, height);
    }
    if n == 5 {
        return push_five(store, height);
    }
    refuse_form(store, height - n - 1)
}

/// `lseq n ??op? n ??by? n??`: the list of the whole numbers that the words describe. `lseq n` has so many from 0
/// on. `lseq a b` and `lseq a op b`, with `..` or `to`, go from the first number on as far as they don't pass the
/// other; `lseq a count n` has so many from the first on. A step, with `by` before it or without, stands behind,
/// also behind the count alone with `by`. Without one it is 1, or -1 from a number down to a lower one. A step of 0
/// or away from the end and a count below 0 give the empty list. Refuses other words, then a word in place of a
/// number that is no whole number of 64 bits, from the left, then more than 2^62 elements, and then an element of
/// more than 64 bits. (Tcl: lseq(n).)
pub fn cmd_lseq(store: &mut Store, n: usize) -> Result<(), CmdFault>
    requires { n + 1 ≤ length store.old.stack }
    ensures { Answers (row_lseq (call_word n store.old.stack) (top n store.old.stack)) n
        store.old store.new result }
{
    let height = store.height();
    let done = push_numbers(store, n);
    settle(store, n, height, done)
}
