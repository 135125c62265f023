// The subcommands of `string` that compare texts: `equal`, `compare` and `match`.
ghost use Rattle.std.specs.Prelude.{◌≡◌, ◌+◌, ◌-◌, ◌<◌, ◌≤◌, ℤ, Bool, [], length, take, drop, IfOk, OnOk, OnErr, slice_index_or};
ghost use Rattle.std.specs.Ordering.{nat_cmp};
ghost use Rattle.std.specs.Cmp.Lexicographic.{slice_cmp};
ghost use Rattle.std.specs.Str.{chars};
ghost use Rattle.tclv_text.specs.Texts.{IsText};
ghost use Rattle.tclv_text.specs.Globs.{folded, matches};
ghost use Rattle.tclv_model.specs.Rows.{Gives, and_then, wrong_count};
ghost use Rattle.tclv_model.specs.Usages.{usage_of};
ghost use Rattle.tclv_value.specs.Stacks.{top};
ghost use Rattle.tclv_value.specs.View.{IsMade};
ghost use Rattle.tclv_value.specs.declared.places.At.TheVariants.{Stack};
ghost use Rattle.tclv_value.specs.Changes.{Pushes, KeepsTexts};
ghost use Rattle.tclv_reply.specs.Replies.{call_word, Answers, Reads, Leaves};
ghost use Rattle.tclv_strings.specs.Comparing as spec;

use crate::characters::{first_points, split_first};
use crate::words::{make_two, push_truth, read_nocase};
use std::cmp::Ordering;
use tclv_model::{CmdFault, Usage};
use tclv_reply::{push_number, refuse_count, refuse_words, settle, whole_of, word_at, word_is};
use tclv_text::{NoMemory, fold_char, glob_match, is_same_text};
use tclv_value::Store;

/// How two texts are compared.
#[derive(Clone, Copy, Debug, PartialEq, Eq)]
pub(crate) struct ComparedAs {
    /// Whether case counts for nothing.
    pub nocase: bool,
    /// How many code points count, if not all do.
    pub len: Option<i64>,
}

/// What is said of two texts.
#[derive(Clone, Copy, Debug, PartialEq, Eq)]
pub(crate) enum Verdict {
    /// Whether they are the same.
    Equality,
    /// Which one comes first.
    Order,
}

// The usage of the subcommand that says so.
fn usage_for(verdict: Verdict) -> Usage
    ensures { result ≡ spec.verdict_usage verdict }
{
    match verdict {
        Verdict::Equality => Usage::StringEqual,
        Verdict::Order => Usage::StringCompare,
    }
}

// What the options say, which are the words from one place up to another.
fn comparison(
    store: &mut Store,
    verdict: Verdict,
    call: usize,
    from: usize,
    to: usize,
) -> Result<ComparedAs, CmdFault>
    requires call { call < length store.old.stack }
    requires order { from ≤ to }
    requires within { to ≤ length store.old.stack }
    ensures { Reads (spec.comparison_read (spec.verdict_count verdict (slice_index_or store.old.stack call []))
        (take (to - from) (drop from store.old.stack)) spec.compared_whole) (λ x y. y ≡ x)
        store.old store.new result }
{
    let mut nocase = false;
    let mut len = None;
    let mut at = from;
    'words: while at < to {
        if word_is(store, at, "-length")? {
            if at + 1 == to {
                return Err(refuse_count(store, call, usage_for(verdict)));
            }
            let n = whole_of(store, at + 1)?;
            len = Some(n);
            at += 2;
        } else {
            nocase = read_nocase(store, at)?;
            at += 1;
        }
    }
    Ok(ComparedAs { nocase, len })
}

// The part of a text that counts.
fn part_compared(text: &[u8], len: Option<i64>) -> &[u8]
    requires { IsText text.now }
    ensures text { chars result.now ≡ spec.part_compared len (chars text.now) }
    ensures utf8 { IsText result.now }
{
    match len {
        Some(n) => {
            if n < 0 {
                return text;
            }
            first_points(text, n as usize)
        }
        None => text,
    }
}

// Which of two texts comes first, by the first code points that differ, in lower case where case counts for nothing.
fn order_of(one: &[u8], other: &[u8], nocase: bool) -> Ordering
    requires one { IsText one.now }
    requires other { IsText other.now }
    ensures { result ≡ slice_cmp nat_cmp (folded nocase (chars one.now)) (folded nocase (chars other.now)) }
{
    let mut one_left = one;
    let mut other_left = other;
    while let Some((c, behind)) = split_first(one_left) {
        let Some((d, rest)) = split_first(other_left) else {
            return Ordering::Greater;
        };
        match fold_char(c, nocase).cmp(&fold_char(d, nocase)) {
            Ordering::Less => return Ordering::Less,
            Ordering::Greater => return Ordering::Greater,
            Ordering::Equal => {
                one_left = behind;
                other_left = rest;
            }
        }
    }
    if other_left.is_empty() {
        Ordering::Equal
    } else {
        Ordering::Less
    }
}

// The number that tells an order.
fn order_number(order: Ordering) -> i64
    ensures { result ≡ spec.order_number order }
{
    match order {
        Ordering::Less => -1,
        Ordering::Equal => 0,
        Ordering::Greater => 1,
    }
}

// Whether two texts are the same.
fn are_equal(x: ComparedAs, one: &[u8], other: &[u8]) -> bool
    requires one { IsText one.now }
    requires other { IsText other.now }
    ensures { result ≡ spec.are_equal x (chars one.now) (chars other.now) }
{
    let first = part_compared(one, x.len);
    let second = part_compared(other, x.len);
    is_same_text(first, second, x.nocase)
}

// Which of two texts comes first.
fn order_of_texts(x: ComparedAs, one: &[u8], other: &[u8]) -> Ordering
    requires one { IsText one.now }
    requires other { IsText other.now }
    ensures { result ≡ spec.order_of_texts x (chars one.now) (chars other.now) }
{
    let first = part_compared(one, x.len);
    let second = part_compared(other, x.len);
    order_of(first, second, x.nocase)
}

// Pushes what is said of two texts.
fn push_said(
    store: &mut Store,
    verdict: Verdict,
    x: ComparedAs,
    one: usize,
    other: usize,
) -> Result<(), NoMemory>
    requires one { one < length store.old.stack }
    requires other { other < length store.old.stack }
    requires one_made { IsMade store.old (Stack one) }
    requires other_made { IsMade store.old (Stack other) }
    ensures pushed { OnOk result (Pushes store.old (spec.verdict_on verdict x
        (slice_index_or store.old.stack one []) (slice_index_or store.old.stack other [])) store.new) }
    ensures kept { OnErr result (KeepsTexts store.old store.new) }
{
    match verdict {
        Verdict::Equality => {
            let equal = are_equal(x, word_at(store, one), word_at(store, other));
            push_truth(store, equal)
        }
        Verdict::Order => {
            let order = order_of_texts(x, word_at(store, one), word_at(store, other));
            push_number(store, order_number(order))
        }
    }
}

// Pushes what is said of the texts of two words.
fn push_verdict(
    store: &mut Store,
    verdict: Verdict,
    x: ComparedAs,
    one: usize,
    other: usize,
) -> Result<(), CmdFault>
    requires one { one < length store.old.stack }
    requires other { other < length store.old.stack }
    ensures { Leaves (Gives (spec.verdict_on verdict x (slice_index_or store.old.stack one [])
        (slice_index_or store.old.stack other []))) store.old store.new result }
{
    make_two(store, one, other)?;
    push_said(store, verdict, x, one, other)?;
    Ok(())
}

// Pushes the answer of a call whose options and two texts stand from one place up to another.
fn push_compared(
    store: &mut Store,
    verdict: Verdict,
    call: usize,
    from: usize,
    to: usize,
) -> Result<(), CmdFault>
    requires call { call < length store.old.stack }
    requires words { from + 2 ≤ to }
    requires within { to ≤ length store.old.stack }
    ensures { Leaves (spec.compared_by verdict (slice_index_or store.old.stack call [])
        (take (to - 2 - from) (drop from store.old.stack)) (slice_index_or store.old.stack (to - 2) [])
        (slice_index_or store.old.stack (to - 1) [])) store.old store.new result }
{
    let x = comparison(store, verdict, call, from, to - 2)?;
    push_verdict(store, verdict, x, to - 2, to - 1)
}

/// `string equal ?-nocase? ?-length int? string1 string2`: 1 where the strings are the same, else 0; and `compare`
/// likewise: -1, 0 or 1 as the first comes before the second by code points, is the same, or comes behind it. With
/// `-nocase` ASCII letters count in lower case. With `-length` only so many code points count; a negative number counts
/// for nothing. Refuses from the left an option that is none, a `-length` without a value and one whose value is no whole
/// number. (Tcl: string(n).)
pub(crate) fn string_compare(store: &mut Store, n: usize, verdict: Verdict) -> Result<(), CmdFault>
    requires { n + 1 ≤ length store.old.stack }
    ensures { Answers (spec.row_compare verdict (call_word n store.old.stack) (top n store.old.stack)) n
        store.old store.new result }
{
    if n < 3 {
        return refuse_words(store, n, usage_for(verdict));
    }
    if n > 6 {
        return refuse_words(store, n, usage_for(verdict));
    }
    let height = store.height();
    let done = push_compared(store, verdict, height - n - 1, height - n + 1, height);
    settle(store, n, height, done)
}

// Pushes whether a word fits another one as a glob.
fn push_match(store: &mut Store, nocase: bool, pattern: usize, text: usize) -> Result<(), CmdFault>
    requires pattern { pattern < length store.old.stack }
    requires text { text < length store.old.stack }
    ensures { Leaves (Gives (spec.truth_digit (matches nocase (slice_index_or store.old.stack pattern [])
        (slice_index_or store.old.stack text [])))) store.old store.new result }
{
    make_two(store, pattern, text)?;
    let fits = glob_match(word_at(store, pattern), word_at(store, text), nocase);
    push_truth(store, fits)?;
    Ok(())
}

// Pushes whether a word fits another one as a glob, with a word as the option.
fn push_match_with(
    store: &mut Store,
    option: usize,
    pattern: usize,
    text: usize,
) -> Result<(), CmdFault>
    requires option { option < length store.old.stack }
    requires pattern { pattern < length store.old.stack }
    requires text { text < length store.old.stack }
    ensures { Leaves (and_then (spec.nocase_read (slice_index_or store.old.stack option []))
        (λ b. Gives (spec.truth_digit (matches b (slice_index_or store.old.stack pattern [])
        (slice_index_or store.old.stack text []))))) store.old store.new result }
{
    let nocase = read_nocase(store, option)?;
    push_match(store, nocase, pattern, text)
}

/// `string match ?-nocase? pattern string`: 1 where the pattern fits the string as a glob, else 0. With `-nocase` ASCII
/// letters of both count in lower case. Refuses another option. (Tcl: string(n).)
pub(crate) fn string_match(store: &mut Store, n: usize) -> Result<(), CmdFault>
    requires { n + 1 ≤ length store.old.stack }
    ensures { Answers (spec.row_match (call_word n store.old.stack) (top n store.old.stack)) n
        store.old store.new result }
{
    let height = store.height();
    match n {
        3 => {
            let done = push_match(store, false, height - 2, height - 1);
            settle(store, n, height, done)
        }
        4 => {
            let done = push_match_with(store, height - 3, height - 2, height - 1);
            settle(store, n, height, done)
        }
        _ => refuse_words(store, n, Usage::StringMatch),
    }
}
