// The words of `switch`: its options, the string and the clauses.
ghost use Rattle.std.specs.Prelude.{◌≡◌, ℕ, List, ◌+◌, ◌-◌, ◌<◌, ◌≤◌, [], ◌++◌, length, drop, false, IfOk, IfErr, slice_index_or, ◌%◌, if◌then◌else◌};
ghost use Rattle.std.specs.Str.{chars};
ghost use Rattle.tclv_text.specs.Texts.{IsText};
ghost use Rattle.tclv_value.specs.Changes.{KeepsTexts};
ghost use Rattle.tclv_value.specs.Stacks.{top};
ghost use Rattle.tclv_reply.specs.Replies.{Grows, Refused, call_word};
ghost use Rattle.tclv_ctl.specs.Steps.{Steps};
ghost use Rattle.tclv_ctl.specs.Switching.{leading, options, plain, clause_words, is_dash, pairs, clauses, choice, row_switch, manner_of, held_clauses, pushed_for, IsAskedAt, IsFrom, AreClausesAt, ReadsClauses, IsPlanOf, Plans};

use crate::words::is_word;
use tclv_model::{CmdFault, MessageId, Usage};
use tclv_reply::{
    Matching, make_word, push_elements, refuse_count, refuse_on, settle_refusal, word_at,
};
use tclv_text::{NoMemory, glob_match};
use tclv_value::{At, Store};

/// A clause of `switch`, by places of the stack.
#[derive(Clone, Copy, Debug, PartialEq, Eq)]
pub struct ClausePlaces {
    /// Where the pattern is.
    pub pattern: usize,
    /// Where the body is that runs, which is no `-`.
    pub body: usize,
}

/// What `switch` is asked for. All places are places of the stack.
#[derive(Drop)]
pub struct SwitchPlan {
    /// When a pattern fits.
    pub matching: Matching,
    /// Whether ASCII letters count in lower case.
    pub nocase: bool,
    /// Where the string is that is compared.
    pub string: usize,
    /// The clauses in order.
    pub clauses: Vec<ClausePlaces>,
}

/// What a word says where an option may stand.
#[derive(Clone, Copy, Debug, PartialEq, Eq)]
pub(crate) enum Leading {
    /// `-exact` or `-glob`.
    Compare(Matching),
    /// `-nocase`.
    NoCase,
    /// `--`.
    EndOfOptions,
    /// Another word that begins with `-`.
    Unknown,
    /// No option.
    Plain,
}

/// The options, and where the string is.
#[derive(Clone, Copy, Debug, PartialEq, Eq)]
pub(crate) struct AskedPlaces {
    matching: Matching,
    nocase: bool,
    string: usize,
}

// What a word says where an option may stand.
fn read_leading(word: &[u8]) -> Leading
    requires { IsText word.now }
    ensures { result ≡ leading (chars word.now) }
{
    if is_word(word, b"-exact") {
        Leading::Compare(Matching::Exact)
    } else if is_word(word, b"-glob") {
        Leading::Compare(Matching::Glob)
    } else if is_word(word, b"-nocase") {
        Leading::NoCase
    } else if is_word(word, b"--") {
        Leading::EndOfOptions
    } else if glob_match(b"-*", word, false) {
        Leading::Unknown
    } else {
        Leading::Plain
    }
}

// The same of a word at a place.
fn leading_at(store: &mut Store, at: usize) -> Result<Leading, NoMemory>
    requires { at < length store.old.stack }
    ensures says { IfOk result (λ x. x ≡ leading (slice_index_or store.old.stack at [])) }
    ensures kept { KeepsTexts store.old store.new }
{
    make_word(store, at)?;
    Ok(read_leading(word_at(store, at)))
}

// Reads the options among the words on top, which begin at a place.
fn read_options(store: &mut Store, first: usize) -> Result<AskedPlaces, CmdFault>
    requires { first + 2 ≤ length store.old.stack }
    ensures steps { Steps (options plain (drop first store.old.stack)) IsAskedAt store.old store.new result }
    ensures stack { IfOk result (λ _. store.new.stack ≡ store.old.stack) }
{
    let mut asked = AskedPlaces {
        matching: Matching::Exact,
        nocase: false,
        string: first,
    };
    for at in first..store.height() - 2 {
        match leading_at(store, at)? {
            Leading::Compare(matching) => asked.matching = matching,
            Leading::NoCase => asked.nocase = true,
            Leading::EndOfOptions => {
                return Ok(AskedPlaces {
                    string: at + 1,
                    ..asked
                });
            }
            Leading::Unknown => return Err(refuse_on(store, MessageId::BadOption, at, "NONE")),
            Leading::Plain => return Ok(AskedPlaces {
                string: at,
                ..asked
            }),
        }
    }
    asked.string = store.height() - 2;
    Ok(asked)
}

// Where the words of the clauses begin, which are the top ones then: the words behind the string, or
// the elements of the one word that is there.
fn clause_words(store: &mut Store, string: usize) -> Result<usize, CmdFault>
    requires { string + 2 ≤ length store.old.stack }
    ensures steps { Steps (clause_words (drop (string + 1) store.old.stack)) IsFrom
        store.old store.new result }
    ensures stack { IfOk result (λ _. store.new.stack ≡
        store.old.stack ++ held_clauses (drop (string + 1) store.old.stack)) }
{
    let height = store.height();
    let first = string + 1;
    if height - first > 1 {
        return Ok(first);
    }
    push_elements(store, At::Stack(first))?;
    Ok(height)
}

// Whether a word is `-`.
pub(crate) fn is_dash(store: &mut Store, at: usize) -> Result<bool, NoMemory>
    requires { at < length store.old.stack }
    ensures says { IfOk result (λ x. x ≡ is_dash (slice_index_or store.old.stack at [])) }
    ensures kept { KeepsTexts store.old store.new }
{
    make_word(store, at)?;
    Ok(is_word(word_at(store, at), b"-"))
}

// Where the body is that stands at a place, or the one behind it where that is `-`.
pub(crate) fn body_at(store: &mut Store, at: usize, behind: usize) -> Result<usize, NoMemory>
    requires { at < length store.old.stack }
    ensures body { IfOk result (λ body.
        body ≡ if is_dash (slice_index_or store.old.stack at []) then behind else at) }
    ensures kept { KeepsTexts store.old store.new }
{
    if is_dash(store, at)? {
        Ok(behind)
    } else {
        Ok(at)
    }
}

// The clauses of the top words, which begin at a place: patterns and bodies in turn, and the last
// body is no `-`.
fn pair_clauses(store: &mut Store, from: usize) -> Result<Vec<ClausePlaces>, NoMemory>
    requires some { from < length store.old.stack }
    requires even { (length store.old.stack - from) % 2 ≡ 0 }
    requires ended { is_dash (slice_index_or store.old.stack (length store.old.stack - 1) []) ≡ false }
    ensures clauses { IfOk result (λ found.
        AreClausesAt (pairs (drop from store.old.stack)) found.items store.new.stack) }
    ensures kept { KeepsTexts store.old store.new }
{
    let height = store.height();
    let mut body = height - 1;
    let mut found = Vec::new(store.allocator());
    for count in 0..(height - from) / 2 {
        let pattern = height - 2 * count - 2;
        body = body_at(store, pattern + 1, body)?;
        found.push(ClausePlaces { pattern, body })?;
    }
    found.reverse();
    Ok(found)
}

// Reads the clauses of the top words, which begin at a place.
fn read_clauses(store: &mut Store, from: usize) -> Result<Vec<ClausePlaces>, CmdFault>
    requires { from ≤ length store.old.stack }
    ensures grows { Grows store.old store.new }
    ensures gives { IfOk result (λ found. ReadsClauses (clauses (drop from store.old.stack)) found.items store.old store.new) }
    ensures refuses { IfErr result (λ kind.
        Refused (clauses (drop from store.old.stack)) kind store.old.stack store.new.stack) }
{
    let height = store.height();
    if height == from {
        return Ok(Vec::new(store.allocator()));
    }
    if (height - from) % 2 == 1 {
        return Err(refuse_on(
            store,
            MessageId::SwitchPatternWithoutBody,
            height - 1,
            "NONE",
        ));
    }
    if is_dash(store, height - 1)? {
        return Err(refuse_on(store, MessageId::NoBodyForPattern, height - 2, "NONE"));
    }
    let found = pair_clauses(store, from)?;
    Ok(found)
}

// Reads the clauses behind the string.
fn read_behind(store: &mut Store, asked: AskedPlaces) -> Result<SwitchPlan, CmdFault>
    requires { asked.string + 2 ≤ length store.old.stack }
    ensures steps { (call : List ℕ) → Steps (choice call (manner_of asked) (drop asked.string store.old.stack))
        IsPlanOf store.old store.new result }
    ensures stack { IfOk result (λ _. store.new.stack ≡
        store.old.stack ++ held_clauses (drop (asked.string + 1) store.old.stack)) }
{
    let from = clause_words(store, asked.string)?;
    let clauses = read_clauses(store, from)?;
    Ok(SwitchPlan {
        matching: asked.matching,
        nocase: asked.nocase,
        string: asked.string,
        clauses,
    })
}

// Reads the words on top, which begin at a place.
fn read_words(store: &mut Store, first: usize) -> Result<SwitchPlan, CmdFault>
    requires { first + 2 ≤ length store.old.stack }
    ensures steps { (call : List ℕ) → Steps (row_switch call (drop first store.old.stack))
        IsPlanOf store.old store.new result }
    ensures stack { IfOk result (λ _. store.new.stack ≡
        store.old.stack ++ pushed_for (options plain (drop first store.old.stack))) }
{
    let asked = read_options(store, first)?;
    read_behind(store, asked)
}

/// Reads the top `n` texts as the words of `switch` behind the word of the call, which lies below
/// them: options, the string, and clauses, each a pattern and a body. One word behind the string is
/// the list of them, and its elements, and nothing else, are then pushed above the words. A body `-`
/// is the next body that is no `-`. On `Ok` the words stay, and the plan's places have the texts that
/// it is about.
///
/// - `WrongArgs` comes where there are fewer than two words.
/// - `Message` comes, from the left, for an unknown option, for one word behind the string that is
///   no list, for a last pattern without a body, and for a last body that is `-`.
///
/// On these two the message and the error code take the words' place, and nothing is left above
/// them. After `NoMemory` every place has the text that it had. Options are read while two more
/// words follow, and of `-exact` and `-glob` the later one counts. (Tcl: switch(n).)
pub fn switch_clauses(store: &mut Store, n: usize) -> Result<SwitchPlan, CmdFault>
    requires { n + 1 ≤ length store.old.stack }
    ensures plans { Plans (row_switch (call_word n store.old.stack) (top n store.old.stack)) n
        store.old store.new result }
    ensures stack { IfOk result (λ _. store.new.stack ≡
        store.old.stack ++ pushed_for (options plain (top n store.old.stack))) }
{
    let height = store.height();
    if n < 2 {
        let kind = refuse_count(store, height - n - 1, Usage::Switch);
        return Err(settle_refusal(store, n, height, kind));
    }
    match read_words(store, height - n) {
        Ok(plan) => Ok(plan),
        Err(kind) => Err(settle_refusal(store, n, height, kind)),
    }
}
