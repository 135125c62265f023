// The command that searches a list.
ghost use Rattle.std.specs.Prelude.{◌≡◌, ◌+◌, ◌-◌, ◌<◌, ◌≤◌, [], ◌++◌, length, take, drop, map, min, OnOk, OnErr, slice_index_or};
ghost use Rattle.std.specs.Option.{option_map, ForSome};
ghost use Rattle.std.specs.Str.{chars};
ghost use Rattle.tclv_text.specs.Texts.{IsText};
ghost use Rattle.tclv_model.specs.Rows.{Gives};
ghost use Rattle.tclv_value.specs.Stacks.{top};
ghost use Rattle.tclv_value.specs.Changes.{Pushes, KeepsTexts};
ghost use Rattle.tclv_reply.specs.Replies.{call_word, Answers, Grows, Reads, Leaves};
ghost use Rattle.tclv_reply.specs.Options.{AreOptions};
ghost use Rattle.tclv_lists.specs.Searching as spec;

use tclv_model::{CmdFault, Usage};
use tclv_reply::{
    Matching, OptionWords, Settings, clipped_place, copy_of, elements_of, fits_pattern, push_bytes,
    push_count, push_number, read_options, refuse_words, settle,
};
use tclv_text::{NoMemory, Text, as_str};
use tclv_value::Store;

/// What the options of `lsearch` say that have no value.
#[derive(Clone, Copy, Debug, PartialEq, Eq)]
pub(crate) struct Search {
    /// How an element is compared with the pattern.
    pub matching: Matching,
    /// Whether case counts for nothing.
    pub nocase: bool,
    /// Whether those are looked for that don't fit.
    pub negated: bool,
    /// Whether all are given that are found, and not the first alone.
    pub all: bool,
    /// Whether elements are given, and not their places.
    pub inline: bool,
}

/// An option without a value.
#[derive(Clone, Copy, Debug, PartialEq, Eq)]
pub(crate) enum SearchOption {
    /// Compare with the pattern as it is.
    Exact,
    /// Compare by glob.
    Glob,
    /// Case counts for nothing.
    Nocase,
    /// Look for those that don't fit.
    Not,
    /// Give all.
    All,
    /// Give elements.
    Inline,
}

// The option of these bytes.
fn search_option(word: &[u8]) -> Option<SearchOption>
    requires { IsText word.now }
    ensures { result ≡ spec.search_option word.now }
{
    match as_str(word) {
        "-exact" => Some(SearchOption::Exact),
        "-glob" => Some(SearchOption::Glob),
        "-nocase" => Some(SearchOption::Nocase),
        "-not" => Some(SearchOption::Not),
        "-all" => Some(SearchOption::All),
        "-inline" => Some(SearchOption::Inline),
        _ => None,
    }
}

impl Search {
    // Without options.
    fn plain() -> Search
        ensures { result ≡ spec.plain_search }
    {
        Search {
            matching: Matching::Glob,
            nocase: false,
            negated: false,
            all: false,
            inline: false,
        }
    }

    // The same after an option.
    fn with(self, option: SearchOption) -> Search
        ensures { result ≡ spec.with_search_option self option }
    {
        let mut search = self;
        match option {
            SearchOption::Exact => search.matching = Matching::Exact,
            SearchOption::Glob => search.matching = Matching::Glob,
            SearchOption::Nocase => search.nocase = true,
            SearchOption::Not => search.negated = true,
            SearchOption::All => search.all = true,
            SearchOption::Inline => search.inline = true,
        }
        search
    }
}

// The option that a word is.
fn option_of(word: &[u8]) -> Option<SearchOption>
    requires { IsText word.now }
    ensures { result ≡ spec.search_option (chars word.now) }
{
    search_option(word)
}

impl Settings for Search {
    ghost after = { spec.search_after };

    fn after(self, word: &[u8]) -> Option<Search> {
        match option_of(word) {
            Some(option) => Some(self.with(option)),
            None => None,
        }
    }
}

// What the options say, which are the words from one place up to another, and where the index is from which on
// elements are looked for.
fn search_options(
    store: &mut Store,
    call: usize,
    from: usize,
    to: usize,
) -> Result<(Search, Option<usize>), CmdFault>
    requires call { call < length store.old.stack }
    requires order { from ≤ to }
    requires within { to ≤ length store.old.stack }
    ensures { Reads (spec.search_options (slice_index_or store.old.stack call [])
        (take (to - from) (drop from store.old.stack))) (AreOptions store.old.stack)
        store.old store.new result }
{
    let words = OptionWords { call, from, to };
    read_options(store, words, Search::plain(), "-start", Usage::Lsearch)
}

// Whether an element is one that is looked for.
fn is_wanted(search: Search, pattern: &[u8], text: &[u8]) -> bool
    requires pattern { IsText pattern.now }
    requires text { IsText text.now }
    ensures { result ≡ spec.is_wanted search (chars pattern.now) (chars text.now) }
{
    let found = fits_pattern(search.matching, search.nocase, pattern, text);
    if search.negated { !found } else { found }
}

// Pushes what is given of an element that is found.
fn push_one(store: &mut Store, inline: bool, place: usize, text: &[u8]) -> Result<(), NoMemory>
    requires { IsText text.now }
    ensures pushed { OnOk result (Pushes store.old (spec.shown_as inline (place, chars text.now)) store.new) }
    ensures kept { OnErr result (KeepsTexts store.old store.new) }
{
    if inline {
        push_bytes(store, text)
    } else {
        push_count(store, place as u64)
    }
}

// Pushes what is given where none is found.
fn push_none(store: &mut Store, inline: bool) -> Result<(), NoMemory>
    ensures pushed { OnOk result (Pushes store.old (spec.not_found inline) store.new) }
    ensures kept { OnErr result (KeepsTexts store.old store.new) }
{
    if inline {
        push_bytes(store, b"")
    } else {
        push_number(store, -1)
    }
}

// Pushes what is given of the elements that are found from a place on.
fn push_found(
    store: &mut Store,
    search: Search,
    pattern: &[u8],
    elements: &[Text],
    start: usize,
) -> Result<(), NoMemory>
    requires pattern { IsText pattern.now }
    requires start { start ≤ length elements.now }
    ensures grows { Grows store.old store.new }
    ensures pushed { OnOk result (store.new.stack ≡ store.old.stack ++
        map (spec.shown_as search.inline) (spec.wanted search (chars pattern.now) start elements.now)) }
{
    for k in start..elements.len() {
        let text = elements[k].bytes();
        if is_wanted(search, pattern, text) {
            push_one(store, search.inline, k, text)?;
        }
    }
    Ok(())
}

// Pushes what is given of the first that is found from a place on.
fn push_first(
    store: &mut Store,
    search: Search,
    pattern: &[u8],
    elements: &[Text],
    start: usize,
) -> Result<(), NoMemory>
    requires pattern { IsText pattern.now }
    requires start { start ≤ length elements.now }
    ensures pushed { OnOk result (Pushes store.old (spec.first_or (spec.not_found search.inline)
        (map (spec.shown_as search.inline) (spec.wanted search (chars pattern.now) start elements.now))) store.new) }
    ensures kept { OnErr result (KeepsTexts store.old store.new) }
{
    for k in start..elements.len() {
        let text = elements[k].bytes();
        if is_wanted(search, pattern, text) {
            return push_one(store, search.inline, k, text);
        }
    }
    push_none(store, search.inline)
}

// Pushes the answer of a search from a place on.
fn push_answer(
    store: &mut Store,
    search: Search,
    pattern: &[u8],
    elements: &[Text],
    start: usize,
) -> Result<(), CmdFault>
    requires pattern { IsText pattern.now }
    requires start { start ≤ length elements.now }
    ensures { Leaves (Gives (spec.found search.all search.inline
        (spec.wanted search (chars pattern.now) start elements.now))) store.old store.new result }
{
    if !search.all {
        push_first(store, search, pattern, elements, start)?;
        return Ok(());
    }
    let height = store.height();
    push_found(store, search, pattern, elements, start)?;
    let all = store.height();
    store.push_list(all - height)?;
    Ok(())
}

// The place from which on elements are looked for, which the word at a place names, as one from 0 up to the length.
fn start_of(store: &mut Store, index: Option<usize>, len: u64) -> Result<u64, CmdFault>
    requires { ForSome index (λ k. k < length store.old.stack) }
    ensures { Reads (spec.start_of (option_map (λ k. slice_index_or store.old.stack k []) index) len)
        (λ n x. x ≡ min n len) store.old store.new result }
{
    match index {
        Some(at) => clipped_place(store, at, len),
        None => Ok(0),
    }
}

// Pushes the answer of a search in a list.
fn push_searched(
    store: &mut Store,
    search: Search,
    index: Option<usize>,
    list: usize,
    pattern: usize,
) -> Result<(), CmdFault>
    requires index { ForSome index (λ k. k < length store.old.stack) }
    requires list { list < length store.old.stack }
    requires pattern { pattern < length store.old.stack }
    ensures { Leaves (spec.searched search (option_map (λ k. slice_index_or store.old.stack k []) index)
        (slice_index_or store.old.stack list []) (slice_index_or store.old.stack pattern []))
        store.old store.new result }
{
    let elements = elements_of(store, list)?;
    let from = start_of(store, index, elements.all().len() as u64)?;
    let text = copy_of(store, pattern)?;
    push_answer(store, search, text.bytes(), elements.all(), from as usize)
}

// Pushes the answer of a call whose words stand from one place up to another.
fn push_search(store: &mut Store, call: usize, from: usize, to: usize) -> Result<(), CmdFault>
    requires call { call < length store.old.stack }
    requires words { from + 2 ≤ to }
    requires within { to ≤ length store.old.stack }
    ensures { Leaves (spec.row_lsearch (slice_index_or store.old.stack call [])
        (take (to - from) (drop from store.old.stack))) store.old store.new result }
{
    let (search, index) = search_options(store, call, from, to - 2)?;
    push_searched(store, search, index, to - 2, to - 1)
}

/// `lsearch ?option ...? list pattern`: the place of the first element that fits the pattern, or -1. The options are
/// `-exact`, `-glob`, `-nocase`, `-not`, `-all`, `-inline` and `-start` with an index; by default the pattern is a glob,
/// and the later of two that exclude each other counts. With `-inline` it is the element, or empty, and with `-all` the
/// list of all. Refuses from the left an option that is none, a `-start` without a value and one whose value has not the
/// form of an index, and then a text that is no list. (Tcl: lsearch(n).)
pub fn cmd_lsearch(store: &mut Store, n: usize) -> Result<(), CmdFault>
    requires { n + 1 ≤ length store.old.stack }
    ensures { Answers (spec.row_lsearch (call_word n store.old.stack) (top n store.old.stack)) n
        store.old store.new result }
{
    if n < 2 {
        return refuse_words(store, n, Usage::Lsearch);
    }
    let height = store.height();
    let done = push_search(store, height - n - 1, height - n, height);
    settle(store, n, height, done)
}
