// The command that sorts a list.
ghost use Rattle.std.specs.Prelude.{◌≡◌, ℤ, ◌+◌, ◌-◌, ◌<◌, ◌≤◌, [], ◌∷◌, ◌++◌, length, take, drop, map, codes, OnOk, IfOk, Some, slice_index_or};
ghost use Rattle.std.specs.Option.{option_map, ForSome};
ghost use Rattle.std.specs.List.{All};
ghost use Rattle.std.specs.List.Sorted.{IsPermutation};
ghost use Rattle.std.specs.Str.{chars};
ghost use Rattle.tclv_text.specs.Texts.{IsText};
ghost use Rattle.tclv_text.specs.Quotes.{list_text};
ghost use Rattle.tclv_model.specs.declared.data_commands.CmdFault.TheVariants.{Message};
ghost use Rattle.tclv_model.specs.declared.messages.MessageId.TheVariants.{MissingSublistElement};
ghost use Rattle.tclv_model.specs.Message.{text_of};
ghost use Rattle.tclv_model.specs.Rows.{Gives, and_then};
ghost use Rattle.tclv_model.specs.Values.{whole_of};
ghost use Rattle.tclv_value.specs.Stacks.{top};
ghost use Rattle.tclv_reply.specs.Replies.{call_word, Answers, Grows, Tells, Reads, Leaves};
ghost use Rattle.tclv_reply.specs.Options.{AreOptions};
ghost use Rattle.tclv_lists.specs.Sorting as spec;
ghost use Rattle.tclv_lists.specs.Sorting.{AreEntries};

use crate::points::{Points, points_of};
use std::alloc::Global;
use std::cmp::Ordering;
use tclv_model::{CmdFault, MessageId, Usage};
use tclv_reply::{
    OptionWords, Settings, copy_of, elements_of, place_among, push_all, push_ascii, push_message,
    push_word, read_options, refuse, refuse_words, settle,
};
use tclv_text::{NoMemory, Text, WholeFault, as_str, whole};
use tclv_value::Store;

/// As what keys are compared.
#[derive(Clone, Copy, Debug, PartialEq, Eq)]
pub(crate) enum Comparison {
    /// As texts, by their code points.
    Ascii,
    /// As whole numbers.
    Integer,
}

/// Which key goes first.
#[derive(Clone, Copy, Debug, PartialEq, Eq)]
pub(crate) enum Direction {
    /// The smaller one.
    Increasing,
    /// The larger one.
    Decreasing,
}

/// What the options of `lsort` say that have no value.
#[derive(Clone, Copy, Debug, PartialEq, Eq)]
pub(crate) struct Order {
    /// As what keys are compared.
    pub comparison: Comparison,
    /// Whether case counts for nothing in texts.
    pub nocase: bool,
    /// Which key goes first.
    pub direction: Direction,
    /// Whether only the last of equals is kept.
    pub unique: bool,
}

/// An option without a value.
#[derive(Clone, Copy, Debug, PartialEq, Eq)]
pub(crate) enum OrderOption {
    /// Compare as texts.
    Ascii,
    /// Compare as whole numbers.
    Integer,
    /// Case counts for nothing.
    Nocase,
    /// The smaller first.
    Increasing,
    /// The larger first.
    Decreasing,
    /// Keep only the last of equals.
    Unique,
}

/// What an element is compared by.
#[derive(Drop)]
pub(crate) enum Key {
    /// A whole number.
    Number(i64),
    /// The code points of a text.
    Word(Points),
}

/// An element that is sorted: its key, and its place on the stack.
#[derive(Drop)]
pub(crate) struct Entry {
    /// What it is compared by.
    pub key: Key,
    /// Its place on the stack.
    pub at: usize,
}

fn compare_keys(a: &Key, b: &Key) -> Ordering
    ensures { result ≡ spec.key_cmp a.now b.now }
{
    match (a, b) {
        (Key::Number(m), Key::Number(n)) => m.cmp(n),
        (Key::Word(t), Key::Word(u)) => t.compare(u),
        (Key::Number(_), Key::Word(_)) => Ordering::Less,
        (Key::Word(_), Key::Number(_)) => Ordering::Greater,
    }
}

fn compare_entries(direction: Direction, a: &Entry, b: &Entry) -> Ordering
    ensures { result ≡ spec.order_of direction a.now.key b.now.key }
{
    match direction {
        Direction::Increasing => compare_keys(&a.key, &b.key),
        Direction::Decreasing => compare_keys(&b.key, &a.key),
    }
}

// Puts elements in order, where equals stay as they stand.
fn sort_entries(entries: &mut Vec<Entry>, direction: Direction) -> Result<(), NoMemory>
    ensures same { IsPermutation entries.old.items entries.new.items }
    ensures sorted { OnOk result (entries.new.items ≡ spec.in_order (spec.entry_before direction) entries.old.items) }
{
    entries.sort_by(|a, b| compare_entries(direction, a, b))?;
    Ok(())
}

// The option of these bytes.
fn order_option(word: &[u8]) -> Option<OrderOption>
    requires { IsText word.now }
    ensures { result ≡ spec.order_option word.now }
{
    match as_str(word) {
        "-ascii" => Some(OrderOption::Ascii),
        "-integer" => Some(OrderOption::Integer),
        "-nocase" => Some(OrderOption::Nocase),
        "-increasing" => Some(OrderOption::Increasing),
        "-decreasing" => Some(OrderOption::Decreasing),
        "-unique" => Some(OrderOption::Unique),
        _ => None,
    }
}

impl Order {
    // Without options.
    fn plain() -> Order
        ensures { result ≡ spec.plain_order }
    {
        Order {
            comparison: Comparison::Ascii,
            nocase: false,
            direction: Direction::Increasing,
            unique: false,
        }
    }

    // The same after an option.
    fn with(self, option: OrderOption) -> Order
        ensures { result ≡ spec.with_order_option self option }
    {
        let mut order = self;
        match option {
            OrderOption::Ascii => order.comparison = Comparison::Ascii,
            OrderOption::Integer => order.comparison = Comparison::Integer,
            OrderOption::Nocase => order.nocase = true,
            OrderOption::Increasing => order.direction = Direction::Increasing,
            OrderOption::Decreasing => order.direction = Direction::Decreasing,
            OrderOption::Unique => order.unique = true,
        }
        order
    }
}

// The option that a word is.
fn option_of(word: &[u8]) -> Option<OrderOption>
    requires { IsText word.now }
    ensures { result ≡ spec.order_option (chars word.now) }
{
    order_option(word)
}

impl Settings for Order {
    ghost after = { spec.order_after };

    fn after(self, word: &[u8]) -> Option<Order> {
        match option_of(word) {
            Some(option) => Some(self.with(option)),
            None => None,
        }
    }
}

// What the options say, which are the words from one place up to another, and where the index is that names the
// key in an element.
fn order_options(
    store: &mut Store,
    call: usize,
    from: usize,
    to: usize,
) -> Result<(Order, Option<usize>), CmdFault>
    requires call { call < length store.old.stack }
    requires order { from ≤ to }
    requires within { to ≤ length store.old.stack }
    ensures { Reads (spec.order_options (slice_index_or store.old.stack call [])
        (take (to - from) (drop from store.old.stack))) (AreOptions store.old.stack)
        store.old store.new result }
{
    let words = OptionWords { call, from, to };
    read_options(store, words, Order::plain(), "-index", Usage::Lsort)
}

// Pushes the message that an element has no element at an index, and the code NONE.
fn push_missing(store: &mut Store, index: usize, at: usize) -> Result<(), NoMemory>
    requires index { index < length store.old.stack }
    requires at { at < length store.old.stack }
    ensures grows { Grows store.old store.new }
    ensures pushed { OnOk result (store.new.stack ≡ store.old.stack ++
        (text_of MissingSublistElement (slice_index_or store.old.stack index []) (slice_index_or store.old.stack at [])
        ∷ codes "NONE" ∷ [])) }
{
    let first = copy_of(store, index)?;
    let second = copy_of(store, at)?;
    push_message(
        store,
        MessageId::MissingSublistElement,
        first.bytes(),
        second.bytes(),
    )?;
    push_ascii(store, "NONE")?;
    Ok(())
}

// Refuses with that message.
fn refuse_missing(store: &mut Store, index: usize, at: usize) -> CmdFault
    requires index { index < length store.old.stack }
    requires at { at < length store.old.stack }
    ensures grows { Grows store.old store.new }
    ensures tells { Tells Message result (text_of MissingSublistElement (slice_index_or store.old.stack index [])
        (slice_index_or store.old.stack at []) ∷ codes "NONE" ∷ []) store.old.stack store.new.stack }
{
    match push_missing(store, index, at) {
        Ok(()) => CmdFault::Message,
        Err(_) => CmdFault::NoMemory,
    }
}

// A copy of a text.
fn copied(alloc: Global, texts: &[Text], k: usize) -> Result<Text, NoMemory>
    requires { k < length texts.now }
    ensures { IfOk result (λ t. t ≡ slice_index_or texts.now k []) }
{
    texts[k].copy(alloc)
}

// The element of the list at a place that is at an index.
fn inner_text(store: &mut Store, index: usize, at: usize) -> Result<Text, CmdFault>
    requires index { index < length store.old.stack }
    requires at { at < length store.old.stack }
    ensures { Reads (spec.key_text (Some (slice_index_or store.old.stack index [])) (slice_index_or store.old.stack at []))
        (λ t x. x ≡ t) store.old store.new result }
{
    let elements = elements_of(store, at)?;
    match place_among(store, index, elements.all().len() as u64)? {
        Some(k) => {
            let text = copied(store.allocator(), elements.all(), k as usize)?;
            Ok(text)
        }
        None => Err(refuse_missing(store, index, at)),
    }
}

// The text of an element that is compared.
fn key_text(store: &mut Store, index: Option<usize>, at: usize) -> Result<Text, CmdFault>
    requires index { ForSome index (λ k. k < length store.old.stack) }
    requires at { at < length store.old.stack }
    ensures { Reads (spec.key_text (option_map (λ k. slice_index_or store.old.stack k []) index)
        (slice_index_or store.old.stack at [])) (λ t x. x ≡ t) store.old store.new result }
{
    match index {
        Some(index) => inner_text(store, index, at),
        None => {
            let text = copy_of(store, at)?;
            Ok(text)
        }
    }
}

// The whole number that a text is.
fn number_of(store: &mut Store, text: &[u8]) -> Result<i64, CmdFault>
    requires { IsText text.now }
    ensures { Reads (whole_of (chars text.now)) (λ (z x : ℤ). x ≡ z) store.old store.new result }
{
    match whole(text) {
        Ok(n) => Ok(n),
        Err(WholeFault::TooLarge) => Err(refuse(
            store,
            MessageId::IntegerTooLarge,
            b"",
            "ARITH IOVERFLOW {integer value too large to represent}",
        )),
        Err(WholeFault::NotWhole | WholeFault::FloatForm) => {
            Err(refuse(store, MessageId::NotInteger, text, "TCL VALUE NUMBER"))
        }
    }
}

// What a text is compared by.
fn key_read(store: &mut Store, order: Order, text: &[u8]) -> Result<Key, CmdFault>
    requires { IsText text.now }
    ensures { Reads (spec.key_read order.comparison order.nocase (chars text.now)) (λ k x. x ≡ k)
        store.old store.new result }
{
    match order.comparison {
        Comparison::Integer => {
            let number = number_of(store, text)?;
            Ok(Key::Number(number))
        }
        Comparison::Ascii => {
            let points = points_of(store.allocator(), text, order.nocase)?;
            Ok(Key::Word(points))
        }
    }
}

// What an element is compared by.
fn key_of(store: &mut Store, order: Order, index: Option<usize>, at: usize) -> Result<Key, CmdFault>
    requires index { ForSome index (λ k. k < length store.old.stack) }
    requires at { at < length store.old.stack }
    ensures { Reads (spec.key_of order (option_map (λ k. slice_index_or store.old.stack k []) index)
        (slice_index_or store.old.stack at [])) (λ k x. x ≡ k) store.old store.new result }
{
    let text = key_text(store, index, at)?;
    key_read(store, order, text.bytes())
}

// Adds the entry of an element.
fn add_entry(entries: &mut Vec<Entry>, key: Key, at: usize) -> Result<(), NoMemory>
    ensures { OnOk result (entries.new.items ≡ entries.old.items ++ record { key = key; at = at } ∷ []) }
{
    entries.push(Entry { key, at })?;
    Ok(())
}

// The elements that stand from one place up to another, with their keys.
fn read_entries(
    store: &mut Store,
    order: Order,
    index: Option<usize>,
    from: usize,
    to: usize,
) -> Result<Vec<Entry>, CmdFault>
    requires index { ForSome index (λ k. k < length store.old.stack) }
    requires order { from ≤ to }
    requires within { to ≤ length store.old.stack }
    ensures { Reads (spec.keyed order (option_map (λ k. slice_index_or store.old.stack k []) index)
        (take (to - from) (drop from store.old.stack)))
        (λ es x. AreEntries store.old.stack es x.items) store.old store.new result }
{
    let mut entries = Vec::new(store.allocator());
    for at in from..to {
        match key_of(store, order, index, at) {
            Ok(key) => add_entry(&mut entries, key, at)?,
            Err(kind) => return Err(kind),
        }
    }
    Ok(entries)
}

#[tactic(auto, using(crate::proofs::GivenLemmas::given_plain, crate::proofs::GivenLemmas::given_last))]
// Whether the element at a place is given: always, or where it is not the equal of the next.
fn is_given(entries: &[Entry], order: Order, k: usize) -> bool
    requires { k < length entries.now }
    ensures { result ≡ spec.is_given order.unique (spec.entry_before order.direction) (drop k entries.now) }
{
    if !order.unique {
        return true;
    }
    if k + 1 == entries.len() {
        return true;
    }
    compare_entries(order.direction, &entries[k], &entries[k + 1]).is_lt()
}

// Pushes the elements that are given, which are in order.
fn push_given(store: &mut Store, entries: &[Entry], order: Order) -> Result<(), NoMemory>
    requires { All (λ e. e.at < length store.old.stack) entries.now }
    ensures grows { Grows store.old store.new }
    ensures pushed { OnOk result (store.new.stack ≡ store.old.stack ++ map (spec.text_in store.old.stack)
        (spec.given order.unique (spec.entry_before order.direction) entries.now)) }
{
    for k in 0..entries.len() {
        if is_given(entries, order, k) {
            push_word(store, entries[k].at)?;
        }
    }
    Ok(())
}

// Pushes the list of the elements that stand from one place up to another, in order.
fn push_order(
    store: &mut Store,
    order: Order,
    index: Option<usize>,
    from: usize,
    to: usize,
) -> Result<(), CmdFault>
    requires index { ForSome index (λ k. k < length store.old.stack) }
    requires order { from ≤ to }
    requires within { to ≤ length store.old.stack }
    ensures { Leaves (and_then (spec.keyed order (option_map (λ k. slice_index_or store.old.stack k []) index)
        (take (to - from) (drop from store.old.stack))) (λ es. Gives (list_text (spec.sorted_texts order es))))
        store.old store.new result }
{
    let mut entries = read_entries(store, order, index, from, to)?;
    sort_entries(&mut entries, order.direction)?;
    let height = store.height();
    push_given(store, entries.as_slice(), order)?;
    let all = store.height();
    store.push_list(all - height)?;
    Ok(())
}

// Pushes the list of the elements of a list, in order.
fn push_sorted(
    store: &mut Store,
    order: Order,
    index: Option<usize>,
    list: usize,
) -> Result<(), CmdFault>
    requires index { ForSome index (λ k. k < length store.old.stack) }
    requires list { list < length store.old.stack }
    ensures { Leaves (spec.sorted_of order (option_map (λ k. slice_index_or store.old.stack k []) index)
        (slice_index_or store.old.stack list [])) store.old store.new result }
{
    let elements = elements_of(store, list)?;
    let from = store.height();
    push_all(store, elements.all())?;
    let to = store.height();
    push_order(store, order, index, from, to)
}

// Pushes the answer of a call whose words stand from one place up to another.
fn push_sort(store: &mut Store, call: usize, from: usize, to: usize) -> Result<(), CmdFault>
    requires call { call < length store.old.stack }
    requires words { from + 1 ≤ to }
    requires within { to ≤ length store.old.stack }
    ensures { Leaves (spec.row_lsort (slice_index_or store.old.stack call [])
        (take (to - from) (drop from store.old.stack))) store.old store.new result }
{
    let (order, index) = order_options(store, call, from, to - 1)?;
    push_sorted(store, order, index, to - 1)
}

/// `lsort ?option ...? list`: the list of the elements in order, where equals stay as they stand. The options are
/// `-ascii`, `-integer`, `-nocase`, `-increasing`, `-decreasing`, `-unique`, which keeps only the last of equals, and
/// `-index` with an index, by which the elements, which are lists then, are compared. By default texts are compared in
/// increasing order; the later of two that exclude each other counts. Refuses from the left an option that is none, an
/// `-index` without a value and one whose value has not the form of an index, and then a text that is no list and an
/// element that has no key. (Tcl: lsort(n).)
pub fn cmd_lsort(store: &mut Store, n: usize) -> Result<(), CmdFault>
    requires { n + 1 ≤ length store.old.stack }
    ensures { Answers (spec.row_lsort (call_word n store.old.stack) (top n store.old.stack)) n
        store.old store.new result }
{
    if n < 1 {
        return refuse_words(store, n, Usage::Lsort);
    }
    let height = store.height();
    let done = push_sort(store, height - n - 1, height - n, height);
    settle(store, n, height, done)
}
