// The commands that change one element of a list in a variable.
ghost use Rattle.std.specs.Prelude.{◌≡◌, ℕ, List, ◌+◌, ◌-◌, ◌<◌, ◌≤◌, [], ◌∷◌, ◌++◌, length, take, drop, OnOk, OnErr, IfOk, IfErr, IfSome, IfNone, IsTrue, codes, slice_index_or};
ghost use Rattle.std.specs.Result.{ForOk};
ghost use Rattle.tclv_text.specs.Elements.{elements};
ghost use Rattle.tclv_model.specs.Rows.{and_then};
ghost use Rattle.tclv_model.specs.Values.{list_of};
ghost use Rattle.tclv_model.specs.declared.data_commands.VarState.TheVariants as var;
ghost use Rattle.tclv_value.specs.Stacks.{top};
ghost use Rattle.tclv_value.specs.Changes.{KeepsTexts, Pushes};
ghost use Rattle.tclv_value.specs.View.{HasPlace, text_at};
ghost use Rattle.tclv_value.specs.declared.places.At.TheVariants.{Stack, Cell};
ghost use Rattle.tclv_value.specs.SetObjects.{IsOpenAt};
ghost use Rattle.tclv_reply.specs.Replies.{call_word, Grows, Refused, Reads, HasName, variable_of, Changes, VarAnswers};
ghost use Rattle.tclv_lists.specs.Paths.{path_of, forms_of, put_along, Reaches};
ghost use Rattle.tclv_reply.specs.Variables.{both};
ghost use Rattle.tclv_lists.specs.Variables.{taken, place_in, IsPlaceIn, IsStored, Stores, SetsOpen, Sets, lset_of, row_lset, lpop_of, row_lpop};

use crate::paths::read_path;
use tclv_model::{CmdFault, Usage, VarState};
use tclv_reply::{
    check_index, give_text, list_len, place_inside, place_within, push_ascii, push_bytes,
    push_word, push_words, refuse_list, refuse_words, set_cell, settle,
};
use tclv_text::NoMemory;
use tclv_value::{At, Store, ValueFault};

// Checks the forms of the indices from one place up to another.
fn check_indices(store: &mut Store, from: usize, to: usize) -> Result<(), CmdFault>
    requires order { from ≤ to }
    requires within { to ≤ length store.old.stack }
    ensures { Reads (forms_of (take (to - from) (drop from store.old.stack))) (λ u x. Unit {0})
        store.old store.new result }
{
    for at in from..to {
        if let Err(kind) = check_index(store, at) {
            return Err(kind);
        }
    }
    Ok(())
}

// Pushes the text at the place of a list that an index names, which is empty behind the last.
fn step_along(store: &mut Store, list: usize, index: usize) -> Result<(), CmdFault>
    requires list { list < length store.old.stack }
    requires index { index < length store.old.stack }
    ensures { Reaches (slice_index_or store.old.stack list []) (slice_index_or store.old.stack index [])
        store.old store.new result }
{
    let len = list_len(store, At::Stack(list))?;
    let k = place_within(store, index, len)?;
    match store.push_element(At::Stack(list), k) {
        Ok(true) => Ok(()),
        Ok(false) => {
            push_bytes(store, b"")?;
            Ok(())
        }
        Err(fault) => Err(refuse_list(store, At::Stack(list), fault)),
    }
}

// Goes along the path of the indices from one place up to another, up to the first that refuses a value.
fn walk_along(store: &mut Store, list: usize, from: usize, to: usize) -> Result<(), CmdFault>
    requires list { list < length store.old.stack }
    requires order { from ≤ to }
    requires within { to ≤ length store.old.stack }
    ensures grows { Grows store.old store.new }
    ensures refuses { IfErr result (λ kind. (x : List ℕ) → Refused (put_along
        (slice_index_or store.old.stack list []) (take (to - from) (drop from store.old.stack)) x) kind
        store.old.stack store.new.stack) }
{
    let mut at = list;
    for index in from..to {
        match step_along(store, at, index) {
            Ok(()) => at = store.height() - 1,
            Err(kind) => return Err(kind),
        }
    }
    Ok(())
}

// Pushes the text of a cell.
fn push_cell(store: &mut Store, cell: u64) -> Result<(), NoMemory>
    requires { HasPlace store.old (Cell cell) }
    ensures pushed { OnOk result (Pushes store.old (text_at store.old (Cell cell)) store.new) }
    ensures kept { OnErr result (KeepsTexts store.old store.new) }
{
    store.push_copy(At::Cell(cell))
}

// Refuses a value that couldn't be put at the end of a path in the list of a cell.
fn refuse_along(store: &mut Store, cell: u64, from: usize, to: usize) -> CmdFault
    requires cell { HasPlace store.old (Cell cell) }
    requires order { from ≤ to }
    requires within { to ≤ length store.old.stack }
    ensures grows { Grows store.old store.new }
    ensures refused { (x : List ℕ) → Refused (put_along (text_at store.old (Cell cell))
        (take (to - from) (drop from store.old.stack)) x) result store.old.stack store.new.stack }
{
    let list = store.height();
    match push_cell(store, cell) {
        Ok(()) => {}
        Err(_) => return CmdFault::NoMemory,
    }
    match walk_along(store, list, from, to) {
        Ok(()) => CmdFault::NoMemory,
        Err(kind) => kind,
    }
}

// Makes a value the text of a cell.
fn set_whole(store: &mut Store, cell: u64, value: usize) -> Result<(), CmdFault>
    requires { value < length store.old.stack }
    ensures { Stores (both (slice_index_or store.old.stack value [])) (var.Cell cell) store.old store.new result }
{
    push_word(store, value)?;
    push_word(store, value)?;
    store.put_cell(cell)?;
    Ok(())
}

// Pushes a value, then the indices from one place up to another, and the value again.
fn push_path(store: &mut Store, from: usize, to: usize, value: usize) -> Result<(), NoMemory>
    requires order { from ≤ to }
    requires within { to ≤ length store.old.stack }
    requires value { value < length store.old.stack }
    ensures grows { Grows store.old store.new }
    ensures pushed { OnOk result (store.new.stack ≡ store.old.stack ++
        (slice_index_or store.old.stack value [] ∷ (take (to - from) (drop from store.old.stack)
        ++ slice_index_or store.old.stack value [] ∷ []))) }
{
    push_word(store, value)?;
    push_words(store, from, to)?;
    push_word(store, value)?;
    Ok(())
}

// Puts a value at the end of a path of some indices in the list of a cell.
fn try_put(
    store: &mut Store,
    cell: u64,
    from: usize,
    to: usize,
    value: usize,
) -> Result<(), ValueFault>
    requires cell { HasPlace store.old (Cell cell) }
    requires order { from < to }
    requires within { to ≤ length store.old.stack }
    requires value { value < length store.old.stack }
    ensures stored { OnOk result (IsStored (and_then (put_along (text_at store.old (Cell cell))
        (take (to - from) (drop from store.old.stack)) (slice_index_or store.old.stack value [])) both)
        (var.Cell cell) store.old store.new) }
    ensures grows { OnErr result (Grows store.old store.new) }
{
    push_path(store, from, to, value)?;
    store.list_set(At::Cell(cell), to - from)?;
    give_text(store, 1, cell);
    Ok(())
}

// Puts a value at the end of a path in the list of a cell. Without an index it is the whole.
fn put_value(
    store: &mut Store,
    cell: u64,
    from: usize,
    to: usize,
    value: usize,
) -> Result<(), CmdFault>
    requires cell { HasPlace store.old (Cell cell) }
    requires order { from ≤ to }
    requires within { to ≤ length store.old.stack }
    requires value { value < length store.old.stack }
    ensures { Stores (and_then (put_along (text_at store.old (Cell cell))
        (take (to - from) (drop from store.old.stack)) (slice_index_or store.old.stack value [])) both)
        (var.Cell cell) store.old store.new result }
{
    if from == to {
        return set_whole(store, cell, value);
    }
    match try_put(store, cell, from, to, value) {
        Ok(()) => Ok(()),
        Err(_fault) => Err(refuse_along(store, cell, from, to)),
    }
}

// Puts a value at the end of the path that the words from one place up to another name in a variable.
fn set_value(
    store: &mut Store,
    variable: VarState,
    name: usize,
    from: usize,
    to: usize,
    value: usize,
) -> Result<(), CmdFault>
    requires named { HasName variable 1 }
    requires name { name < length store.old.stack }
    requires order { from ≤ to }
    requires within { to ≤ length store.old.stack }
    requires value { value < length store.old.stack }
    ensures { Stores (lset_of (slice_index_or store.old.stack name [])
        (path_of (take (to - from) (drop from store.old.stack))) (slice_index_or store.old.stack value [])
        (variable_of variable store.old)) variable store.old store.new result }
{
    let (first, end) = read_path(store, from, to)?;
    match check_indices(store, first, end) {
        Ok(()) => {}
        Err(kind) => return Err(kind),
    }
    match set_cell(store, variable, name) {
        Ok(cell) => put_value(store, cell, first, end, value),
        Err(kind) => Err(kind),
    }
}

// Puts the last of n words at the end of the path of those between the first and it, which are taken as
// indices, in the list of a cell. Says whether they are such a path.
fn set_at_once(store: &mut Store, cell: u64, n: usize) -> Result<bool, NoMemory>
    requires cell { HasPlace store.old (Cell cell) }
    requires words { 2 < n }
    requires height { n ≤ length store.old.stack }
    ensures set { IfOk result (λ done. IsTrue done → Changes (lset_of
        (slice_index_or store.old.stack (length store.old.stack - n) [])
        (path_of (take (n - 2) (top (n - 1) store.old.stack)))
        (slice_index_or store.old.stack (length store.old.stack - 1) [])
        (variable_of (var.Cell cell) store.old)) (var.Cell cell) n store.old store.new) }
    ensures object { IfOk result (λ done. IsTrue done → SetsOpen store.old cell (n - 2) store.new) }
    ensures shut { IfOk result (λ done. (IsTrue done → ⊥) → IsOpenAt store.old (Cell cell) (n - 2) → ⊥) }
    ensures kept { IfOk result (λ done. (IsTrue done → ⊥) → KeepsTexts store.old store.new) }
    ensures memory { OnErr result (KeepsTexts store.old store.new) }
{
    match store.list_set(At::Cell(cell), n - 2) {
        Ok(()) => {
            give_text(store, 1, cell);
            Ok(true)
        }
        Err(ValueFault::NotList(_why)) => Ok(false),
        Err(ValueFault::BadIndex) => Ok(false),
        Err(ValueFault::OutOfRange(_level)) => Ok(false),
        Err(_) => Err(NoMemory),
    }
}

// Ends `lset`: step by step.
fn set_by_steps(store: &mut Store, variable: VarState, n: usize) -> Result<(), CmdFault>
    requires some { 2 ≤ n }
    requires words { n + 1 ≤ length store.old.stack }
    requires named { HasName variable n }
    ensures { VarAnswers (row_lset (call_word n store.old.stack) (top n store.old.stack)
        (variable_of variable store.old)) variable n store.old store.new result }
{
    let height = store.height();
    let done = set_value(
        store,
        variable,
        height - n,
        height - n + 1,
        height - 1,
        height - 1,
    );
    settle(store, n, height, done)
}

// Ends `lset` where the variable is set: its words are tried as indices first.
fn set_in_cell(store: &mut Store, cell: u64, n: usize) -> Result<(), CmdFault>
    requires cell { HasPlace store.old (Cell cell) }
    requires some { 2 < n }
    requires words { n + 1 ≤ length store.old.stack }
    ensures answer { VarAnswers (row_lset (call_word n store.old.stack) (top n store.old.stack)
        (variable_of (var.Cell cell) store.old)) (var.Cell cell) n store.old store.new result }
    ensures object { OnOk result (SetsOpen store.old cell (n - 2) store.new) }
{
    match set_at_once(store, cell, n) {
        Ok(true) => Ok(()),
        Ok(false) => set_by_steps(store, VarState::Cell(cell), n),
        Err(_) => Err(CmdFault::NoMemory),
    }
}

// The cell of a variable, where it has a value.
fn cell_of(store: &Store, variable: VarState) -> Option<u64>
    ensures some { IfSome result (λ cell. (variable ≡ var.Cell cell) × HasPlace store.now (Cell cell)) }
    ensures none { IfNone result ((cell : ℕ) → variable ≡ var.Cell cell → HasPlace store.now (Cell cell) → ⊥) }
{
    match variable {
        VarState::Cell(cell) => {
            if store.has_cell(cell) {
                Some(cell)
            } else {
                None
            }
        }
        VarState::NoName => None,
        VarState::IsArray => None,
        VarState::NotArray => None,
        VarState::NoParent => None,
    }
}

/// `lset varName ?index ...? newValue`: puts the value at the end of the path of the indices in the variable,
/// whose text is the result; without an index it is the whole text. One word that is no index and is a list
/// stands for its elements. An index that is the length of its list appends, at each level. Refuses an index of no
/// form, then a variable that isn't set or can't be used as a value, and then, at the first list from the outer
/// one on where there is a cause, a text that is no list and an index out of range. After a refusal the variable is
/// as it was. (Tcl: lset(n).)
///
/// Where the words are indices along a path that is open in the variable's list, its object stays and no
/// counter rises.
pub fn cmd_lset(store: &mut Store, variable: VarState, n: usize) -> Result<(), CmdFault>
    requires words { n + 1 ≤ length store.old.stack }
    requires named { HasName variable n }
    ensures answer { VarAnswers (row_lset (call_word n store.old.stack) (top n store.old.stack)
        (variable_of variable store.old)) variable n store.old store.new result }
    ensures object { OnOk result (2 < n → Sets variable store.old (n - 2) store.new) }
{
    if n < 2 {
        return refuse_words(store, n, Usage::Lset);
    }
    if n == 2 {
        return set_by_steps(store, variable, n);
    }
    match cell_of(store, variable) {
        Some(cell) => set_in_cell(store, cell, n),
        None => set_by_steps(store, variable, n),
    }
}

// The cell of a variable that is set, and the place of an element of its list, which an index names.
fn read_place_in(
    store: &mut Store,
    variable: VarState,
    name: usize,
    index: usize,
) -> Result<(u64, u64), CmdFault>
    requires named { HasName variable 1 }
    requires name { name < length store.old.stack }
    requires index { index < length store.old.stack }
    ensures { Reads (place_in (slice_index_or store.old.stack name []) (slice_index_or store.old.stack index [])
        (variable_of variable store.old)) (λ p x. IsPlaceIn variable store.old.cells p x.0 x.1)
        store.old store.new result }
{
    check_index(store, index)?;
    let cell = set_cell(store, variable, name)?;
    let len = list_len(store, At::Cell(cell))?;
    let k = place_inside(store, index, len)?;
    Ok((cell, k))
}

// The place behind another.
fn place_behind(k: u64) -> Result<u64, NoMemory>
    ensures { IfOk result (λ next. next ≡ k + 1) }
{
    k.checked_add(1).ok_or(NoMemory)
}

// Takes an element out of the list of a cell, where it goes, and leaves it on top.
fn take_element(store: &mut Store, cell: u64, k: u64) -> Result<(), CmdFault>
    requires cell { HasPlace store.old (Cell cell) }
    requires within { ForOk (elements (text_at store.old (Cell cell))) (λ ts. k < length ts) }
    ensures { Stores (and_then (list_of (text_at store.old (Cell cell))) (λ ts. taken ts k)) (var.Cell cell)
        store.old store.new result }
{
    let behind = place_behind(k)?;
    match store.push_element(At::Cell(cell), k) {
        Ok(_found) => {}
        Err(fault) => return Err(refuse_list(store, At::Cell(cell), fault)),
    }
    match store.list_replace(At::Cell(cell), k, behind, 0) {
        Ok(()) => Ok(()),
        Err(fault) => Err(refuse_list(store, At::Cell(cell), fault)),
    }
}

// Takes the element that an index names out of the list in a variable.
fn pop_at(store: &mut Store, variable: VarState, name: usize, index: usize) -> Result<(), CmdFault>
    requires named { HasName variable 1 }
    requires name { name < length store.old.stack }
    requires index { index < length store.old.stack }
    ensures { Stores (lpop_of (slice_index_or store.old.stack name []) (slice_index_or store.old.stack index [])
        (variable_of variable store.old)) variable store.old store.new result }
{
    let (cell, k) = read_place_in(store, variable, name, index)?;
    take_element(store, cell, k)
}

// Takes the last element out of the list in a variable.
fn pop_last(store: &mut Store, variable: VarState, name: usize) -> Result<(), CmdFault>
    requires named { HasName variable 1 }
    requires name { name < length store.old.stack }
    ensures { Stores (lpop_of (slice_index_or store.old.stack name []) (codes "end")
        (variable_of variable store.old)) variable store.old store.new result }
{
    let index = store.height();
    push_ascii(store, "end")?;
    pop_at(store, variable, name, index)
}

/// `lpop varName ?index?`: takes the element at the index, by default the last, out of the list in the variable.
/// The element is the result. Refuses an index of no form, then a variable that isn't set or can't be used as a
/// value, then a text that is no list, and then an index out of range. After a refusal the variable is as it was.
/// (Tcl: lpop(n).)
pub fn cmd_lpop(store: &mut Store, variable: VarState, n: usize) -> Result<(), CmdFault>
    requires words { n + 1 ≤ length store.old.stack }
    requires named { HasName variable n }
    ensures { VarAnswers (row_lpop (call_word n store.old.stack) (top n store.old.stack)
        (variable_of variable store.old)) variable n store.old store.new result }
{
    let height = store.height();
    if n == 1 {
        let done = pop_last(store, variable, height - 1);
        return settle(store, n, height, done);
    }
    if n == 2 {
        let done = pop_at(store, variable, height - 2, height - 1);
        return settle(store, n, height, done);
    }
    refuse_words(store, n, Usage::Lpop)
}
