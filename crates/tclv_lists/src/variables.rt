// The command that adds to a list in a variable.
ghost use Rattle.std.specs.Prelude.{◌≡◌, ◌+◌, ◌-◌, ◌<◌, ◌≤◌, ◌++◌, length, is_some, IsTrue, OnOk, OnErr};
ghost use Rattle.std.specs.FinMap as finite;
ghost use Rattle.tclv_text.specs.Quotes.{list_text};
ghost use Rattle.tclv_model.specs.Rows.{and_then};
ghost use Rattle.tclv_model.specs.Values.{list_of};
ghost use Rattle.tclv_model.specs.declared.data_commands.VarState.TheVariants as var;
ghost use Rattle.tclv_value.specs.Stacks.{top};
ghost use Rattle.tclv_value.specs.View.{HasPlace, text_at};
ghost use Rattle.tclv_value.specs.declared.places.At.TheVariants.{Cell};
ghost use Rattle.tclv_reply.specs.Replies.{call_word, Grows, Reads, HasName, variable_of, VarAnswers};
ghost use Rattle.tclv_reply.specs.Variables.{both};
ghost use Rattle.tclv_lists.specs.Variables.{appended, Appends, row_lappend};
ghost use Rattle.tclv_value.specs.ListObjects.{IsListAt, KeepsObjects, AppendsTop};

use tclv_model::{CmdFault, Usage, VarState};
use tclv_reply::{
    cut, give_text, list_len, push_words, read_variable, refuse_list, refuse_words, settle,
};
use tclv_text::NoMemory;
use tclv_value::{At, Store};

// How many elements the list in a cell has, whose object stays.
fn read_len(store: &mut Store, cell: u64) -> Result<u64, CmdFault>
    requires { HasPlace store.old (Cell cell) }
    ensures reads { Reads (list_of (text_at store.old (Cell cell))) (λ ts len. len ≡ length ts)
        store.old store.new result }
    ensures objects { OnOk result (KeepsObjects store.old (Cell cell) store.new) }
    ensures unread { OnOk result (IsListAt store.old (Cell cell) → store.new ≡ store.old) }
{
    match store.list_len(At::Cell(cell)) {
        Ok(len) => Ok(len),
        Err(fault) => Err(refuse_list(store, At::Cell(cell), fault)),
    }
}

// Adds words, which are the top texts but the first of n, to the list in a cell, in place where it may be.
fn append_words(store: &mut Store, cell: u64, n: usize) -> Result<(), CmdFault>
    requires cell { HasPlace store.old (Cell cell) }
    requires words { 1 < n }
    requires height { n ≤ length store.old.stack }
    ensures answer { VarAnswers (and_then (list_of (text_at store.old (Cell cell))) (λ ts.
        both (list_text (ts ++ top (n - 1) store.old.stack)))) (var.Cell cell) n store.old store.new result }
    ensures object { OnOk result (AppendsTop store.old (Cell cell) (n - 1) store.new) }
{
    let height = store.height();
    let len = match read_len(store, cell) {
        Ok(len) => len,
        Err(kind) => return settle(store, n, height, Err(kind)),
    };
    match store.list_replace(At::Cell(cell), len, len, n - 1) {
        Ok(()) => {
            give_text(store, 1, cell);
            Ok(())
        }
        Err(fault) => {
            let kind = refuse_list(store, At::Cell(cell), fault);
            settle(store, n, height, Err(kind))
        }
    }
}

// Adds the top text to the list in a cell, in place where it may be.
fn append_word(store: &mut Store, cell: u64) -> Result<(), CmdFault>
    requires cell { HasPlace store.old (Cell cell) }
    requires height { 2 ≤ length store.old.stack }
    ensures answer { VarAnswers (and_then (list_of (text_at store.old (Cell cell))) (λ ts.
        both (list_text (ts ++ top 1 store.old.stack)))) (var.Cell cell) 2 store.old store.new result }
    ensures object { OnOk result (AppendsTop store.old (Cell cell) 1 store.new) }
{
    let height = store.height();
    match store.list_append(At::Cell(cell)) {
        Ok(()) => {
            give_text(store, 1, cell);
            Ok(())
        }
        Err(fault) => {
            let kind = refuse_list(store, At::Cell(cell), fault);
            settle(store, 2, height, Err(kind))
        }
    }
}

// Gives the text of a cell, which must be a list.
fn give_list(store: &mut Store, cell: u64) -> Result<(), CmdFault>
    requires cell { HasPlace store.old (Cell cell) }
    requires height { 1 ≤ length store.old.stack }
    ensures { VarAnswers (and_then (list_of (text_at store.old (Cell cell))) (λ ts.
        both (text_at store.old (Cell cell)))) (var.Cell cell) 1 store.old store.new result }
{
    let height = store.height();
    match list_len(store, At::Cell(cell)) {
        Ok(_len) => {
            give_text(store, 1, cell);
            Ok(())
        }
        Err(kind) => settle(store, 1, height, Err(kind)),
    }
}

// Makes the list of the top texts but the first of n the text of a cell.
fn put_words(store: &mut Store, cell: u64, n: usize) -> Result<(), NoMemory>
    requires words { 0 < n }
    requires height { n ≤ length store.old.stack }
    ensures stack { OnOk result (store.new.stack ≡ store.old.stack) }
    ensures cells { OnOk result (store.new.cells ≡
        finite.insert store.old.cells cell (list_text (top (n - 1) store.old.stack))) }
    ensures grows { OnErr result (Grows store.old store.new) }
{
    let height = store.height();
    push_words(store, height - n + 1, height)?;
    store.push_list(n - 1)?;
    store.put_cell(cell)
}

// The same, which is the result.
fn make_list(store: &mut Store, cell: u64, n: usize) -> Result<(), CmdFault>
    requires words { 0 < n }
    requires height { n ≤ length store.old.stack }
    ensures { VarAnswers (both (list_text (top (n - 1) store.old.stack))) (var.Cell cell) n
        store.old store.new result }
{
    let height = store.height();
    match put_words(store, cell, n) {
        Ok(()) => {
            give_text(store, n, cell);
            Ok(())
        }
        Err(_) => {
            cut(store, height);
            Err(CmdFault::NoMemory)
        }
    }
}

// Ends a call that adds words, the top texts but the first of n, to the list in a cell, which is empty where the
// cell isn't set.
fn add_words(store: &mut Store, cell: u64, is_set: bool, n: usize) -> Result<(), CmdFault>
    requires set { is_some (finite.get store.old.cells cell) ≡ is_set }
    requires words { 0 < n }
    requires height { n ≤ length store.old.stack }
    ensures answer { VarAnswers (and_then (list_of (text_at store.old (Cell cell))) (λ ts.
        both (appended (text_at store.old (Cell cell)) (top (n - 1) store.old.stack) ts))) (var.Cell cell) n
        store.old store.new result }
    ensures object { OnOk result (1 < n → IsTrue is_set
        → AppendsTop store.old (Cell cell) (n - 1) store.new) }
{
    if !is_set {
        return make_list(store, cell, n);
    }
    if n == 1 {
        return give_list(store, cell);
    }
    if n == 2 {
        return append_word(store, cell);
    }
    append_words(store, cell, n)
}

/// `lappend varName ?value ...?`: adds the values to the list in the variable, whose text is the result. A
/// variable that is not set counts as empty. Without values the text stays, but must be a list. Refuses a
/// variable that can't be used as a value, and then a text that is no list. (Tcl: lappend(n).)
///
/// Values are added in place where the variable alone has its list: its object stays, and where that is
/// kept as a list no counter rises unless a value is 50 deep. Where others have the list too, the
/// variable gets a copy, whose elements are counted as copied.
pub fn cmd_lappend(store: &mut Store, variable: VarState, n: usize) -> Result<(), CmdFault>
    requires words { n + 1 ≤ length store.old.stack }
    requires named { HasName variable n }
    ensures answer { VarAnswers (row_lappend (call_word n store.old.stack) (top n store.old.stack)
        (variable_of variable store.old)) variable n store.old store.new result }
    ensures object { OnOk result (1 < n → Appends variable store.old (n - 1) store.new) }
{
    if n == 0 {
        return refuse_words(store, n, Usage::Lappend);
    }
    let height = store.height();
    match read_variable(store, variable, height - n) {
        Ok((cell, is_set)) => add_words(store, cell, is_set, n),
        Err(kind) => settle(store, n, height, Err(kind)),
    }
}
