// The command `lassign`.
ghost use Rattle.std.specs.Prelude.{◌≡◌, ◌+◌, ◌<◌, ◌≤◌, ◌++◌, [], ◌∷◌, length, drop, OnOk};
ghost use Rattle.tclv_text.specs.Quotes.{list_text};
ghost use Rattle.tclv_model.specs.Values.{list_of};
ghost use Rattle.tclv_value.specs.View.{text_at};
ghost use Rattle.tclv_value.specs.Stacks.{top, under};
ghost use Rattle.tclv_engine.specs.Results.{bind};
ghost use Rattle.tclv_engine.specs.DataAnswers.{of_answer};
ghost use Rattle.tclv_engine.specs.ListAssignment.{listed, IsList};
ghost use Rattle.tclv_engine.specs.Answers.{Answers, IsCalm, PushesOne, PushesResult, SameState, as_result};
ghost use Rattle.tclv_plain.specs.ListRows as spec;

use crate::misuse::misused;
use tclv_engine::{End, Machine};
use tclv_model::Usage;
use tclv_text::NoMemory;
use tclv_value::At;

// Pushes the list of the elements of a list from a number on, which is empty where there are not so
// many. The list has so many elements as it says.
fn push_rest<W>(
    machine: &mut Machine<W>,
    list: usize,
    from: usize,
    len: u64,
) -> Result<(), NoMemory>
    requires place { list < length machine.old.values.store.stack }
    requires list { IsList (text_at machine.old.values.store (At.Stack list)) }
    requires len { len ≡ length (listed (text_at machine.old.values.store (At.Stack list))) }
    ensures pushed { OnOk result (machine.new.values.store.stack ≡ machine.old.values.store.stack
        ++ list_text (drop from (listed (text_at machine.old.values.store (At.Stack list)))) ∷ []) }
    ensures same { SameState machine.old machine.new }
{
    let height = machine.values.height();
    let first = len.min(from as u64);
    machine.push_elements(list, first, len)?;
    let count = machine.values.height() - height;
    machine.values.push_list(count)
}

// Sets the variables whose names stand above a place of the stack to the elements of the list at this
// place, which has so many, and pushes the list of the rest.
fn assign_list<W>(machine: &mut Machine<W>, list: usize, len: u64) -> Result<(), End>
    requires place { list < length machine.old.values.store.stack }
    requires list { IsList (text_at machine.old.values.store (At.Stack list)) }
    requires len { len ≡ length (listed (text_at machine.old.values.store (At.Stack list))) }
    ensures answer { Answers (spec.assign_list (drop (list + 1) machine.old.values.store.stack)
        (listed (text_at machine.old.values.store (At.Stack list)))) as_result machine.old result machine.new }
    ensures stack { PushesOne machine.old.values.store.stack result machine.new.values.store.stack }
    ensures calm { IsCalm result }
    ensures units { machine.new.units ≡ machine.old.units }
{
    let height = machine.values.height();
    machine.assign_places(list + 1, height, list)?;
    push_rest(machine, list, height - (list + 1), len)?;
    Ok(())
}

// The same, where the text of the place may be no list.
fn assign_elements<W>(machine: &mut Machine<W>, list: usize) -> Result<(), End>
    requires { list < length machine.old.values.store.stack }
    ensures answer { Answers (λ st. bind (of_answer (list_of (text_at machine.old.values.store (At.Stack list))) st)
        (spec.assign_list (drop (list + 1) machine.old.values.store.stack))) as_result machine.old result machine.new }
    ensures stack { PushesOne machine.old.values.store.stack result machine.new.values.store.stack }
    ensures calm { IsCalm result }
    ensures units { machine.new.units ≡ machine.old.units }
{
    let len = machine.list_len(At::Stack(list))?;
    assign_list(machine, list, len)
}

/// The command `lassign list ?varName ...?`: sets the variables to the elements of the list, and
/// to the empty text where there are no more. The result is the list of the elements that are
/// left. A text that is no list is an error before any variable is set; at a variable that can't
/// be set, those before it have their values. Its words are the top `n` texts of the stack, the
/// word of the call lowest. (Tcl manual: lassign.)
pub fn cmd_lassign<W>(machine: &mut Machine<W>, n: usize) -> Result<(), End>
    requires words { n ≤ length machine.old.values.store.stack }
    requires some { 0 < n }
    ensures answer { Answers (spec.row_lassign (top n machine.old.values.store.stack)) as_result machine.old result machine.new }
    ensures stack { PushesResult (under n machine.old.values.store.stack) result machine.new.values.store.stack }
    ensures calm { IsCalm result }
    ensures units { machine.new.units ≡ machine.old.units }
{
    let base = machine.values.height() - n;
    if n == 1 {
        return Err(misused(machine, At::Stack(base), Usage::Lassign));
    }
    assign_elements(machine, base + 1)
}
