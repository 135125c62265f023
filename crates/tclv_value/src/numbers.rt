// Values as whole numbers.
ghost use Rattle.std.specs.Prelude.{◌≡◌, [], Ok, Some, IsSome, IfSome, IfOk, IfErr};
ghost use Rattle.tclv_text.specs.Numbers.{whole};
ghost use Rattle.tclv_heap.specs.Graph.{at, text_in};
ghost use Rattle.tclv_heap.specs.Holders.{Passes};
ghost use Rattle.tclv_heap.specs.Stands.{Keeps, IsClosed, IsSound};
ghost use Rattle.tclv_value.specs.Answers.{RefusesWhole};
ghost use Rattle.tclv_value.specs.Forms.{form_table};
ghost use Rattle.tclv_value.specs.Places.{text_of, TextsStay};

use crate::faults::ValueFault;
use crate::forms::{Form, Forms};
use tclv_heap::{Heap, ObjId};
use tclv_text::{WholeFault, whole};

// The number that an object's text is. The object keeps it as its form.
pub(crate) fn whole_of(heap: &mut Heap<Forms>, id: ObjId) -> Result<i64, ValueFault>
    requires there { IsSome (at heap.old.graph id) }
    requires closed { IsClosed heap.old.graph }
    requires sound { IsSound form_table heap.old.graph }
    ensures number { IfOk result (λ n. whole (text_of heap.old.graph id) ≡ Ok n) }
    ensures refused { IfErr result (λ fault.
        RefusesWhole fault (whole (text_of heap.old.graph id))) }
    ensures holders { Passes form_table.parts heap.old.graph [] heap.new.graph [] }
    ensures keeps { Keeps form_table heap.old.graph heap.new.graph }
    ensures texts { TextsStay heap.old.graph heap.new.graph }
{
    if let Some(n) = kept_whole(heap, id) {
        return Ok(n);
    }
    heap.make_string(id)?;
    let n = read_whole(heap, id)?;
    keep_whole(heap, id, n);
    Ok(n)
}

// The number that an object is kept as, if it is.
fn kept_whole(heap: &Heap<Forms>, id: ObjId) -> Option<i64>
    requires { IsSome (at heap.now.graph id) }
    ensures { IfSome result (λ n. whole (text_of heap.now.graph id) ≡ Ok n) }
{
    match heap.form(id) {
        Some(form) => form.as_whole(),
        None => None,
    }
}

// Reads the text of an object as a number. It is made.
fn read_whole(heap: &Heap<Forms>, id: ObjId) -> Result<i64, WholeFault>
    requires { IsSome (text_in (at heap.now.graph id)) }
    ensures { result ≡ whole (text_of heap.now.graph id) }
{
    match heap.text(id) {
        Some(text) => whole(text),
        None => unreachable!(),
    }
}

// Keeps the number that an object's made text is as its form.
fn keep_whole(heap: &mut Heap<Forms>, id: ObjId, n: i64)
    requires made { IsSome (text_in (at heap.old.graph id)) }
    requires number { whole (text_of heap.old.graph id) ≡ Ok n }
    requires sound { IsSound form_table heap.old.graph }
    ensures holders { Passes form_table.parts heap.old.graph [] heap.new.graph [] }
    ensures keeps { Keeps form_table heap.old.graph heap.new.graph }
    ensures texts { TextsStay heap.old.graph heap.new.graph }
{
    heap.set_form(id, Form::Whole(n), 1);
}
