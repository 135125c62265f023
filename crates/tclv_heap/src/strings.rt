// Texts that are made from forms.
ghost use Rattle.std.specs.Prelude.{◌≡◌, ◌≢◌, ◌<◌, ◌≤◌, ◌^◌, ℕ, length, Some, IsSome, IfSome, IfNone, IfOk, OnOk, OnErr, slice_index};
ghost use Rattle.tclv_heap.specs.Counters.{Writes};
ghost use Rattle.tclv_heap.specs.Graph.{at, occurs, stuck, text_in, parts_at, Leads};
ghost use Rattle.tclv_heap.specs.Stands.{IsSound, Tells, TellsBelow, Retexted, SaysSame, stands};
ghost use Rattle.tclv_heap.specs.Extended.{Extends};
ghost use Rattle.tclv_heap.specs.Noted.{Noted, Untexted};

use crate::counting::point_count;
use crate::ids::{ObjId, Object};
use crate::kids::Kids;
use crate::table::Types;
use slab::Slab;
use std::alloc::Global;
use tclv_text::{NoMemory, Text};

/// Makes the text of the object, and those of the objects below it that it needs, and gives the
/// number of their code points, or the greatest `u64` where they are more. After `NoMemory` no text is
/// made.
pub(crate) fn make_text<T: Types>(
    types: &T,
    alloc: Global,
    objects: &mut Slab<Object<T::Form>>,
    id: ObjId,
) -> Result<u64, NoMemory>
    requires sound { IsSound T.table objects.old.slots }
    requires there { IsSome (at objects.old.slots id) }
    requires told { TellsBelow T.table.parts objects.old.slots id }
    ensures sound { IsSound T.table objects.new.slots }
    ensures says { SaysSame T.table objects.old.slots objects.new.slots }
    ensures retexts { Retexted T.table (Leads T.table.parts objects.old.slots id)
        objects.old.slots objects.new.slots }
    ensures made { OnOk result
        (text_in (at objects.new.slots id) ≡ Some (stands T.table objects.old.slots id)) }
    ensures written { IfOk result (λ n. Writes objects.old.slots objects.new.slots 0 n) }
    ensures refused { OnErr result (objects.new.slots ≡ objects.old.slots) }
{
    let mut made = Vec::new(alloc);
    let mut written = 0u64;
    if let Err(error) = make_texts(types, alloc, objects, id, &mut made, &mut written) {
        take_texts(objects, &made);
        return Err(error);
    }
    Ok(written)
}

// Makes the texts, notes each object whose text it makes, and counts the code points. After `NoMemory`
// some are made.
fn make_texts<T: Types>(
    types: &T,
    alloc: Global,
    objects: &mut Slab<Object<T::Form>>,
    id: ObjId,
    made: &mut Vec<ObjId>,
    written: &mut u64,
) -> Result<(), NoMemory>
    requires sound { IsSound T.table objects.old.slots }
    requires there { IsSome (at objects.old.slots id) }
    requires told { TellsBelow T.table.parts objects.old.slots id }
    requires small { written.old ≤ stuck }
    ensures sound { IsSound T.table objects.new.slots }
    ensures says { (o : ℕ) → IsSome (at objects.old.slots o)
        → stands T.table objects.new.slots o ≡ stands T.table objects.old.slots o }
    ensures noted { Noted T.table (Leads T.table.parts objects.old.slots id)
        objects.old.slots made.old.items objects.new.slots made.new.items }
    ensures made { OnOk result (IsSome (text_in (at objects.new.slots id))) }
    ensures written { OnOk result
        (Writes objects.old.slots objects.new.slots written.old written.new) }
{
    if objects[id.0].text.is_some() {
        return Ok(());
    }
    let mut k: usize = 0;
    while let Some(kid) = kid_of(types, objects, id, k) {
        make_texts(types, alloc, objects, kid, made, written)?;
        k += 1;
    }
    spell_text(types, alloc, objects, id, made, written)
}

// The k-th part of the object.
fn kid_of<T: Types>(
    types: &T,
    objects: &Slab<Object<T::Form>>,
    id: ObjId,
    k: usize,
) -> Option<ObjId>
    requires { IsSome (at objects.now.slots id) }
    ensures some { IfSome result (λ p. (k < length (parts_at T.table.parts objects.now.slots id))
        × (p ≡ slice_index (parts_at T.table.parts objects.now.slots id) k)) }
    ensures none { IfNone result (length (parts_at T.table.parts objects.now.slots id) ≤ k) }
    ensures small { length (parts_at T.table.parts objects.now.slots id) < 2 ^ 64 }
{
    match &objects[id.0].form {
        Some(form) => {
            if k < types.kid_count(form) {
                Some(types.kid(form, k))
            } else {
                None
            }
        }
        None => None,
    }
}

// Makes the text of the object, whose parts have their texts, notes the object, and counts the code
// points.
fn spell_text<T: Types>(
    types: &T,
    alloc: Global,
    objects: &mut Slab<Object<T::Form>>,
    id: ObjId,
    made: &mut Vec<ObjId>,
    written: &mut u64,
) -> Result<(), NoMemory>
    requires sound { IsSound T.table objects.old.slots }
    requires there { IsSome (at objects.old.slots id) }
    requires small { written.old ≤ stuck }
    requires tells { Tells objects.old.slots id }
    requires kids { (p : ℕ) → 0 < occurs p (parts_at T.table.parts objects.old.slots id)
        → IsSome (text_in (at objects.old.slots p)) }
    ensures sound { IsSound T.table objects.new.slots }
    ensures says { (o : ℕ) → IsSome (at objects.old.slots o)
        → stands T.table objects.new.slots o ≡ stands T.table objects.old.slots o }
    ensures noted { Noted T.table (Leads T.table.parts objects.old.slots id)
        objects.old.slots made.old.items objects.new.slots made.new.items }
    ensures made { OnOk result (IsSome (text_in (at objects.new.slots id))) }
    ensures written { OnOk result
        (Writes objects.old.slots objects.new.slots written.old written.new) }
{
    let object = &objects[id.0];
    if object.text.is_some() {
        return Ok(());
    }
    let mut text = Vec::new(alloc);
    match &object.form {
        Some(form) => {
            let kids = Kids { objects };
            types.spell(alloc, form, &kids, &mut text)?;
        }
        None => unreachable!(),
    }
    made.push(id)?;
    *written = written.saturating_add(point_count(text.as_slice()));
    let object = &mut objects[id.0];
    object.text = Some(Text::new(text));
    Ok(())
}

// Takes the texts away again.
fn take_texts<F: Drop>(objects: &mut Slab<Object<F>>, made: &Vec<ObjId>)
    requires { (o : ℕ) → 0 < occurs o made.now.items → IsSome (at objects.old.slots o) }
    ensures { Untexted objects.old.slots made.now.items objects.new.slots }
{
    for id in made {
        let object = &mut objects[id.0];
        object.text = None;
    }
}

/// Adds the text of one object to that of another, whose form goes and is given back. After `NoMemory`
/// everything is as before.
pub(crate) fn extend_text<F: Drop>(
    objects: &mut Slab<Object<F>>,
    id: ObjId,
    more: ObjId,
) -> Result<Option<F>, NoMemory>
    requires text { IsSome (text_in (at objects.old.slots id)) }
    requires more { IsSome (text_in (at objects.old.slots more)) }
    requires other { more ≢ id }
    ensures extended { IfOk result (λ form. Extends objects.old.slots id more objects.new.slots form) }
    ensures refused { OnErr result (objects.new.slots ≡ objects.old.slots) }
{
    let object = &mut objects[id.0];
    let Some(mut text) = object.text.take() else {
        unreachable!()
    };
    let added = match &objects[more.0].text {
        Some(more) => text.push(more.bytes()),
        None => unreachable!(),
    };
    let object = &mut objects[id.0];
    object.text = Some(text);
    added?;
    object.depth = 0;
    Ok(object.form.take())
}
