// The release of objects, with all that they alone held.
ghost use Rattle.std.specs.Prelude.{◌≡◌, ◌≤◌, [], ◌∷◌, Some, None, IsSome};
ghost use Rattle.slab.specs.Slab.{slab_len};
ghost use Rattle.tclv_heap.specs.Graph.{at, count_in, form_parts, HasOutside, Takes, IsCounted};
ghost use Rattle.tclv_heap.specs.Dying.{Releases, Dying, Ready, Listed, DropsHolder};

use crate::ids::{ObjId, Object};
use crate::table::Types;
use slab::Slab;

/// Takes one outside holder from the object, and removes each object that has no holder then.
pub(crate) fn release_one<T: Types>(types: &T, objects: &mut Slab<Object<T::Form>>, id: ObjId)
    requires sound { IsCounted T.table.parts objects.old.slots }
    requires holder { HasOutside T.table.parts objects.old.slots id 1 }
    ensures released { Releases T.table.parts objects.old.slots (id ∷ []) objects.new.slots }
    ensures sound { IsCounted T.table.parts objects.new.slots }
{
    let first = drop_holder(objects, id, None);
    sweep(types, objects, first);
}

/// Takes one outside holder from each part of the form, and removes each object that has no holder
/// then.
pub(crate) fn release_form<T: Types>(
    types: &T,
    objects: &mut Slab<Object<T::Form>>,
    form: &Option<T::Form>,
)
    requires sound { IsCounted T.table.parts objects.old.slots }
    requires takes { Takes T.table.parts objects.old.slots (form_parts T.table.parts form.now) }
    ensures released { Releases T.table.parts objects.old.slots
        (form_parts T.table.parts form.now) objects.new.slots }
    ensures sound { IsCounted T.table.parts objects.new.slots }
    ensures none { form_parts T.table.parts form.now ≡ [] → objects.new.slots ≡ objects.old.slots }
{
    if let Some(form) = form {
        let first = drop_parts(types, objects, form, None);
        sweep(types, objects, first);
    }
}

// Removes the objects of the list, and each object that has no holder then. It takes no memory.
fn sweep<T: Types>(types: &T, objects: &mut Slab<Object<T::Form>>, first: Option<ObjId>)
    requires { Ready T.table.parts objects.old.slots [] first }
    ensures swept { Dying T.table.parts objects.old.slots [] [] objects.new.slots }
    ensures listed { Listed objects.new.slots None }
    ensures none { first ≡ None → objects.new.slots ≡ objects.old.slots }
{
    let mut head = first;
    while let Some(dying) = head {
        let object = objects.remove(dying.0);
        head = object.next;
        if let Some(form) = &object.form {
            head = drop_parts(types, objects, form, head);
        }
    }
}

// Takes a holder from each part of the form.
fn drop_parts<T: Types>(
    types: &T,
    objects: &mut Slab<Object<T::Form>>,
    form: &T::Form,
    first: Option<ObjId>,
) -> Option<ObjId>
    requires { Ready T.table.parts objects.old.slots (T.table.parts form.now) first }
    ensures dropped { Dying T.table.parts objects.old.slots
        (T.table.parts form.now) [] objects.new.slots }
    ensures listed { Listed objects.new.slots result }
    ensures len { slab_len objects.new ≡ slab_len objects.old }
    ensures none { T.table.parts form.now ≡ []
        → (objects.new.slots ≡ objects.old.slots) × (result ≡ first) }
{
    let mut head = first;
    for k in 0..types.kid_count(form) {
        let kid = types.kid(form, k);
        head = drop_holder(objects, kid, head);
    }
    head
}

// Takes a holder from the object, and puts the object before `head` where that holder was its last.
// Gives the list's first object.
fn drop_holder<F>(objects: &mut Slab<Object<F>>, id: ObjId, head: Option<ObjId>) -> Option<ObjId>
    requires there { IsSome (at objects.old.slots id) }
    requires held { 1 ≤ count_in (at objects.old.slots id) }
    ensures { DropsHolder objects.old.slots objects.new.slots id head result }
{
    let object = &mut objects[id.0];
    if object.count == u64::MAX {
        return head;
    }
    object.count -= 1;
    if object.count > 0 {
        return head;
    }
    object.next = head;
    Some(id)
}
