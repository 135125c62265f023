// A copy of an object, whose parts are shared.
ghost use Rattle.std.specs.Prelude.{◌≡◌, ◌<◌, ◌≤◌, ℕ, length, Some, IsSome, IfOk};
ghost use Rattle.slab.specs.Slab.{slab_len};
ghost use Rattle.tclv_heap.specs.Graph.{at, occurs, form_parts, stuck, Shared};
ghost use Rattle.tclv_heap.specs.declared.ids.Object.{Object};
ghost use Rattle.tclv_heap.specs.Stands.{Copies};

use crate::ids::Object;
use crate::table::Types;
use slab::Slab;
use std::alloc::Global;
use tclv_text::{NoMemory, Text};

/// Copies the form, and the text where no form spells.
pub(crate) fn copy_object<T: Types>(
    types: &T,
    alloc: Global,
    object: &Object<T::Form>,
) -> Result<(Option<Text>, Option<T::Form>), NoMemory>
    ensures { IfOk result (λ c. Copies T.table object.now c.0 c.1) }
{
    let Some(form) = &object.form else {
        let text = copy_text(alloc, &object.text)?;
        return Ok((text, None));
    };
    let copy = types.duplicate(alloc, form)?;
    if types.spells(form) {
        return Ok((None, Some(copy)));
    }
    let text = copy_text(alloc, &object.text)?;
    Ok((text, Some(copy)))
}

fn copy_text(alloc: Global, text: &Option<Text>) -> Result<Option<Text>, NoMemory>
    ensures { IfOk result (λ c. c ≡ text.now) }
{
    let Some(text) = text else {
        return Ok(None);
    };
    let copy = text.copy(alloc)?;
    Ok(Some(copy))
}

/// Adds a holder to each part of the form, and gives their number.
pub(crate) fn share_parts<T: Types>(
    types: &T,
    objects: &mut Slab<Object<T::Form>>,
    form: &Option<T::Form>,
) -> u64
    requires there { (p : ℕ) → 0 < occurs p (form_parts T.table.parts form.now)
        → IsSome (at objects.old.slots p) }
    requires low { (o : ℕ) (n : Object T.Form) → at objects.old.slots o ≡ Some n → n.count ≤ stuck }
    ensures shared { Shared objects.old.slots
        (form_parts T.table.parts form.now) objects.new.slots }
    ensures len { slab_len objects.new ≡ slab_len objects.old }
    ensures capacity { objects.new.capacity ≡ objects.old.capacity }
    ensures count { result ≡ length (form_parts T.table.parts form.now) }
{
    let Some(form) = form else {
        return 0;
    };
    let count = types.kid_count(form);
    for k in 0..count {
        let kid = types.kid(form, k);
        let object = &mut objects[kid.0];
        object.count = object.count.saturating_add(1);
    }
    count as u64
}
