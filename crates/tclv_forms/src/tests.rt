// Each call once, with ample memory.
ghost use Rattle.std.specs.Prelude.{◌≡◌, length, IfOk};

use crate::ListForm;
use std::alloc::Global;
use tclv_heap::{Heap, ObjId, Texts, Types};
use tclv_text::{NoMemory, Text};

// Objects without parts.
#[derive(Drop)]
struct Plain;

impl Types for Plain {
    ghost use Rattle.tclv_heap.specs.Links.{links_table};

    type Form = Option<ObjId>;

    ghost table = { links_table };

    fn kid_count(&self, f: &Option<ObjId>) -> usize {
        if f.is_some() { 1 } else { 0 }
    }

    fn kid(&self, f: &Option<ObjId>, k: usize) -> ObjId {
        match *f {
            Some(id) => id,
            None => unreachable!(),
        }
    }

    fn spells(&self, f: &Option<ObjId>) -> bool {
        true
    }

    fn counts(&self, f: &Option<ObjId>) -> bool {
        true
    }

    fn spell<K: Texts>(
        &self,
        alloc: Global,
        f: &Option<ObjId>,
        kids: &K,
        out: &mut Vec<u8>,
    ) -> Result<(), NoMemory> {
        out.push(b'x')?;
        Ok(())
    }

    fn duplicate(&self, alloc: Global, f: &Option<ObjId>) -> Result<Option<ObjId>, NoMemory> {
        Ok(*f)
    }
}

// Five objects.
fn objects(alloc: Global) -> Result<[ObjId; 5], NoMemory> {
    let mut heap = Heap::new(alloc, Plain);
    let a = heap.make_text_object(Text::new(Vec::new(alloc)))?;
    let b = heap.make_text_object(Text::new(Vec::new(alloc)))?;
    let c = heap.make_text_object(Text::new(Vec::new(alloc)))?;
    let d = heap.make_text_object(Text::new(Vec::new(alloc)))?;
    let e = heap.make_text_object(Text::new(Vec::new(alloc)))?;
    Ok([a, b, c, d, e])
}

// Whether the list has these objects.
fn has(list: &ListForm, ids: &[ObjId]) -> bool {
    if list.len() != ids.len() {
        return false;
    }
    for k in 0..list.len() {
        if k < ids.len() && list.at(k) != ids[k] {
            return false;
        }
    }
    true
}

#[test]
fn the_empty_list(rt: HostRuntime) {
    let list = ListForm::new(rt.alloc());
    assert_eq!(rt; list.len(), 0);
}

#[test]
fn lists_grow(rt: HostRuntime) -> Result<(), NoMemory> {
    let [a, b, c, d, e] = objects(rt.alloc())?;
    let mut list = ListForm::with_room(rt.alloc(), 2)?;
    assert!(rt; list.has_room());
    assert!(rt; list.has_room_for(2));
    list.push(a)?;
    list.extend(&[b, c])?;
    assert!(rt; has(&list, &[a, b, c]));
    let old = list.set(1, d);
    assert!(rt; old == b);
    assert!(rt; has(&list, &[a, d, c]));
    let copy = list.copy(rt.alloc(), 1)?;
    list.push(e)?;
    assert!(rt; has(&copy, &[a, d, c]));
    assert!(rt; has(&list, &[a, d, c, e]));
    Ok(())
}

#[test]
fn objects_give_way(rt: HostRuntime) -> Result<(), NoMemory> {
    let [a, b, c, d, e] = objects(rt.alloc())?;
    let mut list = ListForm::from_slice(rt.alloc(), &[a, b, c])?;
    let other = list.replaced(rt.alloc(), 0, 1, &[d, e])?;
    assert!(rt; has(&other, &[d, e, b, c]));
    let mut out = Vec::new(rt.alloc());
    list.splice(1, 3, &[d], &mut out)?;
    assert!(rt; has(&list, &[a, d]));
    assert_eq!(rt; out.len(), 2);
    Ok(())
}
