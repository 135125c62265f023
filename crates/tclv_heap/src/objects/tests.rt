// A chain of objects, and each call once, at a table whose form is an optional part.
ghost use Rattle.std.specs.Prelude.{◌≡◌, ◌∷◌, [], IfOk, IsSome};
ghost use Rattle.tclv_heap.specs.Graph.{at, text_in};
ghost use Rattle.tclv_heap.specs.Holders.{Holders};
ghost use Rattle.tclv_heap.specs.Links.{links_table};
ghost use Rattle.tclv_heap.specs.Stands.{IsClosed};

use super::Heap;
use crate::{ObjId, Texts, Types};
use std::alloc::Global;
use tclv_text::{NoMemory, Stats, Text};

/// A form is an optional part, and its text is `x`.
#[derive(Drop)]
struct Links;

impl Types for Links {
    ghost use Rattle.tclv_heap.specs.Links.{links_table};

    type Form = Option<ObjId>;

    ghost table = { links_table };

    fn kid_count(&self, f: &Option<ObjId>) -> usize {
        if f.is_some() { 1 } else { 0 }
    }

    fn kid(&self, f: &Option<ObjId>, k: usize) -> ObjId {
        match *f {
            Some(id) => id,
            None => unreachable!(),
        }
    }

    fn spells(&self, f: &Option<ObjId>) -> bool {
        true
    }

    fn counts(&self, f: &Option<ObjId>) -> bool {
        true
    }

    fn spell<K: Texts>(
        &self,
        alloc: Global,
        f: &Option<ObjId>,
        kids: &K,
        out: &mut Vec<u8>,
    ) -> Result<(), NoMemory> {
        out.push(b'x')?;
        Ok(())
    }

    fn duplicate(&self, alloc: Global, f: &Option<ObjId>) -> Result<Option<ObjId>, NoMemory> {
        Ok(*f)
    }
}

// A chain of so many objects and one more, each a part of the next, whose texts are made.
fn chain(heap: &mut Heap<Links>, more: u32) -> Result<ObjId, NoMemory>
    requires none { Holders links_table.parts heap.old.graph [] }
    requires closed { IsClosed heap.old.graph }
    ensures { IfOk result (λ last. Holders links_table.parts heap.new.graph (last ∷ [])) }
{
    let mut last = heap.make_form_object(None, 1)?;
    heap.make_string(last)?;
    for _ in 0..more {
        let next = heap.make_form_object(Some(last), 1)?;
        heap.make_string(next)?;
        last = next;
    }
    Ok(last)
}

#[test]
fn a_long_chain_goes(rt: HostRuntime) -> Result<(), NoMemory> {
    let mut heap = Heap::new(rt.alloc(), Links);
    let last = chain(&mut heap, 99_999)?;
    assert_eq!(rt; heap.objects.len(), 100_000);
    heap.release(last);
    assert_eq!(rt; heap.objects.len(), 0);
    Ok(())
}

fn x_text(alloc: Global) -> Result<Text, NoMemory> {
    let bytes = Vec::from_slice(alloc, b"x")?;
    Ok(Text::new(bytes))
}

#[test]
fn counts_follow_holders(rt: HostRuntime) -> Result<(), NoMemory> {
    let mut heap = Heap::new(rt.alloc(), Links);
    assert!(rt; heap.types().spells(&None));
    let id = heap.make_text_object(x_text(rt.alloc())?)?;
    assert!(rt; heap.form(id).is_none());
    heap.share(id);
    assert_eq!(rt; heap.count(id), 2);
    heap.release(id);
    heap.release(id);
    assert_eq!(rt; heap.objects.len(), 0);
    Ok(())
}

#[test]
fn strings_are_made(rt: HostRuntime) -> Result<(), NoMemory> {
    let mut heap = Heap::new(rt.alloc(), Links);
    let id = heap.make_form_object(None, 7)?;
    assert_eq!(rt; heap.depth(id), 7);
    heap.make_string(id)?;
    assert_eq!(rt; heap.text(id), Some(b"x".as_slice()));
    assert_eq!(rt; heap.depth(id), 0);
    heap.set_form(id, None, 1);
    assert_eq!(rt; heap.form_depth(id), 1);
    let stats = Stats {
        read: 1,
        spelled: 1,
        copied: 0,
    };
    assert_eq!(rt; heap.stats(), stats);
    Ok(())
}

#[test]
fn copies_share_parts(rt: HostRuntime) -> Result<(), NoMemory> {
    let mut heap = Heap::new(rt.alloc(), Links);
    let part = heap.make_text_object(x_text(rt.alloc())?)?;
    let object = heap.make_form_object(Some(part), 1)?;
    let copy = heap.duplicate(object)?;
    assert!(rt; heap.text(copy).is_none());
    assert_eq!(rt; heap.objects.len(), 3);
    heap.release(object);
    heap.release(copy);
    assert_eq!(rt; heap.objects.len(), 0);
    Ok(())
}

#[test]
fn texts_get_longer(rt: HostRuntime) -> Result<(), NoMemory> {
    let mut heap = Heap::new(rt.alloc(), Links);
    let more = heap.make_text_object(x_text(rt.alloc())?)?;
    let id = heap.make_text_object(x_text(rt.alloc())?)?;
    heap.add_text(id, more)?;
    assert_eq!(rt; heap.text(id), Some(b"xx".as_slice()));
    Ok(())
}
