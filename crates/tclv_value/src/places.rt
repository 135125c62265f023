// Where texts are: places of the stack, and cells.
ghost use Rattle.std.specs.Prelude.{◌≡◌, ◌+◌, ◌≤◌, length, take};
ghost use Rattle.tclv_value.specs.Stacks.{top};
ghost use Rattle.tclv_value.specs.Places.{HasId, id_at, PutsId};

use indexmap::IndexMap;
use tclv_heap::ObjId;

/// A place of a text.
#[derive(Clone, Copy, Debug, PartialEq, Eq)]
pub enum At {
    /// A place of the stack, counted from the bottom, from 0.
    Stack(usize),
    /// A cell, by its number.
    Cell(u64),
}

// The object behind a place.
pub(crate) fn object_at(stack: &[ObjId], cells: &IndexMap<u64, ObjId>, at: At) -> ObjId
    requires { HasId stack.now cells.now.entries at }
    ensures { result ≡ id_at stack.now cells.now.entries at }
{
    match at {
        At::Stack(i) => stack[i],
        At::Cell(cell) => *cells.get(&cell).unwrap(),
    }
}

// Puts an object behind a place, and gives the one that was there.
pub(crate) fn put_object(
    stack: &mut Vec<ObjId>,
    cells: &mut IndexMap<u64, ObjId>,
    at: At,
    id: ObjId,
) -> ObjId
    requires { HasId stack.old.items cells.old.entries at }
    ensures { PutsId stack.old.items cells.old.entries at id stack.new.items cells.new.entries result }
{
    match at {
        At::Stack(i) => {
            let old = stack[i];
            stack[i] = id;
            old
        }
        At::Cell(cell) => match cells.insert(cell, id) {
            Ok(Some(old)) => old,
            _ => unreachable!(),
        },
    }
}

// The objects of the top `n` texts of a stack, the lowest of them first.
pub(crate) fn top_objects(stack: &[ObjId], n: usize) -> &[ObjId]
    requires { n ≤ length stack.now }
    ensures { result.now ≡ top n stack.now }
{
    &stack[stack.len() - n..]
}

// The objects of the `path` texts below the top of a stack, the lowest of them first.
pub(crate) fn index_objects(stack: &[ObjId], path: usize) -> &[ObjId]
    requires { path + 1 ≤ length stack.now }
    ensures { result.now ≡ take path (top (path + 1) stack.now) }
{
    let above = top_objects(stack, path + 1);
    &above[..path]
}
