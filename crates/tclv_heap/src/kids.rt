// The texts of parts, lent to a table of types.
use crate::ids::{ObjId, Object};
use crate::table::Texts;
use slab::Slab;

/// The objects of a heap, whose made texts are lent.
#[derive(Drop)]
pub(crate) struct Kids<'a, F> {
    pub(crate) objects: &'a Slab<Object<F>>,
}

impl<'a, F> Texts for Kids<'a, F> {
    ghost use Rattle.std.specs.Prelude.{◌≡◌, IsSome, unwrap_or, []};
    ghost use Rattle.tclv_heap.specs.Graph.{at, text_in};

    ghost has = { λ k o. IsSome (text_in (at k.objects.now.slots o)) };

    ghost stands = { λ k o. unwrap_or (text_in (at k.objects.now.slots o)) [] };

    fn text(&self, id: ObjId) -> &[u8] {
        match &self.objects[id.0].text {
            Some(text) => text.bytes(),
            None => unreachable!(),
        }
    }
}
