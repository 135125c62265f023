// The table of types: what the heap asks of a form.
ghost use Rattle.std.specs.Prelude.{◌≡◌, ◌↔◌, ◌<◌, ℕ, List, map, length, slice_index, IsTrue, IfOk, OnOk, OnErr};
ghost use Rattle.std.specs.Str.{chars};
ghost use Rattle.tclv_text.specs.Texts.{IsText, Appends};
ghost use Rattle.tclv_heap.specs.Table.{Table, Alike};

use crate::ids::ObjId;
use std::alloc::Global;
use tclv_text::NoMemory;

/// Lends the texts of a form's parts, while the form is spelled.
pub trait Texts {
    // The object is a part that has its text, and that text.
    ghost has: { Self → ℕ → Type 0 };

    ghost stands: { Self → ℕ → List ℕ };

    /// The text of a part, as UTF-8.
    fn text(&self, id: ObjId) -> &[u8]
        requires { has self.now id }
        ensures utf8 { IsText result.now }
        ensures text { chars result.now ≡ stands self.now id };
}

/// The types of forms that a heap keeps. An implementation proves that what a form spells fits it
/// (a field of its table), and that a duplicate is the same form.
pub trait Types {
    /// The internal form of an object. Its parts are objects of the heap.
    type Form: Drop;

    ghost table: { Table Self.Form };

    /// How many parts the form has.
    fn kid_count(&self, f: &Self::Form) -> usize
        ensures { result ≡ length (table.parts f.now) };

    /// The part at a place, counted from 0, below the number of parts.
    fn kid(&self, f: &Self::Form, k: usize) -> ObjId
        requires { k < length (table.parts f.now) }
        ensures { result ≡ slice_index (table.parts f.now) k };

    /// Whether the form alone gives the text.
    fn spells(&self, f: &Self::Form) -> bool
        ensures { IsTrue result ↔ table.Spells f.now };

    /// Whether to set the form on an object counts as reading the object's text.
    fn counts(&self, f: &Self::Form) -> bool
        ensures { result ≡ table.counts f.now };

    /// Appends the text that the form gives, from the texts of its parts. After `NoMemory` `out` is
    /// as before.
    fn spell<K: Texts>(
        &self,
        alloc: Global,
        f: &Self::Form,
        kids: &K,
        out: &mut Vec<u8>,
    ) -> Result<(), NoMemory>
        requires spells { table.Spells f.now }
        requires kids { (k : ℕ) → k < length (table.parts f.now)
            → K.has kids.now (slice_index (table.parts f.now) k) }
        ensures ok { OnOk result (Appends out.old.items out.new.items
            (table.spelled f.now (map (K.stands kids.now) (table.parts f.now)))) }
        ensures err { OnErr result (out.new.items ≡ out.old.items) };

    /// The same form once more, with the same parts. Their holders stay with the caller.
    fn duplicate(&self, alloc: Global, f: &Self::Form) -> Result<Self::Form, NoMemory>
        ensures { IfOk result (Alike table f.now) };
}
