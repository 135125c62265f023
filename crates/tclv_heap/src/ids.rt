// Objects, and the numbers that name them.
ghost use Rattle.std.specs.Prelude.{◌≡◌, ℕ, Option, None};

use std::marker::Model;
use tclv_text::Text;

/// Names an object of a heap. It stays the same as long as the object is there; the number of an
/// object that went may be given to a later one.
#[derive(Clone, Copy, Debug, PartialEq, Eq)]
pub struct ObjId(pub(crate) usize);

impl Model for ObjId {
    ghost Value = { ℕ };

    ghost view = { λ i. i.0 };

    ghost inverse = { λ n. record { 0 = n } };
}

/// An object of the graph, as contracts see it. Callers reach it through its `ObjId` alone.
#[derive(Drop)]
pub struct Object<F> {
    /// How many parts of objects and outside holders hold it. At the greatest `u64` it stays.
    pub(crate) count: u64,
    /// What it stands for, where that was made.
    pub(crate) text: Option<Text>,
    /// How it is kept, where it has a form.
    pub(crate) form: Option<F>,
    /// The depth that came with the form, and 0 without one.
    pub(crate) depth: u64,
    /// The next of the dying objects, while `release` runs.
    pub(crate) next: Option<ObjId>,
}

impl<F> Object<F> {
    // A new object, which one holder has.
    pub(crate) fn new(text: Option<Text>, form: Option<F>, depth: u64) -> Object<F>
        ensures { result
            ≡ record { count = 1; text = text; form = form; depth = depth; next = None } }
    {
        Object {
            count: 1,
            text,
            form,
            depth,
            next: None,
        }
    }
}
