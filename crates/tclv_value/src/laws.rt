//! Laws of lists and scripts together, and of stores. Each is the contract of a function that does nothing.

ghost use Rattle.std.specs.Prelude.{◌≡◌, ℕ, List, [], ◌∷◌, IsSome};
ghost use Rattle.std.specs.FinMap as finite;
ghost use Rattle.tclv_heap.specs.Graph.{at};
ghost use Rattle.tclv_value.specs.Leftovers.{IsHeldForGood};
ghost use Rattle.tclv_value.specs.ListCommands.{IsOneCommand};

use crate::store::Store;

/// The text of a list that has an element, read as a script, is one command, at byte place 0, and
/// nothing else. Its words are the elements in order: no word has an expansion mark, and none a part
/// that is substituted. No fault is met. (Tcl's manual page `list`: the list's text is such that
/// `eval` runs it as a command of its elements.)
pub fn a_list_reads_as_one_command()
    ensures { (t : List ℕ) (ts : List (List ℕ)) → IsOneCommand (t ∷ ts) }
{}

/// A store with an empty stack and no cells keeps no object, but for those whose count stays for good and
/// those that such objects hold: each object that is left is one whose count came to 2^64-1, or one leads
/// down to it. (Tcl_Obj(3), "Reference counts"; that a count stays at the greatest number is this
/// project's own.)
pub fn an_empty_store_keeps_nothing_loose(store: &Store)
    requires stack { store.now.stack ≡ [] }
    requires cells { store.now.cells ≡ finite.empty }
    ensures { (o : ℕ) → IsSome (at store.now.graph o) → IsHeldForGood store.now.graph o }
{
    store.keeps_nothing_loose();
}
