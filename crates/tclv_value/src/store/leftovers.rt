// What is left of a store's objects.
ghost use Rattle.std.specs.Prelude.{◌≡◌, ℕ, [], IsSome};
ghost use Rattle.std.specs.FinMap as finite;
ghost use Rattle.tclv_heap.specs.Graph.{at};
ghost use Rattle.tclv_value.specs.Leftovers.{IsHeldForGood};

use super::Store;

impl Store {
    // Without places each object has a holder that stays for good above it, or is one.
    pub(crate) fn keeps_nothing_loose(&self)
        requires stack { self.now.stack ≡ [] }
        requires cells { self.now.cells ≡ finite.empty }
        ensures { (o : ℕ) → IsSome (at self.now.graph o) → IsHeldForGood self.now.graph o }
    {
        let _stats = self.heap.stats();
    }
}
