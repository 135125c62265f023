//! Laws of the pairs of a text.
ghost use Rattle.std.specs.Prelude.{◌≡◌, ◌≢◌, ℕ, List, [], ◌∷◌, ◌++◌, Some, None};
ghost use Rattle.std.specs.List.{IsDistinct};
ghost use Rattle.std.specs.Map.{keys_of};
ghost use Rattle.std.specs.Str.{bytes_eq};
ghost use Rattle.tclv_text.specs.Pairs.{Pairs, value_of, put, pairs_of};

/// No two keys of a text's pairs are the same.
pub fn keys_are_distinct()
    ensures { (ts : List (List ℕ)) (d : Pairs) → pairs_of ts ≡ Some d → IsDistinct bytes_eq (keys_of d) }
{}

/// A key that was put reads as its value, and every other key as before. A key that was there keeps
/// its place, and a new one goes last.
pub fn put_values_are_read()
    ensures value { (k v : List ℕ) (d : Pairs) → value_of k (put k v d) ≡ Some v }
    ensures others { (k v l : List ℕ) (d : Pairs) → l ≢ k → value_of l (put k v d) ≡ value_of l d }
    ensures place { (k v w : List ℕ) (d : Pairs) → value_of k d ≡ Some w → keys_of (put k v d) ≡ keys_of d }
    ensures last { (k v : List ℕ) (d : Pairs) → value_of k d ≡ None → keys_of (put k v d) ≡ keys_of d ++ k ∷ [] }
{}
