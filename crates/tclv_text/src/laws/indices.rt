//! Laws of places.
ghost use Rattle.std.specs.Prelude.{◌≡◌, ℕ, ℤ, List, Some};
ghost use Rattle.tclv_text.specs.Indices.{place, IsPlace};

/// The place that is read is the one that the text is by cases, and there is no other.
pub fn places_are_read()
    ensures place { (t : List ℕ) (len : ℕ) (z : ℤ) → IsPlace t len z → place t len ≡ Some z }
    ensures alone { (t : List ℕ) (len : ℕ) (z : ℤ) → place t len ≡ Some z → IsPlace t len z }
{}
