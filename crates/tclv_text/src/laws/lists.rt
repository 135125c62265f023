//! Laws of lists and their texts.
ghost use Rattle.std.specs.Prelude.{◌≡◌, ℕ, List, Ok, Err};
ghost use Rattle.tclv_text.specs.Lists.{ListFlaw, IsListOf, HasFlaw};
ghost use Rattle.tclv_text.specs.Elements.{elements};
ghost use Rattle.tclv_text.specs.Quotes.{list_text};

/// The elements that are read are those that the text has by cases, and the flaw that is met is the
/// first that it has.
pub fn lists_are_read()
    ensures list { (ts : List (List ℕ)) (t : List ℕ) → IsListOf ts t → elements t ≡ Ok ts }
    ensures list_alone { (ts : List (List ℕ)) (t : List ℕ) → elements t ≡ Ok ts → IsListOf ts t }
    ensures flaw { (f : ListFlaw) (t : List ℕ) → HasFlaw f t → elements t ≡ Err f }
    ensures flaw_alone { (f : ListFlaw) (t : List ℕ) → elements t ≡ Err f → HasFlaw f t }
{}

/// A list's text reads as the list.
pub fn list_text_reads_back()
    ensures elements { (ts : List (List ℕ)) → elements (list_text ts) ≡ Ok ts }
    ensures list { (ts : List (List ℕ)) → IsListOf ts (list_text ts) }
{}
