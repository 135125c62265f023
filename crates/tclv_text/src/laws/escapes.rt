//! Laws of escapes.
ghost use Rattle.std.specs.Prelude.{◌≡◌, ℕ, ◌==◌, false, List, ◌∷◌, drop};
ghost use Rattle.tclv_text.specs.Escapes.{escape, unescape};

/// Escapes are read from the left: a backslash with what it takes is the character that it stands
/// for, and another character is itself.
pub fn escapes_are_read()
    ensures escape { (cs : List ℕ) → unescape (92 ∷ cs) ≡ (escape cs).0 ∷ unescape (drop (escape cs).1 cs) }
    ensures other { (c : ℕ) (cs : List ℕ) → (c == 92) ≡ false → unescape (c ∷ cs) ≡ c ∷ unescape cs }
{}
