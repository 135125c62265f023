//! Laws of glob patterns.
ghost use Rattle.std.specs.Prelude.{◌≡◌, ◌≢◌, ◌==◌, ℕ, true, false, List, [], ◌∷◌, ◌++◌, IsTrue};
ghost use Rattle.std.specs.List.{list_all};
ghost use Rattle.tclv_text.specs.Globs.{is_member, is_open, begins, is_empty, fits, matches};

/// What a pattern fits, by its first part: the empty pattern fits only the empty text; a star and a
/// pattern fit the texts that end with a text of the pattern; a question mark, a set, an escaped or
/// another character and a pattern fit one character before a text of the pattern. A set without a `]` is the
/// pattern's last part. A backslash at the end fits nothing.
pub fn patterns_fit_by_cases()
    ensures nothing { (t : List ℕ) → fits [] t ≡ is_empty t }
    ensures star { (p u v : List ℕ) → IsTrue (fits p v) → IsTrue (fits (42 ∷ p) (u ++ v)) }
    ensures star_alone { (p t : List ℕ) → IsTrue (fits (42 ∷ p) t) → (u : List ℕ) × (v : List ℕ) × (t ≡ u ++ v) × IsTrue (fits p v) }
    ensures question { (p t : List ℕ) → fits (63 ∷ p) t ≡ begins (λ c. true) (fits p) t }
    ensures set { (s p t : List ℕ) → IsTrue (list_all is_open s) → fits (91 ∷ (s ++ 93 ∷ p)) t ≡ begins (λ c. is_member c s) (fits p) t }
    ensures open_set { (s t : List ℕ) → IsTrue (list_all is_open s) → fits (91 ∷ s) t ≡ begins (λ c. is_member c s) is_empty t }
    ensures escaped { (x : ℕ) (p t : List ℕ) → fits (92 ∷ (x ∷ p)) t ≡ begins (λ c. c == x) (fits p) t }
    ensures last_backslash { (t : List ℕ) → fits (92 ∷ []) t ≡ false }
    ensures other { (x : ℕ) (p t : List ℕ) → x ≢ 42 → x ≢ 63 → x ≢ 91 → x ≢ 92 → fits (x ∷ p) t ≡ begins (λ c. c == x) (fits p) t }
{}

/// Where case counts, a pattern matches the texts that it fits.
pub fn patterns_match_in_their_case()
    ensures { (p t : List ℕ) → matches false p t ≡ fits p t }
{}
