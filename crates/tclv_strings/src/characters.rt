// The characters of texts: the first and the last one, and how many of them from the left.
ghost use Rattle.std.specs.Prelude.{◌≡◌, ◌-◌, ◌<◌, ◌≤◌, ◌++◌, [], ◌∷◌, length, take, drop, min, MatchOption, IfSome};
ghost use Rattle.std.specs.Str.{chars};
ghost use Rattle.tclv_text.specs.Texts.{IsText};
ghost use Rattle.tclv_strings.specs.Trimming.{is_one_in};

use tclv_text::{Cursor, as_str};

// The first character of a text, and how many bytes it takes.
fn first_char(text: &[u8]) -> (char, usize)
    requires utf8 { IsText text.now }
    requires some { 0 < length text.now }
    ensures char { chars text.now ≡ result.0 ∷ chars (drop result.1 text.now) }
    ensures rest { IsText (drop result.1 text.now) }
    ensures within { result.1 ≤ length text.now }
    ensures some { 0 < result.1 }
{
    match as_str(text).chars().next() {
        Some(c) => (c, c.len_utf8()),
        None => unreachable!(),
    }
}

// The last character of a text, and how many bytes it takes.
fn last_char(text: &[u8]) -> (char, usize)
    requires utf8 { IsText text.now }
    requires some { 0 < length text.now }
    ensures char { chars text.now ≡ chars (take (length text.now - result.1) text.now) ++ result.0 ∷ [] }
    ensures front { IsText (take (length text.now - result.1) text.now) }
    ensures within { result.1 ≤ length text.now }
    ensures some { 0 < result.1 }
{
    match as_str(text).chars().next_back() {
        Some(c) => (c, c.len_utf8()),
        None => unreachable!(),
    }
}

/// The first character of a text, and what stands behind it.
#[tactic(auto, using(crate::proofs::CharacterLemmas::empty_points))]
pub(crate) fn split_first(text: &[u8]) -> Option<(char, &[u8])>
    requires { IsText text.now }
    ensures first { MatchOption result (chars text.now ≡ []) (λ r. chars text.now ≡ r.0 ∷ chars r.1.now) }
    ensures rest { IfSome result (λ r. IsText r.1.now) }
    ensures shorter { IfSome result (λ r. length r.1.now < length text.now) }
{
    if text.is_empty() {
        return None;
    }
    let (c, n) = first_char(text);
    Some((c, &text[n..]))
}

/// The last character of a text, and what stands before it.
#[tactic(auto, using(crate::proofs::CharacterLemmas::empty_points))]
pub(crate) fn split_last(text: &[u8]) -> Option<(&[u8], char)>
    requires { IsText text.now }
    ensures last { MatchOption result (chars text.now ≡ []) (λ r. chars text.now ≡ chars r.0.now ++ r.1 ∷ []) }
    ensures front { IfSome result (λ r. IsText r.0.now) }
    ensures shorter { IfSome result (λ r. length r.0.now < length text.now) }
{
    if text.is_empty() {
        return None;
    }
    let (c, n) = last_char(text);
    Some((&text[..text.len() - n], c))
}

// The smaller of two numbers.
fn smaller(a: usize, b: usize) -> usize
    ensures { result ≡ min a b }
{
    if a < b { a } else { b }
}

/// The first characters of a text, as many as the number says.
pub(crate) fn first_points(text: &[u8], n: usize) -> &[u8]
    requires { IsText text.now }
    ensures text { chars result.now ≡ take n (chars text.now) }
    ensures utf8 { IsText result.now }
{
    let most = smaller(n, text.len());
    let from = Cursor::new(text);
    let mut at = from.here();
    for k in 0..most {
        at.skip();
    }
    from.up_to(&at)
}

/// Whether a character is one of a text's.
pub(crate) fn is_one_in(c: char, text: &[u8]) -> bool
    requires { IsText text.now }
    ensures { result ≡ is_one_in (chars text.now) c }
{
    as_str(text).chars().any(|x| x == c)
}
