// Single characters of texts: white space, digits, and the first one of a text.
ghost use Rattle.std.specs.Prelude.{◌≡◌, ◌<◌, ◌≤◌, ◌∷◌, length, drop};
ghost use Rattle.std.specs.Str.{chars};
ghost use Rattle.std.specs.List.{prefix_len};
ghost use Rattle.std.specs.Char.{digit_value};
ghost use Rattle.tclv_text.specs.Texts.{IsText};
ghost use Rattle.tclv_text.specs.Cuts.{IsCut};
ghost use Rattle.tclv_text.specs.Characters.{is_space};

use crate::texts::as_str;

/// Whether the byte is white space of lists.
pub(crate) fn is_space(b: u8) -> bool
    ensures { result ≡ is_space b }
{
    matches!(b, 9..=13 | b' ')
}

/// How many bytes of white space the text begins with.
#[tactic(auto, using(crate::proofs::CharacterLemmas::front_lengths))]
pub(crate) fn space_len(text: &[u8]) -> usize
    ensures len { result ≡ prefix_len is_space text.now }
    ensures within { result ≤ length text.now }
{
    text.iter().take_while(|b| is_space(**b)).count()
}

/// The value of a digit in the bases up to 36, or 36 where the byte is none.
pub(crate) fn digit(b: u8) -> u8
    ensures { result ≡ digit_value b }
{
    match b {
        b'0'..=b'9' => b - b'0',
        b'A'..=b'Z' => b - 55,
        b'a'..=b'z' => b - 87,
        _ => 36,
    }
}

/// The first character of a text, and how many bytes it takes.
pub(crate) fn first_char(text: &[u8]) -> (char, usize)
    requires utf8 { IsText text.now }
    requires some { 0 < length text.now }
    ensures char { chars text.now ≡ result.0 ∷ chars (drop result.1 text.now) }
    ensures taken { IsCut text.now result.1 1 }
    ensures some { 0 < result.1 }
{
    match as_str(text).chars().next() {
        Some(c) => (c, c.len_utf8()),
        None => unreachable!(),
    }
}
