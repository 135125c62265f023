// Texts without the white space at their ends.
ghost use Rattle.std.specs.Prelude.{◌≡◌};
ghost use Rattle.std.specs.Str.{chars};
ghost use Rattle.tclv_text.specs.Texts.{IsText};
ghost use Rattle.tclv_text.specs.Numbers.{trim};
ghost use Rattle.tclv_text.specs.Trims.{ends_in_backslash, trim_unescaped};

use crate::characters::space_len;
use crate::numbers::{end_space_len, trim};

/// Lends a text, given as UTF-8, without the white space at its ends: space and the characters 9 to
/// 13.
pub fn trim_space(text: &[u8]) -> &[u8]
    requires { IsText text.now }
    ensures text { chars result.now ≡ trim (chars text.now) }
    ensures utf8 { IsText result.now }
{
    trim(text)
}

/// Whether a backslash comes last.
fn ends_in_backslash(text: &[u8]) -> bool
    ensures { result ≡ ends_in_backslash text.now }
{
    matches!(text, [.., b'\\'])
}

/// The bytes without the white space at their ends, but with one that stands behind a backslash.
#[tactic(auto, unfolding(crate::specs::Trims::trim_unescaped))]
fn trim_unescaped_bytes(text: &[u8]) -> &[u8]
    ensures { result.now ≡ trim_unescaped text.now }
{
    let rest = &text[space_len(text)..];
    let len = rest.len() - end_space_len(rest);
    if len < rest.len() && ends_in_backslash(&rest[..len]) {
        return &rest[..len + 1];
    }
    &rest[..len]
}

/// Lends a text, given as UTF-8, without the white space at its ends, but with one character of it
/// that stands behind a backslash at the end. (Tcl: concat(n).)
pub fn trim_unescaped(text: &[u8]) -> &[u8]
    requires { IsText text.now }
    ensures text { chars result.now ≡ trim_unescaped (chars text.now) }
    ensures utf8 { IsText result.now }
{
    trim_unescaped_bytes(text)
}

#[cfg(test)]
mod tests {
    use super::*;

    #[test]
    fn trims_texts(rt: HostRuntime) {
        let rows = [
            ("", "", ""),
            (" \t\n ", "", ""),
            ("\x0b\x0ca b\r ", "a b", "a b"),
            (" \u{e9}\u{a0} ", "\u{e9}\u{a0}", "\u{e9}\u{a0}"),
            ("a\\  ", "a\\", "a\\ "),
            ("\\", "\\", "\\"),
        ];
        for (text, space, unescaped) in rows {
            assert_eq!(rt; trim_space(text.as_bytes()), space.as_bytes());
            assert_eq!(rt; trim_unescaped(text.as_bytes()), unescaped.as_bytes());
        }
    }
}
