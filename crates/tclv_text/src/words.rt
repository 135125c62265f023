// Texts compared with texts, in their case or in any.
ghost use Rattle.std.specs.Prelude.{◌≡◌, true};
ghost use Rattle.std.specs.List.{list_all};
ghost use Rattle.std.specs.Char.{is_ascii};
ghost use Rattle.std.specs.Str.{chars, bytes_eq};
ghost use Rattle.tclv_text.specs.Texts.{IsText};
ghost use Rattle.tclv_text.specs.Globs.{folded_char, folded};

use crate::numbers::is_word;

/// The character, in lower case where it is an ASCII letter and `nocase` says that case counts for
/// nothing.
pub fn fold_char(c: char, nocase: bool) -> char
    ensures { result ≡ folded_char nocase c }
{
    if nocase { c.to_ascii_lowercase() } else { c }
}

/// Whether two texts, given as UTF-8, are the same; with `nocase`, ASCII letters of both count in
/// lower case.
pub fn is_same_text(one: &[u8], other: &[u8], nocase: bool) -> bool
    requires one { IsText one.now }
    requires other { IsText other.now }
    ensures { result ≡ bytes_eq (folded nocase (chars one.now)) (folded nocase (chars other.now)) }
{
    if nocase {
        is_word(one, other)
    } else {
        one == other
    }
}

/// Whether a text, given as UTF-8, is this word of ASCII characters.
pub fn is_ascii_word(text: &[u8], word: &[u8]) -> bool
    requires text { IsText text.now }
    requires word { list_all is_ascii word.now ≡ true }
    ensures { result ≡ bytes_eq (chars text.now) word.now }
{
    text == word
}

#[cfg(test)]
mod tests {
    use super::*;

    #[test]
    fn compares_texts(rt: HostRuntime) {
        let same = is_same_text("aB\u{c9}".as_bytes(), "Ab\u{c9}".as_bytes(), true);
        assert!(rt; same && !is_same_text(b"a", b"A", false));
        assert!(rt; !is_same_text("\u{c9}".as_bytes(), "\u{e9}".as_bytes(), true));
        assert!(rt; is_ascii_word(b"end", b"end") && !is_ascii_word(b"End", b"end"));
        assert!(rt; fold_char('A', true) == 'a' && fold_char('A', false) == 'A');
    }
}
