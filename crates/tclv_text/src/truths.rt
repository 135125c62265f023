// Truth values, read from texts.
ghost use Rattle.std.specs.Prelude.{◌≡◌, length, take};
ghost use Rattle.std.specs.Str.{chars, str_eq_ignore_ascii_case};
ghost use Rattle.tclv_text.specs.Texts.{IsText};
ghost use Rattle.tclv_text.specs.Truths.{truth, word_truth};

use crate::numbers::{is_word, whole_of};

/// Whether the text is, in any case, a front of the word.
#[tactic(auto, using(crate::proofs::TruthLemmas::longer))]
fn is_front(text: &[u8], word: &[u8]) -> bool
    ensures { result ≡ str_eq_ignore_ascii_case text.now (take (length text.now) word.now) }
{
    text.len() <= word.len() && is_word(text, &word[..text.len()])
}

/// The value of the one word that the text is a front of.
#[tactic(auto, unfolding(crate::specs::Truths::word_truth), using(crate::proofs::TruthLemmas::words_agree))]
fn word_truth(text: &[u8]) -> Option<bool>
    ensures { result ≡ word_truth text.now }
{
    let begins_true = is_front(text, b"true") || is_front(text, b"yes") || is_front(text, b"on");
    let begins_false = is_front(text, b"false") || is_front(text, b"no") || is_front(text, b"off");
    match (begins_true, begins_false) {
        (true, false) => Some(true),
        (false, true) => Some(false),
        _ => None,
    }
}

/// The truth value that these bytes write.
fn truth_of(text: &[u8]) -> Option<bool>
    ensures { result ≡ truth text.now }
{
    match whole_of(text) {
        Ok(n) => Some(n != 0),
        Err(_) => word_truth(text),
    }
}

/// The truth value that a text, given as UTF-8, is. A whole number, with its white space around
/// it, is true unless it is 0. Of the words `true`, `yes`, `on`, `false`, `no` and `off`, each
/// front that begins no other of them counts, in any case and with no white space: `t` is true,
/// `of` is false, and `o` is none. (Tcl: Tcl_GetBoolean.)
///
/// `None` exactly where the text is no truth value: a whole number outside 64 bits and a floating
/// point number are none. Takes no memory.
pub fn truth(text: &[u8]) -> Option<bool>
    requires { IsText text.now }
    ensures { result ≡ truth (chars text.now) }
{
    truth_of(text)
}

#[cfg(test)]
mod tests {
    use super::*;

    #[test]
    fn reads_truth_values(rt: HostRuntime) {
        for text in "t tr tru true y ye yes on TRUE Yes oN 1 -7 0x1".split(' ') {
            assert_eq!(rt; truth(text.as_bytes()), Some(true), "at {text}");
        }
        for text in "f fa fal fals false n no of off OFF False 0 00 -0x0".split(' ') {
            assert_eq!(rt; truth(text.as_bytes()), Some(false), "at {text}");
        }
        for text in "|o|O|truer| true|yes |nope|offf|1.0|inf|0.|9223372036854775808".split('|') {
            assert_eq!(rt; truth(text.as_bytes()), None, "at {text}");
        }
        assert_eq!(rt; truth(b" 1 "), Some(true));
    }
}
