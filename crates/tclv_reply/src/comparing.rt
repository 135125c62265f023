// How texts are compared with a pattern.
ghost use Rattle.std.specs.Prelude.{◌≡◌};
ghost use Rattle.std.specs.Str.{chars, bytes_eq, str_eq_ignore_ascii_case};
ghost use Rattle.tclv_text.specs.Texts.{IsText};
ghost use Rattle.tclv_text.specs.Globs.{folded};
ghost use Rattle.tclv_reply.specs.Comparing.{fits_pattern};

use tclv_text::glob_match;

/// How a text is compared with a pattern.
#[derive(Clone, Copy, Debug, PartialEq, Eq)]
pub enum Matching {
    /// It is the pattern.
    Exact,
    /// It fits the pattern as a glob.
    Glob,
}

// Whether the bytes are the same.
fn are_same(one: &[u8], other: &[u8]) -> bool
    ensures { result ≡ bytes_eq one.now other.now }
{
    one == other
}

// Whether the bytes are the same, with ASCII letters in lower case.
fn are_same_in_any_case(one: &[u8], other: &[u8]) -> bool
    ensures { result ≡ str_eq_ignore_ascii_case one.now other.now }
{
    one.eq_ignore_ascii_case(other)
}

// Whether two texts are the same, with ASCII letters in lower case or as they are.
fn is_same(one: &[u8], other: &[u8], nocase: bool) -> bool
    requires one { IsText one.now }
    requires other { IsText other.now }
    ensures { result ≡ bytes_eq (folded nocase (chars one.now)) (folded nocase (chars other.now)) }
{
    if nocase {
        are_same_in_any_case(one, other)
    } else {
        are_same(one, other)
    }
}

/// Whether a text fits a pattern: whether it is the same, or as a glob. With `nocase` ASCII letters
/// count in lower case. (Tcl: lsearch(n), switch(n), string(n).)
pub fn fits_pattern(matching: Matching, nocase: bool, pattern: &[u8], text: &[u8]) -> bool
    requires pattern { IsText pattern.now }
    requires text { IsText text.now }
    ensures { result ≡ fits_pattern matching nocase (chars pattern.now) (chars text.now) }
{
    match matching {
        Matching::Exact => is_same(pattern, text, nocase),
        Matching::Glob => glob_match(pattern, text, nocase),
    }
}
