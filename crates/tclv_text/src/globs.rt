// Glob patterns.
ghost use Rattle.std.specs.Prelude.{◌≡◌, ◌+◌, ◌<◌, ◌≤◌, ◌∷◌, ◌||◌, ◌≢◌, [], true, false, List, ℕ, None, length, drop, MatchOption, IfSome, IfNone, is_some};
ghost use Rattle.std.specs.Option.{option_map};
ghost use Rattle.std.specs.List.{prefix_len, take_while};
ghost use Rattle.std.specs.Str.{chars};
ghost use Rattle.tclv_text.specs.Texts.{IsText};
ghost use Rattle.tclv_text.specs.Globs.{is_between, is_member, is_open, is_escaped, fits_one, taken, somewhere, fits, folded_char, matches};
ghost use Rattle.tclv_text.specs.GlobSearch.{points, range_end, behind_set, FrontSays, StepSays, Leaves};

use crate::characters::first_char;

/// Whether a pattern fits a text, as far as a search has come.
enum Answer<'a> {
    /// It does.
    Fits,
    /// It doesn't.
    Fails,
    /// It does exactly where this pattern fits this text or what is left of it from some place on.
    Somewhere(&'a [u8], &'a [u8]),
}

/// The character, in lower case where case counts for nothing.
fn folded(c: char, nocase: bool) -> char
    ensures { result ≡ folded_char nocase c }
{
    if nocase { c.to_ascii_lowercase() } else { c }
}

/// The first character of a text, and what stands behind it.
#[tactic(auto, using(crate::proofs::GlobLemmas::no_points))]
fn first(text: &[u8], nocase: bool) -> Option<(char, &[u8])>
    requires { IsText text.now }
    ensures first { MatchOption result (points nocase text.now ≡ []) (λ r. points nocase text.now ≡ r.0 ∷ points nocase r.1.now) }
    ensures rest { IfSome result (λ r. IsText r.1.now) }
    ensures shorter { IfSome result (λ r. length r.1.now < length text.now) }
{
    if text.is_empty() {
        return None;
    }
    let (c, n) = first_char(text);
    Some((folded(c, nocase), &text[n..]))
}

/// The end of a range, where the text behind a member makes it one, and what stands behind that.
fn range_end(text: &[u8], nocase: bool) -> Option<(char, &[u8])>
    requires { IsText text.now }
    ensures end { option_map (λ r. r.0) result ≡ range_end (points nocase text.now) }
    ensures rest { IfSome result (λ r. points nocase r.1.now ≡ drop 2 (points nocase text.now)) }
    ensures text { IfSome result (λ r. IsText r.1.now) }
    ensures shorter { IfSome result (λ r. length r.1.now < length text.now) }
{
    let (dash, behind) = first(text, nocase)?;
    let (high, rest) = first(behind, nocase)?;
    if dash == '-' && high != ']' {
        Some((high, rest))
    } else {
        None
    }
}

/// Whether the character is one end of the range or stands between them.
fn is_between(a: char, b: char, c: char) -> bool
    ensures { result ≡ is_between a b c }
{
    (a <= c && c <= b) || (b <= c && c <= a)
}

/// Whether the range that begins with `low` has the character, and what stands behind the range.
/// There is none where the text behind `low` makes it no range.
fn range_member(low: char, behind: &[u8], c: char, nocase: bool) -> Option<(bool, &[u8])>
    requires text { IsText behind.now }
    requires open { low ≢ 93 }
    ensures none { IfNone result (None ≡ range_end (points nocase behind.now)) }
    ensures has { IfSome result (λ r. is_member c (take_while is_open (low ∷ points nocase behind.now))
        ≡ (r.0 || is_member c (take_while is_open (points nocase r.1.now)))) }
    ensures rest { IfSome result (λ r. behind_set (low ∷ points nocase behind.now) ≡ behind_set (points nocase r.1.now)) }
    ensures text { IfSome result (λ r. IsText r.1.now) }
    ensures shorter { IfSome result (λ r. length r.1.now < length behind.now) }
{
    let (high, rest) = range_end(behind, nocase)?;
    Some((is_between(low, high, c), rest))
}

/// Whether the first member of a set has the character, and what stands behind the member. There
/// is none at a `]` and at the end.
fn member(set: &[u8], c: char, nocase: bool) -> Option<(bool, &[u8])>
    requires { IsText set.now }
    ensures none { IfNone result (take_while is_open (points nocase set.now) ≡ []) }
    ensures has { IfSome result (λ r. is_member c (take_while is_open (points nocase set.now))
        ≡ (r.0 || is_member c (take_while is_open (points nocase r.1.now)))) }
    ensures rest { IfSome result (λ r. behind_set (points nocase set.now) ≡ behind_set (points nocase r.1.now)) }
    ensures text { IfSome result (λ r. IsText r.1.now) }
    ensures shorter { IfSome result (λ r. length r.1.now < length set.now) }
{
    let (low, behind) = first(set, nocase)?;
    if low == ']' {
        return None;
    }
    match range_member(low, behind, c, nocase) {
        Some(found) => Some(found),
        None => Some((c == low, behind)),
    }
}

/// What stands behind a set, where the character is a member of it.
fn behind_member(set: &[u8], c: char, nocase: bool) -> Option<&[u8]>
    requires { IsText set.now }
    ensures has { is_some result ≡ is_member c (take_while is_open (points nocase set.now)) }
    ensures rest { IfSome result (λ r. points nocase r.now ≡ behind_set (points nocase set.now)) }
    ensures text { IfSome result (λ r. IsText r.now) }
    ensures within { IfSome result (λ r. length r.now ≤ length set.now) }
{
    let mut rest = set;
    let mut has = false;
    while let Some((fits, behind)) = member(rest, c, nocase) {
        has = has || fits;
        rest = behind;
    }
    if !has {
        return None;
    }
    match first(rest, nocase) {
        Some((_, behind)) => Some(behind),
        None => Some(rest),
    }
}

/// What stands behind an escaped character, where it is this one.
fn behind_escaped(text: &[u8], c: char, nocase: bool) -> Option<&[u8]>
    requires { IsText text.now }
    ensures has { is_some result ≡ is_escaped c (points nocase text.now) }
    ensures rest { IfSome result (λ r. points nocase r.now ≡ drop 1 (points nocase text.now)) }
    ensures text { IfSome result (λ r. IsText r.now) }
    ensures within { IfSome result (λ r. length r.now ≤ length text.now) }
{
    let (escaped, behind) = first(text, nocase)?;
    if c == escaped { Some(behind) } else { None }
}

/// What stands behind the part of a pattern that begins with the mark, where it fits the character.
fn behind_part(mark: char, behind: &[u8], c: char, nocase: bool) -> Option<&[u8]>
    requires { IsText behind.now }
    ensures has { is_some result ≡ fits_one mark (points nocase behind.now) c }
    ensures rest { IfSome result (λ r. points nocase r.now ≡ drop (taken mark (points nocase behind.now)) (points nocase behind.now)) }
    ensures text { IfSome result (λ r. IsText r.now) }
    ensures within { IfSome result (λ r. length r.now ≤ length behind.now) }
{
    if mark == '[' {
        behind_member(behind, c, nocase)
    } else if mark == '\\' {
        behind_escaped(behind, c, nocase)
    } else if mark == '?' || c == mark {
        Some(behind)
    } else {
        None
    }
}

/// Whether the pattern fits the text, as far as its first star.
fn front<'a>(pattern: &'a [u8], text: &'a [u8], nocase: bool) -> Answer<'a>
    requires pattern { IsText pattern.now }
    requires text { IsText text.now }
    ensures says { FrontSays nocase (points nocase pattern.now) (points nocase text.now) result }
    ensures leaves { Leaves (length pattern.now + length text.now) result }
{
    let mut pattern_left = pattern;
    let mut text_left = text;
    while let Some((mark, behind)) = first(pattern_left, nocase) {
        if mark == '*' {
            return Answer::Somewhere(behind, text_left);
        }
        let Some((c, rest)) = first(text_left, nocase) else {
            return Answer::Fails;
        };
        let Some(next) = behind_part(mark, behind, c, nocase) else {
            return Answer::Fails;
        };
        pattern_left = next;
        text_left = rest;
    }
    if text_left.is_empty() {
        Answer::Fits
    } else {
        Answer::Fails
    }
}

/// One step of the search for a place from which on the pattern fits the text: up to the next star,
/// or to the text's next character.
fn step<'a>(pattern: &'a [u8], text: &'a [u8], nocase: bool) -> Answer<'a>
    requires pattern { IsText pattern.now }
    requires text { IsText text.now }
    ensures says { StepSays nocase (points nocase pattern.now) (points nocase text.now) result }
    ensures leaves { Leaves (length pattern.now + length text.now) result }
{
    match front(pattern, text, nocase) {
        Answer::Fits => Answer::Fits,
        Answer::Somewhere(behind, rest) => Answer::Somewhere(behind, rest),
        Answer::Fails => match first(text, nocase) {
            Some((_, rest)) => Answer::Somewhere(pattern, rest),
            None => Answer::Fails,
        },
    }
}

/// Whether the pattern fits the text, or what is left of it from some place on.
fn fits_somewhere(pattern: &[u8], text: &[u8], nocase: bool) -> bool
    requires pattern { IsText pattern.now }
    requires text { IsText text.now }
    ensures { result ≡ somewhere (fits (points nocase pattern.now)) (points nocase text.now) }
{
    let mut pattern_left = pattern;
    let mut text_left = text;
    loop {
        match step(pattern_left, text_left, nocase) {
            Answer::Fits => return true,
            Answer::Fails => return false,
            Answer::Somewhere(behind, rest) => {
                pattern_left = behind;
                text_left = rest;
            }
        }
    }
}

/// Whether a glob pattern fits the whole text, both given as UTF-8. In a pattern `*` stands for any
/// text, `?` for any character, and `[...]` for one character of a set, which ends at the next `]`
/// or, where there is none, at the pattern's end. A set has single characters and ranges `a-b`,
/// whose ends come in either order; a `-` as its last character is a member, and an empty set fits
/// nothing. A backslash and a character stand for that character; a backslash at the end fits
/// nothing. With `nocase`, ASCII letters of both count in lower case. (Tcl: string(n), "string
/// match".)
///
/// Takes no memory, and at most the product of both lengths in steps.
pub fn glob_match(pattern: &[u8], text: &[u8], nocase: bool) -> bool
    requires pattern { IsText pattern.now }
    requires text { IsText text.now }
    ensures { result ≡ matches nocase (chars pattern.now) (chars text.now) }
{
    match front(pattern, text, nocase) {
        Answer::Fits => true,
        Answer::Fails => false,
        Answer::Somewhere(behind, rest) => fits_somewhere(behind, rest, nocase),
    }
}

#[cfg(test)]
mod tests {
    use super::*;
    use std::test::Fail;

    // each row is a pattern, `=` and a text
    #[test]
    fn matches_patterns(rt: HostRuntime) -> Result<(), Fail> {
        let fits =
            "=|*=|**=ab|a*c=abbc|*a*b=xaybzb|*ab=aaab|?=\u{e9}|?*?=ab|[abc]=c|[a-c]=c|[c-a]x=bx|[a-c-e]=-|\
                    [a-c-e]=e|[-a]=-|[a-]=-|[a-=-|[abc=b|[a*]b=*b|[\\]=\\|[\u{e0}-\u{ef}]=\u{e9}|\\*=*|\\a\\\\=a\\|]=]";
        for row in fits.split('|') {
            let (pattern, text) = row.split_once('=').ok_or("no row")?;
            assert!(rt;
                glob_match(pattern.as_bytes(), text.as_bytes(), false),
                "{row}"
            );
        }
        let fails =
            "=a|?=|?=ab|a*c=abcd|*a*b=xbya|[a-c]=d|[a-]=b|[a-c-e]=d|[]=|[]=]|[]a]=a|[=[|[ab=abc|\\*=a|a\\=a\\|\
                     a\\=a|A=a";
        for row in fails.split('|') {
            let (pattern, text) = row.split_once('=').ok_or("no row")?;
            assert!(rt;
                !glob_match(pattern.as_bytes(), text.as_bytes(), false),
                "{row}"
            );
        }
        Ok(())
    }

    #[test]
    fn matches_in_any_case(rt: HostRuntime) {
        assert!(rt; glob_match(b"A*c", b"aBC", true));
        assert!(rt; glob_match(b"[A-C]\\X", b"bx", true));
        assert!(rt; !glob_match(b"[^-`]", b"a", true));
        assert!(rt; !glob_match("\u{c9}".as_bytes(), "\u{e9}".as_bytes(), true));
    }

    #[test]
    fn tries_only_the_last_star(rt: HostRuntime) -> Result<(), Fail> {
        let mut pattern = String::new(rt.alloc());
        for _ in 0..20 {
            pattern.push_str("*a")?;
        }
        pattern.push_str("b")?;
        let mut text = String::new(rt.alloc());
        for _ in 0..2000 {
            text.push_str("a")?;
        }
        assert!(rt; !glob_match(pattern.as_str().as_bytes(), text.as_str().as_bytes(), false));
        Ok(())
    }
}
