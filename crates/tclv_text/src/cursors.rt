// A place in a text, by which readers go over it.
ghost use Rattle.std.specs.Prelude.{◌≡◌, ◌<◌, ◌^◌, ◌-◌, true, drop, take, length};
ghost use Rattle.std.specs.Str.{chars};
ghost use Rattle.tclv_text.specs.Texts.{IsText};
ghost use Rattle.tclv_text.specs.Cursors as spec;

use crate::characters::first_char;
use crate::escapes::backslash;
use std::marker::Model;

/// What stands at a place of a text, as far as the readers of scripts look at it. It is told by the
/// character there and up to two more.
#[derive(Clone, Copy, Debug, PartialEq, Eq)]
pub enum Sign {
    /// The end of the text.
    End,
    /// A space, tab, vertical tab, form feed or carriage return.
    Blank,
    /// A backslash before a newline.
    Fold,
    Newline,
    Semicolon,
    Hash,
    OpenBrace,
    CloseBrace,
    Quote,
    /// A dollar sign that begins a variable. Any other dollar sign is `Other`.
    Dollar,
    OpenBracket,
    CloseBracket,
    OpenParen,
    CloseParen,
    Star,
    /// A backslash that no newline follows.
    Backslash,
    /// An ASCII letter, a digit or an underscore.
    Name,
    /// A colon before another one.
    Colons,
    /// A colon that no other one follows.
    Colon,
    Other,
}

/// A place in a text. Contracts see the code points from there to the end of the text.
#[derive(Drop)]
pub struct Cursor<'a> {
    rest: &'a [u8],
}

impl<'a> Model for Cursor<'a> {
    ghost use Rattle.std.specs.Prelude.{List, ℕ};
    ghost use Rattle.std.specs.Str.{chars};
    ghost use Rattle.tclv_text.specs.Texts.{IsText};

    ghost Value = { List ℕ };

    ghost view = { λ c. chars c.rest.now };

    ghost invariant = { λ c. IsText c.rest.now };
}

fn is_name(b: u8) -> bool
    ensures { result ≡ spec.is_name b }
{
    b.is_ascii_alphanumeric() || b == b'_'
}

fn begins_variable(next: u8, third: u8) -> bool
    ensures { result ≡ spec.begins_variable next third }
{
    match next {
        b'{' | b'(' => true,
        b':' => third == b':',
        _ => is_name(next),
    }
}

/// What a byte is before the next two, where 0 stands for a missing one.
#[tactic(auto, unfolding(crate::specs::Cursors::sign_of))]
fn sign_of(b: u8, next: u8, third: u8) -> Sign
    ensures { result ≡ spec.sign_of b next third }
{
    match b {
        b' ' | b'\t' | 11..=13 => Sign::Blank,
        b'\n' => Sign::Newline,
        b';' => Sign::Semicolon,
        b'#' => Sign::Hash,
        b'{' => Sign::OpenBrace,
        b'}' => Sign::CloseBrace,
        b'"' => Sign::Quote,
        b'[' => Sign::OpenBracket,
        b']' => Sign::CloseBracket,
        b'(' => Sign::OpenParen,
        b')' => Sign::CloseParen,
        b'*' => Sign::Star,
        b'\\' if next == b'\n' => Sign::Fold,
        b'\\' => Sign::Backslash,
        b'$' if begins_variable(next, third) => Sign::Dollar,
        b'$' => Sign::Other,
        b':' if next == b':' => Sign::Colons,
        b':' => Sign::Colon,
        _ if is_name(b) => Sign::Name,
        _ => Sign::Other,
    }
}

impl<'a> Cursor<'a> {
    /// The beginning of a text.
    pub fn new(text: &'a [u8]) -> Cursor<'a>
        requires { IsText text.now }
        ensures place { result ≡ chars text.now }
        ensures short { length result < 2 ^ 63 }
    {
        Cursor { rest: text }
    }

    /// The same place once more.
    pub fn here(&self) -> Cursor<'a>
        ensures { result ≡ self.now }
    {
        Cursor { rest: self.rest }
    }

    /// The text from this place up to a later one.
    pub fn up_to(&self, later: &Cursor<'_>) -> &'a [u8]
        requires { later.now ≡ drop (length self.now - length later.now) self.now }
        ensures text { chars result.now ≡ take (length self.now - length later.now) self.now }
        ensures utf8 { IsText result.now }
    {
        let len = self.rest.len().saturating_sub(later.rest.len());
        &self.rest[..len]
    }

    /// How many bytes are left.
    pub fn left(&self) -> usize
        ensures { result ≡ spec.size self.now }
    {
        self.rest.len()
    }

    /// What stands here.
    pub fn peek(&self) -> Sign
        ensures { result ≡ spec.sign self.now }
    {
        match self.rest {
            [] => Sign::End,
            [b] => sign_of(*b, 0, 0),
            [b, next] => sign_of(*b, *next, 0),
            [b, next, third, ..] => sign_of(*b, *next, *third),
        }
    }

    /// Goes past the next character, if there is one.
    pub fn skip(&mut self)
        ensures { self.new ≡ drop 1 self.old }
    {
        match self.rest {
            [] => {}
            rest => {
                let (_, len) = first_char(rest);
                self.rest = &rest[len..];
            }
        }
    }

    /// Goes past the escape that comes, and gives the character that it stands for.
    pub fn skip_escape(&mut self) -> char
        requires { spec.begins_escape (spec.sign self.old) ≡ true }
        ensures char { result ≡ spec.escape_char self.old }
        ensures rest { self.new ≡ drop (spec.escape_len self.old) self.old }
    {
        let (c, len) = backslash(self.rest);
        self.rest = &self.rest[len..];
        c
    }
}
