// Where words and commands end, and the runs of characters that belong together.

ghost use Rattle.std.specs.Prelude.{◌≡◌, ◌+◌, ◌<◌, ◌≤◌, ◌^◌, drop, take, length, None};
ghost use Rattle.std.specs.Str.{chars};
ghost use Rattle.tclv_text.specs.Cursors.{sign};
ghost use Rattle.tclv_text.specs.Texts.{IsText};
ghost use Rattle.tclv_parse.specs.Runs as spec;

use tclv_text::{Cursor, Sign};

/// What holds parts: a bare word, a quoted word, or the index of an element.
#[derive(Clone, Copy, Debug, PartialEq, Eq)]
pub enum Form {
    Bare,
    Quoted,
    Index,
}

/// A run of characters that is being read, as far as what may follow depends on it.
#[derive(Clone, Copy, Debug, PartialEq, Eq)]
pub enum Run {
    /// Separators of words.
    Blanks,
    /// Separators, behind the backslash of a backslash-newline.
    Folded,
    Comment,
    /// A comment, behind a backslash.
    CommentEscape,
    /// A variable, before its dollar sign.
    Variable,
    /// A variable, behind its dollar sign.
    Sigil,
    /// The name of a variable, and whether its last character is a colon.
    Name(bool),
    /// The name of a variable in braces.
    Enclosed,
    /// A variable in braces, behind the closing brace.
    Closed,
    /// Literal characters in a word of this form, in a script that stands in brackets or doesn't.
    Literal(bool, Form),
    /// Raw characters of a braced word, inside so many braces of its own.
    Braced(usize),
    /// The same, behind a backslash.
    BracedEscape(usize),
}

pub(crate) fn ends_word(inner: bool, sign: Sign) -> bool
    ensures { result ≡ spec.ends_word inner sign }
{
    match sign {
        Sign::End | Sign::Blank | Sign::Fold | Sign::Newline | Sign::Semicolon => true,
        Sign::CloseBracket => inner,
        _ => false,
    }
}

pub(crate) fn ends_command(inner: bool, sign: Sign) -> bool
    ensures { result ≡ spec.ends_command inner sign }
{
    match sign {
        Sign::End | Sign::Newline | Sign::Semicolon => true,
        Sign::CloseBracket => inner,
        _ => false,
    }
}

/// The parts in a word of this form, or in an index, stop here.
pub(crate) fn stops(inner: bool, form: Form, sign: Sign) -> bool
    ensures { result ≡ spec.stops inner form sign }
{
    match form {
        Form::Bare => ends_word(inner, sign),
        Form::Quoted => matches!(sign, Sign::End | Sign::Quote),
        Form::Index => matches!(sign, Sign::End | Sign::CloseParen),
    }
}

fn is_plain(sign: Sign) -> bool
    ensures { result ≡ spec.is_plain sign }
{
    !matches!(
        sign,
        Sign::Fold | Sign::Backslash | Sign::Dollar | Sign::OpenBracket
    )
}

/// `{*}` stands here, directly before something that ends no word.
pub(crate) fn expands(inner: bool, cursor: &Cursor<'_>) -> bool
    ensures { result ≡ spec.expands inner cursor.now }
{
    let mut ahead = cursor.here();
    let first = ahead.peek();
    ahead.skip();
    let second = ahead.peek();
    ahead.skip();
    let third = ahead.peek();
    ahead.skip();
    is_expansion_mark(first, second, third) && !ends_word(inner, ahead.peek())
}

fn is_expansion_mark(first: Sign, second: Sign, third: Sign) -> bool
    ensures { result ≡ spec.is_expansion_mark first second third }
{
    matches!(
        (first, second, third),
        (Sign::OpenBrace, Sign::Star, Sign::CloseBrace)
    )
}

/// How many braces of its own a braced word stands in.
pub(crate) fn level_of(run: Run) -> usize
    ensures { result ≡ spec.level_of run }
{
    match run {
        Run::Braced(level) | Run::BracedEscape(level) => level,
        _ => 0,
    }
}

fn literal_step(inner: bool, form: Form, sign: Sign) -> Option<Run>
    requires { (sign ≡ Sign.End → ⊥) }
    ensures { result ≡ spec.step (Run.Literal inner form) sign }
{
    if is_plain(sign) && !stops(inner, form, sign) {
        Some(Run::Literal(inner, form))
    } else {
        None
    }
}

/// The run behind a character of this sign, or `None` where it ends before that.
fn step(run: Run, sign: Sign) -> Option<Run>
    requires { spec.level_of run + 1 < 2 ^ 64 }
    ensures { result ≡ spec.step run sign }
{
    if matches!(sign, Sign::End) {
        return None;
    }
    match run {
        Run::Blanks => match sign {
            Sign::Blank => Some(Run::Blanks),
            Sign::Fold => Some(Run::Folded),
            _ => None,
        },
        Run::Folded => Some(Run::Blanks),
        Run::Comment => match sign {
            Sign::Newline => None,
            Sign::Fold | Sign::Backslash => Some(Run::CommentEscape),
            _ => Some(Run::Comment),
        },
        Run::CommentEscape => Some(Run::Comment),
        Run::Variable => Some(Run::Sigil),
        Run::Sigil => match sign {
            Sign::OpenBrace => Some(Run::Enclosed),
            Sign::Name => Some(Run::Name(false)),
            Sign::Colons => Some(Run::Name(true)),
            _ => None,
        },
        Run::Name(colon) => match sign {
            Sign::Name => Some(Run::Name(false)),
            Sign::Colons => Some(Run::Name(true)),
            Sign::Colon if colon => Some(Run::Name(true)),
            _ => None,
        },
        Run::Enclosed => match sign {
            Sign::CloseBrace => Some(Run::Closed),
            _ => Some(Run::Enclosed),
        },
        Run::Closed => None,
        Run::Literal(inner, form) => literal_step(inner, form, sign),
        Run::Braced(level) => match sign {
            Sign::Fold => None,
            Sign::OpenBrace => Some(Run::Braced(level + 1)),
            Sign::CloseBrace if level == 0 => None,
            Sign::CloseBrace => Some(Run::Braced(level - 1)),
            Sign::Backslash => Some(Run::BracedEscape(level)),
            _ => Some(Run::Braced(level)),
        },
        Run::BracedEscape(level) => Some(Run::Braced(level)),
    }
}

/// Goes past the longest run, and gives its text and the run as it is behind it.
pub(crate) fn take_run<'a>(cursor: &mut Cursor<'a>, run: Run) -> (&'a [u8], Run)
    requires { spec.level_of run + length cursor.old < 2 ^ 63 }
    ensures text { chars result.0.now ≡ take (spec.run_len run cursor.old) cursor.old }
    ensures utf8 { IsText result.0.now }
    ensures end { result.1 ≡ spec.run_end run cursor.old }
    ensures rest { cursor.new ≡ drop (spec.run_len run cursor.old) cursor.old }
    ensures room { spec.level_of result.1 + length cursor.new ≤ spec.level_of run + length cursor.old }
{
    let start = cursor.here();
    let mut end = run;
    'run: while let Some(next) = step(end, cursor.peek()) {
        cursor.skip();
        end = next;
    }
    (start.up_to(cursor), end)
}
