// The functions, and how many arguments each takes.

ghost use Rattle.std.specs.Prelude.{◌≡◌};
ghost use Rattle.std.specs.Str.{chars};
ghost use Rattle.tclv_text.specs.Texts.{IsText};
ghost use Rattle.tclv_exprp.specs.Functions as spec;

use tclv_text::is_ascii_word;

/// How many arguments a function takes.
#[derive(Clone, Copy, Debug, PartialEq, Eq)]
pub(crate) enum Count {
    One,
    OneOrMore,
}

/// How many arguments the function of this name takes, if there is one.
#[tactic(auto, unfolding(crate::specs::Functions::arity))]
pub(crate) fn arity(name: &[u8]) -> Option<Count>
    requires { IsText name.now }
    ensures { result ≡ spec.arity (chars name.now) }
{
    if is_ascii_word(name, b"abs")
        || is_ascii_word(name, b"bool")
        || is_ascii_word(name, b"entier")
        || is_ascii_word(name, b"int")
        || is_ascii_word(name, b"wide")
    {
        Some(Count::One)
    } else if is_ascii_word(name, b"max") || is_ascii_word(name, b"min") {
        Some(Count::OneOrMore)
    } else {
        None
    }
}

pub(crate) fn takes(count: Count, arguments: usize) -> bool
    ensures { result ≡ spec.takes count arguments }
{
    match count {
        Count::One => arguments == 1,
        Count::OneOrMore => arguments > 0,
    }
}
