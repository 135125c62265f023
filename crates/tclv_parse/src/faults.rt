// What can be wrong with a script.

use thiserror::Error;

/// The first fault of a script, read from the left. A missing closing mark is met at the end of the
/// text, and there that of the innermost open construct counts.
#[derive(Clone, Copy, Debug, PartialEq, Eq, Error)]
pub enum ParseFault {
    /// A word in braces that isn't closed.
    #[error("a word in braces has no end")]
    CloseBrace,
    /// A word in quotes that isn't closed.
    #[error("a word in quotes has no end")]
    CloseQuote,
    /// A bracketed script that isn't closed.
    #[error("a script in brackets has no end")]
    CloseBracket,
    /// The closing brace of a word is followed by something else than the word's end.
    #[error("a word in braces goes on behind its closing brace")]
    AfterBrace,
    /// The closing quotation mark of a word is followed by something else than the word's end.
    #[error("a word in quotes goes on behind its closing mark")]
    AfterQuote,
    /// The index of an element that isn't closed.
    #[error("the index of an element has no end")]
    CloseParen,
    /// A `${` that isn't closed.
    #[error("the name of a variable in braces has no end")]
    VarBrace,
    /// The `[` of a script or the `(` of an index stands inside 100 others of either kind.
    #[error("brackets or indices are nested too deep")]
    TooDeep,
}
