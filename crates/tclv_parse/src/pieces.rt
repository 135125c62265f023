// Pieces of a script.

/// What a piece of a script is.
#[derive(Clone, Copy, Debug, PartialEq, Eq)]
pub enum PieceKind {
    /// A longest run of word separators: spaces, tabs, vertical tabs, form feeds, carriage returns
    /// and backslash-newlines.
    Blank,
    /// One newline or semicolon that ends a command or a comment, or stands where a command may
    /// begin.
    CommandEnd,
    /// A comment, without the newline that ends it.
    Comment,
    /// A longest run of all other characters of a word or an index.
    Literal,
    /// One backslash sequence in a bare or quoted word or an index, also the backslash at the end of
    /// the text; in a braced word a backslash-newline with the spaces and tabs behind it.
    Escape,
    /// `$` with the plain name behind it, or the whole of `${name}`.
    Dollar,
    /// The `[` of a script or the `(` of an index.
    Open,
    /// The `]` of a script or the `)` of an index.
    Close,
    /// A brace or quotation mark that begins or ends a word.
    Mark,
    /// The `{*}` of an expanded word.
    Expand,
}

/// A piece of a script: a slice of it, which is valid UTF-8.
#[derive(Clone, Copy, Debug)]
pub struct Piece<'a> {
    pub kind: PieceKind,
    pub text: &'a [u8],
}
