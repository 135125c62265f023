// A script, piece by piece.

ghost use Rattle.std.specs.Prelude.{◌≡◌, ◌≤◌, ◌<◌, ◌+◌, ◌^◌, true, false, length};
ghost use Rattle.std.specs.Str.{chars};
ghost use Rattle.tclv_text.specs.Texts.{IsText};
ghost use Rattle.tclv_text.specs.Cursors.{sign, begins_escape, escape_len};
ghost use Rattle.tclv_parse.specs.Runs.{ends_word, stops, level_of, run_len};
ghost use Rattle.tclv_parse.specs.Grammar.{pieces};
ghost use Rattle.tclv_parse.specs.Gives.{Gives, GivesText, TilesText};
ghost use Rattle.tclv_parse.specs.Steps as spec;

use crate::modes::Mode;
use crate::runs::{self, Form, Run, ends_command, ends_word, expands, level_of, take_run};
use crate::{ParseFault, Piece, PieceKind};
use std::marker::Model;
use tclv_text::{Cursor, Sign};

/// How many brackets and indices may stand in one another.
const MAX_DEPTH: usize = 100;

/// A place in a script, with the levels that are open there. A level is the script of a pair of
/// brackets, or an index.
#[derive(Drop)]
struct Place<'a> {
    cursor: Cursor<'a>,
    mode: Mode,
    /// What holds the bracket or the index that opened each level, the outermost first.
    around: [Form; 100],
    /// How many levels are open.
    open: usize,
}

// Pieces of one kind each.
impl<'a> Place<'a> {
    /// Whether the script here stands in brackets.
    fn inner(&self) -> bool
        ensures { result ≡ spec.inner self.now }
    {
        self.open > 0
    }

    /// One character.
    fn character(&mut self, kind: PieceKind, mode: Mode) -> Piece<'a>
        requires within { spec.IsWithin self.old }
        requires room { spec.level_in mode + length self.old.cursor < 2 ^ 63 }
        ensures within { spec.IsWithin self.new }
        ensures taken { spec.Takes self.old result self.new kind 1 mode }
    {
        let start = self.cursor.here();
        self.cursor.skip();
        self.mode = mode;
        Piece {
            kind,
            text: start.up_to(&self.cursor),
        }
    }

    /// The mark of an expanded word.
    fn expansion(&mut self) -> Piece<'a>
        requires within { spec.IsWithin self.old }
        ensures within { spec.IsWithin self.new }
        ensures taken { spec.Takes self.old result self.new PieceKind.Expand 3 Mode.Expanded }
    {
        let start = self.cursor.here();
        self.cursor.skip();
        self.cursor.skip();
        self.cursor.skip();
        self.mode = Mode::Expanded;
        Piece {
            kind: PieceKind::Expand,
            text: start.up_to(&self.cursor),
        }
    }

    /// An escape.
    fn escape(&mut self, mode: Mode) -> Piece<'a>
        requires within { spec.IsWithin self.old }
        requires room { spec.level_in mode + length self.old.cursor < 2 ^ 63 }
        requires sign { begins_escape (sign self.old.cursor) ≡ true }
        ensures within { spec.IsWithin self.new }
        ensures taken { spec.Takes self.old result self.new PieceKind.Escape (escape_len self.old.cursor) mode }
    {
        let start = self.cursor.here();
        self.cursor.skip_escape();
        self.mode = mode;
        Piece {
            kind: PieceKind::Escape,
            text: start.up_to(&self.cursor),
        }
    }

    /// A run that holds no braces.
    fn run(&mut self, kind: PieceKind, run: Run, mode: Mode) -> Piece<'a>
        requires within { spec.IsWithin self.old }
        requires plain { level_of run ≡ 0 }
        requires mode { spec.level_in mode ≡ 0 }
        ensures within { spec.IsWithin self.new }
        ensures taken { spec.Takes self.old result self.new kind (run_len run self.old.cursor) mode }
    {
        let (text, _) = take_run(&mut self.cursor, run);
        self.mode = mode;
        Piece { kind, text }
    }

    /// Raw characters of a word in braces, inside so many of its own.
    fn raw(&mut self, level: usize) -> Piece<'a>
        requires within { spec.IsWithin self.old }
        requires room { level + length self.old.cursor < 2 ^ 63 }
        ensures within { spec.IsWithin self.new }
        ensures taken { spec.Takes self.old result self.new PieceKind.Literal (run_len (Run.Braced level) self.old.cursor)
            (spec.mode_behind level self.old.cursor) }
    {
        let (text, end) = take_run(&mut self.cursor, Run::Braced(level));
        self.mode = Mode::Braced(level_of(end));
        Piece {
            kind: PieceKind::Literal,
            text,
        }
    }
}

// Levels and parts of words.
impl<'a> Place<'a> {
    /// A level opens, in which this is read.
    fn open_level(&mut self, form: Form, inside: Mode) -> Result<Piece<'a>, ParseFault>
        requires within { spec.IsWithin self.old }
        requires inside { spec.IsLevel inside }
        ensures within { spec.IsWithin self.new }
        ensures moved { spec.Moves (spec.opening_in inside form self.old) result (spec.here self.new) }
    {
        if self.open == MAX_DEPTH {
            return Err(ParseFault::TooDeep);
        }
        self.around[self.open] = form;
        self.open += 1;
        Ok(self.character(PieceKind::Open, inside))
    }

    /// A level closes.
    fn close_level(&mut self) -> Piece<'a>
        requires within { spec.IsWithin self.old }
        requires inner { spec.inner self.old ≡ true }
        ensures within { spec.IsWithin self.new }
        ensures moved { spec.Moves (spec.closing self.old) (Ok result) (spec.here self.new) }
    {
        self.open -= 1;
        let form = self.around[self.open];
        self.character(PieceKind::Close, Mode::Parts(form))
    }

    /// A variable, without its index.
    fn variable(&mut self, form: Form) -> Result<Piece<'a>, ParseFault>
        requires within { spec.IsWithin self.old }
        requires going { stops (spec.inner self.old) form (sign self.old.cursor) ≡ false }
        requires sign { sign self.old.cursor ≡ Sign.Dollar }
        ensures within { spec.IsWithin self.new }
        ensures moved { spec.Moves (spec.here_in (Mode.Parts form) self.old) result (spec.here self.new) }
    {
        let (text, end) = take_run(&mut self.cursor, Run::Variable);
        match end {
            Run::Enclosed => {
                self.mode = Mode::Parts(form);
                return Err(ParseFault::VarBrace);
            }
            Run::Closed => self.mode = Mode::Parts(form),
            _ => self.mode = Mode::Named(form),
        }
        Ok(Piece {
            kind: PieceKind::Dollar,
            text,
        })
    }

    /// A part of a word of this form, or of an index, which goes on here.
    fn part(&mut self, form: Form) -> Result<Piece<'a>, ParseFault>
        requires within { spec.IsWithin self.old }
        requires going { stops (spec.inner self.old) form (sign self.old.cursor) ≡ false }
        ensures within { spec.IsWithin self.new }
        ensures moved { spec.Moves (spec.here_in (Mode.Parts form) self.old) result (spec.here self.new) }
    {
        match self.cursor.peek() {
            Sign::Backslash | Sign::Fold => Ok(self.escape(Mode::Parts(form))),
            Sign::Dollar => self.variable(form),
            Sign::OpenBracket => self.open_level(form, Mode::Begin),
            _ => {
                let run = Run::Literal(self.inner(), form);
                Ok(self.run(PieceKind::Literal, run, Mode::Parts(form)))
            }
        }
    }
}

// Words, commands and scripts.
impl<'a> Place<'a> {
    /// A word without an expansion mark, which begins here.
    fn plain_word(&mut self) -> Result<Piece<'a>, ParseFault>
        requires within { spec.IsWithin self.old }
        requires word { ends_word (spec.inner self.old) (sign self.old.cursor) ≡ false }
        ensures within { spec.IsWithin self.new }
        ensures moved { spec.Moves (spec.here_in Mode.Expanded self.old) result (spec.here self.new) }
    {
        match self.cursor.peek() {
            Sign::OpenBrace => Ok(self.character(PieceKind::Mark, Mode::Braced(0))),
            Sign::Quote => Ok(self.character(PieceKind::Mark, Mode::Parts(Form::Quoted))),
            _ => self.part(Form::Bare),
        }
    }

    /// A word, which begins here.
    fn word(&mut self) -> Result<Piece<'a>, ParseFault>
        requires within { spec.IsWithin self.old }
        requires word { ends_word (spec.inner self.old) (sign self.old.cursor) ≡ false }
        ensures within { spec.IsWithin self.new }
        ensures moved { spec.Moves (spec.here_in Mode.Words self.old) result (spec.here self.new) }
    {
        if expands(self.inner(), &self.cursor) {
            Ok(self.expansion())
        } else {
            self.plain_word()
        }
    }

    /// A script, where a command may begin.
    fn begin(&mut self) -> Option<Result<Piece<'a>, ParseFault>>
        requires within { spec.IsWithin self.old }
        ensures within { spec.IsWithin self.new }
        ensures moved { spec.Steps (spec.here_in Mode.Begin self.old) result (spec.here self.new) }
    {
        let inner = self.inner();
        match self.cursor.peek() {
            Sign::End if inner => Some(Err(ParseFault::CloseBracket)),
            Sign::End => None,
            Sign::CloseBracket if inner => Some(Ok(self.close_level())),
            Sign::Blank | Sign::Fold => {
                Some(Ok(self.run(PieceKind::Blank, Run::Blanks, Mode::Begin)))
            }
            Sign::Newline | Sign::Semicolon => {
                Some(Ok(self.character(PieceKind::CommandEnd, Mode::Begin)))
            }
            Sign::Hash => Some(Ok(self.run(PieceKind::Comment, Run::Comment, Mode::Begin))),
            _ => Some(self.word()),
        }
    }

    /// A command, behind one of its words.
    fn words(&mut self) -> Option<Result<Piece<'a>, ParseFault>>
        requires within { spec.IsWithin self.old }
        ensures within { spec.IsWithin self.new }
        ensures moved { spec.Steps (spec.here_in Mode.Words self.old) result (spec.here self.new) }
    {
        let sign = self.cursor.peek();
        if ends_command(self.inner(), sign) {
            return self.begin();
        }
        match sign {
            Sign::Blank | Sign::Fold => {
                Some(Ok(self.run(PieceKind::Blank, Run::Blanks, Mode::Words)))
            }
            _ => Some(self.word()),
        }
    }
}

// What goes on at a place.
impl<'a> Place<'a> {
    /// The parts of a word of this form, or of an index, stop here.
    fn stop(&mut self, form: Form) -> Option<Result<Piece<'a>, ParseFault>>
        requires within { spec.IsWithin self.old }
        requires stops { stops (spec.inner self.old) form (sign self.old.cursor) ≡ true }
        ensures within { spec.IsWithin self.new }
        ensures moved { spec.Steps (spec.here_in (Mode.Parts form) self.old) result (spec.here self.new) }
    {
        match form {
            Form::Bare => self.words(),
            Form::Quoted => Some(self.end_quote()),
            Form::Index => Some(self.end_index()),
        }
    }

    /// The parts of a quoted word stop here.
    fn end_quote(&mut self) -> Result<Piece<'a>, ParseFault>
        requires within { spec.IsWithin self.old }
        ensures within { spec.IsWithin self.new }
        ensures moved { spec.Moves (spec.behind_parts Form.Quoted self.old) result (spec.here self.new) }
    {
        match self.cursor.peek() {
            Sign::Quote => {
                Ok(self.character(PieceKind::Mark, Mode::Closed(ParseFault::AfterQuote)))
            }
            _ => Err(ParseFault::CloseQuote),
        }
    }

    /// The parts of an index stop here.
    fn end_index(&mut self) -> Result<Piece<'a>, ParseFault>
        requires within { spec.IsWithin self.old }
        ensures within { spec.IsWithin self.new }
        ensures moved { spec.Moves (spec.behind_parts Form.Index self.old) result (spec.here self.new) }
    {
        match self.cursor.peek() {
            Sign::CloseParen if self.inner() => Ok(self.close_level()),
            _ => Err(ParseFault::CloseParen),
        }
    }

    fn parts(&mut self, form: Form) -> Option<Result<Piece<'a>, ParseFault>>
        requires within { spec.IsWithin self.old }
        ensures within { spec.IsWithin self.new }
        ensures moved { spec.Steps (spec.here_in (Mode.Parts form) self.old) result (spec.here self.new) }
    {
        if runs::stops(self.inner(), form, self.cursor.peek()) {
            self.stop(form)
        } else {
            Some(self.part(form))
        }
    }

    /// Behind the plain name of a variable.
    fn named(&mut self, form: Form) -> Option<Result<Piece<'a>, ParseFault>>
        requires within { spec.IsWithin self.old }
        ensures within { spec.IsWithin self.new }
        ensures moved { spec.Steps (spec.here_in (Mode.Named form) self.old) result (spec.here self.new) }
    {
        match self.cursor.peek() {
            Sign::OpenParen => Some(self.open_level(form, Mode::Parts(Form::Index))),
            _ => self.parts(form),
        }
    }

    /// Behind the mark of an expanded word.
    fn expanded(&mut self) -> Option<Result<Piece<'a>, ParseFault>>
        requires within { spec.IsWithin self.old }
        ensures within { spec.IsWithin self.new }
        ensures moved { spec.Steps (spec.here_in Mode.Expanded self.old) result (spec.here self.new) }
    {
        match self.cursor.peek() {
            Sign::OpenBrace | Sign::Quote => Some(self.plain_word()),
            _ => self.parts(Form::Bare),
        }
    }

    /// A word in braces, inside so many of its own.
    fn braced(&mut self, level: usize) -> Result<Piece<'a>, ParseFault>
        requires within { spec.IsWithin self.old }
        requires room { level + length self.old.cursor < 2 ^ 63 }
        ensures within { spec.IsWithin self.new }
        ensures moved { spec.Moves (spec.here_in (Mode.Braced level) self.old) result (spec.here self.new) }
    {
        match self.cursor.peek() {
            Sign::End => Err(ParseFault::CloseBrace),
            Sign::Fold => Ok(self.escape(Mode::Braced(level))),
            Sign::CloseBrace if level == 0 => {
                Ok(self.character(PieceKind::Mark, Mode::Closed(ParseFault::AfterBrace)))
            }
            _ => Ok(self.raw(level)),
        }
    }

    /// Behind the closing mark of a word.
    fn closed(&mut self, fault: ParseFault) -> Option<Result<Piece<'a>, ParseFault>>
        requires within { spec.IsWithin self.old }
        ensures within { spec.IsWithin self.new }
        ensures moved { spec.Steps (spec.here_in (Mode.Closed fault) self.old) result (spec.here self.new) }
    {
        if ends_word(self.inner(), self.cursor.peek()) {
            self.words()
        } else {
            Some(Err(fault))
        }
    }

    /// The next piece, or the fault, or the end.
    fn step(&mut self) -> Option<Result<Piece<'a>, ParseFault>>
        requires within { spec.IsWithin self.old }
        ensures within { spec.IsWithin self.new }
        ensures moved { spec.Steps (spec.here self.old) result (spec.here self.new) }
    {
        match self.mode {
            Mode::Begin => self.begin(),
            Mode::Words => self.words(),
            Mode::Expanded => self.expanded(),
            Mode::Parts(form) => self.parts(form),
            Mode::Named(form) => self.named(form),
            Mode::Braced(level) => Some(self.braced(level)),
            Mode::Closed(fault) => self.closed(fault),
        }
    }
}

/// The pieces of a script, which are slices of it. Contracts see those that are still to come, and
/// the fault behind them.
///
/// Joined in order the pieces are the script up to its end, or before a fault up to the first byte
/// that belongs to no whole piece. Source: Tcl(n), rules 1 to 12.
#[derive(Drop)]
pub struct Tokens<'a> {
    place: Place<'a>,
    over: bool,
}

impl<'a> Model for Tokens<'a> {
    ghost use Rattle.tclv_parse.specs.Grammar.{Pieces};

    ghost Value = { Pieces };

    ghost use Rattle.tclv_parse.specs.Steps.{view_of, IsSound};

    ghost view = { view_of };

    ghost invariant = { IsSound };
}

impl<'a> Tokens<'a> {
    /// The pieces of a script, from its beginning.
    pub fn new(text: &'a [u8]) -> Tokens<'a>
        requires { IsText text.now }
        ensures pieces { result ≡ pieces (chars text.now) }
        // Joined they are the script, or its part before the fault.
        ensures tiles { TilesText (chars text.now) result }
    {
        Tokens {
            place: Place {
                cursor: Cursor::new(text),
                mode: Mode::Begin,
                around: [Form::Bare; 100],
                open: 0,
            },
            over: false,
        }
    }

    /// The next piece; or the fault, once, where it stands; or `None` at the end of the script and
    /// after a fault. It takes no memory, and time in the length of its piece.
    pub fn next(&mut self) -> Option<Result<Piece<'a>, ParseFault>>
        ensures next { Gives self.old result self.new }
        ensures utf8 { GivesText result }
    {
        if self.over {
            return None;
        }
        let found = self.place.step();
        match found {
            Some(Ok(_)) => {}
            _ => self.over = true,
        }
        found
    }
}
