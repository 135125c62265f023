// Scripts, commands, words and their parts.

ghost use Rattle.std.specs.Prelude.{◌≡◌, ◌<◌, ◌≤◌, ◌^◌, false, length, IfOk, OnOk};
ghost use Rattle.std.specs.Str.{chars};
ghost use Rattle.tclv_text.specs.Texts.{IsText};
ghost use Rattle.tclv_text.specs.Cursors.{sign};
ghost use Rattle.tclv_parse.specs.Runs.{ends_word, stops};
ghost use Rattle.tclv_parse.specs.Grammar as grammar;
ghost use Rattle.tclv_parse.specs.Trees.{Reads, ReadsPart, Goes, IsSubstitution};
ghost use Rattle.tclv_parse.specs.Readers as spec;

use crate::joining::Found;
use crate::literals::{
    braced, closed, enclosed_name, end_index, end_quote, plain_name, text_parts,
};
use crate::runs::{self, Form, Run, ends_command, expands, take_run};
use crate::{Command, ParseFault, Part, Script, Stop, Word};
use sqlite_items::{Boxed, Items};
use std::alloc::{AllocError, Global};
use tclv_text::{Cursor, NoMemory, Sign};

/// How many brackets and indices may stand in one another.
const MAX_DEPTH: usize = 100;

/// The readers of a text's parts, each of which goes on at a cursor. After an `Err` the cursor
/// stands at any place.
#[derive(Clone, Copy)]
pub struct Reader {
    alloc: Global,
    /// How many bytes the whole text has.
    whole: usize,
    /// How many brackets and indices may still stand in one another.
    depth: usize,
    /// Whether what is read stands in brackets.
    inner: bool,
}

impl Reader {
    /// The readers of a text of so many bytes, outside of all brackets.
    pub fn new(alloc: Global, whole: usize) -> Reader
        ensures deeper { spec.deeper result ≡ grammar.deeper_by whole grammar.max_depth }
        ensures whole { result.whole ≡ whole }
        ensures inner { result.inner ≡ false }
    {
        Reader {
            alloc,
            whole,
            depth: MAX_DEPTH,
            inner: false,
        }
    }

    /// A script in brackets, from its `[` on: its commands up to its `]`, which is passed. A fault
    /// in it, or its missing `]`, is the fault. Source: Tcl(n), rule 7.
    #[cycle(reader)]
    pub fn script(&self, cursor: &mut Cursor<'_>) -> Result<Script, Stop>
        requires short { length cursor.old < 2 ^ 63 }
        requires sign { sign cursor.old ≡ Sign.OpenBracket }
        ensures reads { Reads ((spec.deeper self.now).script cursor.old) result cursor.new }
        ensures left { OnOk result (length cursor.new < length cursor.old) }
    {
        if self.depth == 0 {
            return Err(Stop::Fault(ParseFault::TooDeep));
        }
        let inside = Reader {
            depth: self.depth - 1,
            inner: true,
            ..*self
        };
        cursor.skip();
        let script = inside.commands(cursor)?;
        match script.fault {
            None => Ok(script),
            Some(fault) => Err(Stop::Fault(fault)),
        }
    }

    /// The index of an element, from its `(` on: its parts up to its `)`, which is passed.
    #[cycle(reader)]
    fn index(&self, cursor: &mut Cursor<'_>) -> Result<Items<Part>, Stop>
        requires short { length cursor.old < 2 ^ 63 }
        requires sign { sign cursor.old ≡ Sign.OpenParen }
        ensures reads { Reads ((spec.deeper self.now).index cursor.old) result cursor.new }
        ensures left { OnOk result (length cursor.new < length cursor.old) }
    {
        if self.depth == 0 {
            return Err(Stop::Fault(ParseFault::TooDeep));
        }
        let inside = Reader {
            depth: self.depth - 1,
            inner: true,
            ..*self
        };
        cursor.skip();
        let parts = inside.parts(cursor, Form::Index)?;
        end_index(cursor)?;
        Ok(parts)
    }

    /// A variable, from its dollar sign on, or with an index behind it an element. The faults are
    /// `VarBrace`, `CloseParen`, `TooDeep`, and those of the scripts in the index. Source: Tcl(n),
    /// rule 8.
    #[cycle(reader)]
    pub fn variable(&self, cursor: &mut Cursor<'_>) -> Result<Part, Stop>
        requires short { length cursor.old < 2 ^ 63 }
        requires sign { sign cursor.old ≡ Sign.Dollar }
        ensures reads { ReadsPart (spec.variable self.now cursor.old) result cursor.new }
        ensures part { IfOk result IsSubstitution }
        ensures left { OnOk result (length cursor.new < length cursor.old) }
    {
        cursor.skip();
        if matches!(cursor.peek(), Sign::OpenBrace) {
            cursor.skip();
            let name = enclosed_name(self.alloc, cursor)?;
            return Ok(Part::Variable(name));
        }
        let name = plain_name(self.alloc, cursor)?;
        match cursor.peek() {
            Sign::OpenParen => {
                let index = self.index(cursor)?;
                Ok(Part::Element(name, index))
            }
            _ => Ok(Part::Variable(name)),
        }
    }

    /// A part of a word of this form, or of an index, which goes on here.
    #[cycle(reader)]
    fn part(&self, cursor: &mut Cursor<'_>, form: Form, found: &mut Found) -> Result<(), Stop>
        requires short { length cursor.old < 2 ^ 63 }
        requires going { stops self.now.inner form (sign cursor.old) ≡ false }
        ensures goes { Goes (spec.parts_ahead self.now form found.old cursor.old) result (spec.parts_ahead self.now form found.new cursor.new) }
        ensures left { OnOk result (length cursor.new < length cursor.old) }
    {
        match cursor.peek() {
            Sign::Backslash | Sign::Fold => {
                let c = cursor.skip_escape();
                found.add_char(self.alloc, c)?;
                Ok(())
            }
            Sign::Dollar => {
                let part = self.variable(cursor)?;
                found.add_part(part)?;
                Ok(())
            }
            Sign::OpenBracket => {
                let script = self.script(cursor)?;
                let boxed = Boxed::new(self.alloc, script)?;
                found.add_part(Part::Script(boxed))?;
                Ok(())
            }
            _ => {
                let (text, _) = take_run(cursor, Run::Literal(self.inner, form));
                found.add_text(self.alloc, text)?;
                Ok(())
            }
        }
    }

    /// The parts of a word of this form, or of an index, up to where it stops: a bare word at its
    /// end, a quoted one before the next `"`, an index before the next `)`, or at the end of the
    /// text. Escapes are read, and literals side by side are one. The faults are those of the parts.
    /// Source: Tcl(n), rules 4 and 7 to 9.
    #[cycle(reader)]
    pub fn parts(&self, cursor: &mut Cursor<'_>, form: Form) -> Result<Items<Part>, Stop>
        requires short { length cursor.old < 2 ^ 63 }
        ensures reads { Reads (spec.parts self.now form cursor.old) result cursor.new }
        ensures left { OnOk result (length cursor.new ≤ length cursor.old) }
    {
        let mut found = Found::new(self.alloc);
        'parts: while !runs::stops(self.inner, form, cursor.peek()) {
            self.part(cursor, form, &mut found)?;
        }
        let parts = found.finish()?;
        Ok(parts)
    }

    /// A word without an expansion mark.
    #[cycle(reader)]
    fn plain_word(&self, cursor: &mut Cursor<'_>) -> Result<Items<Part>, Stop>
        requires short { length cursor.old < 2 ^ 63 }
        ensures { Reads (spec.plain_word self.now cursor.old) result cursor.new }
    {
        match cursor.peek() {
            Sign::OpenBrace => {
                cursor.skip();
                let text = braced(self.alloc, cursor)?;
                closed(self.inner, ParseFault::AfterBrace, cursor)?;
                text_parts(self.alloc, text)
            }
            Sign::Quote => {
                cursor.skip();
                let parts = self.parts(cursor, Form::Quoted)?;
                end_quote(self.inner, cursor)?;
                Ok(parts)
            }
            _ => self.parts(cursor, Form::Bare),
        }
    }

    /// A word.
    #[cycle(reader)]
    fn word(&self, cursor: &mut Cursor<'_>) -> Result<Word, Stop>
        requires short { length cursor.old < 2 ^ 63 }
        requires word { ends_word self.now.inner (sign cursor.old) ≡ false }
        ensures reads { Reads (spec.word self.now cursor.old) result cursor.new }
        ensures left { OnOk result (length cursor.new < length cursor.old) }
    {
        if expands(self.inner, cursor) {
            cursor.skip();
            cursor.skip();
            cursor.skip();
            let parts = self.plain_word(cursor)?;
            return Ok(Word {
                expand: true,
                parts,
            });
        }
        let parts = self.plain_word(cursor)?;
        Ok(Word {
            expand: false,
            parts,
        })
    }

    /// The words of a command, up to the command's end.
    #[cycle(reader)]
    fn words(&self, cursor: &mut Cursor<'_>) -> Result<Items<Word>, Stop>
        requires short { length cursor.old < 2 ^ 63 }
        ensures { Reads (spec.words self.now cursor.old) result cursor.new }
    {
        let mut words = Items::new(self.alloc);
        'words: loop {
            let sign = cursor.peek();
            if ends_command(self.inner, sign) {
                return Ok(words);
            }
            match sign {
                Sign::Blank | Sign::Fold => {
                    take_run(cursor, Run::Blanks);
                }
                _ => {
                    let word = self.word(cursor)?;
                    words.push(word)?;
                }
            }
        }
    }

    /// The script of these commands, which ends with the text.
    fn ended(&self, commands: Items<Command>) -> Script
        ensures { result ≡ grammar.script_of commands (spec.end_fault self.now.inner) }
    {
        let fault = if self.inner {
            Some(ParseFault::CloseBracket)
        } else {
            None
        };
        Script { commands, fault }
    }

    /// The commands of a script, up to its end or its first fault.
    #[cycle(reader)]
    fn commands(&self, cursor: &mut Cursor<'_>) -> Result<Script, NoMemory>
        requires short { length cursor.old < 2 ^ 63 }
        ensures { IfOk result (λ script. spec.Runs (spec.commands self.now cursor.old) script cursor.new) }
    {
        let mut commands = Items::new(self.alloc);
        'commands: loop {
            match cursor.peek() {
                Sign::End => return Ok(self.ended(commands)),
                Sign::CloseBracket if self.inner => {
                    cursor.skip();
                    return Ok(Script {
                        commands,
                        fault: None,
                    });
                }
                Sign::Blank | Sign::Fold => {
                    take_run(cursor, Run::Blanks);
                }
                Sign::Newline | Sign::Semicolon => cursor.skip(),
                Sign::Hash => {
                    take_run(cursor, Run::Comment);
                }
                _ => {
                    let at = self.whole.saturating_sub(cursor.left());
                    match self.words(cursor) {
                        Ok(words) => commands.push(Command { at, words })?,
                        Err(Stop::Fault(fault)) => {
                            return Ok(Script {
                                commands,
                                fault: Some(fault),
                            });
                        }
                        Err(Stop::NoMemory) => return Err(NoMemory),
                    }
                }
            }
        }
    }
}

/// The script that a text is: its commands before its first fault, and the fault. Escapes are read
/// in the literals, and literals side by side are one. `at` counts bytes from 0 in the text, also
/// inside brackets. A fault inside brackets is that of the outermost command, of which nothing
/// is left. Time is linear in the length of the text. Source: Tcl(n), rules 1 to 12.
pub fn parse(alloc: Global, text: &[u8]) -> Result<Script, NoMemory>
    requires { IsText text.now }
    ensures { IfOk result (λ script. script ≡ grammar.commands (chars text.now)) }
{
    let mut cursor = Cursor::new(text);
    Reader::new(alloc, text.len()).commands(&mut cursor)
}
