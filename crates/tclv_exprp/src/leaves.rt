// The operands that hold no others: numbers, truth words, variables, texts and scripts.

ghost use Rattle.std.specs.Prelude.{◌≡◌, ◌<◌, ◌≤◌, ◌^◌, length, OnOk};
ghost use Rattle.std.specs.Str.{chars};
ghost use Rattle.tclv_text.specs.Texts.{IsText};
ghost use Rattle.tclv_text.specs.Cursors.{sign};
ghost use Rattle.tclv_text.specs.Numbers.{whole};
ghost use Rattle.tclv_parse.specs.Grammar.{place};
ghost use Rattle.tclv_exprp.specs.Outcomes.{Reads, leaf_fault, leaf_stop};
ghost use Rattle.tclv_exprp.specs.ExpressionGrammar as spec;

use crate::faults::{Fault, Stop};
use crate::fronts::{pass, pass_sign, take_text};
use crate::numerals::{floating_len, lacks_digits, whole_len};
use crate::tree::part_alone;
use crate::{ExprTree, infixes, operands};
use sqlite_items::Boxed;
use std::alloc::Global;
use tclv_parse::{Form, ParseFault, Part, Reader, braced};
use tclv_text::{Cursor, Sign, Text, WholeFault, truth, whole};

/// A fault of a script inside an operand that begins at this byte.
fn leaf_fault(at: usize, fault: ParseFault) -> Fault
    ensures { result ≡ leaf_fault at fault }
{
    match fault {
        ParseFault::TooDeep => Fault::TooDeep,
        _ => Fault::Syntax(at),
    }
}

fn leaf_stop(at: usize, stop: tclv_parse::Stop) -> Stop
    ensures { result ≡ leaf_stop at stop }
{
    match stop {
        tclv_parse::Stop::Fault(fault) => Stop::Fault(leaf_fault(at, fault)),
        tclv_parse::Stop::NoMemory => Stop::NoMemory,
    }
}

/// What is wrong with a word that is neither a function nor a truth word.
fn bareword(at: usize, len: usize, word: &Text) -> Fault
    ensures { result ≡ spec.bareword at len (whole word.now) }
{
    match whole(word.bytes()) {
        Err(WholeFault::FloatForm) => Fault::FloatLiteral(at, len),
        _ => Fault::Bareword(at, len),
    }
}

/// A whole number, which needs no more than 64 bits.
#[tactic(auto, unfolding(crate::specs::ExpressionGrammar::sized))]
fn sized(number: Text, cursor: &Cursor<'_>) -> Result<ExprTree, Stop>
    ensures { Reads (spec.sized number cursor.now) result cursor.now }
{
    match whole(number.bytes()) {
        Err(WholeFault::TooLarge) => Err(Stop::Fault(Fault::TooLarge)),
        _ => Ok(ExprTree::Literal(number)),
    }
}

/// The readers of leaves, each of which goes on at a cursor. After an `Err` the cursor stands at
/// any place.
#[derive(Clone, Copy)]
pub(crate) struct Leaves {
    pub alloc: Global,
    /// How many bytes the whole text has.
    pub total: usize,
}

impl Leaves {
    /// The place of a cursor in the whole text, in bytes.
    pub(crate) fn place(&self, cursor: &Cursor<'_>) -> usize
        ensures { result ≡ place self.now.total cursor.now }
    {
        self.total.saturating_sub(cursor.left())
    }

    /// The fault where an operand is missing.
    pub(crate) fn no_operand(&self, cursor: &mut Cursor<'_>) -> Stop
        ensures { result ≡ Stop.Fault (spec.no_operand self.now.total cursor.old) }
    {
        pass(operands::half_len(cursor), cursor);
        Stop::Fault(Fault::Syntax(self.place(cursor)))
    }

    /// The fault of what can't stand behind an operand.
    pub(crate) fn stray(&self, cursor: &mut Cursor<'_>) -> Stop
        ensures { result ≡ Stop.Fault (spec.stray self.now.total cursor.old) }
    {
        pass(infixes::half_len(cursor), cursor);
        Stop::Fault(Fault::Syntax(self.place(cursor)))
    }

    /// A number with its sign.
    #[tactic(auto, unfolding(crate::specs::ExpressionGrammar::number))]
    pub(crate) fn number(&self, cursor: &mut Cursor<'_>) -> Result<ExprTree, Stop>
        requires short { length cursor.old < 2 ^ 63 }
        ensures reads { Reads (spec.number self.now.total cursor.old) result cursor.new }
        ensures left { length cursor.new ≤ length cursor.old }
    {
        let mut end = cursor.here();
        let sign = pass_sign(&mut end);
        let len = whole_len(&end);
        let floating = floating_len(&end);
        if len < floating {
            let fault = Fault::FloatLiteral(self.place(cursor), sign + floating);
            return Err(Stop::Fault(fault));
        }
        if lacks_digits(&end) {
            pass(2, &mut end);
            return Err(Stop::Fault(Fault::Syntax(self.place(&end))));
        }
        let text = take_text(self.alloc, sign + len, cursor)?;
        sized(text, cursor)
    }

    /// A variable, or an element.
    #[tactic(auto, unfolding(crate::specs::ExpressionGrammar::variable))]
    pub(crate) fn variable(&self, cursor: &mut Cursor<'_>) -> Result<ExprTree, Stop>
        requires short { length cursor.old < 2 ^ 63 }
        requires sign { sign cursor.old ≡ Sign.Dollar }
        ensures reads { Reads (spec.variable self.now.total cursor.old) result cursor.new }
        ensures left { OnOk result (length cursor.new ≤ length cursor.old) }
    {
        let at = self.place(cursor);
        match Reader::new(self.alloc, self.total).variable(cursor) {
            Ok(part) => Ok(part_alone(self.alloc, part)?),
            Err(stop) => Err(leaf_stop(at, stop)),
        }
    }

    /// A script in brackets.
    #[tactic(auto, unfolding(crate::specs::ExpressionGrammar::bracketed))]
    pub(crate) fn bracketed(&self, cursor: &mut Cursor<'_>) -> Result<ExprTree, Stop>
        requires short { length cursor.old < 2 ^ 63 }
        requires sign { sign cursor.old ≡ Sign.OpenBracket }
        ensures reads { Reads (spec.bracketed self.now.total cursor.old) result cursor.new }
        ensures left { OnOk result (length cursor.new ≤ length cursor.old) }
    {
        let at = self.place(cursor);
        match Reader::new(self.alloc, self.total).script(cursor) {
            Ok(script) => {
                let script = Boxed::new(self.alloc, script)?;
                Ok(part_alone(self.alloc, Part::Script(script))?)
            }
            Err(stop) => Err(leaf_stop(at, stop)),
        }
    }

    /// A text in quotes.
    #[tactic(auto, unfolding(crate::specs::ExpressionGrammar::quoted, crate::specs::ExpressionGrammar::end_quote))]
    pub(crate) fn quoted(&self, cursor: &mut Cursor<'_>) -> Result<ExprTree, Stop>
        requires short { length cursor.old < 2 ^ 63 }
        ensures reads { Reads (spec.quoted self.now.total cursor.old) result cursor.new }
        ensures left { OnOk result (length cursor.new ≤ length cursor.old) }
    {
        let at = self.place(cursor);
        cursor.skip();
        match Reader::new(self.alloc, self.total).parts(cursor, Form::Quoted) {
            Ok(parts) => match cursor.peek() {
                Sign::Quote => {
                    cursor.skip();
                    Ok(ExprTree::Parts(parts))
                }
                _ => Err(Stop::Fault(Fault::Syntax(at))),
            },
            Err(stop) => Err(leaf_stop(at, stop)),
        }
    }

    /// A text in braces.
    #[tactic(auto, unfolding(crate::specs::ExpressionGrammar::braced))]
    pub(crate) fn braced(&self, cursor: &mut Cursor<'_>) -> Result<ExprTree, Stop>
        requires short { length cursor.old < 2 ^ 63 }
        ensures reads { Reads (spec.braced self.now.total cursor.old) result cursor.new }
        ensures left { OnOk result (length cursor.new ≤ length cursor.old) }
    {
        let at = self.place(cursor);
        cursor.skip();
        match braced(self.alloc, cursor) {
            Ok(text) => Ok(ExprTree::Literal(text)),
            Err(stop) => Err(leaf_stop(at, stop)),
        }
    }

    /// A word of so many bytes at this place that is no function's name.
    #[tactic(auto, unfolding(crate::specs::ExpressionGrammar::word))]
    pub(crate) fn word(
        &self,
        at: usize,
        len: usize,
        word: Text,
        cursor: &Cursor<'_>,
    ) -> Result<ExprTree, Stop>
        ensures { Reads (spec.word at len word cursor.now) result cursor.now }
    {
        match truth(word.bytes()) {
            Some(_) => Ok(ExprTree::Literal(word)),
            None => Err(Stop::Fault(bareword(at, len, &word))),
        }
    }
}
