// Expressions: operands, the operators between them by their precedence, and whole texts.

ghost use Rattle.std.specs.Prelude.{◌≡◌, ◌<◌, ◌≤◌, ◌^◌, ◌==◌, length, OnOk};
ghost use Rattle.std.specs.Str.{chars};
ghost use Rattle.tclv_text.specs.Texts.{IsText};
ghost use Rattle.tclv_exprp.specs.Fronts.{first, blanks};
ghost use Rattle.tclv_exprp.specs.Infixes.{at_level};
ghost use Rattle.tclv_exprp.specs.Outcomes.{Reads, StopsAt};
ghost use Rattle.tclv_exprp.specs.ExpressionGrammar as spec;

use crate::faults::{Fault, Stop};
use crate::fronts::{Class, blanks, first, pass_run, take_text};
use crate::functions::{arity, takes};
use crate::infixes::{LEVELS, POWER, at_level, pass_operator};
use crate::leaves::Leaves;
use crate::operands::{Begins, start};
use crate::tree::{chained, cond, lone, unary};
use crate::{ExprFault, ExprTree, Infix, Step};
use sqlite_items::Items;
use std::alloc::Global;
use tclv_text::Cursor;

/// How many levels an operand may stand inside, and one.
const MAX_ROOM: usize = 101;

/// An operator of this row behind white space, which is passed over with it.
#[tactic(auto, unfolding(crate::specs::ExpressionGrammar::behind_blanks), using(crate::proofs::FrontLemmas::drops))]
fn next_at(level: u8, cursor: &mut Cursor<'_>) -> Option<Infix>
    ensures op { result ≡ at_level level (blanks cursor.old) }
    ensures rest { cursor.new ≡ spec.behind_blanks result cursor.old }
    ensures left { length cursor.new ≤ length cursor.old }
{
    let mut next = cursor.here();
    blanks(&mut next);
    match at_level(level, &next) {
        None => None,
        Some(op) => {
            pass_operator(op, &mut next);
            *cursor = next;
            Some(op)
        }
    }
}

/// Goes past white space and this character, if it comes next.
#[tactic(auto, unfolding(crate::specs::ExpressionGrammar::behind_mark), using(crate::proofs::FrontLemmas::drops))]
fn comes(mark: char, cursor: &mut Cursor<'_>) -> bool
    ensures found { result ≡ (first (blanks cursor.old) == mark) }
    ensures rest { cursor.new ≡ spec.behind_mark mark cursor.old }
    ensures left { length cursor.new ≤ length cursor.old }
{
    let mut next = cursor.here();
    blanks(&mut next);
    if first(&next) != mark {
        return false;
    }
    next.skip();
    *cursor = next;
    true
}

/// The readers of what stands at one level of nesting.
#[derive(Clone, Copy)]
struct ExprReader {
    leaves: Leaves,
    /// How many levels are left, this one included.
    room: usize,
}

impl ExprReader {
    /// What comes where no level is left.
    #[tactic(auto, unfolding(crate::specs::ExpressionGrammar::deep))]
    fn deep(&self, cursor: &mut Cursor<'_>) -> Stop
        ensures { StopsAt (spec.deep self.now.leaves.total cursor.old) result }
    {
        blanks(cursor);
        match start(cursor) {
            Begins::Other => self.leaves.no_operand(cursor),
            _ => Stop::Fault(Fault::TooDeep),
        }
    }

    /// The closing parenthesis behind an expression.
    #[tactic(auto, unfolding(crate::specs::ExpressionGrammar::closed), using(crate::proofs::FrontLemmas::drops))]
    fn closed(&self, tree: ExprTree, cursor: &mut Cursor<'_>) -> Result<ExprTree, Stop>
        ensures reads { Reads (spec.closed self.now.leaves.total tree cursor.old) result cursor.new }
        ensures left { OnOk result (length cursor.new ≤ length cursor.old) }
    {
        blanks(cursor);
        if first(cursor) != ')' {
            return Err(self.leaves.stray(cursor));
        }
        cursor.skip();
        Ok(tree)
    }

    /// An operand with its unary operators.
    #[cycle(reader)]
    fn operand(&self, cursor: &mut Cursor<'_>) -> Result<ExprTree, Stop>
        requires short { length cursor.old < 2 ^ 63 }
        ensures reads { Reads ((spec.readers self.now.leaves.total self.now.room).0 cursor.old) result cursor.new }
        ensures left { OnOk result (length cursor.new ≤ length cursor.old) }
    {
        if self.room == 0 {
            return Err(self.deep(cursor));
        }
        let inside = ExprReader {
            room: self.room - 1,
            ..*self
        };
        blanks(cursor);
        match start(cursor) {
            Begins::Number => self.leaves.number(cursor),
            Begins::Variable => self.leaves.variable(cursor),
            Begins::Quoted => self.leaves.quoted(cursor),
            Begins::Braced => self.leaves.braced(cursor),
            Begins::Script => self.leaves.bracketed(cursor),
            Begins::Name => inside.named(cursor),
            Begins::Other => Err(self.leaves.no_operand(cursor)),
            Begins::Unary(op) => {
                cursor.skip();
                let tree = inside.operand(cursor)?;
                Ok(unary(self.leaves.alloc, op, tree)?)
            }
            Begins::Paren => {
                cursor.skip();
                let tree = inside.expr(cursor)?;
                self.closed(tree, cursor)
            }
        }
    }

    /// The arguments of a call, behind its opening parenthesis, up to the closing one, which is
    /// passed.
    #[cycle(reader)]
    fn arguments(&self, cursor: &mut Cursor<'_>) -> Result<Items<ExprTree>, Stop>
        requires short { length cursor.old < 2 ^ 63 }
        ensures reads { Reads (spec.arguments self.now.leaves.total (spec.readers self.now.leaves.total self.now.room).2 cursor.old) result cursor.new }
        ensures left { OnOk result (length cursor.new ≤ length cursor.old) }
    {
        let mut found = Items::new(self.leaves.alloc);
        if comes(')', cursor) {
            return Ok(found);
        }
        found.push(self.expr(cursor)?)?;
        'more: while comes(',', cursor) {
            found.push(self.expr(cursor)?)?;
        }
        if !comes(')', cursor) {
            blanks(cursor);
            return Err(self.leaves.stray(cursor));
        }
        Ok(found)
    }

    /// A truth word, or a function with its arguments.
    #[cycle(reader)]
    fn named(&self, cursor: &mut Cursor<'_>) -> Result<ExprTree, Stop>
        requires short { length cursor.old < 2 ^ 63 }
        ensures reads { Reads (spec.named self.now.leaves.total (spec.readers self.now.leaves.total self.now.room).2 cursor.old) result cursor.new }
        ensures left { OnOk result (length cursor.new ≤ length cursor.old) }
    {
        let at = self.leaves.place(cursor);
        let len = pass_run(Class::Name, &mut cursor.here());
        let word = take_text(self.leaves.alloc, len, cursor)?;
        if !comes('(', cursor) {
            return self.leaves.word(at, len, word, cursor);
        }
        match arity(word.bytes()) {
            None => Err(Stop::Fault(Fault::UnknownFunction(at, len))),
            Some(count) => {
                let found = self.arguments(cursor)?;
                if takes(count, found.len()) {
                    Ok(ExprTree::Call(word, found))
                } else {
                    Err(Stop::Fault(Fault::WrongCount(at, len)))
                }
            }
        }
    }

    /// An operand, or one to the power of a power.
    #[cycle(reader)]
    fn power(&self, cursor: &mut Cursor<'_>) -> Result<ExprTree, Stop>
        requires short { length cursor.old < 2 ^ 63 }
        ensures reads { Reads ((spec.readers self.now.leaves.total self.now.room).1 cursor.old) result cursor.new }
        ensures left { OnOk result (length cursor.new ≤ length cursor.old) }
    {
        if self.room == 0 {
            return Err(self.deep(cursor));
        }
        let inside = ExprReader {
            room: self.room - 1,
            ..*self
        };
        let base = self.operand(cursor)?;
        match next_at(POWER, cursor) {
            None => Ok(base),
            Some(op) => {
                let right = inside.power(cursor)?;
                Ok(lone(self.leaves.alloc, base, op, right)?)
            }
        }
    }

    /// The operators of a row with their right operands.
    #[cycle(reader)]
    fn steps(&self, level: u8, cursor: &mut Cursor<'_>) -> Result<Items<Step>, Stop>
        requires row { level < 13 }
        requires short { length cursor.old < 2 ^ 63 }
        ensures reads { Reads (spec.steps (spec.binary (spec.readers self.now.leaves.total self.now.room).1 level) level cursor.old) result cursor.new }
        ensures left { OnOk result (length cursor.new ≤ length cursor.old) }
    {
        let mut steps = Items::new(self.leaves.alloc);
        'steps: while let Some(op) = next_at(level, cursor) {
            let right = self.binary(level, cursor)?;
            steps.push(Step { op, right })?;
        }
        Ok(steps)
    }

    /// One operand, and then the operators of each row below this one, the tightest first.
    #[cycle(reader)]
    fn binary(&self, top: u8, cursor: &mut Cursor<'_>) -> Result<ExprTree, Stop>
        requires rows { top ≤ 13 }
        requires short { length cursor.old < 2 ^ 63 }
        ensures reads { Reads (spec.binary (spec.readers self.now.leaves.total self.now.room).1 top cursor.old) result cursor.new }
        ensures left { OnOk result (length cursor.new ≤ length cursor.old) }
    {
        let mut tree = self.power(cursor)?;
        for level in 0..top {
            let steps = self.steps(level, cursor)?;
            tree = chained(self.leaves.alloc, tree, steps)?;
        }
        Ok(tree)
    }

    /// An expression: one of the rows, or a choice whose test it is.
    #[cycle(reader)]
    fn expr(&self, cursor: &mut Cursor<'_>) -> Result<ExprTree, Stop>
        requires short { length cursor.old < 2 ^ 63 }
        ensures reads { Reads ((spec.readers self.now.leaves.total self.now.room).2 cursor.old) result cursor.new }
        ensures left { OnOk result (length cursor.new ≤ length cursor.old) }
    {
        if self.room == 0 {
            return Err(self.deep(cursor));
        }
        let inside = ExprReader {
            room: self.room - 1,
            ..*self
        };
        let test = self.binary(LEVELS, cursor)?;
        if !comes('?', cursor) {
            return Ok(test);
        }
        let yes = inside.expr(cursor)?;
        if !comes(':', cursor) {
            blanks(cursor);
            return Err(self.leaves.stray(cursor));
        }
        let no = inside.expr(cursor)?;
        Ok(cond(self.leaves.alloc, test, yes, no)?)
    }
}

/// The expression that a text is, as a tree, or its first fault from the left.
///
/// White space is that of lists, and a backslash before a newline. Operands are numbers with a sign
/// directly before them, truth words, `$` variables, texts in quotes and in braces, scripts in
/// brackets, expressions in parentheses, and calls of functions. The operators and their precedence
/// are those of expr(n), with `lt gt le ge` between `< > <= >=` and `== !=`.
///
/// - `Syntax` has the place of the first byte that no expression can have there, or the text's
///   length where the text ends too early; a fault of a script inside an operand is one at the
///   operand's first byte.
/// - `Bareword` comes exactly for a name where an operand may begin, with no parenthesis behind it,
///   that is neither a truth word nor of floating form.
/// - `UnknownFunction` is met at the name of a call, before its arguments; `WrongCount` at the
///   closing parenthesis.
/// - `FloatLiteral` comes exactly for a number or a name of floating form.
/// - `TooDeep` comes exactly where an operand stands inside more than 100 levels, or an operand has
///   that fault of scripts. A level is: the inside of parentheses, an argument, the operand of a
///   unary operator, the right operand of `**`, the second and the third operand of `?:`. At one
///   place with another fault it counts.
/// - `TooLarge` comes exactly for a number, with the sign directly before it, outside
///   -2^63..2^63-1, wherever it stands. A number in braces or quotes is a text. `NoMemory` comes
///   where memory runs out.
///
/// Of the faults the first that is met in reading from the left is given. Time is linear in the
/// length of the text. (expr(n))
pub fn parse_expr(alloc: Global, text: &[u8]) -> Result<ExprTree, ExprFault>
    requires { IsText text.now }
    ensures { spec.Answers (spec.expression (chars text.now)) result }
{
    let mut cursor = Cursor::new(text);
    let leaves = Leaves {
        alloc,
        total: text.len(),
    };
    let reader = ExprReader {
        leaves,
        room: MAX_ROOM,
    };
    let tree = reader.expr(&mut cursor)?;
    blanks(&mut cursor);
    if cursor.left() > 0 {
        return Err(ExprFault::from(leaves.stray(&mut cursor)));
    }
    Ok(tree)
}
