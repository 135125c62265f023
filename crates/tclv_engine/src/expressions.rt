// The value of an expression: its instructions, run over the stack.
ghost use Rattle.std.specs.Prelude.{◌≡◌, ◌<◌, ◌≤◌, [], length, drop, true};
ghost use Rattle.tclv_engine.specs.Evaluation.{whole};
ghost use Rattle.tclv_engine.specs.Instructions as run;
ghost use Rattle.tclv_engine.specs.Answers.{Answers, AnswersOver, Leaves, KeepsStack, PushesOne, Caused, IsCalm, last_of, on_top, returned, outer};
ghost use Rattle.tclv_value.specs.Stacks.{under};

use crate::endings::End;
use crate::host::Host;
use crate::machine::Machine;
use sqlite_items::Items;
use tclv_exprp::{Instruction, Operation};
use tclv_io::Outside;
use tclv_model::{ErrorCode, MessageId};

/// How many levels of elements an operand may have.
const MAX_LEVELS: u8 = 100;

// The instructions behind so many.
fn behind(instructions: &[Instruction], passed: usize) -> &[Instruction]
    ensures { result.now ≡ drop passed instructions.now }
{
    if passed < instructions.len() {
        &instructions[passed..]
    } else {
        &[]
    }
}

// How many instructions are passed over where a truth value is as wanted.
fn passed_where(wanted: bool, n: usize, found: bool) -> usize
    ensures { result ≡ run.passed_where wanted n found }
{
    match (wanted, found) {
        (true, true) => n,
        (true, false) => 0,
        (false, true) => 0,
        (false, false) => n,
    }
}

impl<W> Machine<W> {
    /// Whether an expression is true.
    #[cycle(eval)]
    #[tactic(auto, using(crate::proofs::Binds::calm_caused))]
    pub fn test<H: Host<Own = W>, O: Outside>(
        &mut self,
        host: &H,
        out: &mut O,
        instructions: &Items<Instruction>,
    ) -> Result<bool, End>
        requires shape { run.Fits instructions.now 0 0 }
        requires fits { H.fits self.old.own (O.told out.old) ≡ true }
        ensures answer { AnswersOver (run.run_test (whole H.given) instructions.now) returned self.old
            (outer (O.told out.old) (O.torn out.old)) result self.new (outer (O.told out.new) (O.torn out.new)) }
        ensures stack { KeepsStack self.old.values.store.stack result self.new.values.store.stack }
        ensures cause { Caused (O.faults out.old) (O.faults out.new) result }
        ensures units { self.new.units ≤ self.old.units }
        ensures fits { H.fits self.new.own (O.told out.new) ≡ true }
    {
        self.expression(host, out, instructions)?;
        self.take_truth()
    }

    /// Pushes what an expression gives: runs its instructions, and settles the value on top.
    #[cycle(eval)]
    pub fn expression<H: Host<Own = W>, O: Outside>(
        &mut self,
        host: &H,
        out: &mut O,
        instructions: &Items<Instruction>,
    ) -> Result<(), End>
        requires shape { run.Fits instructions.now 0 0 }
        requires fits { H.fits self.old.own (O.told out.old) ≡ true }
        ensures answer { AnswersOver (run.run_result (whole H.given) instructions.now) on_top self.old
            (outer (O.told out.old) (O.torn out.old)) result self.new (outer (O.told out.new) (O.torn out.new)) }
        ensures stack { PushesOne self.old.values.store.stack result self.new.values.store.stack }
        ensures cause { Caused (O.faults out.old) (O.faults out.new) result }
        ensures units { self.new.units ≤ self.old.units }
        ensures fits { H.fits self.new.own (O.told out.new) ≡ true }
    {
        let mut rest = instructions.as_slice();
        'walk: while let Some((next, more)) = rest.split_first() {
            let passed = self.instruction(host, out, next)?;
            rest = behind(more, passed);
        }
        self.settled()
    }

    /// Does what an instruction says. How many instructions are passed over behind it.
    #[cycle(eval)]
    fn instruction<H: Host<Own = W>, O: Outside>(
        &mut self,
        host: &H,
        out: &mut O,
        instruction: &Instruction,
    ) -> Result<usize, End>
        requires needs { run.needs instruction.now ≤ length self.old.values.store.stack }
        requires fits { H.fits self.old.own (O.told out.old) ≡ true }
        ensures answer { AnswersOver (run.does (whole H.given) instruction.now self.old.values.store.stack) run.as_next self.old
            (outer (O.told out.old) (O.torn out.old)) result self.new (outer (O.told out.new) (O.torn out.new)) }
        ensures stack { Leaves (run.Stands instruction.now self.old.values.store.stack)
            (run.kept instruction.now self.old.values.store.stack) result self.new.values.store.stack }
        ensures cause { Caused (O.faults out.old) (O.faults out.new) result }
        ensures units { self.new.units ≤ self.old.units }
        ensures fits { H.fits self.new.own (O.told out.new) ≡ true }
    {
        match instruction {
            Instruction::Operate(operation) => {
                self.operate(host, out, operation)?;
                Ok(0)
            }
            Instruction::SkipIf(wanted, n) => self.jump(*wanted, *n),
            Instruction::Skip(n) => Ok(*n),
            Instruction::Forget => {
                self.values.pop(1);
                Ok(0)
            }
        }
    }

    // How many instructions are passed over, by the truth value of the top text.
    fn jump(&mut self, wanted: bool, n: usize) -> Result<usize, End>
        requires { 0 < length self.old.values.store.stack }
        ensures answer { Answers (run.jump wanted n self.old.values.store.stack) run.as_next self.old result self.new }
        ensures stack { Leaves (run.Stands (Instruction.SkipIf wanted n) self.old.values.store.stack)
            self.old.values.store.stack result self.new.values.store.stack }
        ensures calm { IsCalm result }
        ensures units { self.new.units ≤ self.old.units }
        ensures own { self.new.own ≡ self.old.own }
    {
        let found = self.truth_on_top()?;
        Ok(passed_where(wanted, n, found))
    }

    /// Puts the text that an operation gives in place of those that it takes.
    #[cycle(eval)]
    #[tactic(auto, using(crate::proofs::Binds::calm_caused))]
    fn operate<H: Host<Own = W>, O: Outside>(
        &mut self,
        host: &H,
        out: &mut O,
        operation: &Operation,
    ) -> Result<(), End>
        requires takes { run.takes operation.now ≤ length self.old.values.store.stack }
        requires fits { H.fits self.old.own (O.told out.old) ≡ true }
        ensures answer { AnswersOver (run.operated (whole H.given) operation.now self.old.values.store.stack) on_top self.old
            (outer (O.told out.old) (O.torn out.old)) result self.new (outer (O.told out.new) (O.torn out.new)) }
        ensures stack { PushesOne (under (run.takes operation.now) self.old.values.store.stack) result self.new.values.store.stack }
        ensures cause { Caused (O.faults out.old) (O.faults out.new) result }
        ensures units { self.new.units ≤ self.old.units }
        ensures fits { H.fits self.new.own (O.told out.new) ≡ true }
    {
        match operation {
            Operation::Literal(text) => self.push_text(text.bytes()),
            Operation::Parts(parts) => self.substitute(host, out, parts, MAX_LEVELS),
            Operation::Unary(op) => self.unary(*op),
            Operation::Number(op) => self.between(*op),
            Operation::Words(op) => self.words_between(*op),
            Operation::Truth => self.top_truth(),
            Operation::Call(name, n) => self.apply(name.bytes(), *n),
            Operation::TooDeep => Err(self.raise(
                MessageId::TooManyNestedBrackets,
                b"",
                b"",
                ErrorCode::NoCode,
            )),
        }
    }

    // Puts the truth value of the top text, as 1 or 0, in its place.
    fn top_truth(&mut self) -> Result<(), End>
        requires { 0 < length self.old.values.store.stack }
        ensures answer { Answers (run.truth_text (last_of self.old.values.store.stack)) on_top self.old result self.new }
        ensures stack { PushesOne (under 1 self.old.values.store.stack) result self.new.values.store.stack }
        ensures calm { IsCalm result }
        ensures units { self.new.units ≤ self.old.units }
        ensures own { self.new.own ≡ self.old.own }
    {
        let found = self.truth_on_top()?;
        self.truth_number(1, found)
    }
}
