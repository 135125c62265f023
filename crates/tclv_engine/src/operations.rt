// The operators of expressions, over texts of the stack.
ghost use Rattle.std.specs.Ordering.{is_eq};
ghost use Rattle.std.specs.Prelude.{◌&&◌, not, ◌≡◌, ◌-◌, ◌<◌, ◌≤◌, ◌++◌, ◌∷◌, [], length, IfOk, OnOk, slice_index_or};
ghost use Rattle.std.specs.Str.{chars};
ghost use Rattle.tclv_text.specs.Texts.{IsText};
ghost use Rattle.tclv_text.specs.Numbers.{whole, whole_text};
ghost use Rattle.tclv_value.specs.View.{HasPlace, IsMade, StaysMade, text_at};
ghost use Rattle.tclv_engine.specs.ListAssignment.{listed, IsList};
ghost use Rattle.tclv_value.specs.Stacks.{under};
ghost use Rattle.tclv_engine.specs.Answers.{Answers, IsCalm, KeepsStack, PushesOne, SameState, last_of, on_top, returned};
ghost use Rattle.tclv_engine.specs.Operations as spec;
ghost use Rattle.tclv_engine.specs.Expressions as expressions;

use crate::endings::End;
use crate::machine::Machine;
use std::cmp::Ordering;
use tclv_exprp::{Op1, Op2, OpFault, WordOp, apply1, apply2};
use tclv_model::{ErrorCode, MessageId};
use tclv_text::{NoMemory, WholeFault, as_str, truth};
use tclv_value::{At, ValueFault};

/// What two texts are that are compared.
#[derive(Clone, Copy, Debug, PartialEq, Eq)]
pub enum Comparands {
    /// Whole numbers of 64 bits.
    Numbers(i64, i64),
    /// Texts, of which one is no number.
    Texts,
    /// Numbers, of which one is of floating form.
    Floats,
    /// Numbers, of which one needs more than 64 bits.
    LargeNumbers,
}

// What two texts are, by what they are as whole numbers.
fn sorts_of(left: Result<i64, WholeFault>, right: Result<i64, WholeFault>) -> Comparands
    ensures { result ≡ spec.sorts_of left right }
{
    match (left, right) {
        (Ok(m), Ok(n)) => Comparands::Numbers(m, n),
        (Err(WholeFault::NotWhole), _) => Comparands::Texts,
        (_, Err(WholeFault::NotWhole)) => Comparands::Texts,
        (Err(WholeFault::FloatForm), _) => Comparands::Floats,
        (_, Err(WholeFault::FloatForm)) => Comparands::Floats,
        _ => Comparands::LargeNumbers,
    }
}

fn operand_message(why: WholeFault) -> MessageId
    ensures { result ≡ spec.operand_message why }
{
    match why {
        WholeFault::NotWhole => MessageId::NonNumericOperand,
        WholeFault::TooLarge => MessageId::IntegerTooLarge,
        WholeFault::FloatForm => MessageId::FloatOperand,
    }
}

fn operand_code(why: WholeFault) -> ErrorCode
    ensures { result ≡ spec.operand_code why }
{
    match why {
        WholeFault::NotWhole => ErrorCode::NoCode,
        WholeFault::TooLarge => ErrorCode::Overflow,
        WholeFault::FloatForm => ErrorCode::NoCode,
    }
}

fn fault_message(why: OpFault) -> MessageId
    ensures { result ≡ spec.fault_message why }
{
    match why {
        OpFault::DivideByZero => MessageId::DivideByZero,
        OpFault::TooLarge => MessageId::IntegerTooLarge,
        OpFault::NegativeShift => MessageId::NegativeShift,
        OpFault::ZeroPower => MessageId::ZeroToNegativePower,
    }
}

fn fault_code(why: OpFault) -> ErrorCode
    ensures { result ≡ spec.fault_code why }
{
    match why {
        OpFault::DivideByZero => ErrorCode::DivideByZero,
        OpFault::TooLarge => ErrorCode::Overflow,
        OpFault::NegativeShift => ErrorCode::NoCode,
        OpFault::ZeroPower => ErrorCode::ZeroToNegativePower,
    }
}

fn unary_sign(op: Op1) -> &'static [u8]
    ensures text { result.now ≡ spec.unary_sign op }
    ensures utf8 { IsText result.now }
{
    match op {
        Op1::Minus => b"-",
        Op1::Plus => b"+",
        Op1::Invert => b"~",
        Op1::Not => b"!",
    }
}

fn sign(op: Op2) -> &'static [u8]
    ensures text { result.now ≡ spec.sign op }
    ensures utf8 { IsText result.now }
{
    match op {
        Op2::Power => b"**",
        Op2::Times => b"*",
        Op2::Divide => b"/",
        Op2::Remainder => b"%",
        Op2::Add => b"+",
        Op2::Subtract => b"-",
        Op2::ShiftLeft => b"<<",
        Op2::ShiftRight => b">>",
        Op2::BitAnd => b"&",
        Op2::BitXor => b"^",
        Op2::BitOr => b"|",
        Op2::Equal => b"==",
        Op2::NotEqual => b"!=",
        Op2::Less => b"<",
        Op2::Greater => b">",
        Op2::LessEqual => b"<=",
        Op2::GreaterEqual => b">=",
    }
}

// Whether an operator of numbers compares.
fn compares(op: Op2) -> bool
    ensures { result ≡ spec.compares op }
{
    matches!(
        op,
        Op2::Equal | Op2::NotEqual | Op2::Less | Op2::Greater | Op2::LessEqual | Op2::GreaterEqual
    )
}

// What a comparison says of texts in this order.
fn holds(op: Op2, by: Ordering) -> bool
    ensures { result ≡ spec.holds op by }
{
    match op {
        Op2::Equal => by.is_eq(),
        Op2::NotEqual => !by.is_eq(),
        Op2::Less => by.is_lt(),
        Op2::Greater => by.is_gt(),
        Op2::LessEqual => by.is_le(),
        Op2::GreaterEqual => by.is_ge(),
        _ => false,
    }
}

// What an operator of texts says of texts in this order.
fn word_holds(op: WordOp, by: Ordering) -> bool
    ensures { result ≡ spec.word_holds op by }
{
    match op {
        WordOp::Eq => by.is_eq(),
        WordOp::Ne => !by.is_eq(),
        WordOp::Lt => by.is_lt(),
        WordOp::Gt => by.is_gt(),
        WordOp::Le => by.is_le(),
        WordOp::Ge => by.is_ge(),
        WordOp::Among | WordOp::NotAmong => false,
    }
}

// The order of two texts, by code points.
fn order(left: &[u8], right: &[u8]) -> Ordering
    requires left { IsText left.now }
    requires right { IsText right.now }
    ensures { result ≡ spec.order (chars left.now) (chars right.now) }
{
    as_str(left).chars().cmp(as_str(right).chars())
}

// Whether equal texts count as the same number.
fn is_same_number(by: Ordering, nan: bool) -> bool
    ensures { result ≡ (is_eq by && not nan) }
{
    by.is_eq() && !nan
}

fn as_asked(wanted: bool, found: bool) -> bool
    ensures { result ≡ spec.as_asked wanted found }
{
    if wanted { found } else { !found }
}

// Whether a text has an `a`, in either case.
fn has_a(text: &[u8]) -> bool
    ensures { result ≡ spec.has_a text.now }
{
    text.iter().any(|b| *b == b'a' || *b == b'A')
}

impl<W> Machine<W> {
    // ---- operands

    // What the text of a place is as a whole number.
    fn reading(&mut self, at: At) -> Result<Result<i64, WholeFault>, NoMemory>
        requires { HasPlace self.old.values.store at }
        ensures reading { IfOk result (λ found. found ≡ whole (text_at self.old.values.store at)) }
        ensures same { SameState self.old self.new }
        ensures stack { self.new.values.store.stack ≡ self.old.values.store.stack }
    {
        match self.values.whole(at) {
            Ok(n) => Ok(Ok(n)),
            Err(ValueFault::NotWhole) => Ok(Err(WholeFault::NotWhole)),
            Err(ValueFault::FloatForm) => Ok(Err(WholeFault::FloatForm)),
            Err(ValueFault::TooLarge) => Ok(Err(WholeFault::TooLarge)),
            Err(ValueFault::NoMemory) => Err(NoMemory),
            Err(_) => unreachable!(),
        }
    }

    // The order of the texts of two places.
    fn order_at(&mut self, left: At, right: At) -> Result<Ordering, NoMemory>
        requires left { HasPlace self.old.values.store left }
        requires right { HasPlace self.old.values.store right }
        ensures order { IfOk result (λ by. by ≡ spec.order (text_at self.old.values.store left) (text_at self.old.values.store right)) }
        ensures same { SameState self.old self.new }
        ensures stack { self.new.values.store.stack ≡ self.old.values.store.stack }
    {
        self.values.make_text(left)?;
        self.values.make_text(right)?;
        Ok(order(self.values.lend(left), self.values.lend(right)))
    }

    // Whether the text of a place, which is of floating form, is no number.
    fn is_nan_at(&mut self, at: At) -> Result<bool, NoMemory>
        requires { HasPlace self.old.values.store at }
        ensures nan { IfOk result (λ nan. nan ≡ spec.is_nan (text_at self.old.values.store at)) }
        ensures same { SameState self.old self.new }
        ensures stack { self.new.values.store.stack ≡ self.old.values.store.stack }
    {
        self.values.make_text(at)?;
        Ok(has_a(self.values.lend(at)))
    }

    /// The truth value that the text of a place is, or the error that it is none.
    pub fn truth_at(&mut self, at: At) -> Result<bool, End>
        requires { HasPlace self.old.values.store at }
        ensures answer { Answers (spec.truth_of (text_at self.old.values.store at)) returned self.old result self.new }
        ensures stack { KeepsStack self.old.values.store.stack result self.new.values.store.stack }
        ensures calm { IsCalm result }
        ensures units { self.new.units ≤ self.old.units }
        ensures own { self.new.own ≡ self.old.own }
    {
        self.values.make_text(at)?;
        match truth(self.values.lend(at)) {
            Some(b) => Ok(b),
            None => Err(self.raise_at(MessageId::NotBoolean, at, b"", ErrorCode::NoCode)),
        }
    }

    /// The truth value that the top text is, which stays.
    pub fn truth_on_top(&mut self) -> Result<bool, End>
        requires { 0 < length self.old.values.store.stack }
        ensures answer { Answers (spec.truth_of (last_of self.old.values.store.stack)) returned self.old result self.new }
        ensures stack { KeepsStack self.old.values.store.stack result self.new.values.store.stack }
        ensures calm { IsCalm result }
        ensures units { self.new.units ≤ self.old.units }
        ensures own { self.new.own ≡ self.old.own }
    {
        let last = self.values.height() - 1;
        self.truth_at(At::Stack(last))
    }

    /// The truth value that the top text is, which is taken off.
    pub fn take_truth(&mut self) -> Result<bool, End>
        requires { 0 < length self.old.values.store.stack }
        ensures answer { Answers (spec.truth_of (last_of self.old.values.store.stack)) returned self.old result self.new }
        ensures stack { KeepsStack (under 1 self.old.values.store.stack) result self.new.values.store.stack }
        ensures calm { IsCalm result }
        ensures units { self.new.units ≤ self.old.units }
        ensures own { self.new.own ≡ self.old.own }
    {
        let b = self.truth_on_top()?;
        self.values.pop(1);
        Ok(b)
    }

    /// The number that an operand is, or the error that it is none, which names its operator or
    /// function.
    pub fn operand(&mut self, at: At, sign: &[u8]) -> Result<i64, End>
        requires place { HasPlace self.old.values.store at }
        requires sign { IsText sign.now }
        ensures answer { Answers (spec.operand (chars sign.now) (text_at self.old.values.store at)) returned self.old result self.new }
        ensures stack { KeepsStack self.old.values.store.stack result self.new.values.store.stack }
        ensures calm { IsCalm result }
        ensures units { self.new.units ≤ self.old.units }
        ensures own { self.new.own ≡ self.old.own }
    {
        match self.reading(at)? {
            Ok(n) => Ok(n),
            Err(why) => { Err(self.raise_at(operand_message(why), at, sign, operand_code(why))) }
        }
    }

    // ---- results

    /// Puts the decimal text of a number in place of the top n texts.
    #[tactic(auto, using(crate::proofs::StackLemmas::pushes_one))]
    pub fn number(&mut self, n: usize, value: i64) -> Result<(), End>
        requires { n ≤ length self.old.values.store.stack }
        ensures answer { Answers (spec.number value) on_top self.old result self.new }
        ensures stack { PushesOne (under n self.old.values.store.stack) result self.new.values.store.stack }
        ensures calm { IsCalm result }
        ensures units { self.new.units ≤ self.old.units }
        ensures own { self.new.own ≡ self.old.own }
    {
        self.values.pop(n);
        self.values.push_whole(value)?;
        Ok(())
    }

    /// Puts 1 or 0 in place of the top n texts.
    pub fn truth_number(&mut self, n: usize, b: bool) -> Result<(), End>
        requires { n ≤ length self.old.values.store.stack }
        ensures answer { Answers (spec.truth_number b) on_top self.old result self.new }
        ensures stack { PushesOne (under n self.old.values.store.stack) result self.new.values.store.stack }
        ensures calm { IsCalm result }
        ensures units { self.new.units ≤ self.old.units }
        ensures own { self.new.own ≡ self.old.own }
    {
        if b {
            self.number(n, 1)
        } else {
            self.number(n, 0)
        }
    }

    /// Puts what an operation on numbers gave in place of the top n texts.
    pub fn calculated(&mut self, n: usize, found: Result<i64, OpFault>) -> Result<(), End>
        requires { n ≤ length self.old.values.store.stack }
        ensures answer { Answers (spec.calculated found) on_top self.old result self.new }
        ensures stack { PushesOne (under n self.old.values.store.stack) result self.new.values.store.stack }
        ensures calm { IsCalm result }
        ensures units { self.new.units ≤ self.old.units }
        ensures own { self.new.own ≡ self.old.own }
    {
        match found {
            Ok(value) => self.number(n, value),
            Err(why) => Err(self.raise(fault_message(why), b"", b"", fault_code(why))),
        }
    }

    // ---- operators of one operand

    // Puts the opposite of its truth value in place of the top text.
    fn negation(&mut self) -> Result<(), End>
        requires { 0 < length self.old.values.store.stack }
        ensures answer { Answers (spec.negation (last_of self.old.values.store.stack)) on_top self.old result self.new }
        ensures stack { PushesOne (under 1 self.old.values.store.stack) result self.new.values.store.stack }
        ensures calm { IsCalm result }
        ensures units { self.new.units ≤ self.old.units }
        ensures own { self.new.own ≡ self.old.own }
    {
        let last = At::Stack(self.values.height() - 1);
        let b = self.truth_at(last)?;
        self.truth_number(1, !b)
    }

    // Puts what an operator gives of its number in place of the top text.
    fn signed(&mut self, op: Op1) -> Result<(), End>
        requires { 0 < length self.old.values.store.stack }
        ensures answer { Answers (spec.signed op (last_of self.old.values.store.stack)) on_top self.old result self.new }
        ensures stack { PushesOne (under 1 self.old.values.store.stack) result self.new.values.store.stack }
        ensures calm { IsCalm result }
        ensures units { self.new.units ≤ self.old.units }
        ensures own { self.new.own ≡ self.old.own }
    {
        let last = At::Stack(self.values.height() - 1);
        let n = self.operand(last, unary_sign(op))?;
        self.calculated(1, apply1(op, n))
    }

    /// Puts what an operator gives of it in place of the top text.
    pub fn unary(&mut self, op: Op1) -> Result<(), End>
        requires { 0 < length self.old.values.store.stack }
        ensures answer { Answers (spec.unary op (last_of self.old.values.store.stack)) on_top self.old result self.new }
        ensures stack { PushesOne (under 1 self.old.values.store.stack) result self.new.values.store.stack }
        ensures calm { IsCalm result }
        ensures units { self.new.units ≤ self.old.units }
        ensures own { self.new.own ≡ self.old.own }
    {
        match op {
            Op1::Minus => self.signed(op),
            Op1::Plus => self.signed(op),
            Op1::Invert => self.signed(op),
            Op1::Not => self.negation(),
        }
    }

    // ---- operators of two operands

    // Puts what an operator gives of their numbers in place of the top two texts.
    fn arithmetic(&mut self, op: Op2) -> Result<(), End>
        requires { 2 ≤ length self.old.values.store.stack }
        ensures answer { Answers (spec.arithmetic op (spec.second_of self.old.values.store.stack)
            (last_of self.old.values.store.stack)) on_top self.old result self.new }
        ensures stack { PushesOne (under 2 self.old.values.store.stack) result self.new.values.store.stack }
        ensures calm { IsCalm result }
        ensures units { self.new.units ≤ self.old.units }
        ensures own { self.new.own ≡ self.old.own }
    {
        let left = At::Stack(self.values.height() - 2);
        let right = At::Stack(self.values.height() - 1);
        let m = self.operand(left, sign(op))?;
        let n = self.operand(right, sign(op))?;
        self.calculated(2, apply2(op, m, n))
    }

    // The order of the top two texts.
    fn order_of_two(&mut self) -> Result<Ordering, NoMemory>
        requires { 2 ≤ length self.old.values.store.stack }
        ensures order { IfOk result (λ by. by ≡ spec.order (spec.second_of self.old.values.store.stack) (last_of self.old.values.store.stack)) }
        ensures same { SameState self.old self.new }
        ensures stack { self.new.values.store.stack ≡ self.old.values.store.stack }
    {
        let left = At::Stack(self.values.height() - 2);
        let right = At::Stack(self.values.height() - 1);
        self.order_at(left, right)
    }

    // Compares the top two texts by code points, and puts 1 or 0 in place of them.
    fn compare_texts(&mut self, op: Op2) -> Result<(), End>
        requires { 2 ≤ length self.old.values.store.stack }
        ensures answer { Answers (spec.truth_number
            (spec.holds op (spec.order (spec.second_of self.old.values.store.stack)
            (last_of self.old.values.store.stack)))) on_top self.old result self.new }
        ensures stack { PushesOne (under 2 self.old.values.store.stack) result self.new.values.store.stack }
        ensures calm { IsCalm result }
        ensures units { self.new.units ≤ self.old.units }
        ensures own { self.new.own ≡ self.old.own }
    {
        let by = self.order_of_two()?;
        self.truth_number(2, holds(op, by))
    }

    // Puts what a comparison says of them in place of the top two texts, where they are the same;
    // else raises an error.
    fn if_same(
        &mut self,
        same: bool,
        op: Op2,
        by: Ordering,
        kind: MessageId,
        errorcode: ErrorCode,
    ) -> Result<(), End>
        requires { 2 ≤ length self.old.values.store.stack }
        ensures answer { Answers (spec.if_same same op by kind errorcode) on_top self.old result self.new }
        ensures stack { PushesOne (under 2 self.old.values.store.stack) result self.new.values.store.stack }
        ensures calm { IsCalm result }
        ensures units { self.new.units ≤ self.old.units }
        ensures own { self.new.own ≡ self.old.own }
    {
        if same {
            self.truth_number(2, holds(op, by))
        } else {
            Err(self.raise(kind, b"", b"", errorcode))
        }
    }

    // Compares numbers of which one is of floating form.
    fn compare_floats(&mut self, op: Op2) -> Result<(), End>
        requires { 2 ≤ length self.old.values.store.stack }
        ensures answer { Answers (spec.compared op (spec.second_of self.old.values.store.stack)
            (last_of self.old.values.store.stack) Comparands.Floats) on_top self.old result self.new }
        ensures stack { PushesOne (under 2 self.old.values.store.stack) result self.new.values.store.stack }
        ensures calm { IsCalm result }
        ensures units { self.new.units ≤ self.old.units }
        ensures own { self.new.own ≡ self.old.own }
    {
        let left = At::Stack(self.values.height() - 2);
        let by = self.order_of_two()?;
        let nan = self.is_nan_at(left)?;
        let same = is_same_number(by, nan);
        self.if_same(same, op, by, MessageId::FloatComparison, ErrorCode::NoCode)
    }

    // Compares whole numbers of which one needs more than 64 bits.
    fn compare_large(&mut self, op: Op2) -> Result<(), End>
        requires { 2 ≤ length self.old.values.store.stack }
        ensures answer { Answers (spec.compared op (spec.second_of self.old.values.store.stack)
            (last_of self.old.values.store.stack) Comparands.LargeNumbers) on_top self.old result self.new }
        ensures stack { PushesOne (under 2 self.old.values.store.stack) result self.new.values.store.stack }
        ensures calm { IsCalm result }
        ensures units { self.new.units ≤ self.old.units }
        ensures own { self.new.own ≡ self.old.own }
    {
        let by = self.order_of_two()?;
        self.if_same(
            by.is_eq(),
            op,
            by,
            MessageId::IntegerTooLarge,
            ErrorCode::Overflow,
        )
    }

    // Compares the top two texts, which are these, and puts 1 or 0 in place of them.
    fn compare_as(&mut self, op: Op2, sorts: Comparands) -> Result<(), End>
        requires { 2 ≤ length self.old.values.store.stack }
        ensures answer { Answers (spec.compared op (spec.second_of self.old.values.store.stack)
            (last_of self.old.values.store.stack) sorts) on_top self.old result self.new }
        ensures stack { PushesOne (under 2 self.old.values.store.stack) result self.new.values.store.stack }
        ensures calm { IsCalm result }
        ensures units { self.new.units ≤ self.old.units }
        ensures own { self.new.own ≡ self.old.own }
    {
        match sorts {
            Comparands::Numbers(m, n) => self.calculated(2, apply2(op, m, n)),
            Comparands::Texts => self.compare_texts(op),
            Comparands::Floats => self.compare_floats(op),
            Comparands::LargeNumbers => self.compare_large(op),
        }
    }

    // What the top two texts are that are compared.
    fn sorts_of_two(&mut self) -> Result<Comparands, NoMemory>
        requires { 2 ≤ length self.old.values.store.stack }
        ensures sorts { IfOk result (λ sorts. sorts
            ≡ spec.sorts_of (whole (spec.second_of self.old.values.store.stack)) (whole (last_of self.old.values.store.stack))) }
        ensures same { SameState self.old self.new }
        ensures stack { self.new.values.store.stack ≡ self.old.values.store.stack }
    {
        let left = At::Stack(self.values.height() - 2);
        let right = At::Stack(self.values.height() - 1);
        let found = self.reading(left)?;
        Ok(sorts_of(found, self.reading(right)?))
    }

    // Compares the top two texts, and puts 1 or 0 in place of them.
    fn compare(&mut self, op: Op2) -> Result<(), End>
        requires { 2 ≤ length self.old.values.store.stack }
        ensures answer { Answers (spec.comparison op (spec.second_of self.old.values.store.stack)
            (last_of self.old.values.store.stack)) on_top self.old result self.new }
        ensures stack { PushesOne (under 2 self.old.values.store.stack) result self.new.values.store.stack }
        ensures calm { IsCalm result }
        ensures units { self.new.units ≤ self.old.units }
        ensures own { self.new.own ≡ self.old.own }
    {
        let sorts = self.sorts_of_two()?;
        self.compare_as(op, sorts)
    }

    /// Puts what an operator of numbers gives of them in place of the top two texts, the left
    /// operand below the right one.
    pub fn between(&mut self, op: Op2) -> Result<(), End>
        requires { 2 ≤ length self.old.values.store.stack }
        ensures answer { Answers (spec.between op (spec.second_of self.old.values.store.stack)
            (last_of self.old.values.store.stack)) on_top self.old result self.new }
        ensures stack { PushesOne (under 2 self.old.values.store.stack) result self.new.values.store.stack }
        ensures calm { IsCalm result }
        ensures units { self.new.units ≤ self.old.units }
        ensures own { self.new.own ≡ self.old.own }
    {
        if compares(op) {
            self.compare(op)
        } else {
            self.arithmetic(op)
        }
    }

    // Whether a text, which is made, is that of an element of a list, which it has of this number.
    fn is_element_at(&mut self, text: At, list: At, k: u64) -> Result<bool, NoMemory>
        requires text { HasPlace self.old.values.store text }
        requires made { IsMade self.old.values.store text }
        requires place { HasPlace self.old.values.store list }
        requires list { IsList (text_at self.old.values.store list) }
        requires within { k < length (listed (text_at self.old.values.store list)) }
        ensures equal { IfOk result (λ same. same
            ≡ is_eq (spec.order (text_at self.old.values.store text) (slice_index_or (listed (text_at self.old.values.store list)) k []))) }
        ensures stack { self.new.values.store.stack ≡ self.old.values.store.stack }
        ensures stays { StaysMade self.old.values.store self.new.values.store }
        ensures same { SameState self.old self.new }
    {
        match self.values.make_element(list, k) {
            Ok(true) => {
                let element = self.values.lend_element(list, k);
                Ok(order(self.values.lend(text), element).is_eq())
            }
            Ok(false) => unreachable!(),
            Err(_) => Err(NoMemory),
        }
    }

    // Whether a text, which is made, is that of an element of a list, which has so many.
    fn is_element(&mut self, text: At, list: At, len: u64) -> Result<bool, NoMemory>
        requires text { HasPlace self.old.values.store text }
        requires made { IsMade self.old.values.store text }
        requires place { HasPlace self.old.values.store list }
        requires list { IsList (text_at self.old.values.store list) }
        requires len { len ≡ length (listed (text_at self.old.values.store list)) }
        ensures found { IfOk result (λ found. found ≡ spec.is_among (text_at self.old.values.store text) (listed (text_at self.old.values.store list))) }
        ensures stack { self.new.values.store.stack ≡ self.old.values.store.stack }
        ensures same { SameState self.old self.new }
    {
        for k in 0..len {
            let equal = self.is_element_at(text, list, k)?;
            if equal {
                return Ok(true);
            }
        }
        Ok(false)
    }

    // Whether the left one of the top two texts is an element of the list that the right one is, as
    // it is asked for: 1 or 0 in place of them.
    fn membership(&mut self, wanted: bool) -> Result<(), End>
        requires { 2 ≤ length self.old.values.store.stack }
        ensures answer { Answers (spec.membership wanted (spec.second_of self.old.values.store.stack)
            (last_of self.old.values.store.stack)) on_top self.old result self.new }
        ensures stack { PushesOne (under 2 self.old.values.store.stack) result self.new.values.store.stack }
        ensures calm { IsCalm result }
        ensures units { self.new.units ≤ self.old.units }
        ensures own { self.new.own ≡ self.old.own }
    {
        let left = At::Stack(self.values.height() - 2);
        let right = At::Stack(self.values.height() - 1);
        let len = self.list_len(right)?;
        self.values.make_text(left)?;
        let found = self.is_element(left, right, len)?;
        self.truth_number(2, as_asked(wanted, found))
    }

    // Compares the top two texts by code points, by an operator of texts.
    fn words_compared(&mut self, op: WordOp) -> Result<(), End>
        requires { 2 ≤ length self.old.values.store.stack }
        ensures answer { Answers (spec.truth_number
            (spec.word_holds op (spec.order (spec.second_of self.old.values.store.stack)
            (last_of self.old.values.store.stack)))) on_top self.old result self.new }
        ensures stack { PushesOne (under 2 self.old.values.store.stack) result self.new.values.store.stack }
        ensures calm { IsCalm result }
        ensures units { self.new.units ≤ self.old.units }
        ensures own { self.new.own ≡ self.old.own }
    {
        let by = self.order_of_two()?;
        self.truth_number(2, word_holds(op, by))
    }

    /// The same, for an operator of texts.
    pub fn words_between(&mut self, op: WordOp) -> Result<(), End>
        requires { 2 ≤ length self.old.values.store.stack }
        ensures answer { Answers (spec.words_between op (spec.second_of self.old.values.store.stack)
            (last_of self.old.values.store.stack)) on_top self.old result self.new }
        ensures stack { PushesOne (under 2 self.old.values.store.stack) result self.new.values.store.stack }
        ensures calm { IsCalm result }
        ensures units { self.new.units ≤ self.old.units }
        ensures own { self.new.own ≡ self.old.own }
    {
        match op {
            WordOp::Among => self.membership(true),
            WordOp::NotAmong => self.membership(false),
            WordOp::Eq => self.words_compared(op),
            WordOp::Ne => self.words_compared(op),
            WordOp::Lt => self.words_compared(op),
            WordOp::Gt => self.words_compared(op),
            WordOp::Le => self.words_compared(op),
            WordOp::Ge => self.words_compared(op),
        }
    }

    // ---- the result

    /// Makes what an expression gives of its value, which is the top text: the decimal text of a
    /// whole number; a floating form is refused.
    pub fn settled(&mut self) -> Result<(), End>
        requires { 0 < length self.old.values.store.stack }
        ensures answer { Answers (expressions.settled (last_of self.old.values.store.stack)) on_top self.old result self.new }
        ensures stack { PushesOne (under 1 self.old.values.store.stack) result self.new.values.store.stack }
        ensures calm { IsCalm result }
        ensures units { self.new.units ≤ self.old.units }
        ensures own { self.new.own ≡ self.old.own }
    {
        let last = At::Stack(self.values.height() - 1);
        match self.reading(last)? {
            Ok(n) => self.number(1, n),
            Err(WholeFault::NotWhole) => Ok(()),
            Err(WholeFault::TooLarge) => Ok(()),
            Err(WholeFault::FloatForm) => {
                Err(self.raise_at(MessageId::FloatValue, last, b"", ErrorCode::NoCode))
            }
        }
    }
}
