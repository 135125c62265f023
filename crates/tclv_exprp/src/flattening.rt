// Expressions as instructions: their trees, laid flat. They are made from the last to the first, so
// that how many are passed over is known where that is asked.

ghost use Rattle.std.specs.Prelude.{◌≡◌, ◌++◌, ◌∷◌, [], suc, length, reverse, OnOk, IfOk};
ghost use Rattle.std.specs.Str.{chars};
ghost use Rattle.tclv_text.specs.Texts.{IsText};
ghost use Rattle.tclv_exprp.specs.declared.tree.ExprTree.{out-ExprTree};
ghost use Rattle.tclv_exprp.specs.Flat as spec;

use crate::instructions::{Instruction, Operation};
use crate::{ExprFault, ExprTree, Infix, Step, parse_expr};
use sqlite_items::Items;
use std::alloc::{AllocError, Global};

/// How many levels a tree may have. No expression has a tree of more.
const MAX_TREE: u16 = 2000;

// One instruction more.
fn put(next: Instruction, out: &mut Vec<Instruction>) -> Result<(), AllocError>
    ensures { OnOk result (out.new.items ≡ out.old.items ++ next ∷ []) }
{
    out.push(next)?;
    Ok(())
}

// One operation more.
fn operate(next: Operation, out: &mut Vec<Instruction>) -> Result<(), AllocError>
    ensures { OnOk result (out.new.items ≡ out.old.items ++ Instruction.Operate next ∷ []) }
{
    put(Instruction::Operate(next), out)
}

// The right operand of `&&`, which false decides, or of `||`, which true decides.
#[cycle(lay)]
fn lay_right(
    decides: bool,
    right: ExprTree,
    levels: u16,
    out: &mut Vec<Instruction>,
) -> Result<(), AllocError>
    ensures { OnOk result (out.new.items ≡ out.old.items ++ reverse (spec.deciding decides (spec.flat_at levels right))) }
{
    operate(Operation::Truth, out)?;
    let behind = out.len();
    lay(right, levels, out)?;
    put(Instruction::Forget, out)?;
    let passed = out.len() - behind;
    put(Instruction::SkipIf(decides, passed), out)
}

// An operator behind its left operand, with its right operand.
#[cycle(lay)]
fn lay_step(
    op: Infix,
    right: ExprTree,
    levels: u16,
    out: &mut Vec<Instruction>,
) -> Result<(), AllocError>
    ensures { OnOk result (out.new.items ≡ out.old.items ++ reverse (spec.step (spec.flat_at levels) op right)) }
{
    match op {
        Infix::Number(op) => {
            operate(Operation::Number(op), out)?;
            lay(right, levels, out)
        }
        Infix::Words(op) => {
            operate(Operation::Words(op), out)?;
            lay(right, levels, out)
        }
        Infix::And => lay_right(false, right, levels, out),
        Infix::Or => lay_right(true, right, levels, out),
    }
}

// Operators behind their left operand.
#[cycle(lay)]
fn lay_steps(steps: Items<Step>, levels: u16, out: &mut Vec<Instruction>) -> Result<(), AllocError>
    ensures { OnOk result (out.new.items ≡ out.old.items ++ reverse (spec.steps (spec.flat_at levels) steps)) }
{
    let mut rest = steps;
    'steps: while let Some(step) = rest.pop() {
        let Step { op, right } = step;
        lay_step(op, right, levels, out)?;
    }
    Ok(())
}

// The arguments of a call.
#[cycle(lay)]
fn lay_arguments(
    arguments: Items<ExprTree>,
    levels: u16,
    out: &mut Vec<Instruction>,
) -> Result<(), AllocError>
    ensures { OnOk result (out.new.items ≡ out.old.items ++ reverse (spec.arguments (spec.flat_at levels) arguments)) }
{
    let mut rest = arguments;
    'arguments: while let Some(argument) = rest.pop() {
        lay(argument, levels, out)?;
    }
    Ok(())
}

// What stands behind the test of `?:`.
#[cycle(lay)]
fn lay_choice(
    yes: ExprTree,
    no: ExprTree,
    levels: u16,
    out: &mut Vec<Instruction>,
) -> Result<(), AllocError>
    ensures { OnOk result (out.new.items ≡ out.old.items ++ reverse (spec.choice (spec.flat_at levels yes) (spec.flat_at levels no))) }
{
    let end = out.len();
    lay(no, levels, out)?;
    put(Instruction::Forget, out)?;
    let otherwise = out.len();
    put(Instruction::Skip(otherwise - end), out)?;
    lay(yes, levels, out)?;
    put(Instruction::Forget, out)?;
    let passed = out.len() - otherwise;
    put(Instruction::SkipIf(false, passed), out)
}

// A tree whose operands have so many levels.
#[cycle(lay)]
fn lay_node(tree: ExprTree, levels: u16, out: &mut Vec<Instruction>) -> Result<(), AllocError>
    ensures { OnOk result (out.new.items ≡ out.old.items ++ reverse (spec.node (spec.flat_at levels) (out-ExprTree tree))) }
{
    match tree {
        ExprTree::Literal(text) => operate(Operation::Literal(text), out),
        ExprTree::Parts(parts) => operate(Operation::Parts(parts), out),
        ExprTree::Unary(op, operand) => {
            operate(Operation::Unary(op), out)?;
            lay(operand.into_inner(), levels, out)
        }
        ExprTree::Chain(first, steps) => {
            lay_steps(steps, levels, out)?;
            lay(first.into_inner(), levels, out)
        }
        ExprTree::Cond(test, yes, no) => {
            lay_choice(yes.into_inner(), no.into_inner(), levels, out)?;
            lay(test.into_inner(), levels, out)
        }
        ExprTree::Call(name, arguments) => {
            operate(Operation::Call(name, arguments.len()), out)?;
            lay_arguments(arguments, levels, out)
        }
    }
}

// Appends the instructions of a tree of so many levels, the last of them first.
#[cycle(lay)]
fn lay(tree: ExprTree, levels: u16, out: &mut Vec<Instruction>) -> Result<(), AllocError>
    ensures { OnOk result (out.new.items ≡ out.old.items ++ reverse (spec.flat_at levels tree)) }
{
    if levels == 0 {
        return operate(Operation::TooDeep, out);
    }
    lay_node(tree, levels - 1, out)
}

/// The instructions of an expression, in the order in which they are run.
pub fn flatten(alloc: Global, tree: ExprTree) -> Result<Items<Instruction>, AllocError>
    ensures { IfOk result (λ instructions. instructions ≡ spec.flat tree) }
{
    let mut laid = Vec::new(alloc);
    lay(tree, MAX_TREE, &mut laid)?;
    laid.reverse();
    Ok(Items::from_vec(laid))
}

/// The instructions of the expression that a text is, or the text's first fault from the left, as
/// `parse_expr` gives it.
///
/// `NoMemory` comes where memory runs out. Time is linear in the length of the text. (expr(n))
pub fn parse_instructions(alloc: Global, text: &[u8]) -> Result<Items<Instruction>, ExprFault>
    requires { IsText text.now }
    ensures { spec.Answers (spec.instructions_of (chars text.now)) result }
{
    let tree = parse_expr(alloc, text)?;
    match flatten(alloc, tree) {
        Ok(instructions) => Ok(instructions),
        Err(_) => Err(ExprFault::NoMemory),
    }
}
