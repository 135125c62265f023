// Expressions as trees.

ghost use Rattle.std.specs.Prelude.{◌≡◌, [], ◌∷◌, IfOk};
ghost use Rattle.tclv_exprp.specs.ExpressionGrammar as spec;

use crate::{Infix, Op1};
use sqlite_items::{Boxed, Items};
use std::alloc::{AllocError, Global};
use tclv_parse::Part;
use tclv_text::Text;

/// An operator of a chain, with its right operand.
#[cycle(tree)]
#[derive(Drop)]
pub struct Step {
    pub op: Infix,
    pub right: ExprTree,
}

/// An expression.
#[cycle(tree)]
#[derive(Drop)]
pub enum ExprTree {
    /// A number with its sign, as it is written; a truth word, as it is written; or a text in braces.
    Literal(Text),
    /// A variable, an element, a script in brackets, or the parts of a text in quotes.
    Parts(Items<Part>),
    /// An operator before its operand.
    Unary(Op1, Boxed<ExprTree>),
    /// An operand and one step or more, from left to right, whose operators bind equally. A `**` is
    /// a chain of one step.
    Chain(Boxed<ExprTree>, Items<Step>),
    /// `?:`: the test, the value where it is true, and that where it is false.
    Cond(Boxed<ExprTree>, Boxed<ExprTree>, Boxed<ExprTree>),
    /// A function, by its name, and its arguments, as many as it takes.
    Call(Text, Items<ExprTree>),
}

/// One operand alone is itself.
pub(crate) fn chained(
    alloc: Global,
    first: ExprTree,
    steps: Items<Step>,
) -> Result<ExprTree, AllocError>
    ensures { IfOk result (λ t. t ≡ spec.chained first steps) }
{
    if steps.is_empty() {
        return Ok(first);
    }
    Ok(ExprTree::Chain(Boxed::new(alloc, first)?, steps))
}

/// A chain of one step.
pub(crate) fn lone(
    alloc: Global,
    base: ExprTree,
    op: Infix,
    right: ExprTree,
) -> Result<ExprTree, AllocError>
    ensures { IfOk result (λ t. t ≡ spec.lone base op right) }
{
    let mut steps = Items::new(alloc);
    steps.push(Step { op, right })?;
    chained(alloc, base, steps)
}

pub(crate) fn unary(alloc: Global, op: Op1, operand: ExprTree) -> Result<ExprTree, AllocError>
    ensures { IfOk result (λ t. t ≡ ExprTree.Unary op operand) }
{
    Ok(ExprTree::Unary(op, Boxed::new(alloc, operand)?))
}

pub(crate) fn cond(
    alloc: Global,
    test: ExprTree,
    yes: ExprTree,
    no: ExprTree,
) -> Result<ExprTree, AllocError>
    ensures { IfOk result (λ t. t ≡ ExprTree.Cond test yes no) }
{
    Ok(ExprTree::Cond(
        Boxed::new(alloc, test)?,
        Boxed::new(alloc, yes)?,
        Boxed::new(alloc, no)?,
    ))
}

/// The parts of an operand that is one part.
pub(crate) fn part_alone(alloc: Global, part: Part) -> Result<ExprTree, AllocError>
    ensures { IfOk result (λ t. t ≡ ExprTree.Parts (part ∷ [])) }
{
    let mut parts = Items::new(alloc);
    parts.push(part)?;
    Ok(ExprTree::Parts(parts))
}
