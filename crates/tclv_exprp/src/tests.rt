// Operators at their edges, and an expression as instructions.

use crate::{Instruction, Op1, Op2, OpFault, apply1, apply2, parse_instructions};
use std::alloc::Global;
use std::test::Fail;

/// An operator of two numbers, the numbers, and what it must give.
#[derive(Drop)]
struct Row {
    op: Op2,
    left: i64,
    right: i64,
    gives: Result<i64, OpFault>,
}

const fn of(op: Op2, left: i64, right: i64, gives: Result<i64, OpFault>) -> Row {
    Row {
        op,
        left,
        right,
        gives,
    }
}

#[test]
fn two_numbers(rt: HostRuntime) -> Result<(), Fail> {
    let rows = [
        of(Op2::Divide, -7, 2, Ok(-4)),
        of(Op2::Remainder, -7, 2, Ok(1)),
        of(Op2::Remainder, 7, -2, Ok(-1)),
        of(Op2::Power, 2, 9, Ok(512)),
        of(Op2::Power, 0, -1, Err(OpFault::ZeroPower)),
        of(Op2::Power, -1, -3, Ok(-1)),
        of(Op2::Divide, i64::MIN, -1, Err(OpFault::TooLarge)),
        of(Op2::Divide, 1, 0, Err(OpFault::DivideByZero)),
        of(Op2::ShiftLeft, 1, 64, Err(OpFault::TooLarge)),
        of(Op2::ShiftLeft, 0, 64, Ok(0)),
        of(Op2::ShiftLeft, 1, -1, Err(OpFault::NegativeShift)),
        of(Op2::ShiftRight, -1, 70, Ok(-1)),
        of(Op2::Add, i64::MAX, 1, Err(OpFault::TooLarge)),
        of(Op2::LessEqual, 3, 3, Ok(1)),
    ];
    for row in &rows {
        assert_eq!(rt; apply2(row.op, row.left, row.right), row.gives);
    }
    Ok(())
}

#[test]
fn one_number(rt: HostRuntime) -> Result<(), Fail> {
    assert_eq!(rt; apply1(Op1::Minus, i64::MIN), Err(OpFault::TooLarge));
    assert_eq!(rt; apply1(Op1::Plus, -3), Ok(-3));
    assert_eq!(rt; apply1(Op1::Invert, 0), Ok(-1));
    assert_eq!(rt; apply1(Op1::Not, 5), Ok(0));
    Ok(())
}

/// Whether a text has five instructions, and the second passes over two where the operand before it
/// is false.
fn passes_over_two(alloc: Global, text: &str) -> bool {
    let Ok(laid) = parse_instructions(alloc, text.as_bytes()) else {
        return false;
    };
    laid.len() == 5 && matches!(laid.get(1), Some(Instruction::SkipIf(false, 2)))
}

#[test]
fn a_decided_operand_is_passed_over(rt: HostRuntime) -> Result<(), Fail> {
    assert!(rt; passes_over_two(rt.alloc(), "1 && 2"));
    Ok(())
}
