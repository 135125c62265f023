//! Laws of the definitions that this crate keeps. Each is the contract of a function that does nothing.
ghost use Rattle.tclv_exprp.specs.ExpressionGrammar.{ArgumentsAreLists, RowsAreChains};
ghost use Rattle.tclv_exprp.specs.Levels.{BoundsGrow, TreesHaveLevels};
ghost use Rattle.tclv_exprp.specs.Numerals.{NumbersAreLongest};
ghost use Rattle.tclv_exprp.specs.OperandFaults.{FaultsOfOperands};
ghost use Rattle.tclv_exprp.specs.Operators.{RoundsDown};

use tclv_parse::laws::scripts_have_levels;

/// Division rounds down: the divisor times the quotient and the remainder give the number, and the
/// remainder lies from 0 up to the divisor, without it, on its side of 0.
pub fn rounds_down()
    ensures { RoundsDown }
{}

/// The operators of a row with their operands are read one behind the other: no count of turns
/// shows in what they mean.
pub fn rows_are_chains()
    ensures { RowsAreChains }
{}

/// Nor does one in the arguments of a call.
pub fn arguments_are_lists()
    ensures { ArgumentsAreLists }
{}

/// A number is the longest front of a text that has the form of a whole number, or the longest that
/// has the form of a floating point number with digits, as the readers of numbers define both.
pub fn numbers_are_longest()
    ensures { NumbersAreLongest }
{}

/// Where an operand must begin and none does, the fault is `Syntax`, at the first character that no
/// expression can have there: none begins with the characters up to it and with it, whatever comes
/// behind. Those before it could still begin white space or an operand: a backslash, a dollar sign, or
/// a dollar sign and a colon.
///
/// This speaks of places where an operand must begin alone. A parse fault inside of a leaf is `Syntax`
/// at the leaf's first byte, with which expressions do begin.
pub fn syntax_is_where_no_operand_goes_on()
    ensures { FaultsOfOperands }
{}

/// The tree of an expression has at most 1616 levels, and the parts in it have at most 100 levels of
/// brackets and indices. A greater bound holds as well: so whoever walks it may count levels down
/// from there and never comes to the end.
pub fn trees_have_levels()
    ensures trees { TreesHaveLevels }
    ensures more { BoundsGrow }
{
    scripts_have_levels();
}
