//! Laws of the meaning of scripts. Each is the contract of a function that does nothing.

ghost use Rattle.tclv_parse.specs.declared.tree.Script.{Script};
ghost use Rattle.tclv_exprp.specs.declared.tree.ExprTree.{ExprTree};
ghost use Rattle.std.specs.Prelude.{List};
ghost use Rattle.tclv_engine.specs.State.{State, Text};
ghost use Rattle.tclv_engine.specs.Words.{Evaluator};
ghost use Rattle.tclv_engine.specs.Instructions.{GivesValue, FitsTree};
ghost use Rattle.tclv_engine.specs.Evaluation.{Given};
ghost use Rattle.tclv_engine.specs.Bounds.{IsWhole, BoundsAgree, IsWholeOfWords, BoundsAgreeOnWords};
ghost use Rattle.tclv_engine.specs.Depths.{IsFull, IsOneMore, IsFullOfWords, IsOneMoreOfWords};

/// The meaning of a script is one: a script does what its commands do, whose inner scripts have the
/// same meaning. So it is with words that are run as a command. It is defined by recursion on a
/// bound on the units, and every bound that is at least the units left gives that meaning: the same
/// ending with the same result, the same state after, and the same events in the same order.
///
/// A command takes its unit before anything else, so a script inside it starts with fewer units, and
/// the bound below is large enough there. Where no unit is left no command runs, and nothing inside it.
pub fn no_bound_shows<W, K>()
    ensures whole { (given : Given W K) (s : Script) (st : State W) → IsWhole given s st }
    ensures bounds { (given : Given W K) (s : Script) (st : State W) → BoundsAgree given s st }
    ensures whole_words { (given : Given W K) (ws : List Text) (st : State W) → IsWholeOfWords given ws st }
    ensures bounds_on_words { (given : Given W K) (ws : List Text) (st : State W) → BoundsAgreeOnWords given ws st }
{}

/// At most 200 evaluations stand in one another, whatever commands there are and whatever calls whom.
/// Where 200 do, each script and all words that are run as a command are an error, which takes no unit
/// and changes nothing. Where fewer do, they run with one more, and behind them as many stand in one
/// another as before, however they ended.
pub fn at_most_200<W, K>()
    ensures full { (given : Given W K) (s : Script) (st : State W) → IsFull given s st }
    ensures one_more { (given : Given W K) (s : Script) (st : State W) → IsOneMore given s st }
    ensures full_of_words { (given : Given W K) (ws : List Text) (st : State W) → IsFullOfWords given ws st }
    ensures one_more_of_words { (given : Given W K) (ws : List Text) (st : State W) → IsOneMoreOfWords given ws st }
{}

/// The instructions that the tree of an expression is laid flat to give its value: the same ending,
/// the same state after, and the same events in the same order. Each finds on the stack what it
/// takes, and behind the last one text is left.
pub fn instructions_give_values<W>()
    ensures gives { (ev : Evaluator W) (e : ExprTree) (st : State W) → GivesValue ev e st }
    ensures fits { (e : ExprTree) → FitsTree e }
{}
