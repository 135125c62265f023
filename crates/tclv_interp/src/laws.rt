//! Laws of the commands. Each is the contract of a function that does nothing.

ghost use Rattle.std.specs.Prelude.{ℕ, List};
ghost use Rattle.tclv_engine.specs.Plans.{Wanted};
ghost use Rattle.tclv_interp.specs.Builtins.{StandsForBuiltin};
ghost use Rattle.tclv_interp.specs.Commands.{State, Evaluator};
ghost use Rattle.tclv_interp.specs.Counts.{ThreeAreEnough};
ghost use Rattle.tclv_control.specs.declared.behind.Behind.{Behind};

/// The table of a new interpreter has exactly the commands that are built in.
pub fn built_in_alone()
    ensures { (name : List ℕ) → StandsForBuiltin name }
{}

/// No command wants more than three scripts one behind another, so the evaluation's bound on them
/// never shows.
pub fn three_are_enough()
    ensures { (ev : Evaluator) (p : Wanted Behind) (st : State) → ThreeAreEnough ev p st }
{}
