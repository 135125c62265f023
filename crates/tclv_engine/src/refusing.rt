// What the answer of a data command becomes.
ghost use Rattle.std.specs.Prelude.{◌≡◌, ◌≤◌, Ok, length, IfErr, OnOk};
ghost use Rattle.tclv_engine.specs.DataSteps as steps;
ghost use Rattle.tclv_engine.specs.Answers.{SameState};

use crate::endings::{End, Leaving};
use crate::machine::Machine;
use tclv_model::CmdFault;
use tclv_text::Text;

impl<W> Machine<W> {
    /// The error whose message and code are the top texts of the stack.
    pub fn refuse(&mut self) -> End
        requires { 2 ≤ length self.old.values.store.stack }
        ensures refuses { steps.BecomesError self.old.values.store.stack result self.new.values.store.stack }
        ensures same { SameState self.old self.new }
    {
        let mut code = Text::new(Vec::new(self.alloc));
        match self.take_onto(&mut code) {
            Ok(()) => End::Left(Leaving::Error(code)),
            Err(_) => End::Memory,
        }
    }

    /// Ends a data command by what its call answered. A refusal becomes an error, whose message and
    /// code are the top texts of the stack.
    pub fn end_data(&mut self, done: Result<(), CmdFault>) -> Result<(), End>
        requires { IfErr done (λ kind. steps.HasReply kind self.old.values.store.stack) }
        ensures given { OnOk done ((result ≡ Ok tt) × (self.new.values.store.stack ≡ self.old.values.store.stack)) }
        ensures refused { IfErr done (λ kind. steps.EndsRefused kind self.old.values.store.stack result self.new.values.store.stack) }
        ensures same { SameState self.old self.new }
    {
        match done {
            Ok(()) => Ok(()),
            Err(CmdFault::NoMemory) => Err(End::Memory),
            Err(CmdFault::WrongArgs | CmdFault::Message) => Err(self.refuse()),
        }
    }
}
