// Reading whole numbers.
ghost use Rattle.std.specs.Prelude.{◌≡◌};
ghost use Rattle.tclv_value.specs.View.{HasPlace, text_at};
ghost use Rattle.tclv_engine.specs.Answers.{Answers, IsCalm, KeepsStack, returned};
ghost use Rattle.tclv_engine.specs.WholeNumbers as spec;

use crate::endings::End;
use crate::machine::Machine;
use tclv_model::{ErrorCode, MessageId};
use tclv_value::{At, ValueFault};

impl<W> Machine<W> {
    /// The whole number that the text of a place is, or the error that it is none.
    pub fn whole_at(&mut self, at: At) -> Result<i64, End>
        requires { HasPlace self.old.values.store at }
        ensures answer { Answers (spec.whole_number (text_at self.old.values.store at)) returned self.old result self.new }
        ensures stack { KeepsStack self.old.values.store.stack result self.new.values.store.stack }
        ensures calm { IsCalm result }
        ensures units { self.new.units ≡ self.old.units }
        ensures own { self.new.own ≡ self.old.own }
    {
        match self.values.whole(at) {
            Ok(n) => Ok(n),
            Err(ValueFault::NotWhole) => {
                Err(self.raise_at(MessageId::NotInteger, at, b"", ErrorCode::NotNumber))
            }
            Err(ValueFault::FloatForm) => {
                Err(self.raise_at(MessageId::NotInteger, at, b"", ErrorCode::NotNumber))
            }
            Err(ValueFault::TooLarge) => {
                Err(self.raise_at(MessageId::IntegerTooLarge, at, b"", ErrorCode::Overflow))
            }
            Err(ValueFault::NoMemory) => Err(End::Memory),
            Err(_) => unreachable!(),
        }
    }
}
