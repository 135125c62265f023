// How a command ends: a code, and options in order.
ghost use Rattle.std.specs.Prelude.{◌≡◌, [], ◌∷◌, ◌++◌, OnOk, OnErr};
ghost use Rattle.tclv_model.specs.Codes.{code_number};

use std::alloc::Global;
use std::marker::Model;
use tclv_text::{NoMemory, Text};

/// The code that a command ends with. A code has a number: 0 to 4 for the first five in order, and
/// any other of 32 bits for `Other`. Source: Tcl, return(n).
#[derive(Clone, Copy, Debug, PartialEq, Eq)]
pub enum Code {
    /// The command came to its end.
    Ok,
    /// It was refused. The result is the message.
    Error,
    /// The proc or method that called it is to end.
    Return,
    /// The loop around it is to end.
    Break,
    /// The loop around it is to go on with its next turn.
    Continue,
    /// A code of the script's own.
    Other(i32),
}

impl Code {
    /// The number of the code.
    pub fn number(self) -> i32
        ensures { result ≡ code_number self }
    {
        match self {
            Code::Ok => 0,
            Code::Error => 1,
            Code::Return => 2,
            Code::Break => 3,
            Code::Continue => 4,
            Code::Other(n) => n,
        }
    }
}

/// An option: its name, such as `-code`, and its value.
#[derive(Drop)]
pub struct Pair {
    /// The name, with its `-`.
    pub key: Text,
    /// The value.
    pub value: Text,
}

/// The options that a command ends with, which contracts see as the list of their pairs in order.
#[derive(Drop)]
pub struct Options {
    pairs: Vec<Pair>,
}

impl Model for Options {
    ghost use Rattle.std.specs.Prelude.{List};
    ghost use Rattle.tclv_model.specs.declared.outcomes.Pair.{Pair};

    ghost Value = { List Pair };

    ghost view = { λ o. o.pairs.items };
}

impl Options {
    /// No options.
    pub fn new(alloc: Global) -> Options
        ensures { result ≡ [] }
    {
        Options {
            pairs: Vec::new(alloc),
        }
    }

    /// Lends the pairs.
    pub fn all(&self) -> &[Pair]
        ensures { result.now ≡ self.now }
    {
        self.pairs.as_slice()
    }

    /// Puts an option behind the others. After `NoMemory` the options are as before, and the pair
    /// is dropped.
    pub fn push(&mut self, pair: Pair) -> Result<(), NoMemory>
        ensures ok { OnOk result (self.new ≡ self.old ++ pair ∷ []) }
        ensures err { OnErr result (self.new ≡ self.old) }
    {
        self.pairs.push(pair)?;
        Ok(())
    }
}

#[cfg(test)]
mod tests {
    use super::*;
    use std::test::Fail;

    #[test]
    fn keeps_options_in_order(rt: HostRuntime) -> Result<(), Fail> {
        let alloc = rt.alloc();
        let rows = [("-code", "1"), ("-level", "0"), ("-errorcode", "NONE")];
        let mut options = Options::new(alloc);
        for (key, value) in rows {
            let key = Text::new(Vec::from_slice(alloc, key.as_bytes())?);
            let value = Text::new(Vec::from_slice(alloc, value.as_bytes())?);
            options.push(Pair { key, value })?;
        }
        assert_eq!(rt; options.all().len(), rows.len());
        for (pair, (key, value)) in options.all().iter().zip(rows) {
            assert_eq!(rt; pair.key.bytes(), key.as_bytes());
            assert_eq!(rt; pair.value.bytes(), value.as_bytes());
        }
        Ok(())
    }
}
