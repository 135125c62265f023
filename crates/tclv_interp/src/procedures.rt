// Procedures, and the command `proc`.
ghost use Rattle.std.specs.Prelude.{◌≡◌, ◌+◌, ◌<◌, ◌≤◌, [], length, slice_index_or, IfOk, OnOk};
ghost use Rattle.tclv_value.specs.View.{HasPlace, IsMade, text_at};
ghost use Rattle.tclv_value.specs.Stacks.{top, under};
ghost use Rattle.tclv_reply.specs.Replies.{call_word};
ghost use Rattle.tclv_ctl.specs.Steps.{Understands};
ghost use Rattle.tclv_ctl.specs.Parameters.{proc_of};
ghost use Rattle.tclv_engine.specs.Answers.{Answers, IsCalm, PushesOne, PushesResult, PushesWords, SameState, as_result};
ghost use Rattle.tclv_engine.specs.DataAnswers.{of_answer};
ghost use Rattle.tclv_interp.specs.ProcRows as spec;

use crate::builtins::{Tables, Target};
use std::marker::Model;
use std::rc::Rc;
use tclv_ctl::proc_def;
use tclv_engine::{End, Machine};
use tclv_model::CmdFault;
use tclv_reply::is_qualified;
use tclv_text::NoMemory;
use tclv_value::{At, ProcDef};

/// A procedure that a name stands for. Calls share it.
#[derive(Drop)]
pub struct Shared {
    def: Rc<ProcDef>,
}

impl Model for Shared {
    ghost use Rattle.tclv_value.specs.Procedures.{Procedure};
    ghost use Rattle.tclv_interp.specs.Procedures.{procedure_code};

    ghost Value = { Procedure };

    ghost coded = { procedure_code };

    ghost view = { λ s. s.def.value };
}

impl Shared {
    /// What a name stands for.
    pub fn new(def: Rc<ProcDef>) -> Shared
        ensures { result ≡ def.value }
    {
        Shared { def }
    }

    /// The procedure, which is shared and not copied.
    pub fn share(&self) -> Result<Rc<ProcDef>, NoMemory>
        ensures { IfOk result (λ def. def.value ≡ self.now) }
    {
        let Ok(def) = self.def.clone() else {
            return Err(NoMemory);
        };
        Ok(def)
    }
}

// The procedure that the words of `proc` make, which are the top n texts, above the word of the call. A
// refusal leaves its message and its code in their place.
fn read_words(machine: &mut Machine<Tables>, n: usize) -> Result<Rc<ProcDef>, CmdFault>
    requires { n + 1 ≤ length machine.old.values.store.stack }
    ensures read { let stack = machine.old.values.store.stack in
        Understands (proc_of (call_word n stack) (top n stack)) (λ p x. x.value ≡ p) n machine.old.values.store machine.new.values.store result }
    ensures same { SameState machine.old machine.new }
{
    proc_def(&mut machine.values.store, n)
}

// The same, where a refusal is an error.
fn asked(machine: &mut Machine<Tables>, n: usize) -> Result<Rc<ProcDef>, End>
    requires { n + 1 ≤ length machine.old.values.store.stack }
    ensures answer { let stack = machine.old.values.store.stack in
        Answers (of_answer (proc_of (call_word n stack) (top n stack))) spec.is_procedure machine.old result machine.new }
    ensures stack { PushesWords (under n machine.old.values.store.stack) result machine.new.values.store.stack }
    ensures kept { OnOk result (machine.new.values.store.stack ≡ machine.old.values.store.stack) }
    ensures some { OnOk result (0 < n) }
    ensures calm { IsCalm result }
    ensures same { SameState machine.old machine.new }
{
    match read_words(machine, n) {
        Ok(def) => Ok(def),
        Err(CmdFault::NoMemory) => Err(End::Memory),
        Err(CmdFault::WrongArgs) => Err(machine.refuse()),
        Err(CmdFault::Message) => Err(machine.refuse()),
    }
}

// Gives the text of a place, which is made, a procedure to stand for.
fn define_made(machine: &mut Machine<Tables>, name: At, def: Rc<ProcDef>) -> Result<(), End>
    requires place { HasPlace machine.old.values.store name }
    requires made { IsMade machine.old.values.store name }
    ensures answer { Answers (spec.defined (text_at machine.old.values.store name) def.value) as_result machine.old result machine.new }
    ensures stack { PushesOne machine.old.values.store.stack result machine.new.values.store.stack }
    ensures calm { IsCalm result }
    ensures units { machine.new.units ≡ machine.old.units }
{
    if is_qualified(machine.values.lend(name)) {
        return Err(machine.not_built());
    }
    let target = Target::Procedure(Shared::new(def));
    let text = machine.values.lend(name);
    machine.own.commands.put(machine.alloc, text, target)?;
    machine.values.push_text(b"")?;
    Ok(())
}

// Gives the text of a place of the stack a procedure to stand for.
fn define(machine: &mut Machine<Tables>, name: usize, def: Rc<ProcDef>) -> Result<(), End>
    requires { name < length machine.old.values.store.stack }
    ensures answer { Answers (spec.defined (slice_index_or machine.old.values.store.stack name []) def.value) as_result machine.old result machine.new }
    ensures stack { PushesOne machine.old.values.store.stack result machine.new.values.store.stack }
    ensures calm { IsCalm result }
    ensures units { machine.new.units ≡ machine.old.units }
{
    machine.values.make_text(At::Stack(name))?;
    define_made(machine, At::Stack(name), def)
}

/// The command `proc name args body`: the name stands for the procedure from then on. Its words are the
/// top `n` texts of the stack, the word of the call lowest. (Tcl: proc(n).)
pub fn cmd_proc(machine: &mut Machine<Tables>, n: usize) -> Result<(), End>
    requires words { n ≤ length machine.old.values.store.stack }
    requires some { 0 < n }
    ensures answer { Answers (spec.row_proc (top n machine.old.values.store.stack)) as_result machine.old result machine.new }
    ensures stack { PushesResult (under n machine.old.values.store.stack) result machine.new.values.store.stack }
    ensures calm { IsCalm result }
    ensures units { machine.new.units ≡ machine.old.units }
{
    let def = asked(machine, n - 1)?;
    let name = machine.values.height() - (n - 1);
    define(machine, name, def)
}
