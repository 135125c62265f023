// Texts as truth values, as scripts and as expressions. Each call reads the text anew.
ghost use Rattle.std.specs.Prelude.{◌≡◌, Some, Ok, Err, IfOk, IfErr};
ghost use Rattle.tclv_text.specs.Truths.{truth};
ghost use Rattle.tclv_parse.specs.Grammar.{commands};
ghost use Rattle.tclv_exprp.specs.Flat.{instructions_of, Answers};
ghost use Rattle.tclv_value.specs.View.{HasPlace, text_at, StaysMade};
ghost use Rattle.tclv_value.specs.Answers.{RefusesTruth};
ghost use Rattle.tclv_value.specs.Changes.{KeepsTexts};

use crate::faults::ValueFault;
use crate::places::At;
use crate::store::Store;
use sqlite_items::Items;
use std::alloc::Global;
use std::rc::Rc;
use tclv_exprp::{ExprFault, Instruction, parse_instructions};
use tclv_parse::{Script, parse};
use tclv_text::{NoMemory, truth};

impl Store {
    /// The truth value that the text of a place is, as `tclv_text::truth` reads it. No text changes.
    ///
    /// Refuses with `NotTruth` exactly where the text is none. (Tcl: Tcl_GetBoolean.)
    pub fn truth(&mut self, at: At) -> Result<bool, ValueFault>
        requires { HasPlace self.old at }
        ensures value { IfOk result (λ value. truth (text_at self.old at) ≡ Some value) }
        ensures refused { IfErr result (λ fault. RefusesTruth fault (truth (text_at self.old at))) }
        ensures kept { KeepsTexts self.old self.new }
    {
        self.make_text(at)?;
        match truth(self.made_text(at)) {
            Some(value) => Ok(value),
            None => Err(ValueFault::NotTruth),
        }
    }

    /// The tree of the script that the text of a place is, as `tclv_parse::parse` reads it. No text
    /// changes. (Tcl(n), "Commands", "Words".)
    pub fn script(&mut self, at: At) -> Result<Rc<Script>, NoMemory>
        requires { HasPlace self.old at }
        ensures tree { IfOk result (λ tree. tree.value ≡ commands (text_at self.old at)) }
        ensures stack { self.new.stack ≡ self.old.stack }
        ensures cells { self.new.cells ≡ self.old.cells }
        ensures stays { StaysMade self.old self.new }
    {
        self.make_text(at)?;
        let tree = parse(self.alloc(), self.made_text(at))?;
        Ok(Rc::new(self.alloc(), tree)?)
    }

    /// The instructions of the expression that the text of a place is, as
    /// `tclv_exprp::parse_instructions` gives them. No text changes.
    ///
    /// Refuses with the first fault of the text from the left, exactly where that call does. (Tcl:
    /// expr(n).)
    pub fn expr(&mut self, at: At) -> Result<Rc<Items<Instruction>>, ExprFault>
        requires { HasPlace self.old at }
        ensures instructions { IfOk result (λ found. instructions_of (text_at self.old at) ≡ Ok found.value) }
        ensures refused { IfErr result (λ fault.
            Answers (instructions_of (text_at self.old at)) (Err fault)) }
        ensures kept { KeepsTexts self.old self.new }
    {
        self.make_text(at)?;
        let read = parse_instructions(self.alloc(), self.made_text(at))?;
        let shared = shared(self.alloc(), read)?;
        Ok(shared)
    }
}

// Instructions that can be held in several places.
fn shared(alloc: Global, read: Items<Instruction>) -> Result<Rc<Items<Instruction>>, NoMemory>
    ensures { IfOk result (λ shared. shared.value ≡ read) }
{
    Ok(Rc::new(alloc, read)?)
}
