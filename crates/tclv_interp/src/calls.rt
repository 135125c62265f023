// The calls of an interpreter.
ghost use Rattle.std.specs.Prelude.{◌≡◌, ◌≢◌, ◌↔◌, ◌<◌, [], ℕ, false, true, length, slice_index_or, IfOk, IfErr, OnOk, OnErr, Ok, Err};
ghost use Rattle.std.specs.Str.{chars};
ghost use Rattle.tclv_text.specs.Texts.{IsText};
ghost use Rattle.tclv_io.specs.World.{World};
ghost use Rattle.tclv_value.specs.View.{HasPlace};
ghost use Rattle.tclv_vars.specs.Clearing.{IsOutermost};
ghost use Rattle.tclv_engine.specs.Answers.{outer, AtWorld, HasResult, SameState, last_of};
ghost use Rattle.tclv_reply.specs.Names.{is_plain};
ghost use Rattle.tclv_engine.specs.Variables.{assign};
ghost use Rattle.tclv_interp.specs.Interpreters.{state_over, blank, HasNoArrays, variables_of, writes_of, evaluation, as_script, script_at, result_of, options_at, is_stopped, Evaluates, Shows, StopCause, StopsAt};

use crate::builtins::Tables;
use crate::commands::Commands;
use crate::interpreters::{Interp, Stop};
use std::alloc::Global;
use tclv_control::{carried_options, code_of, options_of};
use tclv_engine::{Carried, End, Machine, Values};
use tclv_io::Outside;
use tclv_model::{Code, Options};
use tclv_text::{NoMemory, Stats};
use tclv_value::At;
use tclv_vars::VarFault;

// Where the result stands.
const RESULT: At = At::Stack(0);

// Lets the text of the result's place go.
fn forget_result(machine: &mut Machine<Tables>) -> Result<(), NoMemory>
    requires { 0 < length machine.old.values.store.stack }
    ensures stack { length machine.new.values.store.stack ≡ length machine.old.values.store.stack }
    ensures same { SameState machine.old machine.new }
{
    let height = machine.values.height();
    machine.values.push_text(b"")?;
    machine.values.copy_over(At::Stack(height), 0);
    machine.values.pop(1);
    Ok(())
}

// Moves the top text to the result's place, and cuts the stack to a height. Takes no memory.
fn keep_result(machine: &mut Machine<Tables>, height: usize)
    requires some { 0 < height }
    requires above { height < length machine.old.values.store.stack }
    ensures result { slice_index_or machine.new.values.store.stack 0 [] ≡ last_of machine.old.values.store.stack }
    ensures some { 0 < length machine.new.values.store.stack }
    ensures same { SameState machine.old machine.new }
{
    let last = machine.values.height() - 1;
    machine.values.copy_over(At::Stack(last), 0);
    machine.values.pop(last + 1 - height);
}

impl Interp {
    /// An interpreter without variables, whose scripts may take so many units.
    pub fn new(alloc: Global, budget: u64) -> Result<Interp, NoMemory>
        ensures state { IfOk result (λ i. (w : World) → state_over i w ≡ blank budget w) }
        ensures arrays { IfOk result (λ i. HasNoArrays (variables_of i)) }
        ensures writes { IfOk result (λ i. writes_of i ≡ 0) }
        ensures stopped { IfOk result (λ i. is_stopped i ≡ false) }
        ensures result { IfOk result (λ i. result_of i ≡ []) }
        ensures options { IfOk result (λ i. options_at i ≡ []) }
    {
        let mut values = Values::new(alloc)?;
        values.push_text(b"")?;
        let own = Tables::new(alloc)?;
        Ok(Interp {
            machine: Machine {
                alloc,
                values,
                own,
                units: budget,
                depth: 0,
                writes: 0,
            },
            options: Options::new(alloc),
            stopped: false,
        })
    }

    /// Sets the global variable of a name to a value, both as UTF-8. The name holds neither a colon
    /// nor a parenthesis, and no variable is an array, as before the first script. After `NoMemory`
    /// all is as before.
    pub fn set_global(&mut self, name: &[u8], value: &[u8]) -> Result<(), NoMemory>
        requires name { IsText name.now }
        requires value { IsText value.now }
        requires plain { is_plain name.now ≡ true }
        requires arrays { HasNoArrays (variables_of self.old) }
        ensures arrays { HasNoArrays (variables_of self.new) }
        ensures state { OnOk result ((w : World) → state_over self.new w ≡ (assign (chars name.now) (chars value.now) (state_over self.old w)).after) }
        ensures refused { OnErr result ((w : World) → state_over self.new w ≡ state_over self.old w) }
        ensures writes { writes_of self.new ≡ writes_of self.old }
        ensures stopped { is_stopped self.new ≡ is_stopped self.old }
        ensures result { result_of self.new ≡ result_of self.old }
        ensures options { options_at self.new ≡ options_at self.old }
    {
        match self.machine.values.set_named(name, value) {
            Ok(()) => Ok(()),
            Err(VarFault::NoMemory) => Err(NoMemory),
            Err(_) => unreachable!(),
        }
    }

    /// Puts a script, given as UTF-8, where `eval` finds it, and gives its place. After `NoMemory`
    /// all is as before.
    pub fn push_script(&mut self, text: &[u8]) -> Result<At, NoMemory>
        requires { IsText text.now }
        ensures place { IfOk result (λ at. HasPlace self.new.machine.values.store at) }
        ensures text { IfOk result (λ at. script_at self.new at ≡ chars text.now) }
        ensures state { (w : World) → state_over self.new w ≡ state_over self.old w }
        ensures writes { writes_of self.new ≡ writes_of self.old }
        ensures stopped { is_stopped self.new ≡ is_stopped self.old }
        ensures result { result_of self.new ≡ result_of self.old }
        ensures options { options_at self.new ≡ options_at self.old }
    {
        let at = At::Stack(self.machine.values.height());
        self.machine.values.push_text(text)?;
        Ok(at)
    }

    /// Evaluates the text of a place as a script, at the global level, and gives the code that it ends
    /// with. The place is one that `push_script` gave. The result of the last evaluation goes first.
    /// Frames that a stop leaves open end, however the evaluation ended.
    ///
    /// Answers `Budget` where no unit was left for a command, `Exit` where the script asked for the
    /// end of the run, `Device` where a device failed, and `Memory` where memory ran out; and from
    /// then on `Stopped`, without doing anything. (Tcl: eval(n), tclsh(1).)
    pub fn eval<O: Outside>(&mut self, at: At, out: &mut O) -> Result<Code, Stop>
        requires { is_stopped self.old ≡ false → HasPlace self.old.machine.values.store at }
        ensures answer { is_stopped self.old ≡ false
            → AtWorld (outer (O.told out.old) (O.torn out.old))
            (λ w. Evaluates (evaluation (script_at self.old at) (state_over self.old w)) w (O.torn out.old) (writes_of self.old) result
            (result_of self.new) (options_at self.new) self.new.machine (outer (O.told out.new) (O.torn out.new))) }
        ensures cause { StopCause (O.faults out.old) (O.faults out.new) result }
        ensures frames { is_stopped self.old ≡ false → IsOutermost (variables_of self.new) }
        ensures stops { StopsAt result self.new }
        ensures options { OnErr result (options_at self.new ≡ []) }
        ensures stopped { result ≡ Err Stop.Stopped ↔ is_stopped self.old ≡ true }
        ensures nothing { is_stopped self.old ≡ true → (self.new ≡ self.old) × (out.new ≡ out.old) }
    {
        if self.stopped {
            return Err(Stop::Stopped);
        }
        self.options = Options::new(self.machine.alloc);
        self.stopped = true;
        let ended = self.run(at, out);
        self.machine.values.end_frames();
        ended
    }

    // Evaluates the text of a place, and keeps what it ends with.
    fn run<O: Outside>(&mut self, at: At, out: &mut O) -> Result<Code, Stop>
        requires place { HasPlace self.old.machine.values.store at }
        requires some { 0 < length self.old.machine.values.store.stack }
        requires stopped { is_stopped self.old ≡ true }
        ensures answer { AtWorld (outer (O.told out.old) (O.torn out.old))
            (λ w. Evaluates (as_script (script_at self.old at) (state_over self.old w)) w (O.torn out.old) (writes_of self.old) result
            (result_of self.new) (options_at self.new) self.new.machine (outer (O.told out.new) (O.torn out.new))) }
        ensures cause { StopCause (O.faults out.old) (O.faults out.new) result }
        ensures some { OnOk result (0 < length self.new.machine.values.store.stack) }
        ensures stops { StopsAt result self.new }
        ensures options { OnErr result (options_at self.new ≡ []) }
        ensures other { IfErr result (λ s. s ≢ Stop.Stopped) }
    {
        let tree = self.machine.values.script(at)?;
        forget_result(&mut self.machine)?;
        let height = self.machine.values.height();
        let ended = self.machine.script(&Commands {}, out, &tree);
        self.end(height, ended)
    }

    // Keeps what a script ended with, whose result stands above a height.
    fn end(&mut self, height: usize, ended: Result<Carried, End>) -> Result<Code, Stop>
        requires some { 0 < height }
        requires result { HasResult height ended self.old.machine.values.store.stack }
        requires stopped { is_stopped self.old ≡ true }
        ensures shows { Shows ended self.old.machine.values.store.stack result (result_of self.new) (options_at self.new) }
        ensures same { SameState self.old.machine self.new.machine }
        ensures some { OnOk result (0 < length self.new.machine.values.store.stack) }
        ensures stops { StopsAt result self.new }
        ensures options { OnErr result (options_at self.new ≡ []) }
        ensures other { IfErr result (λ s. s ≢ Stop.Stopped) }
    {
        match ended {
            Ok(kept) => {
                let options = carried_options(self.machine.alloc, Code::Ok, kept);
                self.keep(height, Code::Ok, options)
            }
            Err(End::Left(leaving)) => {
                let code = code_of(&leaving);
                let options = options_of(self.machine.alloc, leaving);
                self.keep(height, code, options)
            }
            Err(End::Budget) => Err(Stop::Budget),
            Err(End::Exit(status)) => Err(Stop::Exit(status)),
            Err(End::Device) => Err(Stop::Device),
            Err(End::Memory) => Err(Stop::Memory),
        }
    }

    // Keeps a code with its result, which is the top text, and its options, where there was memory
    // for them.
    fn keep(
        &mut self,
        height: usize,
        code: Code,
        options: Result<Options, NoMemory>,
    ) -> Result<Code, Stop>
        requires some { 0 < height }
        requires result { height < length self.old.machine.values.store.stack }
        requires stopped { is_stopped self.old ≡ true }
        ensures code { IfOk result (λ c. c ≡ code) }
        ensures result { OnOk result (result_of self.new ≡ last_of self.old.machine.values.store.stack) }
        ensures kept { OnOk result (options ≡ Ok (options_at self.new)) }
        ensures memory { IfErr result (λ s. s ≡ Stop.Memory) }
        ensures same { SameState self.old.machine self.new.machine }
        ensures some { OnOk result (0 < length self.new.machine.values.store.stack) }
        ensures stops { StopsAt result self.new }
        ensures options { OnErr result (options_at self.new ≡ []) }
    {
        let options = options?;
        keep_result(&mut self.machine, height);
        self.stopped = false;
        self.options = options;
        Ok(code)
    }

    /// Lends the result of the last evaluation as UTF-8. It is empty before the first, and where the
    /// last was stopped.
    pub fn result_text(&mut self) -> Result<&[u8], NoMemory>
        ensures utf8 { IfOk result (λ text. IsText text.now) }
        ensures text { IfOk result (λ text. chars text.now ≡ result_of self.old) }
    {
        if self.stopped {
            return Ok(b"");
        }
        self.machine.values.make_text(RESULT)?;
        Ok(self.machine.values.lend(RESULT))
    }

    /// Lends the options of the last evaluation. There are none before the first, and where the last
    /// was stopped.
    pub fn options(&self) -> &Options
        ensures { result.now ≡ options_at self.now }
    {
        &self.options
    }

    /// Lends the variables and the texts of their cells, from which the state of the meaning is read.
    pub fn values(&self) -> &Values
        ensures { result.now ≡ self.now.machine.values }
    {
        &self.machine.values
    }

    /// How many events there were: writes that were completed.
    pub fn writes(&self) -> u64
        ensures { result ≡ writes_of self.now }
    {
        self.machine.writes
    }

    /// How much work was done on values.
    pub fn stats(&self) -> Stats {
        self.machine.values.stats()
    }
}
