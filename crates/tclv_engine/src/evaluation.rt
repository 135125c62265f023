// The evaluation of scripts.
ghost use Rattle.std.specs.Prelude.{◌≡◌, ◌≤◌, ◌<◌, [], ℕ, length, true};
ghost use Rattle.tclv_engine.specs.Results.{plain};
ghost use Rattle.tclv_engine.specs.Words as meaning;
ghost use Rattle.tclv_engine.specs.Evaluation as spec;
ghost use Rattle.tclv_engine.specs.Evaluation.{whole};
ghost use Rattle.tclv_value.specs.View.{HasPlace, text_at};
ghost use Rattle.tclv_value.specs.Stacks.{top, under};
ghost use Rattle.tclv_engine.specs.Answers.{AnswersOver, PushesOne, PushesWords, PushesResult, Caused, as_outcome, stacked, on_top, outer};

use crate::endings::{Carried, End};
use crate::host::Host;
use crate::machine::Machine;
use sqlite_items::Items;
use tclv_io::Outside;
use tclv_model::{ErrorCode, MessageId};
use tclv_parse::{Command, ParseFault, Part, Script, Word};
use tclv_text::Text;
use tclv_value::At;

/// How many evaluations may stand in one another.
const MAX_DEPTH: u64 = 200;

/// How many scripts a command may want, one behind another.
const MAX_SCRIPTS: u8 = 3;

/// How many levels of elements a word may have.
const MAX_LEVELS: u8 = 100;

impl<W> Machine<W> {
    /// Evaluates a script, in an evaluation of its own. Its result is pushed.
    #[cycle(eval)]
    pub fn script<H: Host<Own = W>, O: Outside>(
        &mut self,
        host: &H,
        out: &mut O,
        script: &Script,
    ) -> Result<Carried, End>
        requires fits { H.fits self.old.own (O.told out.old) ≡ true }
        ensures answer { AnswersOver ((whole H.given).script script.now) as_outcome self.old (outer (O.told out.old) (O.torn out.old)) result self.new
            (outer (O.told out.new) (O.torn out.new)) }
        ensures stack { PushesOne self.old.values.store.stack result self.new.values.store.stack }
        ensures cause { Caused (O.faults out.old) (O.faults out.new) result }
        ensures units { self.new.units ≤ self.old.units }
        ensures fits { H.fits self.new.own (O.told out.new) ≡ true }
    {
        if self.depth >= MAX_DEPTH {
            return Err(self.raise(
                MessageId::TooManyNestedEvaluations,
                b"",
                b"",
                ErrorCode::NoCode,
            ));
        }
        let depth = self.depth;
        self.depth += 1;
        let ended = self.commands(host, out, &script.commands, script.fault);
        self.depth = depth;
        ended
    }

    /// The commands of a script in order, and its end.
    #[cycle(eval)]
    fn commands<H: Host<Own = W>, O: Outside>(
        &mut self,
        host: &H,
        out: &mut O,
        commands: &Items<Command>,
        fault: Option<ParseFault>,
    ) -> Result<Carried, End>
        requires fits { H.fits self.old.own (O.told out.old) ≡ true }
        ensures answer { AnswersOver (spec.sequence H.given (whole H.given) (plain []) commands.now fault) as_outcome self.old
            (outer (O.told out.old) (O.torn out.old)) result self.new (outer (O.told out.new) (O.torn out.new)) }
        ensures stack { PushesOne self.old.values.store.stack result self.new.values.store.stack }
        ensures cause { Caused (O.faults out.old) (O.faults out.new) result }
        ensures units { self.new.units ≤ self.old.units }
        ensures fits { H.fits self.new.own (O.told out.new) ≡ true }
    {
        self.push_text(b"")?;
        let mut last = Carried::Plain;
        for command in commands.as_slice() {
            self.values.pop(1);
            last = self.command(host, out, command)?;
        }
        self.end_script(last, fault)
    }

    /// Evaluates the text of a place as a script, in an evaluation of its own. Its result is pushed.
    #[cycle(eval)]
    pub fn script_at<H: Host<Own = W>, O: Outside>(
        &mut self,
        host: &H,
        out: &mut O,
        at: At,
    ) -> Result<Carried, End>
        requires place { HasPlace self.old.values.store at }
        requires fits { H.fits self.old.own (O.told out.old) ≡ true }
        ensures answer { AnswersOver (spec.text (whole H.given) (text_at self.old.values.store at)) as_outcome self.old
            (outer (O.told out.old) (O.torn out.old)) result self.new (outer (O.told out.new) (O.torn out.new)) }
        ensures stack { PushesOne self.old.values.store.stack result self.new.values.store.stack }
        ensures cause { Caused (O.faults out.old) (O.faults out.new) result }
        ensures units { self.new.units ≤ self.old.units }
        ensures fits { H.fits self.new.own (O.told out.new) ≡ true }
    {
        let tree = self.values.script(at)?;
        self.script(host, out, &tree)
    }

    /// A command: its unit, its words, and what they do. Its result is pushed.
    #[cycle(eval)]
    fn command<H: Host<Own = W>, O: Outside>(
        &mut self,
        host: &H,
        out: &mut O,
        command: &Command,
    ) -> Result<Carried, End>
        requires fits { H.fits self.old.own (O.told out.old) ≡ true }
        ensures answer { AnswersOver (spec.command H.given (whole H.given) command.now) as_outcome self.old
            (outer (O.told out.old) (O.torn out.old)) result self.new (outer (O.told out.new) (O.torn out.new)) }
        ensures stack { PushesOne self.old.values.store.stack result self.new.values.store.stack }
        ensures cause { Caused (O.faults out.old) (O.faults out.new) result }
        ensures units { self.new.units ≤ self.old.units }
        ensures fits { H.fits self.new.own (O.told out.new) ≡ true }
    {
        let height = self.values.height();
        self.take_unit()?;
        self.words(host, out, &command.words)?;
        let n = self.values.height() - height;
        let kept = self.call(host, out, n)?;
        self.settle(height);
        Ok(kept)
    }

    /// What the top n texts do, as the words of a command: its plan is made and performed.
    #[cycle(eval)]
    fn call<H: Host<Own = W>, O: Outside>(
        &mut self,
        host: &H,
        out: &mut O,
        n: usize,
    ) -> Result<Carried, End>
        requires words { n ≤ length self.old.values.store.stack }
        requires fits { H.fits self.old.own (O.told out.old) ≡ true }
        ensures answer { AnswersOver (spec.call H.given (whole H.given) (top n self.old.values.store.stack)) as_outcome self.old
            (outer (O.told out.old) (O.torn out.old)) result self.new (outer (O.told out.new) (O.torn out.new)) }
        ensures stack { PushesResult (under n self.old.values.store.stack) result self.new.values.store.stack }
        ensures cause { Caused (O.faults out.old) (O.faults out.new) result }
        ensures units { self.new.units ≤ self.old.units }
        ensures fits { H.fits self.new.own (O.told out.new) ≡ true }
    {
        if n == 0 {
            self.push_text(b"")?;
            return Ok(Carried::Plain);
        }
        let base = self.values.height() - n;
        let plan = host.plan(self, out, n)?;
        self.perform(host, out, plan, base, MAX_SCRIPTS)
    }

    /// Pushes the words of a command, from left to right.
    #[cycle(eval)]
    fn words<H: Host<Own = W>, O: Outside>(
        &mut self,
        host: &H,
        out: &mut O,
        words: &Items<Word>,
    ) -> Result<(), End>
        requires fits { H.fits self.old.own (O.told out.old) ≡ true }
        ensures answer { AnswersOver (meaning.words (whole H.given) [] words.now) (stacked self.old.values.store.stack) self.old
            (outer (O.told out.old) (O.torn out.old)) result self.new (outer (O.told out.new) (O.torn out.new)) }
        ensures stack { PushesWords self.old.values.store.stack result self.new.values.store.stack }
        ensures cause { Caused (O.faults out.old) (O.faults out.new) result }
        ensures units { self.new.units ≤ self.old.units }
        ensures fits { H.fits self.new.own (O.told out.new) ≡ true }
    {
        for word in words.as_slice() {
            self.word(host, out, word)?;
        }
        Ok(())
    }

    /// Pushes the words that a word gives.
    #[cycle(eval)]
    fn word<H: Host<Own = W>, O: Outside>(
        &mut self,
        host: &H,
        out: &mut O,
        word: &Word,
    ) -> Result<(), End>
        requires fits { H.fits self.old.own (O.told out.old) ≡ true }
        ensures answer { AnswersOver (meaning.word (whole H.given) word.now) (stacked self.old.values.store.stack) self.old
            (outer (O.told out.old) (O.torn out.old)) result self.new (outer (O.told out.new) (O.torn out.new)) }
        ensures stack { PushesWords self.old.values.store.stack result self.new.values.store.stack }
        ensures cause { Caused (O.faults out.old) (O.faults out.new) result }
        ensures units { self.new.units ≤ self.old.units }
        ensures fits { H.fits self.new.own (O.told out.new) ≡ true }
    {
        self.substitute(host, out, &word.parts, MAX_LEVELS)?;
        if word.expand {
            return self.expand();
        }
        Ok(())
    }

    /// Pushes the text of a word: its parts, joined.
    #[cycle(eval)]
    pub fn substitute<H: Host<Own = W>, O: Outside>(
        &mut self,
        host: &H,
        out: &mut O,
        parts: &Items<Part>,
        levels: u8,
    ) -> Result<(), End>
        requires fits { H.fits self.old.own (O.told out.old) ≡ true }
        ensures answer { AnswersOver (meaning.joined (meaning.part_value levels (whole H.given)) [] parts.now) on_top self.old
            (outer (O.told out.old) (O.torn out.old)) result self.new (outer (O.told out.new) (O.torn out.new)) }
        ensures stack { PushesOne self.old.values.store.stack result self.new.values.store.stack }
        ensures cause { Caused (O.faults out.old) (O.faults out.new) result }
        ensures units { self.new.units ≤ self.old.units }
        ensures fits { H.fits self.new.own (O.told out.new) ≡ true }
    {
        if let [only] = parts.as_slice() {
            return self.part(host, out, only, levels);
        }
        let mut text = Text::new(Vec::new(self.alloc));
        for part in parts.as_slice() {
            self.part(host, out, part, levels)?;
            self.take_onto(&mut text)?;
        }
        self.push_text(text.bytes())
    }

    /// Pushes the value of a part.
    #[cycle(eval)]
    fn part<H: Host<Own = W>, O: Outside>(
        &mut self,
        host: &H,
        out: &mut O,
        part: &Part,
        levels: u8,
    ) -> Result<(), End>
        requires fits { H.fits self.old.own (O.told out.old) ≡ true }
        ensures answer { AnswersOver (meaning.part_value levels (whole H.given) part.now) on_top self.old
            (outer (O.told out.old) (O.torn out.old)) result self.new (outer (O.told out.new) (O.torn out.new)) }
        ensures stack { PushesOne self.old.values.store.stack result self.new.values.store.stack }
        ensures cause { Caused (O.faults out.old) (O.faults out.new) result }
        ensures units { self.new.units ≤ self.old.units }
        ensures fits { H.fits self.new.own (O.told out.new) ≡ true }
    {
        match part {
            Part::Literal(text) => self.push_text(text.bytes()),
            Part::Variable(name) => self.push_variable(name.bytes()),
            Part::Element(name, index) => self.element(host, out, name, index, levels),
            Part::Script(script) => {
                self.script(host, out, script.get())?;
                Ok(())
            }
        }
    }

    /// Pushes the value of an element, by its array's name and its index.
    #[cycle(eval)]
    fn element<H: Host<Own = W>, O: Outside>(
        &mut self,
        host: &H,
        out: &mut O,
        name: &Text,
        index: &Items<Part>,
        levels: u8,
    ) -> Result<(), End>
        requires fits { H.fits self.old.own (O.told out.old) ≡ true }
        ensures answer { AnswersOver (meaning.element levels (whole H.given) name.now index.now) on_top self.old
            (outer (O.told out.old) (O.torn out.old)) result self.new (outer (O.told out.new) (O.torn out.new)) }
        ensures stack { PushesOne self.old.values.store.stack result self.new.values.store.stack }
        ensures cause { Caused (O.faults out.old) (O.faults out.new) result }
        ensures units { self.new.units ≤ self.old.units }
        ensures fits { H.fits self.new.own (O.told out.new) ≡ true }
    {
        if levels == 0 {
            return Err(self.raise(
                MessageId::TooManyNestedBrackets,
                b"",
                b"",
                ErrorCode::NoCode,
            ));
        }
        self.substitute(host, out, index, levels - 1)?;
        self.put_element(name.bytes())
    }
}
