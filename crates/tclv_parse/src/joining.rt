// The parts of a word, as they are found.

ghost use Rattle.std.specs.Prelude.{◌≡◌, [], ◌∷◌, IfOk, OnOk};
ghost use Rattle.std.specs.Str.{chars};
ghost use Rattle.tclv_text.specs.Texts.{IsText};
ghost use Rattle.tclv_parse.specs.Grammar.{text_before};
ghost use Rattle.tclv_parse.specs.Trees as spec;

use crate::Part;
use crate::literals::{empty, push_char};
use sqlite_items::Items;
use std::alloc::{AllocError, Global};
use tclv_text::{NoMemory, Text};

/// The parts of a word that were read so far, and the characters behind them, to which more may be
/// joined.
#[derive(Drop)]
pub(crate) struct Found {
    pub parts: Items<Part>,
    pub text: Option<Text>,
}

impl Found {
    /// No parts.
    pub(crate) fn new(alloc: Global) -> Found
        ensures { spec.IsNone result }
    {
        Found {
            parts: Items::new(alloc),
            text: None,
        }
    }

    fn take_text(&mut self, alloc: Global) -> Text
        ensures { spec.TakesText self.old result self.new }
    {
        match self.text.take() {
            Some(text) => text,
            None => empty(alloc),
        }
    }

    /// Characters that stand for themselves.
    pub(crate) fn add_text(&mut self, alloc: Global, more: &[u8]) -> Result<(), NoMemory>
        requires { IsText more.now }
        ensures { OnOk result (spec.Adds self.old (text_before (chars more.now)) self.new) }
    {
        let mut text = self.take_text(alloc);
        text.push(more)?;
        self.text = Some(text);
        Ok(())
    }

    /// A character that an escape stands for.
    pub(crate) fn add_char(&mut self, alloc: Global, c: char) -> Result<(), NoMemory>
        ensures { OnOk result (spec.Adds self.old (text_before (c ∷ [])) self.new) }
    {
        let mut text = self.take_text(alloc);
        push_char(&mut text, c)?;
        self.text = Some(text);
        Ok(())
    }

    /// The characters at the end are a literal.
    fn end_text(&mut self) -> Result<(), AllocError>
        ensures { OnOk result (spec.EndsText self.old self.new) }
    {
        if let Some(text) = self.text.take() {
            self.parts.push(Part::Literal(text))?;
        }
        Ok(())
    }

    /// Another part.
    pub(crate) fn add_part(&mut self, part: Part) -> Result<(), AllocError>
        requires { spec.IsSubstitution part }
        ensures { OnOk result (spec.Adds self.old (λ parts. part ∷ parts) self.new) }
    {
        self.end_text()?;
        self.parts.push(part)?;
        Ok(())
    }

    /// All the parts.
    pub(crate) fn finish(self) -> Result<Items<Part>, AllocError>
        ensures { IfOk result (λ parts. parts ≡ spec.parts_before self []) }
    {
        let mut found = self;
        found.end_text()?;
        let Found { parts, .. } = found;
        Ok(parts)
    }
}
