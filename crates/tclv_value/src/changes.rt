// What the calls on lists are made of: texts that are read from places and put there.
ghost use Rattle.std.specs.Prelude.{◌≡◌, ◌-◌, ◌≤◌, length, Ok, OnOk, OnErr, IfOk, IfErr};
ghost use Rattle.std.specs.Str.{chars};
ghost use Rattle.tclv_text.specs.Texts.{IsText};
ghost use Rattle.tclv_text.specs.Elements.{elements};
ghost use Rattle.tclv_value.specs.declared.places.At.TheVariants.{Stack, Cell};
ghost use Rattle.tclv_value.specs.View.{HasPlace, text_at, IsMade};
ghost use Rattle.tclv_value.specs.Stacks.{top};
ghost use Rattle.tclv_value.specs.Changes.{IsUnder, KeepsTexts, Pushes, Gathers, Puts};
ghost use Rattle.tclv_value.specs.Lists.{RefusesList};

use crate::elements::elements_of;
use crate::faults::ValueFault;
use crate::places::At;
use crate::store::Store;
use tclv_text::{NoMemory, Text};

impl Store {
    // The text of a place that is made.
    pub(crate) fn made_text(&self, at: At) -> &[u8]
        requires place { HasPlace self.now at }
        requires made { IsMade self.now at }
        ensures utf8 { IsText result.now }
        ensures text { chars result.now ≡ text_at self.now at }
    {
        match self.text(at) {
            Some(text) => text,
            None => unreachable!(),
        }
    }

    // A copy of the text of a place. It is made there.
    pub(crate) fn copied_text(&mut self, at: At) -> Result<Text, NoMemory>
        requires { HasPlace self.old at }
        ensures text { IfOk result (λ t. t ≡ text_at self.old at) }
        ensures kept { KeepsTexts self.old self.new }
    {
        self.make_text(at)?;
        let bytes = Vec::from_slice(self.alloc(), self.made_text(at))?;
        Ok(Text::new(bytes))
    }

    /// The elements of the list that the text of a place is, from the left. No text changes.
    ///
    /// Refuses with `NotList` exactly where the text is no list.
    pub fn elements_at(&mut self, at: At) -> Result<Vec<Text>, ValueFault>
        requires { HasPlace self.old at }
        ensures elements { IfOk result (λ ts. elements (text_at self.old at) ≡ Ok ts.items) }
        ensures refused { IfErr result (λ fault. RefusesList fault (text_at self.old at)) }
        ensures kept { KeepsTexts self.old self.new }
    {
        self.make_text(at)?;
        elements_of(self.alloc(), self.made_text(at))
    }

    // Copies of the top texts of the stack, from the lowest up. They are made there.
    pub(crate) fn top_texts(&mut self, n: usize) -> Result<Vec<Text>, NoMemory>
        requires { n ≤ length self.old.stack }
        ensures texts { IfOk result (λ ts. ts.items ≡ top n self.old.stack) }
        ensures kept { KeepsTexts self.old self.new }
    {
        let low = self.height() - n;
        let mut found = Vec::new(self.alloc());
        for i in 0..n {
            let text = self.copied_text(At::Stack(low + i))?;
            found.push(text)?;
        }
        Ok(found)
    }

    // Pushes a text, given as UTF-8.
    pub(crate) fn push_bytes(&mut self, text: &[u8]) -> Result<(), NoMemory>
        requires { IsText text.now }
        ensures pushed { OnOk result (Pushes self.old (chars text.now) self.new) }
        ensures kept { OnErr result (KeepsTexts self.old self.new) }
    {
        self.push_text(text)
    }

    // Makes one text, given as UTF-8, of the top texts of the stack.
    pub(crate) fn gather(&mut self, n: usize, text: &[u8]) -> Result<(), NoMemory>
        requires taken { n ≤ length self.old.stack }
        requires utf8 { IsText text.now }
        ensures gathered { OnOk result (Gathers self.old n (chars text.now) self.new) }
        ensures kept { OnErr result (KeepsTexts self.old self.new) }
    {
        let height = self.height();
        self.push_bytes(text)?;
        self.copy_over(At::Stack(height), height - n);
        self.pop(n);
        Ok(())
    }

    // Takes the top texts off, and gives a place a text in UTF-8.
    pub(crate) fn put(&mut self, n: usize, at: At, text: &[u8]) -> Result<(), NoMemory>
        requires place { IsUnder self.old n at }
        requires utf8 { IsText text.now }
        ensures put { OnOk result (Puts self.old n at (chars text.now) self.new) }
        ensures kept { OnErr result (KeepsTexts self.old self.new) }
    {
        match at {
            At::Stack(i) => self.put_on_stack(n, i, text),
            At::Cell(cell) => self.put_in_cell(n, cell, text),
        }
    }

    fn put_on_stack(&mut self, n: usize, i: usize, text: &[u8]) -> Result<(), NoMemory>
        requires place { IsUnder self.old n (Stack i) }
        requires utf8 { IsText text.now }
        ensures put { OnOk result (Puts self.old n (Stack i) (chars text.now) self.new) }
        ensures kept { OnErr result (KeepsTexts self.old self.new) }
    {
        let height = self.height();
        self.push_bytes(text)?;
        self.copy_over(At::Stack(height), i);
        self.pop(1);
        self.pop(n);
        Ok(())
    }

    fn put_in_cell(&mut self, n: usize, cell: u64, text: &[u8]) -> Result<(), NoMemory>
        requires place { IsUnder self.old n (Cell cell) }
        requires utf8 { IsText text.now }
        ensures put { OnOk result (Puts self.old n (Cell cell) (chars text.now) self.new) }
        ensures kept { OnErr result (KeepsTexts self.old self.new) }
    {
        self.push_bytes(text)?;
        let result = self.put_cell(cell);
        if result.is_err() {
            self.pop(1);
            return Err(NoMemory);
        }
        self.pop(n);
        Ok(())
    }
}
