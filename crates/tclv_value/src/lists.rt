// Texts as lists. Each call reads the text, and writes the new list's text.
ghost use Rattle.std.specs.Prelude.{◌≡◌, ◌↔◌, ◌+◌, ◌<◌, ◌≤◌, [], ◌∷◌, ◌++◌, length, drop, reverse, IsTrue, IsOkAnd, OnOk, OnErr, IfOk, IfErr, slice_get, option_to_list};
ghost use Rattle.std.specs.Result.{ForOk};
ghost use Rattle.tclv_text.specs.Elements.{elements};
ghost use Rattle.tclv_text.specs.Quotes.{list_text};
ghost use Rattle.tclv_value.specs.View.{HasPlace, text_at, StaysMade};
ghost use Rattle.tclv_value.specs.Stacks.{top};
ghost use Rattle.tclv_value.specs.Changes.{KeepsTexts, Pushes, Gathers};
ghost use Rattle.tclv_value.specs.Lists.{RefusesList, part};

use crate::elements::list_bytes;
use crate::faults::ValueFault;
use crate::places::At;
use crate::store::Store;
use tclv_text::NoMemory;

impl Store {
    // Makes one text of the top `n`: the canonical text of their list.
    pub(crate) fn push_list_text(&mut self, n: usize) -> Result<(), NoMemory>
        requires { n ≤ length self.old.stack }
        ensures gathered { OnOk result
            (Gathers self.old n (list_text (top n self.old.stack)) self.new) }
        ensures kept { OnErr result (KeepsTexts self.old self.new) }
    {
        let texts = self.top_texts(n)?;
        let list = list_bytes(self.alloc(), texts.as_slice())?;
        self.gather(n, list.as_slice())
    }

    /// Pushes the canonical text of the list that the text of `at` is, from its last element to its
    /// first.
    ///
    /// Refuses with `NotList` exactly where the text is no list. After a refusal every place has the
    /// text that it had. (Tcl: lreverse(n).)
    pub fn push_reversed(&mut self, at: At) -> Result<(), ValueFault>
        requires { HasPlace self.old at }
        ensures pushed { OnOk result (IsOkAnd (elements (text_at self.old at)) (λ ts.
            Pushes self.old (list_text (reverse ts)) self.new)) }
        ensures refused { IfErr result (λ fault. RefusesList fault (text_at self.old at)) }
        ensures kept { OnErr result (KeepsTexts self.old self.new) }
    {
        let mut elements = self.elements_at(at)?;
        elements.reverse();
        let list = list_bytes(self.alloc(), elements.as_slice())?;
        self.push_bytes(list.as_slice())?;
        Ok(())
    }

    /// Pushes the canonical text of a part of the list that the text of `at` is: of the `len` elements
    /// from place `from` on, counted from 0.
    ///
    /// Refuses with `NotList` exactly where the text is no list. After a refusal every place has the
    /// text that it had. (Tcl: lrange(n).)
    pub fn push_range(&mut self, at: At, from: u64, len: u64) -> Result<(), ValueFault>
        requires place { HasPlace self.old at }
        requires within { ForOk (elements (text_at self.old at)) (λ ts. from + len ≤ length ts) }
        ensures pushed { OnOk result (IsOkAnd (elements (text_at self.old at)) (λ ts.
            Pushes self.old (list_text (part ts from len)) self.new)) }
        ensures refused { IfErr result (λ fault. RefusesList fault (text_at self.old at)) }
        ensures kept { OnErr result (KeepsTexts self.old self.new) }
    {
        let elements = self.elements_at(at)?;
        let from = from as usize;
        let part = &elements.as_slice()[from..from + len as usize];
        let list = list_bytes(self.alloc(), part)?;
        self.push_bytes(list.as_slice())?;
        Ok(())
    }
}
