// A text: a list of code points, kept as UTF-8.
ghost use Rattle.std.specs.Prelude.{◌≡◌, ◌↔◌, ◌++◌, List, ℕ, IsTrue, OnOk, OnErr, IfOk};
ghost use Rattle.std.specs.Str.{chars};
ghost use Rattle.tclv_text.specs.Texts.{IsText};

use crate::NoMemory;
use std::alloc::Global;
use std::marker::Model;

/// A text: a list of code points from 0 to 10FFFF without surrogates, which is what contracts see
/// of it. It is kept as UTF-8.
#[derive(Drop)]
pub struct Text {
    bytes: Vec<u8>,
}

impl Model for Text {
    ghost Value = { List ℕ };

    ghost view = { λ t. chars t.bytes.items };

    ghost invariant = { λ t. IsText t.bytes.items };
}

impl Text {
    /// The text of bytes that are valid UTF-8.
    pub fn new(bytes: Vec<u8>) -> Text
        requires { IsText bytes.items }
        ensures { result ≡ chars bytes.items }
    {
        Text { bytes }
    }

    /// Lends the text as UTF-8.
    pub fn bytes(&self) -> &[u8]
        ensures utf8 { IsText result.now }
        ensures text { chars result.now ≡ self.now }
    {
        self.bytes.as_slice()
    }

    /// Gives the text back as UTF-8.
    pub fn into_bytes(self) -> Vec<u8>
        ensures utf8 { IsText result.items }
        ensures text { chars result.items ≡ self }
    {
        let Text { bytes } = self;
        bytes
    }

    /// Whether the two are the same text.
    pub fn is_same(&self, other: &Text) -> bool
        ensures { IsTrue result ↔ (self.now ≡ other.now) }
    {
        self.bytes == other.bytes
    }

    /// Appends a text, given as UTF-8. After `NoMemory` the text is as before.
    #[tactic(auto, using(crate::proofs::TextLemmas::texts))]
    pub fn push(&mut self, more: &[u8]) -> Result<(), NoMemory>
        requires { IsText more.now }
        ensures ok { OnOk result (self.new ≡ self.old ++ chars more.now) }
        ensures err { OnErr result (self.new ≡ self.old) }
    {
        self.bytes.extend_from_slice(more)?;
        Ok(())
    }

    /// Another copy of the text.
    pub fn copy(&self, alloc: Global) -> Result<Text, NoMemory>
        ensures { IfOk result (λ t. t ≡ self.now) }
    {
        let bytes = Vec::from_slice(alloc, self.bytes.as_slice())?;
        Ok(Text { bytes })
    }
}

/// The bytes of a text as a `str`.
pub fn as_str(text: &[u8]) -> &str
    requires { IsText text.now }
    ensures { result.now ≡ text.now }
{
    unsafe { str::from_utf8_unchecked(text) }
}
