// The words of a call, kept behind a script.
ghost use Rattle.std.specs.Prelude.{◌≡◌, ◌++◌, ◌∷◌, [], OnOk};

use std::alloc::Global;
use std::marker::Model;
use tclv_text::{NoMemory, Text};

/// Texts in order, which contracts see as their list.
#[derive(Drop)]
pub struct Words {
    texts: Vec<Text>,
}

impl Model for Words {
    ghost use Rattle.std.specs.Prelude.{ℕ, List};

    ghost Value = { List (List ℕ) };

    ghost view = { λ w. w.texts.items };
}

impl Words {
    /// No words.
    pub fn new(alloc: Global) -> Words
        ensures { result ≡ [] }
    {
        Words {
            texts: Vec::new(alloc),
        }
    }

    /// Lends them.
    pub fn all(&self) -> &[Text]
        ensures { result.now ≡ self.now }
    {
        self.texts.as_slice()
    }

    /// Puts a word behind the others.
    pub fn push(&mut self, word: Text) -> Result<(), NoMemory>
        ensures { OnOk result (self.new ≡ self.old ++ word ∷ []) }
    {
        self.texts.push(word)?;
        Ok(())
    }
}
