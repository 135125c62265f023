// The code points of texts, in which case may count for nothing.
ghost use Rattle.std.specs.Prelude.{◌≡◌, IfOk};
ghost use Rattle.std.specs.Ordering.{nat_cmp};
ghost use Rattle.std.specs.Cmp.Lexicographic.{slice_cmp};
ghost use Rattle.std.specs.Str.{chars};
ghost use Rattle.tclv_text.specs.Texts.{IsText};
ghost use Rattle.tclv_text.specs.Globs.{folded_char, folded};

use std::alloc::Global;
use std::cmp::Ordering;
use std::marker::Model;
use tclv_text::{NoMemory, as_str};

/// The code points of a text.
#[derive(Drop)]
pub(crate) struct Points {
    items: Vec<char>,
}

impl Model for Points {
    ghost use Rattle.std.specs.Prelude.{ℕ, List};

    ghost Value = { List ℕ };

    ghost view = { λ p. p.items.items };
}

impl Points {
    /// Whether the one comes before, is, or comes behind the other, by the first code points that differ.
    pub(crate) fn compare(&self, other: &Points) -> Ordering
        ensures { result ≡ slice_cmp nat_cmp self.now other.now }
    {
        self.items.cmp(&other.items)
    }
}

// The character, in lower case where case counts for nothing.
fn folded(c: char, nocase: bool) -> char
    ensures { result ≡ folded_char nocase c }
{
    if nocase { c.to_ascii_lowercase() } else { c }
}

/// The code points of a text, in lower case where case counts for nothing.
pub(crate) fn points_of(alloc: Global, text: &[u8], nocase: bool) -> Result<Points, NoMemory>
    requires { IsText text.now }
    ensures { IfOk result (λ p. p ≡ folded nocase (chars text.now)) }
{
    let mut items = Vec::new(alloc);
    for c in as_str(text).chars() {
        items.push(folded(c, nocase))?;
    }
    Ok(Points { items })
}
