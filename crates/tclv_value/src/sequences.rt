// Lists of numbers at equal steps.
ghost use Rattle.std.specs.Prelude.{◌≡◌, ◌^◌, ◌≤◌, ◌++◌, ◌∷◌, [], ℕ, List, OnOk, OnErr, IfOk, IfErr};
ghost use Rattle.std.specs.Bool.{MatchBool};
ghost use Rattle.tclv_text.specs.Numbers.{whole_text};
ghost use Rattle.tclv_text.specs.Quotes.{list_text};
ghost use Rattle.tclv_value.specs.Changes.{KeepsTexts, Pushes};
ghost use Rattle.tclv_value.specs.Elements.{IsListText};
ghost use Rattle.tclv_value.specs.Sequences.{number_at, sequence, IsInWords, LeavesWords, RefusesSequence};

use crate::elements::add_element;
use crate::faults::ValueFault;
use crate::store::Store;
use std::alloc::Global;
use tclv_text::{NoMemory, whole_text};

// Number k of a sequence, from 0.
fn number_at(start: i64, step: i64, k: u64) -> i128
    requires { k ≤ 2 ^ 62 }
    ensures { result ≡ number_at start step k }
{
    start as i128 + step as i128 * k as i128
}

// Whether all numbers of a sequence have 64 bits. They do where the last one does.
fn is_in_words(start: i64, step: i64, count: u64) -> bool
    requires { count ≤ 2 ^ 62 }
    ensures { MatchBool result (IsInWords start step count) (LeavesWords start step count) }
{
    if count == 0 {
        return true;
    }
    let last = number_at(start, step, count - 1);
    i64::MIN as i128 <= last && last <= i64::MAX as i128
}

// Adds a number to the canonical text of a list, or some of it where memory runs out.
fn add_number(alloc: Global, n: i64, list: &mut Vec<u8>) -> Result<(), NoMemory>
    ensures { OnOk result ((ts : List (List ℕ)) → IsListText ts list.old.items →
        IsListText (ts ++ whole_text n ∷ []) list.new.items) }
{
    let mut text = Vec::new(alloc);
    whole_text(n, &mut text)?;
    add_element(text.as_slice(), list)
}

// The canonical text of a sequence, as UTF-8.
fn sequence_bytes(alloc: Global, start: i64, step: i64, count: u64) -> Result<Vec<u8>, NoMemory>
    requires count { count ≤ 2 ^ 62 }
    requires words { IsInWords start step count }
    ensures { IfOk result (λ bytes. IsListText (sequence start step count) bytes.items) }
{
    let mut list = Vec::new(alloc);
    for k in 0..count {
        let number = number_at(start, step, k) as i64;
        add_number(alloc, number, &mut list)?;
    }
    Ok(list)
}

impl Store {
    /// Pushes the canonical text of the list of `count` whole numbers in decimal: `start`, and then
    /// each `step` more than the one before it.
    ///
    /// Refuses with `TooLarge` exactly where one of the numbers is outside -2^63..2^63-1. After a
    /// refusal every place has the text that it had. (Tcl: lseq(n).)
    pub fn push_seq(&mut self, start: i64, step: i64, count: u64) -> Result<(), ValueFault>
        requires { count ≤ 2 ^ 62 }
        ensures pushed { OnOk result
            (Pushes self.old (list_text (sequence start step count)) self.new) }
        ensures words { OnOk result (IsInWords start step count) }
        ensures refused { IfErr result (λ fault. RefusesSequence fault start step count) }
        ensures kept { OnErr result (KeepsTexts self.old self.new) }
    {
        if !is_in_words(start, step, count) {
            return Err(ValueFault::TooLarge);
        }
        let list = sequence_bytes(self.alloc(), start, step, count)?;
        self.push_bytes(list.as_slice())?;
        Ok(())
    }
}
