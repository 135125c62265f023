// What is to go wrong in an outside in memory, and how much each read gives.
ghost use Rattle.std.specs.Prelude.{◌≡◌, ◌+◌, ◌^◌, ◌≤◌, ◌↔◌, IsSome, IsErr, IfSome, IfNone, OnOk, OnErr};
ghost use Rattle.tclv_io.specs.Plan.{failing, limit_of, next_of};

use crate::Failed;

/// What is still to come, and what has come so far.
#[derive(Drop)]
pub struct Plan {
    /// The most that each read gives, in turn.
    pub pieces: Vec<usize>,
    /// How many reads there were that didn't fail.
    pub reads: usize,
    /// The calls that are to fail, each by its number with the bytes that it takes if it is a write.
    pub fails: Vec<(u64, usize)>,
    /// How many calls there were.
    pub calls: u64,
    /// How often calls have failed.
    pub faults: u64,
    /// How many bytes failing writes have taken.
    pub torn: u64,
}

// How many bytes a call takes before it fails, where it is to fail.
fn failing(fails: &[(u64, usize)], call: u64) -> Option<usize>
    ensures { result ≡ failing fails.now call }
{
    for (number, taken) in fails {
        if *number == call {
            return Some(*taken);
        }
    }
    None
}

impl Plan {
    /// Nothing was called yet.
    pub fn new(pieces: Vec<usize>, fails: Vec<(u64, usize)>) -> Plan
        ensures { result ≡ record { pieces = pieces; reads = 0; fails = fails; calls = 0; faults = 0; torn = 0 } }
    {
        Plan {
            pieces,
            reads: 0,
            fails,
            calls: 0,
            faults: 0,
            torn: 0,
        }
    }

    /// Counts a call, and says how many bytes it takes before it fails, where it is to fail.
    pub fn next_call(&mut self) -> Option<usize>
        ensures answer { result ≡ failing self.old.fails.items (next_of self.old.calls) }
        ensures counted { self.new ≡ record self.old { calls = next_of self.old.calls } }
    {
        self.calls = self.calls.saturating_add(1);
        failing(&self.fails, self.calls)
    }

    /// Counts a call that takes no bytes, and fails where it is to fail.
    pub fn call(&mut self) -> Result<(), Failed>
        ensures fails { IsErr result ↔ IsSome (failing self.old.fails.items (next_of self.old.calls)) }
        ensures ok { OnOk result (self.new ≡ record self.old { calls = next_of self.old.calls }) }
        ensures err { OnErr result (self.new ≡ record self.old { calls = next_of self.old.calls; faults = next_of self.old.faults }) }
        ensures later { self.old.faults ≤ self.new.faults }
    {
        match self.next_call() {
            Some(_) => {
                self.faults = self.faults.saturating_add(1);
                Err(Failed)
            }
            None => Ok(()),
        }
    }

    /// How many bytes failing writes will have taken after this one, where they can be counted.
    pub fn torn_with(&self, taken: usize) -> Option<u64>
        ensures some { IfSome result (λ torn. torn ≡ self.now.torn + taken) }
        ensures none { IfNone result (2 ^ 64 ≤ self.now.torn + taken) }
    {
        self.torn.checked_add(taken as u64)
    }

    /// Counts a write that failed.
    pub fn fail_write(&mut self, torn: u64)
        ensures counted { self.new ≡ record self.old { faults = next_of self.old.faults; torn = torn } }
        ensures later { self.old.faults ≤ self.new.faults }
    {
        self.faults = self.faults.saturating_add(1);
        self.torn = torn;
    }

    /// The most that the next read may give.
    pub fn next_limit(&mut self) -> usize
        ensures answer { result ≡ limit_of self.old.pieces.items self.old.reads }
        ensures counted { self.new ≡ record self.old { reads = next_of self.old.reads } }
    {
        let limit = self.pieces.get(self.reads).copied().unwrap_or(usize::MAX);
        self.reads = self.reads.saturating_add(1);
        limit.max(1)
    }
}
