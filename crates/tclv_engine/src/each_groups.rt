// The variables of a loop over lists, and the values that they take.
ghost use Rattle.std.specs.Prelude.{◌≡◌, ◌*◌, ◌+◌, ◌-◌, ◌<◌, ◌≤◌, ◌++◌, ◌∷◌, [], length, min, take, drop, slice_index_or, IfOk, OnOk};
ghost use Rattle.std.specs.List.{All};
ghost use Rattle.tclv_value.specs.View.{text_at};
ghost use Rattle.tclv_engine.specs.Variables.{assign};
ghost use Rattle.tclv_engine.specs.ListAssignment.{assign_each, unseen};
ghost use Rattle.tclv_engine.specs.EachLoops as spec;
ghost use Rattle.tclv_engine.specs.EachSteps as steps;
ghost use Rattle.tclv_engine.specs.Answers.{Answers, IsCalm, KeepsStack, SameState};

use crate::endings::End;
use crate::machine::Machine;
use tclv_model::{ErrorCode, MessageId};
use tclv_value::At;

/// Some variables and the values that they take in turns: the places on the stack of the list of their
/// names and of the list of the values, and how many elements each has.
#[derive(Clone, Copy, Debug, PartialEq, Eq)]
pub struct Group {
    pub names: usize,
    pub values: usize,
    pub name_count: u64,
    pub value_count: u64,
}

/// Groups, one after another.
#[derive(Drop)]
pub struct Groups {
    pub items: Vec<Group>,
}

impl Groups {
    /// Lends them.
    pub fn all(&self) -> &[Group]
        ensures { result.now ≡ self.now.items.items }
    {
        self.items.as_slice()
    }
}

// The number of the first value in the turn of a number, where `names` values are taken in each.
fn first_value(turn: u64, names: u64, values: u64) -> u64
    ensures { result ≡ min (turn * names) values }
{
    match turn.checked_mul(names) {
        Some(first) => first.min(values),
        None => values,
    }
}

// The number of the value behind so many others from a first one on.
fn value_behind(first: u64, others: u64, values: u64) -> u64
    ensures { result ≡ min (first + others) values }
{
    match first.checked_add(others) {
        Some(number) => number.min(values),
        None => values,
    }
}

impl<W> Machine<W> {
    // ---- turns

    // How many turns a group takes until each value is taken.
    fn group_turns(&self, group: &Group) -> u64
        requires { steps.GroupInside self.now.values.store.stack group.now }
        ensures { result ≡ spec.turns_of (steps.group_at self.now.values.store.stack group.now) }
    {
        if group.value_count == 0 {
            return 0;
        }
        (group.value_count - 1) / group.name_count + 1
    }

    /// How many turns groups take.
    pub fn turn_count(&self, groups: &[Group]) -> u64
        requires { All (steps.GroupInside self.now.values.store.stack) groups.now }
        ensures { result ≡ spec.turn_count (steps.groups_at self.now.values.store.stack groups.now) }
    {
        let mut most = 0;
        for i in 0..groups.len() {
            most = most.max(self.group_turns(&groups[i]));
        }
        most
    }

    // Sets the variable of the name of a number to the value of another number, and to the empty text
    // where there are not so many.
    fn assign_named(&mut self, group: &Group, name: u64, value: u64) -> Result<(), End>
        requires { steps.GroupInside self.old.values.store.stack group.now }
        ensures answer { let g = steps.group_at self.old.values.store.stack group.now in
            Answers (assign (slice_index_or g.0 name []) (slice_index_or g.1 value [])) unseen self.old result self.new }
        ensures stack { KeepsStack self.old.values.store.stack result self.new.values.store.stack }
        ensures calm { IsCalm result }
        ensures units { self.new.units ≡ self.old.units }
        ensures own { self.new.own ≡ self.old.own }
    {
        let height = self.values.height();
        self.push_element_or_empty(group.names, name)?;
        self.assign_element(height, group.values, value)?;
        self.values.pop(1);
        Ok(())
    }

    // Sets the variables of a group to their values in the turn of a number.
    fn assign_group(&mut self, group: &Group, turn: u64) -> Result<(), End>
        requires { steps.GroupInside self.old.values.store.stack group.now }
        ensures answer { let g = steps.group_at self.old.values.store.stack group.now in
            Answers (assign_each g.0 (drop (turn * length g.0) g.1)) unseen self.old result self.new }
        ensures stack { KeepsStack self.old.values.store.stack result self.new.values.store.stack }
        ensures calm { IsCalm result }
        ensures units { self.new.units ≡ self.old.units }
        ensures own { self.new.own ≡ self.old.own }
    {
        let first = first_value(turn, group.name_count, group.value_count);
        for name in 0..group.name_count {
            let value = value_behind(first, name, group.value_count);
            self.assign_named(group, name, value)?;
        }
        Ok(())
    }

    /// Sets the variables of groups to their values in the turn of a number, counted from 0.
    pub fn assign_groups(&mut self, groups: &[Group], turn: u64) -> Result<(), End>
        requires { All (steps.GroupInside self.old.values.store.stack) groups.now }
        ensures answer { Answers (spec.assign_groups turn (steps.groups_at self.old.values.store.stack groups.now)) unseen self.old result self.new }
        ensures stack { KeepsStack self.old.values.store.stack result self.new.values.store.stack }
        ensures calm { IsCalm result }
        ensures units { self.new.units ≤ self.old.units }
        ensures own { self.new.own ≡ self.old.own }
    {
        for i in 0..groups.len() {
            self.assign_group(&groups[i], turn)?;
        }
        Ok(())
    }

    // ---- groups of words

    // Reads a list of names, of which there must be one, and a list of values, by their places.
    fn read_group(&mut self, names: usize, values: usize, empty: MessageId) -> Result<Group, End>
        requires names { names < length self.old.values.store.stack }
        requires values { values < length self.old.values.store.stack }
        ensures answer { let store = self.old.values.store in
            Answers (spec.group_of empty (text_at store (At.Stack names)) (text_at store (At.Stack values))) steps.as_group self.old result self.new }
        ensures inside { IfOk result (steps.GroupInside self.old.values.store.stack) }
        ensures stack { KeepsStack self.old.values.store.stack result self.new.values.store.stack }
        ensures calm { IsCalm result }
        ensures same { SameState self.old self.new }
    {
        let name_count = self.list_len(At::Stack(names))?;
        if name_count == 0 {
            return Err(self.raise(empty, b"", b"", ErrorCode::NoCode));
        }
        let value_count = self.list_len(At::Stack(values))?;
        Ok(Group {
            names,
            values,
            name_count,
            value_count,
        })
    }

    // Adds a group that is read from two words of the stack.
    fn add_group(
        &mut self,
        groups: &mut Groups,
        names: usize,
        values: usize,
        empty: MessageId,
    ) -> Result<(), End>
        requires names { names < length self.old.values.store.stack }
        requires values { values < length self.old.values.store.stack }
        requires inside { All (steps.GroupInside self.old.values.store.stack) groups.old.items.items }
        ensures answer { let store = self.old.values.store in
            Answers (spec.group_of empty (text_at store (At.Stack names)) (text_at store (At.Stack values)))
            (λ g t stack. steps.groups_at stack groups.new.items.items ≡ steps.groups_at stack groups.old.items.items ++ g ∷ []) self.old result self.new }
        ensures inside { OnOk result (All (steps.GroupInside self.old.values.store.stack) groups.new.items.items) }
        ensures stack { KeepsStack self.old.values.store.stack result self.new.values.store.stack }
        ensures calm { IsCalm result }
        ensures same { SameState self.old self.new }
    {
        let group = self.read_group(names, values, empty)?;
        if groups.items.push(group).is_err() {
            return Err(End::Memory);
        }
        Ok(())
    }

    /// Reads groups from words of the stack, from one place up to another, two words each: a list of
    /// names, of which there must be one, and a list of values. The words stay on the stack, where the
    /// groups name them by their places.
    pub fn groups(&mut self, from: usize, to: usize, empty: MessageId) -> Result<Groups, End>
        requires order { from ≤ to }
        requires places { to ≤ length self.old.values.store.stack }
        ensures answer { Answers (spec.groups_of empty [] (take (to - from) (drop from self.old.values.store.stack))) steps.as_groups self.old result self.new }
        ensures inside { IfOk result (λ groups. All (steps.GroupInside self.new.values.store.stack) groups.items.items) }
        ensures stack { KeepsStack self.old.values.store.stack result self.new.values.store.stack }
        ensures calm { IsCalm result }
        ensures same { SameState self.old self.new }
    {
        let mut groups = Groups {
            items: Vec::new(self.alloc),
        };
        let mut at = from;
        'pairs: while to - at >= 2 {
            self.add_group(&mut groups, at, at + 1, empty)?;
            at += 2;
        }
        Ok(groups)
    }
}
