// The variables of a run.
ghost use Rattle.std.specs.Prelude.{◌≡◌, ℕ, ◌+◌, ◌<◌, ◌||◌, not, nat_eq, nat_lt, if◌then◌else◌, length, Ok, Err, IsTrue, IfOk, IfErr, OnOk, OnErr, IfSome};
ghost use Rattle.std.specs.Option.{option_copied};
ghost use Rattle.tclv_text.specs.Texts.{IsText};
ghost use Rattle.tclv_value.specs.View.{KeepsMade};
ghost use Rattle.tclv_vars.specs.Clearing.{ended, without_names, Tied};
ghost use Rattle.tclv_vars.specs.declared.faults.VarFault.TheVariants.{NoLevel};
ghost use Rattle.tclv_vars.specs.Scoping.{last_names, level_of, space_of, is_local_at, at_level, at_frame};
ghost use Rattle.tclv_vars.specs.Indices.{array_names, count_of};
ghost use Rattle.tclv_vars.specs.Links.{linked};
ghost use Rattle.tclv_vars.specs.Sound.{Sound};
ghost use Rattle.tclv_vars.specs.Unset.{variable, is_held, unset, left_unset};
ghost use Rattle.tclv_vars.specs.Undo.{missing, FreshWrite};
ghost use Rattle.tclv_vars.specs.Table.{Table, no_variables, read, write, begun, at_scopes, has_value, Refuses};

use crate::faults::VarFault;
use crate::indices::Indices;
use crate::places::{Missing, Place, Root};
use crate::tables::Tables;
use std::alloc::Global;
use std::marker::Model;
use tclv_text::NoMemory;
use tclv_value::Store;

/// The variables of a run, by frame and namespace: which cell each stands for, and whether it is set.
///
/// A variable is a name, or an element of an array by its index. Names and indices are given as
/// UTF-8; a name is taken as it is, without parentheses or namespaces. The texts of the cells lie
/// elsewhere, under the cells' numbers.
#[derive(Drop)]
pub struct Vars {
    tables: Tables,
}

impl Model for Vars {
    ghost use Rattle.tclv_vars.specs.Table.{Table, table_code, table_of};

    ghost Value = { Table };

    ghost coded = { table_code };

    ghost view = { λ v. table_of v.tables };

    ghost use Rattle.tclv_vars.specs.Sound.{Sound};

    ghost invariant = { λ v. Sound (table_of v.tables) };
}

impl Vars {
    /// The global frame alone, of level 0 and namespace 0, and no variable.
    pub fn new(alloc: Global) -> Result<Vars, NoMemory>
        ensures start { IfOk result (λ v. v ≡ no_variables) }
    {
        let tables = Tables::new(alloc)?;
        Ok(Vars { tables })
    }

    /// The cell of a variable that is set, or of an element that is.
    ///
    /// `NoVariable` and `NoElement` come exactly where it isn't set, `IsArray` for a whole array,
    /// `NotArray` for an element of a variable that has a value. Takes no memory. Source: set(n).
    pub fn read(&self, at: Place, name: &[u8], index: Option<&[u8]>) -> Result<u64, VarFault>
        requires name { IsText name.now }
        requires index { IfSome (option_copied index) IsText }
        ensures answer { result ≡ read self.now at name.now (option_copied index.entry) }
        ensures value { IfOk result (λ c. IsTrue (has_value self.now c)) }
    {
        self.tables.read(at, name, index)
    }

    /// The cell of a variable or an element, which counts as set from then on, and whether it
    /// wasn't set before. What isn't there is made: the name, and an element's array.
    ///
    /// `IsArray` comes exactly for a whole array, `NotArray` for an element of a variable that has
    /// a value. After a refusal, `NoMemory` too, all is as before. Source: set(n).
    pub fn write(
        &mut self,
        at: Place,
        name: &[u8],
        index: Option<&[u8]>,
    ) -> Result<(u64, bool), VarFault>
        requires name { IsText name.now }
        requires index { IfSome (option_copied index) IsText }
        ensures written { IfOk result (λ p. write self.old at name.now (option_copied index.entry)
            ≡ Ok (record { cell = p.0; fresh = p.1; after = self.new })) }
        ensures refused { IfErr result (Refuses (write self.old at name.now (option_copied index.entry))) }
        ensures same { OnErr result (self.new ≡ self.old) }
        ensures value { IfOk result (λ p. (c : ℕ) → has_value self.new c ≡ (nat_eq c p.0 || has_value self.old c)) }
        ensures fresh { IfOk result (λ p. p.1 ≡ not (has_value self.old p.0)) }
        ensures current { self.new.scopes.current ≡ self.old.scopes.current }
        ensures frames { length self.new.scopes.frames ≡ length self.old.scopes.frames }
    {
        self.tables.write(at, name, index)
    }

    /// What of a variable or an element isn't there. It is what `take_back` wants to know of the
    /// tables before the write. Takes no memory.
    pub fn missing(&self, at: Place, name: &[u8], index: Option<&[u8]>) -> Missing
        requires name { IsText name.now }
        requires index { IfSome (option_copied index) IsText }
        ensures answer { result ≡ missing self.now at name.now (option_copied index.entry) }
        ensures sound { Sound self.now }
    {
        self.tables.missing(at, name, index)
    }

    /// Takes the last write back. It gave this variable, which wasn't set, its value, `lacked` was
    /// missing then, and no call changed the variables since. All is as before that write: what it
    /// made goes again, and so do the cells' numbers. Takes no memory.
    pub fn take_back(&mut self, at: Place, name: &[u8], index: Option<&[u8]>, lacked: Missing)
        requires name { IsText name.now }
        requires index { IfSome (option_copied index) IsText }
        requires wrote { (t : Table) × FreshWrite t at name.now (option_copied index) lacked self.old }
        ensures before { (t : Table) → FreshWrite t at name.now (option_copied index.entry) lacked self.old → self.new ≡ t }
    {
        self.tables.take_back(at, name, index, lacked);
    }

    /// Unsets a variable that is set, or an element that is. Its cell holds nothing then and loses its
    /// text, and so do the cells of the elements of an array. Every name stays on its cell, links
    /// too, and a write through any of them makes it a variable again.
    ///
    /// `NoVariable` and `NoElement` come exactly where it isn't set, `NotArray` for an element of a
    /// variable that has a value. After a refusal all is as before. Takes no memory. Source: unset(n).
    pub fn unset(
        &mut self,
        store: &mut Store,
        at: Place,
        name: &[u8],
        index: Option<&[u8]>,
    ) -> Result<(), VarFault>
        requires name { IsText name.now }
        requires index { IfSome (option_copied index) IsText }
        ensures answer { result ≡ is_held (variable self.old at name.now (option_copied index.entry)) }
        ensures unset { self.new ≡ unset self.old at name.now (option_copied index.entry) }
        ensures texts { store.new.cells ≡ left_unset store.old.cells self.old at name.now (option_copied index.entry) }
        ensures stack { store.new.stack ≡ store.old.stack }
        ensures keeps { KeepsMade store.old store.new }
        ensures tied { Tied self.old store.old.cells → Tied self.new store.new.cells }
    {
        self.tables.unset(store, at, name, index)
    }

    /// Makes the local name of the current frame a link to the other name, or to an element of it: a
    /// second name of its cell. The other name stands where the root says. What of it isn't there is
    /// made, an element's array too, and isn't set by that. A link that is linked anew moves, and a
    /// local name that isn't set leaves its own cell.
    ///
    /// `NoLevel` comes exactly where the level is above the current one, else `LinkExists` where the
    /// local name is a variable that is no link, else `NotArray` for an element of a variable that
    /// has a value. After a refusal, `NoMemory` too, all is as before. Source: upvar(n), global(n).
    pub fn link(
        &mut self,
        local: &[u8],
        root: Root,
        name: &[u8],
        index: Option<&[u8]>,
    ) -> Result<(), VarFault>
        requires local { IsText local.now }
        requires name { IsText name.now }
        requires index { IfSome (option_copied index) IsText }
        ensures linked { OnOk result (linked self.old local.now root name.now (option_copied index.entry) ≡ Ok self.new) }
        ensures refused { IfErr result (Refuses (linked self.old local.now root name.now (option_copied index.entry))) }
        ensures same { OnErr result (self.new ≡ self.old) }
        ensures values { (c : ℕ) → has_value self.new c ≡ has_value self.old c }
        ensures current { self.new.scopes.current ≡ self.old.scopes.current }
        ensures frames { length self.new.scopes.frames ≡ length self.old.scopes.frames }
    {
        self.tables.link(local, root, name, index)
    }

    /// How many indices an array has: those of its elements that are set.
    ///
    /// `NoVariable` comes exactly where the variable isn't set, `NotArray` where it has a value. Takes
    /// no memory. Source: array(n).
    pub fn array_size(&self, at: Place, name: &[u8]) -> Result<usize, VarFault>
        requires name { IsText name.now }
        ensures answer { result ≡ count_of (array_names self.now at name.now) }
    {
        self.tables.array_size(at, name)
    }

    /// The indices of an array, sorted by code points: those of its elements that are set.
    ///
    /// `NoVariable` comes exactly where the variable isn't set, `NotArray` where it has a value.
    /// Source: array(n).
    pub fn array_names(&self, alloc: Global, at: Place, name: &[u8]) -> Result<Indices, VarFault>
        requires name { IsText name.now }
        ensures names { IfOk result (λ names. array_names self.now at name.now ≡ Ok names) }
        ensures refused { IfErr result (Refuses (array_names self.now at name.now)) }
    {
        self.tables.array_names(alloc, at, name)
    }

    /// Pushes a frame, which is current then: of this namespace, and one level above the frame
    /// that was current. A local one has names of its own, and another those of its namespace.
    /// After `NoMemory` all is as before. Source: proc(n), namespace(n).
    pub fn push_frame(&mut self, space: u64, local: bool) -> Result<(), NoMemory>
        ensures pushed { OnOk result (self.new ≡ begun self.old space local) }
        ensures refused { OnErr result (self.new ≡ self.old) }
        ensures last { OnOk result (self.new.scopes.current + 1 ≡ length self.new.scopes.frames) }
        ensures inner { OnOk result (0 < self.new.scopes.current) }
    {
        self.tables.push_frame(space, local)
    }

    /// Takes off the frame that was pushed last, which is current and not the global one. Its caller
    /// is current then. The cells of its own names go, with their texts, and so do those of the
    /// elements of its arrays; a link's cell stays. Takes no memory. Source: proc(n), upvar(n).
    pub fn pop_frame(&mut self, store: &mut Store)
        requires last { self.old.scopes.current + 1 ≡ length self.old.scopes.frames }
        requires inner { 0 < self.old.scopes.current }
        ensures ended { self.new ≡ ended self.old }
        ensures texts { store.new.cells ≡ without_names store.old.cells self.old.contents (last_names self.old.scopes) }
        ensures stack { store.new.stack ≡ store.old.stack }
        ensures keeps { KeepsMade store.old store.new }
        ensures tied { Tied self.old store.old.cells → Tied self.new store.new.cells }
    {
        self.tables.pop_frame(store);
    }

    /// Makes the frame of that level current, of the current one and those that called it, and
    /// gives the number of the frame that was current.
    ///
    /// `NoLevel` comes exactly where the level is above the current one, and nothing changes then.
    /// Takes no memory. Source: uplevel(n).
    pub fn use_level(&mut self, level: usize) -> Result<usize, VarFault>
        ensures answer { result ≡ (if nat_lt (level_of self.old.scopes self.old.scopes.current) level then Err NoLevel else Ok self.old.scopes.current) }
        ensures current { self.new ≡ at_scopes self.old (at_level self.old.scopes level) }
        ensures level { OnOk result (level_of self.new.scopes self.new.scopes.current ≡ level) }
        ensures back { IfOk result (λ frame. frame < length self.new.scopes.frames) }
    {
        self.tables.use_level(level)
    }

    /// Makes the frame of that number current, which is there. Takes no memory.
    pub fn use_frame(&mut self, frame: usize)
        requires there { frame < length self.old.scopes.frames }
        ensures current { self.new ≡ at_scopes self.old (at_frame self.old.scopes frame) }
    {
        self.tables.use_frame(frame);
    }

    /// The level of the current frame, 0 for the global one. Source: info(n), level.
    pub fn level(&self) -> usize
        ensures answer { result ≡ level_of self.now.scopes self.now.scopes.current }
    {
        self.tables.scopes().level()
    }

    /// The number of the current frame: its place, from 0, among the frames that are there, in the
    /// order in which they were pushed.
    pub fn frame(&self) -> usize
        ensures answer { result ≡ self.now.scopes.current }
        ensures there { result < length self.now.scopes.frames }
    {
        self.tables.scopes().current()
    }

    /// How many frames there are, the global one among them.
    pub fn frame_count(&self) -> usize
        ensures count { result ≡ length self.now.scopes.frames }
        ensures some { 0 < result }
    {
        self.tables.scopes().count()
    }

    /// The number of the current frame's namespace.
    pub fn space(&self) -> u64
        ensures answer { result ≡ space_of self.now.scopes self.now.scopes.current }
    {
        self.tables.scopes().space()
    }

    /// Whether the current frame is local.
    pub fn is_local(&self) -> bool
        ensures answer { result ≡ is_local_at self.now.scopes self.now.scopes.current }
    {
        self.tables.scopes().is_local()
    }
}
