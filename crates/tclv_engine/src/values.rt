// The values of a run: a stack of texts, and variables.
ghost use Rattle.std.specs.Prelude.{◌≡◌, ◌+◌, ◌-◌, ◌<◌, ◌≤◌, ◌++◌, [], ◌∷◌, length, take, Ok, Err, ◌↔◌, IsTrue, IsOkAnd, IfOk, IfErr, IfSome, OnOk, OnErr, option_to_list, slice_get, slice_set, None, Some, slice_index_or, true};
ghost use Rattle.tclv_text.specs.Elements.{elements};
ghost use Rattle.tclv_value.specs.ListObjects.{IsElementMade};
ghost use Rattle.std.specs.Str.{chars};
ghost use Rattle.std.specs.FinMap as finite;
ghost use Rattle.std.specs.List.{All};
ghost use Rattle.std.specs.Option.{option_map};
ghost use Rattle.tclv_text.specs.Texts.{IsText};
ghost use Rattle.tclv_text.specs.Numbers.{whole, whole_text};
ghost use Rattle.tclv_parse.specs.Grammar.{commands};
ghost use Rattle.tclv_exprp.specs.Flat as instructions;
ghost use Rattle.tclv_exprp.specs.Flat.{instructions_of};
ghost use Rattle.tclv_vars.specs.Clearing.{back_in, left_behind, outermost, outermost_texts, IsOutermost};
ghost use Rattle.tclv_vars.specs.Scoping.{at_level, is_local_at, level_of};
ghost use Rattle.tclv_vars.specs.Table.{at_scopes, begun, no_variables, Refuses};
ghost use Rattle.tclv_value.specs.View.{HasPlace, text_at, IsMade};
ghost use Rattle.tclv_value.specs.Stacks.{top, under};

use crate::named_cells::{link_named, missing_named, read_named, take_back_named, write_named};
use sqlite_items::Items;
use std::alloc::Global;
use std::marker::Model;
use std::rc::Rc;
use tclv_exprp::{ExprFault, Instruction};
use tclv_model::CmdFault;
use tclv_parse::Script;
use tclv_reply::{NameShape, list_len};
use tclv_text::{NoMemory, Stats, Text};
use tclv_value::{At, Store, ValueFault};
use tclv_vars::{Place, Root, VarFault, Vars};

/// The values of a run: a stack of texts, and the variables with their texts.
///
/// A place that is handed in is there: a place of the stack below its height, or a cell that has a
/// text. Texts are lent and taken as UTF-8.
#[derive(Drop)]
pub struct Values {
    pub store: Store,
    pub vars: Vars,
}

impl Model for Values {
    ghost use Rattle.tclv_engine.specs.Holdings.{Holdings, IsTied, holdings_code};

    ghost Value = { Holdings };

    ghost coded = { holdings_code };

    ghost view = { λ v. record { store = v.store; vars = v.vars } };

    ghost invariant = { λ v. IsTied v.vars v.store.cells };
}

// Lends the text of a place, which is made.
fn lent(store: &Store, at: At) -> &[u8]
    requires place { HasPlace store.now at }
    requires made { IsMade store.now at }
    ensures utf8 { IsText result.now }
    ensures text { chars result.now ≡ text_at store.now at }
{
    match store.text(at) {
        Some(text) => text,
        None => unreachable!(),
    }
}

impl Values {
    ghost use Rattle.tclv_value.specs.declared.places.At.TheVariants.{Stack, Cell};
    ghost use Rattle.tclv_text.specs.Quotes.{list_text};
    ghost use Rattle.tclv_model.specs.Values.{list_of};
    ghost use Rattle.tclv_value.specs.Stacks.{top, under};
    ghost use Rattle.tclv_value.specs.View.{StaysMade};
    ghost use Rattle.tclv_reply.specs.Replies as replies;
    ghost use Rattle.tclv_value.specs.Answers.{RefusesWhole};
    ghost use Rattle.tclv_engine.specs.Holdings.{Sets, SameVariables, Assigned};
    ghost use Rattle.tclv_engine.specs.Names.{bytes_of};
    ghost use Rattle.tclv_engine.specs.Names as spec_names;
    ghost use Rattle.tclv_reply.specs.Names.{naming, element_of, shape_of};
    ghost use Rattle.tclv_engine.specs.Instructions.{IsBetween};
    ghost use Rattle.tclv_engine.specs.Plans.{placed};

    /// An empty stack and no variables.
    pub fn new(alloc: Global) -> Result<Values, NoMemory>
        ensures stack { IfOk result (λ v. v.store.stack ≡ []) }
        ensures cells { IfOk result (λ v. v.store.cells ≡ finite.empty) }
        ensures vars { IfOk result (λ v. v.vars ≡ no_variables) }
    {
        let vars = Vars::new(alloc)?;
        Ok(Values {
            store: Store::new(alloc),
            vars,
        })
    }

    /// Pushes a copy of a text.
    pub fn push_text(&mut self, text: &[u8]) -> Result<(), NoMemory>
        requires { IsText text.now }
        ensures pushed { OnOk result (self.new.store.stack ≡ self.old.store.stack ++ chars text.now ∷ []) }
        ensures refused { OnErr result (self.new.store.stack ≡ self.old.store.stack) }
        ensures same { SameVariables self.old self.new }
    {
        self.store.push_text(text)
    }

    /// Pushes the decimal text of a number.
    pub fn push_whole(&mut self, n: i64) -> Result<(), NoMemory>
        ensures pushed { OnOk result (self.new.store.stack ≡ self.old.store.stack ++ whole_text n ∷ []) }
        ensures refused { OnErr result (self.new.store.stack ≡ self.old.store.stack) }
        ensures same { SameVariables self.old self.new }
    {
        self.store.push_whole(n)
    }

    /// Pushes the text of a place, which is shared and not copied.
    pub fn push_copy(&mut self, from: At) -> Result<(), NoMemory>
        requires { HasPlace self.old.store from }
        ensures pushed { OnOk result (self.new.store.stack ≡ self.old.store.stack ++ text_at self.old.store from ∷ []) }
        ensures refused { OnErr result (self.new.store.stack ≡ self.old.store.stack) }
        ensures same { SameVariables self.old self.new }
    {
        self.store.push_copy(from)
    }

    /// Gives a place of the stack the text of another place, which is shared and not copied. Takes
    /// no memory.
    pub fn copy_over(&mut self, from: At, to: usize)
        requires from { HasPlace self.old.store from }
        requires to { to < length self.old.store.stack }
        ensures stack { self.new.store.stack ≡ slice_set self.old.store.stack to (text_at self.old.store from) }
        ensures same { SameVariables self.old self.new }
    {
        self.store.copy_over(from, to);
    }

    /// How many texts the stack has. Takes no memory.
    pub fn height(&self) -> usize
        ensures { result ≡ length self.now.store.stack }
    {
        self.store.height()
    }

    /// Takes texts off the stack, so many as are asked for, which are there. Takes no memory.
    pub fn pop(&mut self, n: usize)
        requires { n ≤ length self.old.store.stack }
        ensures popped { self.new.store.stack ≡ take (length self.old.store.stack - n) self.old.store.stack }
        ensures same { SameVariables self.old self.new }
    {
        self.store.pop(n);
    }

    /// Makes the text of a place, so that `lend` lends it. No text changes.
    pub fn make_text(&mut self, at: At) -> Result<(), NoMemory>
        requires { HasPlace self.old.store at }
        ensures made { OnOk result (IsMade self.new.store at) }
        ensures stack { self.new.store.stack ≡ self.old.store.stack }
        ensures stays { StaysMade self.old.store self.new.store }
        ensures same { SameVariables self.old self.new }
    {
        self.store.make_text(at)
    }

    /// Lends the text of a place, which is made. Takes no memory.
    pub fn lend(&self, at: At) -> &[u8]
        requires place { HasPlace self.now.store at }
        requires made { IsMade self.now.store at }
        ensures utf8 { IsText result.now }
        ensures text { chars result.now ≡ text_at self.now.store at }
    {
        lent(&self.store, at)
    }

    /// The whole number of 64 bits that the text of a place is. No text changes. Refuses as
    /// `tclv_value::Store::whole` does.
    pub fn whole(&mut self, at: At) -> Result<i64, ValueFault>
        requires { HasPlace self.old.store at }
        ensures number { IfOk result (λ n. whole (text_at self.old.store at) ≡ Ok n) }
        ensures refused { IfErr result (λ fault. RefusesWhole fault (whole (text_at self.old.store at))) }
        ensures stack { self.new.store.stack ≡ self.old.store.stack }
        ensures same { SameVariables self.old self.new }
    {
        self.store.whole(at)
    }

    /// The tree of the script that the text of a place is. No text changes.
    pub fn script(&mut self, at: At) -> Result<Rc<Script>, NoMemory>
        requires { HasPlace self.old.store at }
        ensures tree { IfOk result (λ tree. tree.value ≡ commands (text_at self.old.store at)) }
        ensures stack { self.new.store.stack ≡ self.old.store.stack }
        ensures same { SameVariables self.old self.new }
    {
        self.store.script(at)
    }

    /// The tree of the script that a text of the stack is, where there is a place. No text changes.
    pub fn script_or_none(&mut self, at: Option<usize>) -> Result<Option<Rc<Script>>, NoMemory>
        requires { IfSome at (λ n. n < length self.old.store.stack) }
        ensures trees { IfOk result (λ found. IsBetween (placed self.old.store.stack) at found) }
        ensures stack { self.new.store.stack ≡ self.old.store.stack }
        ensures same { SameVariables self.old self.new }
    {
        match at {
            None => Ok(None),
            Some(n) => Ok(Some(self.script(At::Stack(n))?)),
        }
    }

    /// The instructions of the expression that the text of a place is. No text changes. Refuses as
    /// `tclv_value::Store::expr` does.
    pub fn expr(&mut self, at: At) -> Result<Rc<Items<Instruction>>, ExprFault>
        requires { HasPlace self.old.store at }
        ensures instructions { IfOk result (λ found. instructions_of (text_at self.old.store at) ≡ Ok found.value) }
        ensures refused { IfErr result (λ fault. instructions.Answers (instructions_of (text_at self.old.store at)) (Err fault)) }
        ensures stack { self.new.store.stack ≡ self.old.store.stack }
        ensures same { SameVariables self.old self.new }
    {
        self.store.expr(at)
    }

    /// The cell of what a name names, given with its shape, which has a text. Refuses as
    /// `tclv_vars::Vars::read` does. Takes no memory.
    pub fn cell_named(&self, name: &[u8], shape: NameShape) -> Result<u64, VarFault>
        requires name { IsText name.now }
        requires shape { shape ≡ shape_of name.now }
        ensures answer { result ≡ spec_names.read_named self.now.vars (naming name.now) }
        ensures there { IfOk result (λ cell. HasPlace self.now.store (Cell cell)) }
    {
        read_named(&self.vars, name, shape)
    }

    /// The cell of what the text of a place names. As `cell_named`.
    pub fn cell_at(&self, name: At, shape: NameShape) -> Result<u64, VarFault>
        requires place { HasPlace self.now.store name }
        requires made { IsMade self.now.store name }
        requires shape { shape ≡ shape_of (bytes_of (text_at self.now.store name)) }
        ensures answer { result ≡ spec_names.read_named self.now.vars (naming (bytes_of (text_at self.now.store name))) }
        ensures there { IfOk result (λ cell. HasPlace self.now.store (Cell cell)) }
    {
        self.cell_named(self.lend(name), shape)
    }

    /// The cell of an element of an array of the current frame, by the array's name and the index,
    /// which is the text of a place. As `cell_named`.
    pub fn cell_of_element(&self, array: &[u8], index: At) -> Result<u64, VarFault>
        requires array { IsText array.now }
        requires place { HasPlace self.now.store index }
        requires made { IsMade self.now.store index }
        ensures answer { result ≡ spec_names.read_named self.now.vars (element_of array.now (bytes_of (text_at self.now.store index))) }
        ensures there { IfOk result (λ cell. HasPlace self.now.store (Cell cell)) }
    {
        self.vars.read(Place::Frame, array, Some(self.lend(index)))
    }

    /// How the name of a variable is read that is the text of a place. Takes no memory.
    pub fn shape_at(&self, name: At) -> NameShape
        requires place { HasPlace self.now.store name }
        requires made { IsMade self.now.store name }
        ensures { result ≡ shape_of (bytes_of (text_at self.now.store name)) }
    {
        NameShape::of(self.lend(name))
    }

    /// Sets what the text of a place names to the top text of the stack, which moves into the cell. The
    /// name is given with its shape. After a refusal all is as before; it is one of
    /// `tclv_vars::Vars::write`.
    pub fn write_top(&mut self, name: At, shape: NameShape) -> Result<u64, VarFault>
        requires place { HasPlace self.old.store name }
        requires made { IsMade self.old.store name }
        requires some { 0 < length self.old.store.stack }
        requires shape { shape ≡ shape_of (bytes_of (text_at self.old.store name)) }
        ensures assigned { IfOk result (Assigned self.old self.new (naming (bytes_of (text_at self.old.store name)))) }
        ensures there { IfOk result (λ cell. HasPlace self.new.store (Cell cell)) }
        ensures refused { IfErr result (Refuses (spec_names.write_named self.old.vars (naming (bytes_of (text_at self.old.store name))))) }
        ensures stack { OnErr result (self.new.store.stack ≡ self.old.store.stack) }
        ensures same { OnErr result (SameVariables self.old self.new) }
    {
        let lacked = missing_named(&self.vars, lent(&self.store, name), shape);
        let (cell, fresh) = write_named(&mut self.vars, lent(&self.store, name), shape)?;
        match self.store.put_cell(cell) {
            Ok(()) => Ok(cell),
            Err(_) => {
                if fresh {
                    let name = lent(&self.store, name);
                    take_back_named(&mut self.vars, name, shape, lacked);
                }
                Err(VarFault::NoMemory)
            }
        }
    }

    /// Sets what a name names to a value, both as UTF-8. After a refusal all is as before; it is one of
    /// `tclv_vars::Vars::write`.
    pub fn set_named(&mut self, name: &[u8], value: &[u8]) -> Result<(), VarFault>
        requires name { IsText name.now }
        requires value { IsText value.now }
        ensures set { OnOk result (Sets self.old self.new (naming name.now) (chars value.now)) }
        ensures refused { IfErr result (Refuses (spec_names.write_named self.old.vars (naming name.now))) }
        ensures stack { self.new.store.stack ≡ self.old.store.stack }
        ensures same { OnErr result (SameVariables self.old self.new) }
    {
        let height = self.height();
        self.push_text(name)?;
        let done = self.set_at(At::Stack(height), value);
        self.pop(1);
        done
    }

    // Sets the variable whose name is the text of a place to a value.
    fn set_at(&mut self, name: At, value: &[u8]) -> Result<(), VarFault>
        requires place { HasPlace self.old.store name }
        requires value { IsText value.now }
        ensures set { OnOk result (Sets self.old self.new (naming (bytes_of (text_at self.old.store name))) (chars value.now)) }
        ensures refused { IfErr result (Refuses (spec_names.write_named self.old.vars (naming (bytes_of (text_at self.old.store name))))) }
        ensures stack { self.new.store.stack ≡ self.old.store.stack }
        ensures same { OnErr result (SameVariables self.old self.new) }
    {
        self.push_text(value)?;
        match self.set_to_top(name) {
            Ok(_) => Ok(()),
            Err(fault) => {
                self.pop(1);
                Err(fault)
            }
        }
    }

    // Sets the variable whose name is the text of a place to the top text, which moves into its
    // cell.
    fn set_to_top(&mut self, name: At) -> Result<u64, VarFault>
        requires place { HasPlace self.old.store name }
        requires some { 0 < length self.old.store.stack }
        ensures assigned { IfOk result (Assigned self.old self.new (naming (bytes_of (text_at self.old.store name)))) }
        ensures refused { IfErr result (Refuses (spec_names.write_named self.old.vars (naming (bytes_of (text_at self.old.store name))))) }
        ensures stack { OnErr result (self.new.store.stack ≡ self.old.store.stack) }
        ensures same { OnErr result (SameVariables self.old self.new) }
    {
        self.make_text(name)?;
        let shape = self.shape_at(name);
        self.write_top(name, shape)
    }

    /// How many elements the list has that the text of a place is. No text changes; where the text is
    /// no list, the message and the error code are pushed.
    pub fn list_len(&mut self, list: At) -> Result<u64, CmdFault>
        requires { HasPlace self.old.store list }
        ensures read { replies.Reads (list_of (text_at self.old.store list)) (λ ts len. len ≡ length ts) self.old.store self.new.store result }
        ensures same { SameVariables self.old self.new }
    {
        list_len(&mut self.store, list)
    }

    /// Pushes an element of the list that the text of a place is, counted from 0, and says whether there
    /// is one. It is shared and not copied. Refuses as `tclv_value::Store::push_element` does.
    pub fn push_element(&mut self, list: At, k: u64) -> Result<bool, ValueFault>
        requires { HasPlace self.old.store list }
        ensures found { IfOk result (λ found.
            IsOkAnd (elements (text_at self.old.store list)) (λ ts. IsTrue found ↔ (k < length ts))) }
        ensures pushed { OnOk result (IsOkAnd (elements (text_at self.old.store list)) (λ ts.
            self.new.store.stack ≡ self.old.store.stack ++ option_to_list (slice_get ts k))) }
        ensures refused { OnErr result (self.new.store.stack ≡ self.old.store.stack) }
        ensures same { SameVariables self.old self.new }
    {
        self.store.push_element(list, k)
    }

    /// Makes the text of an element of such a list, so that `lend_element` lends it, and says whether
    /// there is one. No text changes.
    pub fn make_element(&mut self, list: At, k: u64) -> Result<bool, ValueFault>
        requires { HasPlace self.old.store list }
        ensures found { IfOk result (λ found.
            IsOkAnd (elements (text_at self.old.store list)) (λ ts. IsTrue found ↔ (k < length ts))) }
        ensures made { IfOk result (λ found. IsTrue found → IsElementMade self.new.store list k) }
        ensures stack { self.new.store.stack ≡ self.old.store.stack }
        ensures stays { StaysMade self.old.store self.new.store }
        ensures same { SameVariables self.old self.new }
    {
        self.store.make_element(list, k)
    }

    /// Lends the text of an element that `make_element` made. Takes no memory.
    pub fn lend_element(&self, list: At, k: u64) -> &[u8]
        requires place { HasPlace self.now.store list }
        requires made { IsElementMade self.now.store list k }
        ensures utf8 { IsText result.now }
        ensures text { IsOkAnd (elements (text_at self.now.store list)) (λ ts. Some (chars result.now) ≡ slice_get ts k) }
    {
        match self.store.element_text(list, k) {
            Some(text) => text,
            None => unreachable!(),
        }
    }

    /// Makes one text of the top `n`: their list, the lowest of them first.
    pub fn push_list(&mut self, n: usize) -> Result<(), NoMemory>
        requires { n ≤ length self.old.store.stack }
        ensures pushed { OnOk result (self.new.store.stack ≡ under n self.old.store.stack ++ list_text (top n self.old.store.stack) ∷ []) }
        ensures same { SameVariables self.old self.new }
    {
        self.store.push_list(n)
    }

    /// Ends all frames but the global one, which is current then, each with the variables that are its
    /// own. Takes no memory.
    pub fn end_frames(&mut self)
        ensures vars { self.new.vars ≡ outermost self.old.vars }
        ensures cells { self.new.store.cells ≡ outermost_texts self.old.vars self.old.store.cells }
        ensures global { IsOutermost self.new.vars }
        ensures stack { self.new.store.stack ≡ self.old.store.stack }
    {
        self.vars.end_frames(&mut self.store);
    }

    /// Ends the frames behind the first `count`, the last first, each with the variables that are its
    /// own. Then the frame of that number is current, where it is there. Takes no memory.
    pub fn back_to_frame(&mut self, count: usize, frame: usize)
        requires { 0 < count }
        ensures vars { self.new.vars ≡ back_in count frame self.old.vars }
        ensures cells { self.new.store.cells ≡ left_behind count self.old.vars self.old.store.cells }
        ensures stack { self.new.store.stack ≡ self.old.store.stack }
    {
        self.vars.back_to_frame(&mut self.store, count, frame);
    }

    /// Pushes a local frame of the global namespace, which is current then. After `NoMemory` all is as
    /// before.
    pub fn push_frame(&mut self) -> Result<(), NoMemory>
        ensures vars { OnOk result (self.new.vars ≡ begun self.old.vars 0 true) }
        ensures cells { self.new.store.cells ≡ self.old.store.cells }
        ensures stack { self.new.store.stack ≡ self.old.store.stack }
        ensures same { OnErr result (SameVariables self.old self.new) }
    {
        self.vars.push_frame(0, true)
    }

    /// Makes the frame of that level current, of the current one and those that called it. Above the
    /// current level there is none, and nothing changes then. Takes no memory.
    pub fn use_level(&mut self, level: usize)
        ensures vars { self.new.vars ≡ at_scopes self.old.vars (at_level self.old.vars.scopes level) }
        ensures cells { self.new.store.cells ≡ self.old.store.cells }
        ensures stack { self.new.store.stack ≡ self.old.store.stack }
    {
        let _known = self.vars.use_level(level);
    }

    /// Makes the name that is the text of a place a second name of what the text of another place names,
    /// given with its shape, which stands where the root says. Both texts are made. Refuses as
    /// `tclv_vars::Vars::link` does, and after a refusal all is as before.
    pub fn link(
        &mut self,
        local: At,
        root: Root,
        other: At,
        shape: NameShape,
    ) -> Result<(), VarFault>
        requires local { HasPlace self.old.store local }
        requires local_made { IsMade self.old.store local }
        requires other { HasPlace self.old.store other }
        requires other_made { IsMade self.old.store other }
        requires shape { shape ≡ shape_of (bytes_of (text_at self.old.store other)) }
        ensures linked { OnOk result (spec_names.link_named self.old.vars (bytes_of (text_at self.old.store local)) root
            (naming (bytes_of (text_at self.old.store other)))
            ≡ Ok self.new.vars) }
        ensures refused { IfErr result (Refuses (spec_names.link_named self.old.vars (bytes_of (text_at self.old.store local)) root
            (naming (bytes_of (text_at self.old.store other))))) }
        ensures store { self.new.store ≡ self.old.store }
        ensures same { OnErr result (self.new.vars ≡ self.old.vars) }
    {
        let local = lent(&self.store, local);
        let other = lent(&self.store, other);
        link_named(&mut self.vars, local, root, other, shape)
    }

    /// The level of the current frame, 0 for the global one.
    pub fn level(&self) -> usize
        ensures { result ≡ level_of self.now.vars.scopes self.now.vars.scopes.current }
    {
        self.vars.level()
    }

    /// Whether the current frame is local.
    pub fn is_local(&self) -> bool
        ensures { result ≡ is_local_at self.now.vars.scopes self.now.vars.scopes.current }
    {
        self.vars.is_local()
    }

    /// The number of the current frame.
    pub fn frame(&self) -> usize
        ensures { result ≡ self.now.vars.scopes.current }
    {
        self.vars.frame()
    }

    /// How many frames there are, the global one among them.
    pub fn frame_count(&self) -> usize
        ensures count { result ≡ length self.now.vars.scopes.frames }
        ensures some { 0 < result }
    {
        self.vars.frame_count()
    }

    /// How much work was done.
    pub fn stats(&self) -> Stats {
        self.store.stats()
    }
}
