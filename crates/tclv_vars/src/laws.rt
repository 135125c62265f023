//! Laws of variables. Each is the contract of a function that does nothing.
ghost use Rattle.std.specs.Prelude.{◌≡◌, ◌≢◌, List, Option, Ok, ℕ};
ghost use Rattle.std.specs.Cmp.Lexicographic.{slice_cmp};
ghost use Rattle.std.specs.List.Sorted.{IsStrictlySortedBy};
ghost use Rattle.std.specs.Ordering.{nat_cmp};
ghost use Rattle.tclv_names.specs.Keyed.{Text};
ghost use Rattle.tclv_vars.specs.declared.places.Home.{Home};
ghost use Rattle.tclv_vars.specs.declared.places.Missing.{Missing};
ghost use Rattle.tclv_vars.specs.declared.places.Place.{Place};
ghost use Rattle.tclv_vars.specs.declared.places.Place.TheVariants as place;
ghost use Rattle.tclv_vars.specs.declared.places.Root.{Root};
ghost use Rattle.tclv_vars.specs.Scoping.{home};
ghost use Rattle.tclv_vars.specs.Undo.{FreshWrite, undone};
ghost use Rattle.tclv_vars.specs.Unset.{variable, unset};
ghost use Rattle.tclv_vars.specs.Indices.{array_names};
ghost use Rattle.tclv_vars.specs.Sound.{Sound};
ghost use Rattle.tclv_vars.specs.Table.{Table, Spot, read, write};
ghost use Rattle.tclv_vars.specs.Laws.{ReadsBack, StaysOnCells, WriteLeavesOthers, IsLinked, IsNoElementOfIt, IsSecondName, LinkLeavesOthers, UnsetLeavesOthers, IsGone};

/// What was written is read: the same cell, at the same name and index.
pub fn a_write_reads_back()
    ensures { (t : Table) (at : Place) (name : Text) (index : Option Text) → Sound t → ReadsBack t at name index }
{}

/// A write leaves what each name reads as, wherever it stands, whether it is set, an array or not set:
/// each but those that stand for a cell that the write sets.
///
/// A write sets the cell of its name, and with an index that of the element, where they held nothing.
/// So a variable that isn't set becomes an array by a write of an element, and all else is as before.
pub fn a_write_leaves_others()
    ensures { (t : Table) (at : Place) (name : Text) (index : Option Text) → Sound t → WriteLeavesOthers t at name index }
{}

/// A link is a second name: what is written through it is read through the other name, and the other
/// way round.
///
/// It isn't where a name is linked to an element of itself: after `upvar 0 x(i) x` the name `x` stands
/// for the element's cell, and what was the array has lost its name, so `x(i)` isn't that cell.
pub fn a_link_is_a_second_name()
    ensures { (t : Table) (local : Text) (r : Root) (name : Text) (index : Option Text) (h : Home) (u : Table) → Sound t
        → IsLinked t local r name index h u → IsNoElementOfIt t local h name index → IsSecondName local name index h u }
{}

/// A link leaves what each name but the local one reads as, whether it is set, an array or not set:
/// each but those that stand for the array that a link to an element makes.
///
/// A link to an element of a variable that isn't set makes it an array. No other cell is set.
pub fn a_link_leaves_others()
    ensures { (t : Table) (local : Text) (r : Root) (name : Text) (index : Option Text) (k : Home) (u : Table) → Sound t
        → IsLinked t local r name index k u → LinkLeavesOthers t local k name index u }
{}

/// An unset leaves what each name reads as, whether it is set, an array or not set: each but those
/// that stand for a cell that the unset clears.
///
/// An unset clears the cell of its variable, and where that is an array the cells of its elements.
pub fn an_unset_leaves_others()
    ensures { (t : Table) (at : Place) (name : Text) (index : Option Text) → UnsetLeavesOthers t at name index }
{}

/// A name stays on its cell, set or not. A write moves no name, a link only the local one, and an
/// unset none, though an array that is unset loses its indices.
pub fn a_name_stays_on_its_cell()
    ensures write { (t : Table) (at : Place) (name : Text) (index : Option Text) (s : Spot) → Sound t → write t at name index ≡ Ok s
        → (h : Home) (other : Text) → StaysOnCells t s.after h other }
    ensures link { (t : Table) (local : Text) (r : Root) (name : Text) (index : Option Text) (k : Home) (u : Table) → Sound t
        → IsLinked t local r name index k u → (h : Home) (other : Text) → (home t.scopes place.Frame ≡ h → local ≢ other) → StaysOnCells t u h other }
    ensures unset { (t : Table) (at : Place) (name : Text) (index : Option Text) → (unset t at name index).scopes ≡ t.scopes }
{}

/// What is unset is neither set nor read.
pub fn an_unset_variable_is_gone()
    ensures { (t : Table) (at : Place) (name : Text) (index : Option Text) → IsGone t at name index }
{}

/// What is read is set.
pub fn what_is_read_is_set()
    ensures { (t : Table) (at : Place) (name : Text) (index : Option Text) (c : ℕ) → read t at name index ≡ Ok c → variable t at name index ≡ Ok c }
{}

/// Undoing a write gives the tables before it, where the write gave an unset variable its value.
pub fn a_write_is_undone()
    ensures { (t : Table) (at : Place) (name : Text) (index : Option Text) (lacked : Missing) (now : Table) → FreshWrite t at name index lacked now
        → undone lacked now (home now.scopes at) name index ≡ t }
{}

/// The indices of an array come in the order of their code points, each once.
pub fn indices_are_in_order()
    ensures { (t : Table) (at : Place) (name : Text) (names : List (List ℕ)) → Sound t → array_names t at name ≡ Ok names
        → IsStrictlySortedBy (slice_cmp nat_cmp) names }
{}
