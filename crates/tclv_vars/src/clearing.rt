// Cells that hold nothing any more.
ghost use Rattle.std.specs.Prelude.{◌≡◌};
ghost use Rattle.std.specs.FinMap as map;
ghost use Rattle.tclv_names.specs.Keyed.{values_of};
ghost use Rattle.tclv_value.specs.View.{KeepsMade};
ghost use Rattle.tclv_vars.specs.Clearing.{without, freed, without_names, Apart};

use crate::parts::{Content, Slot};
use tclv_names::{Names, Numbered};
use tclv_value::Store;

// The elements' cells hold nothing, and the store has no texts for them.
#[tactic(auto, using(crate::proofs::ClearLemmas::without_popped, crate::proofs::ClearLemmas::without_empty))]
fn clear_elements(cells: &mut Numbered<Content>, store: &mut Store, mut elements: Names<u64>)
    ensures cells { cells.new.map ≡ without cells.old.map (values_of elements) }
    ensures texts { store.new.cells ≡ without store.old.cells (values_of elements) }
    ensures stack { store.new.stack ≡ store.old.stack }
    ensures keeps { KeepsMade store.old store.new }
{
    while let Some((_, cell)) = elements.pop() {
        cells.take_out(cell);
        store.drop_cell(cell);
    }
}

/// Empties a cell: it holds nothing then, and neither does one of its elements. Takes no memory.
#[tactic(auto, using(crate::proofs::ClearLemmas::without_first, crate::proofs::ClearLemmas::without_one))]
pub fn clear(cells: &mut Numbered<Content>, store: &mut Store, cell: u64)
    ensures cells { cells.new.map ≡ without cells.old.map (freed cells.old.map cell) }
    ensures texts { store.new.cells ≡ without store.old.cells (freed cells.old.map cell) }
    ensures stack { store.new.stack ≡ store.old.stack }
    ensures keeps { KeepsMade store.old store.new }
{
    store.drop_cell(cell);
    match cells.take_out(cell) {
        Some(Content::Array(elements)) => clear_elements(cells, store, elements),
        Some(Content::Plain) => {}
        None => {}
    }
}

/// Takes all names out, and empties the cells that are their own, with those of their elements. Cells
/// behind links stay.
pub fn clear_names(cells: &mut Numbered<Content>, store: &mut Store, names: &mut Names<Slot>)
    requires apart { Apart cells.old.map names.old }
    ensures cells { cells.new.map ≡ without_names cells.old.map cells.old.map names.old }
    ensures texts { store.new.cells ≡ without_names store.old.cells cells.old.map names.old }
    ensures names { names.new ≡ map.empty }
    ensures stack { store.new.stack ≡ store.old.stack }
    ensures keeps { KeepsMade store.old store.new }
{
    while let Some((_, slot)) = names.pop() {
        if slot.own {
            clear(cells, store, slot.cell);
        }
    }
}
