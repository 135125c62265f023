// The variable that a command is handed.
ghost use Rattle.std.specs.Prelude.{◌≡◌, ◌∷◌, ℕ, ◌-◌, ◌<◌, ◌≤◌, [], ◌++◌, length, take, List, OnOk, IfOk, slice_index_or};
ghost use Rattle.tclv_model.specs.ErrorCodes.{error_code};
ghost use Rattle.tclv_model.specs.Message.{text_of};
ghost use Rattle.tclv_model.specs.declared.error_codes.ErrorCode.TheVariants.{UnknownVariable};
ghost use Rattle.tclv_model.specs.declared.messages.MessageId.TheVariants.{NoSuchVariable};
ghost use Rattle.tclv_value.specs.View.{HasPlace, text_at, IsMade};
ghost use Rattle.tclv_value.specs.ListObjects.{KeepsCells};
ghost use Rattle.tclv_value.specs.declared.places.At.TheVariants.{Stack, Cell};
ghost use Rattle.tclv_model.specs.declared.data_commands.CmdFault.TheVariants.{Message};
ghost use Rattle.tclv_reply.specs.Replies.{Grows, Refused, Tells, Reads, HasName, variable_of};
ghost use Rattle.tclv_reply.specs.Variables.{value_of, IsVariable, is_element_name, not_set, text_of_set, IsSet};

use crate::names::is_element;
use crate::replies::{push_bytes, push_message_on, refuse_on};
use crate::words::{make_word, word_at};
use tclv_model::{CmdFault, ErrorCode, MessageId, VarState, code_text};
use tclv_text::{NoMemory, Text};
use tclv_value::{At, Store};

/// The cell of a variable, whose name is a word, and whether it is set.
pub fn read_variable(
    store: &mut Store,
    variable: VarState,
    name: usize,
) -> Result<(u64, bool), CmdFault>
    requires place { name < length store.old.stack }
    requires named { HasName variable 1 }
    ensures reads { Reads (value_of (slice_index_or store.old.stack name []) (variable_of variable store.old))
        (IsVariable variable store.old.cells) store.old store.new result }
    ensures unchanged { OnOk result (store.new ≡ store.old) }
{
    match variable {
        VarState::NoName => unreachable!(),
        VarState::Cell(cell) => Ok((cell, store.has_cell(cell))),
        VarState::IsArray => Err(refuse_on(store, MessageId::CannotReadArray, name, "NONE")),
        VarState::NotArray => Err(refuse_on(store, MessageId::CannotReadNonArray, name, "NONE")),
        VarState::NoParent => Err(refuse_on(store, MessageId::NoParentNamespace, name, "NONE")),
    }
}

// Whether a word, which is made, is the name of an element.
fn names_element(store: &Store, name: usize) -> bool
    requires place { name < length store.now.stack }
    requires made { IsMade store.now (Stack name) }
    ensures { result ≡ is_element_name (slice_index_or store.now.stack name []) }
{
    is_element(word_at(store, name))
}

// The error code of a variable that isn't set, whose name, a word, is made.
fn unset_code(store: &Store, name: usize) -> Result<Text, NoMemory>
    requires place { name < length store.now.stack }
    requires made { IsMade store.now (Stack name) }
    ensures { IfOk result (λ code. code ≡ error_code UnknownVariable (slice_index_or store.now.stack name [])) }
{
    code_text(
        store.allocator(),
        ErrorCode::UnknownVariable,
        word_at(store, name),
    )
}

// Pushes the message and the code of a variable that isn't set, whose name, a word, is made.
fn push_unset(store: &mut Store, name: usize) -> Result<(), NoMemory>
    requires place { name < length store.old.stack }
    requires made { IsMade store.old (Stack name) }
    ensures grows { Grows store.old store.new }
    ensures pushed { OnOk result (store.new.stack ≡ store.old.stack ++
        (text_of NoSuchVariable (slice_index_or store.old.stack name []) []
        ∷ error_code UnknownVariable (slice_index_or store.old.stack name []) ∷ [])) }
{
    let code = unset_code(store, name)?;
    push_message_on(store, MessageId::NoSuchVariable, name, "")?;
    push_bytes(store, code.bytes())?;
    Ok(())
}

// Refuses a variable that isn't set and is no element. Its name, a word, is made.
fn refuse_plain(store: &mut Store, name: usize) -> CmdFault
    requires place { name < length store.old.stack }
    requires made { IsMade store.old (Stack name) }
    ensures grows { Grows store.old store.new }
    ensures tells { Tells Message result (text_of NoSuchVariable (slice_index_or store.old.stack name []) []
        ∷ error_code UnknownVariable (slice_index_or store.old.stack name []) ∷ []) store.old.stack store.new.stack }
{
    match push_unset(store, name) {
        Ok(()) => CmdFault::Message,
        Err(_) => CmdFault::NoMemory,
    }
}

// Refuses a variable that isn't set and whose name, a word, is made.
fn refuse_made(store: &mut Store, name: usize) -> CmdFault
    requires place { name < length store.old.stack }
    requires made { IsMade store.old (Stack name) }
    ensures grows { Grows store.old store.new }
    ensures refused { Refused {A = List ℕ} (not_set (slice_index_or store.old.stack name [])) result
        store.old.stack store.new.stack }
{
    if names_element(store, name) {
        return refuse_on(store, MessageId::NoSuchElement, name, "NONE");
    }
    refuse_plain(store, name)
}

// Refuses a variable that isn't set, whose name is a word.
fn refuse_unset(store: &mut Store, name: usize) -> CmdFault
    requires { name < length store.old.stack }
    ensures grows { Grows store.old store.new }
    ensures refused { Refused {A = List ℕ} (not_set (slice_index_or store.old.stack name [])) result
        store.old.stack store.new.stack }
{
    match make_word(store, name) {
        Ok(()) => refuse_made(store, name),
        Err(_) => CmdFault::NoMemory,
    }
}

/// The cell of a variable that must be set, whose name is a word.
pub fn set_cell(store: &mut Store, variable: VarState, name: usize) -> Result<u64, CmdFault>
    requires place { name < length store.old.stack }
    requires named { HasName variable 1 }
    ensures { Reads (text_of_set (slice_index_or store.old.stack name []) (variable_of variable store.old))
        (IsSet variable store.old.cells) store.old store.new result }
{
    let (cell, is_set) = read_variable(store, variable, name)?;
    if !is_set {
        return Err(refuse_unset(store, name));
    }
    Ok(cell)
}

/// Ends a call whose variable got its new text: the text is the result. It is shared and not copied, and no
/// cell gets another object.
pub fn give_text(store: &mut Store, n: usize, cell: u64)
    requires cell { HasPlace store.old (Cell cell) }
    requires words { 0 < n }
    requires height { n ≤ length store.old.stack }
    ensures stack { store.new.stack ≡ take (length store.old.stack - n) store.old.stack ++ text_at store.old (Cell cell) ∷ [] }
    ensures cells { store.new.cells ≡ store.old.cells }
    ensures objects { KeepsCells store.old store.new }
{
    let base = store.height() - n;
    store.copy_over(At::Cell(cell), base);
    store.pop(n - 1);
}
