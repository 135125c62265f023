// The command `array`.
ghost use Rattle.std.specs.Prelude.{◌≡◌, ◌+◌, ◌<◌, ◌≤◌, ◌++◌, [], ◌∷◌, pos, length, IfOk, IfSome, OnOk};
ghost use Rattle.std.specs.Option.{option_map};
ghost use Rattle.std.specs.Str.{chars};
ghost use Rattle.tclv_text.specs.Numbers.{whole_text};
ghost use Rattle.tclv_text.specs.Quotes.{list_text};
ghost use Rattle.tclv_text.specs.Texts.{IsText};
ghost use Rattle.tclv_value.specs.View.{HasPlace, IsMade, text_at};
ghost use Rattle.tclv_value.specs.Stacks.{top, under};
ghost use Rattle.tclv_engine.specs.Answers.{Answers, IsCalm, PushesOne, PushesResult, PushesWords, SameState, as_result, stacked};
ghost use Rattle.tclv_engine.specs.Holdings.{SameVariables};
ghost use Rattle.tclv_engine.specs.Names.{bytes_of};
ghost use Rattle.tclv_engine.specs.Plans.{placed};
ghost use Rattle.tclv_engine.specs.Results.{ok};
ghost use Rattle.tclv_plain.specs.ArrayRows as spec;

use crate::array_indices::{Chosen, indices, size_at};
use crate::array_setting::array_set;
use crate::array_unsetting::array_unset;
use crate::misuse::misused;
use crate::results::{copy_at, push_flag};
use tclv_engine::{End, Machine, Values};
use tclv_model::{ErrorCode, MessageId, Usage};
use tclv_reply::{push_all, push_count as push_number_of};
use tclv_text::{NoMemory, Text, as_str};
use tclv_value::At;

/// A subcommand of `array`.
#[derive(Clone, Copy, Debug, PartialEq, Eq)]
pub enum ArrayCommand {
    Exists,
    Get,
    Names,
    Set,
    Size,
    Unset,
}

// The subcommand that a word names.
fn array_command(word: &[u8]) -> Option<ArrayCommand>
    requires { IsText word.now }
    ensures { result ≡ spec.array_command word.now }
{
    match as_str(word) {
        "exists" => Some(ArrayCommand::Exists),
        "get" => Some(ArrayCommand::Get),
        "names" => Some(ArrayCommand::Names),
        "set" => Some(ArrayCommand::Set),
        "size" => Some(ArrayCommand::Size),
        "unset" => Some(ArrayCommand::Unset),
        _ => None,
    }
}

// ---- exists and size

// Says whether the text of a place, which is made, names an array.
fn exists_made<W>(machine: &mut Machine<W>, name: At) -> Result<(), End>
    requires place { HasPlace machine.old.values.store name }
    requires made { IsMade machine.old.values.store name }
    ensures answer { Answers (spec.array_exists (text_at machine.old.values.store name)) as_result machine.old result machine.new }
    ensures stack { PushesOne machine.old.values.store.stack result machine.new.values.store.stack }
    ensures calm { IsCalm result }
    ensures units { machine.new.units ≡ machine.old.units }
{
    let shape = machine.values.shape_at(name);
    if shape.qualified {
        return Err(machine.not_built());
    }
    let found = size_at(&machine.values, name, shape).is_ok();
    push_flag(machine, found)
}

// The same, where the name is this place of the stack.
fn array_exists<W>(machine: &mut Machine<W>, name: usize) -> Result<(), End>
    requires { name < length machine.old.values.store.stack }
    ensures answer { Answers (spec.array_exists (text_at machine.old.values.store (At.Stack name))) as_result machine.old result machine.new }
    ensures stack { PushesOne machine.old.values.store.stack result machine.new.values.store.stack }
    ensures calm { IsCalm result }
    ensures units { machine.new.units ≡ machine.old.units }
{
    machine.values.make_text(At::Stack(name))?;
    exists_made(machine, At::Stack(name))
}

// Pushes the decimal text of a count.
fn counted(values: &mut Values, count: usize) -> Result<(), NoMemory>
    ensures pushed { OnOk result (values.new.store.stack ≡ values.old.store.stack ++ whole_text (pos count) ∷ []) }
    ensures same { SameVariables values.old values.new }
{
    push_number_of(&mut values.store, count as u64)
}

// Pushes a count, as the result.
fn push_count<W>(machine: &mut Machine<W>, count: usize) -> Result<(), End>
    ensures answer { Answers (ok (whole_text (pos count))) as_result machine.old result machine.new }
    ensures stack { PushesOne machine.old.values.store.stack result machine.new.values.store.stack }
    ensures calm { IsCalm result }
    ensures units { machine.new.units ≡ machine.old.units }
{
    counted(&mut machine.values, count)?;
    Ok(())
}

// Pushes how many indices the array has whose name is the text of a place, which is made.
fn size_made<W>(machine: &mut Machine<W>, name: At) -> Result<(), End>
    requires place { HasPlace machine.old.values.store name }
    requires made { IsMade machine.old.values.store name }
    ensures answer { Answers (spec.array_size (text_at machine.old.values.store name)) as_result machine.old result machine.new }
    ensures stack { PushesOne machine.old.values.store.stack result machine.new.values.store.stack }
    ensures calm { IsCalm result }
    ensures units { machine.new.units ≡ machine.old.units }
{
    let shape = machine.values.shape_at(name);
    if shape.qualified {
        return Err(machine.not_built());
    }
    let count = size_at(&machine.values, name, shape).unwrap_or(0);
    push_count(machine, count)
}

// The same, where the name is this place of the stack.
fn array_size<W>(machine: &mut Machine<W>, name: usize) -> Result<(), End>
    requires { name < length machine.old.values.store.stack }
    ensures answer { Answers (spec.array_size (text_at machine.old.values.store (At.Stack name))) as_result machine.old result machine.new }
    ensures stack { PushesOne machine.old.values.store.stack result machine.new.values.store.stack }
    ensures calm { IsCalm result }
    ensures units { machine.new.units ≡ machine.old.units }
{
    machine.values.make_text(At::Stack(name))?;
    size_made(machine, At::Stack(name))
}

// ---- names

// Pushes the list of texts.
fn list_all(values: &mut Values, chosen: &Chosen) -> Result<(), NoMemory>
    ensures pushed { OnOk result (values.new.store.stack ≡ values.old.store.stack ++ list_text chosen.now ∷ []) }
    ensures same { SameVariables values.old values.new }
{
    let height = values.height();
    push_all(&mut values.store, chosen.all())?;
    values.push_list(values.height() - height)
}

// Pushes the list of the indices of an array, of which the pattern may choose. Both texts are places of
// the stack.
fn array_names<W>(machine: &mut Machine<W>, name: usize, pattern: Option<usize>) -> Result<(), End>
    requires name { name < length machine.old.values.store.stack }
    requires pattern { IfSome pattern (λ at. at < length machine.old.values.store.stack) }
    ensures answer { Answers (spec.array_names (text_at machine.old.values.store (At.Stack name))
        (option_map (placed machine.old.values.store.stack) pattern)) as_result machine.old result machine.new }
    ensures stack { PushesOne machine.old.values.store.stack result machine.new.values.store.stack }
    ensures calm { IsCalm result }
    ensures units { machine.new.units ≡ machine.old.units }
{
    let chosen = indices(machine, name, pattern)?;
    list_all(&mut machine.values, &chosen)?;
    Ok(())
}

// ---- get

// Pushes an index of an array, and the value of the element.
fn push_pair<W>(machine: &mut Machine<W>, array: &[u8], index: &[u8]) -> Result<(), End>
    requires array { IsText array.now }
    requires index { IsText index.now }
    ensures answer { Answers (spec.pair (chars array.now) (chars index.now)) (stacked machine.old.values.store.stack) machine.old result machine.new }
    ensures stack { PushesWords machine.old.values.store.stack result machine.new.values.store.stack }
    ensures calm { IsCalm result }
    ensures units { machine.new.units ≡ machine.old.units }
{
    machine.values.push_text(index)?;
    machine.values.push_text(index)?;
    machine.put_element(array)?;
    Ok(())
}

// Pushes these indices of an array, each with the value of its element.
fn collect<W>(machine: &mut Machine<W>, array: &[u8], indices: &[Text]) -> Result<(), End>
    requires { IsText array.now }
    ensures answer { Answers (spec.collect (chars array.now) [] indices.now) (stacked machine.old.values.store.stack) machine.old result machine.new }
    ensures stack { PushesWords machine.old.values.store.stack result machine.new.values.store.stack }
    ensures calm { IsCalm result }
    ensures units { machine.new.units ≡ machine.old.units }
{
    for index in indices {
        push_pair(machine, array, index.bytes())?;
    }
    Ok(())
}

// Pushes the list of these indices of an array, each with the value of its element.
fn collect_list<W>(machine: &mut Machine<W>, array: &[u8], indices: &[Text]) -> Result<(), End>
    requires { IsText array.now }
    ensures answer { Answers (spec.collect_list (chars array.now) indices.now) as_result machine.old result machine.new }
    ensures stack { PushesOne machine.old.values.store.stack result machine.new.values.store.stack }
    ensures calm { IsCalm result }
    ensures units { machine.new.units ≡ machine.old.units }
{
    let height = machine.values.height();
    collect(machine, array, indices)?;
    let count = machine.values.height() - height;
    machine.values.push_list(count)?;
    Ok(())
}

// Pushes the list of the indices of an array and of its elements' values, in turn; the pattern may
// choose of the indices. Both texts are places of the stack.
fn array_get<W>(machine: &mut Machine<W>, name: usize, pattern: Option<usize>) -> Result<(), End>
    requires name { name < length machine.old.values.store.stack }
    requires pattern { IfSome pattern (λ at. at < length machine.old.values.store.stack) }
    ensures answer { Answers (spec.array_get (text_at machine.old.values.store (At.Stack name))
        (option_map (placed machine.old.values.store.stack) pattern)) as_result machine.old result machine.new }
    ensures stack { PushesOne machine.old.values.store.stack result machine.new.values.store.stack }
    ensures calm { IsCalm result }
    ensures units { machine.new.units ≡ machine.old.units }
{
    let chosen = indices(machine, name, pattern)?;
    let array = copy_at(&mut machine.values, At::Stack(name))?;
    collect_list(machine, array.bytes(), chosen.all())
}

// ---- array

// The subcommand that the text at this place of the stack names.
fn array_at<W>(machine: &mut Machine<W>, at: usize) -> Result<Option<ArrayCommand>, NoMemory>
    requires { at < length machine.old.values.store.stack }
    ensures answer { IfOk result (λ found. found ≡ spec.array_command (bytes_of (text_at machine.old.values.store (At.Stack at)))) }
    ensures same { SameState machine.old machine.new }
    ensures stack { machine.new.values.store.stack ≡ machine.old.values.store.stack }
{
    machine.values.make_text(At::Stack(at))?;
    Ok(array_command(machine.values.lend(At::Stack(at))))
}

// `array exists arrayName`: the words are the top `n` texts of the stack, the word of the call lowest.
fn run_exists<W>(machine: &mut Machine<W>, n: usize) -> Result<(), End>
    requires words { n ≤ length machine.old.values.store.stack }
    requires some { 1 < n }
    ensures answer { Answers (spec.array_row ArrayCommand.Exists (top n machine.old.values.store.stack)) as_result machine.old result machine.new }
    ensures stack { PushesResult (under n machine.old.values.store.stack) result machine.new.values.store.stack }
    ensures calm { IsCalm result }
    ensures units { machine.new.units ≡ machine.old.units }
{
    let base = machine.values.height() - n;
    match n {
        3 => array_exists(machine, base + 2),
        _ => Err(misused(machine, At::Stack(base), Usage::ArrayExists)),
    }
}

// `array get arrayName ?pattern?`: the words are the top `n` texts of the stack, the word of the call lowest.
fn run_get<W>(machine: &mut Machine<W>, n: usize) -> Result<(), End>
    requires words { n ≤ length machine.old.values.store.stack }
    requires some { 1 < n }
    ensures answer { Answers (spec.array_row ArrayCommand.Get (top n machine.old.values.store.stack)) as_result machine.old result machine.new }
    ensures stack { PushesResult (under n machine.old.values.store.stack) result machine.new.values.store.stack }
    ensures calm { IsCalm result }
    ensures units { machine.new.units ≡ machine.old.units }
{
    let base = machine.values.height() - n;
    match n {
        3 => array_get(machine, base + 2, None),
        4 => array_get(machine, base + 2, Some(base + 3)),
        _ => Err(misused(machine, At::Stack(base), Usage::ArrayGet)),
    }
}

// `array names arrayName ?pattern?`: the words are the top `n` texts of the stack, the word of the call lowest.
fn run_names<W>(machine: &mut Machine<W>, n: usize) -> Result<(), End>
    requires words { n ≤ length machine.old.values.store.stack }
    requires some { 1 < n }
    ensures answer { Answers (spec.array_row ArrayCommand.Names (top n machine.old.values.store.stack)) as_result machine.old result machine.new }
    ensures stack { PushesResult (under n machine.old.values.store.stack) result machine.new.values.store.stack }
    ensures calm { IsCalm result }
    ensures units { machine.new.units ≡ machine.old.units }
{
    let base = machine.values.height() - n;
    match n {
        3 => array_names(machine, base + 2, None),
        4 => array_names(machine, base + 2, Some(base + 3)),
        _ => Err(misused(machine, At::Stack(base), Usage::ArrayNames)),
    }
}

// `array set arrayName list`: the words are the top `n` texts of the stack, the word of the call lowest.
fn run_set<W>(machine: &mut Machine<W>, n: usize) -> Result<(), End>
    requires words { n ≤ length machine.old.values.store.stack }
    requires some { 1 < n }
    ensures answer { Answers (spec.array_row ArrayCommand.Set (top n machine.old.values.store.stack)) as_result machine.old result machine.new }
    ensures stack { PushesResult (under n machine.old.values.store.stack) result machine.new.values.store.stack }
    ensures calm { IsCalm result }
    ensures units { machine.new.units ≡ machine.old.units }
{
    let base = machine.values.height() - n;
    match n {
        4 => array_set(machine, base + 2, base + 3),
        _ => Err(misused(machine, At::Stack(base), Usage::ArraySet)),
    }
}

// `array size arrayName`: the words are the top `n` texts of the stack, the word of the call lowest.
fn run_size<W>(machine: &mut Machine<W>, n: usize) -> Result<(), End>
    requires words { n ≤ length machine.old.values.store.stack }
    requires some { 1 < n }
    ensures answer { Answers (spec.array_row ArrayCommand.Size (top n machine.old.values.store.stack)) as_result machine.old result machine.new }
    ensures stack { PushesResult (under n machine.old.values.store.stack) result machine.new.values.store.stack }
    ensures calm { IsCalm result }
    ensures units { machine.new.units ≡ machine.old.units }
{
    let base = machine.values.height() - n;
    match n {
        3 => array_size(machine, base + 2),
        _ => Err(misused(machine, At::Stack(base), Usage::ArraySize)),
    }
}

// `array unset arrayName ?pattern?`: the words are the top `n` texts of the stack, the word of the call lowest.
fn run_unset<W>(machine: &mut Machine<W>, n: usize) -> Result<(), End>
    requires words { n ≤ length machine.old.values.store.stack }
    requires some { 1 < n }
    ensures answer { Answers (spec.array_row ArrayCommand.Unset (top n machine.old.values.store.stack)) as_result machine.old result machine.new }
    ensures stack { PushesResult (under n machine.old.values.store.stack) result machine.new.values.store.stack }
    ensures calm { IsCalm result }
    ensures units { machine.new.units ≡ machine.old.units }
{
    let base = machine.values.height() - n;
    match n {
        3 => array_unset(machine, base + 2, None),
        4 => array_unset(machine, base + 2, Some(base + 3)),
        _ => Err(misused(machine, At::Stack(base), Usage::ArrayUnset)),
    }
}

// Runs a subcommand: the words are the top `n` texts of the stack, the word of the call lowest.
fn run_array<W>(machine: &mut Machine<W>, command: ArrayCommand, n: usize) -> Result<(), End>
    requires words { n ≤ length machine.old.values.store.stack }
    requires some { 1 < n }
    ensures answer { Answers (spec.array_row command (top n machine.old.values.store.stack)) as_result machine.old result machine.new }
    ensures stack { PushesResult (under n machine.old.values.store.stack) result machine.new.values.store.stack }
    ensures calm { IsCalm result }
    ensures units { machine.new.units ≡ machine.old.units }
{
    match command {
        ArrayCommand::Exists => run_exists(machine, n),
        ArrayCommand::Get => run_get(machine, n),
        ArrayCommand::Names => run_names(machine, n),
        ArrayCommand::Set => run_set(machine, n),
        ArrayCommand::Size => run_size(machine, n),
        ArrayCommand::Unset => run_unset(machine, n),
    }
}

/// The command `array`, with the subcommands `exists`, `get`, `names`, `set`, `size` and `unset`. Its
/// words are the top `n` texts of the stack, the word of the call lowest. (Tcl: array(n).)
pub fn cmd_array<W>(machine: &mut Machine<W>, n: usize) -> Result<(), End>
    requires words { n ≤ length machine.old.values.store.stack }
    requires some { 0 < n }
    ensures answer { Answers (spec.row_array (top n machine.old.values.store.stack)) as_result machine.old result machine.new }
    ensures stack { PushesResult (under n machine.old.values.store.stack) result machine.new.values.store.stack }
    ensures calm { IsCalm result }
    ensures units { machine.new.units ≡ machine.old.units }
{
    let base = machine.values.height() - n;
    if n == 1 {
        return Err(misused(machine, At::Stack(base), Usage::Array));
    }
    match array_at(machine, base + 1)? {
        Some(command) => run_array(machine, command, n),
        None => Err(machine.raise_at(
            MessageId::UnknownSubcommand,
            At::Stack(base + 1),
            b"",
            ErrorCode::NoCode,
        )),
    }
}
