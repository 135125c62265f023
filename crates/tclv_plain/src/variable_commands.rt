// The commands `set`, `incr` and `append`.
ghost use Rattle.std.specs.Prelude.{◌≡◌, ◌+◌, ◌-◌, ◌<◌, ◌≤◌, ◌++◌, ◌+ℤ◌, if◌then◌else◌, Some, None, length, take, drop, OnOk, IfOk};
ghost use Rattle.std.specs.List.{concat};
ghost use Rattle.std.specs.Str.{chars};
ghost use Rattle.tclv_text.specs.Texts.{IsText};
ghost use Rattle.tclv_text.specs.Numbers.{whole_text};
ghost use Rattle.tclv_value.specs.View.{HasPlace, IsMade, text_at};
ghost use Rattle.tclv_value.specs.Stacks.{top, under};
ghost use Rattle.tclv_engine.specs.Answers.{Answers, IsCalm, KeepsStack, PushesOne, PushesResult, SameState, as_result, last_of, on_top};
ghost use Rattle.tclv_engine.specs.Results.{bind, ok};
ghost use Rattle.tclv_engine.specs.Variables.{variable};
ghost use Rattle.tclv_plain.specs.VariableRows as spec;

use crate::misuse::misused;
use tclv_engine::{End, Machine};
use tclv_model::{ErrorCode, MessageId, Usage};
use tclv_text::{NoMemory, Text};
use tclv_value::At;
use tclv_vars::VarFault;

// The sum of two numbers, where it is one of 64 bits.
fn sum(a: i64, b: i64) -> Option<i64>
    ensures { result ≡ (if spec.fits (a +ℤ b) then Some (a +ℤ b) else None) }
{
    a.checked_add(b)
}

// Whether there is no value, since the variable isn't set.
fn lacks_value(found: Result<u64, VarFault>) -> bool
    ensures { result ≡ spec.lacks_value found }
{
    match found {
        Err(VarFault::NoVariable) => true,
        Err(VarFault::NoElement) => true,
        _ => false,
    }
}

// ---- variables

// Whether the variable whose name is the text of a place is unset, where that text is made.
fn is_made_unset<W>(machine: &Machine<W>, name: At) -> bool
    requires place { HasPlace machine.now.values.store name }
    requires made { IsMade machine.now.values.store name }
    ensures { result ≡ spec.is_unset (text_at machine.now.values.store name) machine.now.values.vars }
{
    let shape = machine.values.shape_at(name);
    if shape.qualified {
        return false;
    }
    lacks_value(machine.values.cell_at(name, shape))
}

// Whether the variable whose name is the text of a place is unset.
fn is_unset<W>(machine: &mut Machine<W>, name: At) -> Result<bool, NoMemory>
    requires { HasPlace machine.old.values.store name }
    ensures answer { IfOk result (λ unset. unset ≡ spec.is_unset (text_at machine.old.values.store name) machine.old.values.vars) }
    ensures same { SameState machine.old machine.new }
    ensures stack { machine.new.values.store.stack ≡ machine.old.values.store.stack }
{
    machine.values.make_text(name)?;
    Ok(is_made_unset(machine, name))
}

// Pushes the value of the variable whose name is the text of a place, or `instead` where the
// variable is unset.
fn push_variable_or<W>(machine: &mut Machine<W>, name: At, instead: &[u8]) -> Result<(), End>
    requires place { HasPlace machine.old.values.store name }
    requires instead { IsText instead.now }
    ensures answer { Answers (spec.variable_or (chars instead.now) (text_at machine.old.values.store name)) on_top machine.old result machine.new }
    ensures stack { PushesOne machine.old.values.store.stack result machine.new.values.store.stack }
    ensures calm { IsCalm result }
    ensures units { machine.new.units ≡ machine.old.units }
{
    if is_unset(machine, name)? {
        machine.values.push_text(instead)?;
        Ok(())
    } else {
        machine.push_variable_at(name)
    }
}

// Reads the variable whose name is this place of the stack; its value is the result.
fn read_result<W>(machine: &mut Machine<W>, name: usize) -> Result<(), End>
    requires { name < length machine.old.values.store.stack }
    ensures answer { Answers (λ st. bind (variable (text_at machine.old.values.store (At.Stack name)) st) ok) as_result machine.old result machine.new }
    ensures stack { PushesOne machine.old.values.store.stack result machine.new.values.store.stack }
    ensures calm { IsCalm result }
    ensures units { machine.new.units ≡ machine.old.units }
{
    machine.push_variable_at(At::Stack(name))
}

// Sets the variable whose name is this place of the stack to the top text, which is the result.
fn assign_result<W>(machine: &mut Machine<W>, name: usize) -> Result<(), End>
    requires { name < length machine.old.values.store.stack }
    ensures answer { Answers (spec.assign_result (text_at machine.old.values.store (At.Stack name))
        (last_of machine.old.values.store.stack)) as_result machine.old result machine.new }
    ensures stack { KeepsStack machine.old.values.store.stack result machine.new.values.store.stack }
    ensures calm { IsCalm result }
    ensures units { machine.new.units ≡ machine.old.units }
{
    machine.assign_top(At::Stack(name))
}

// ---- set

/// The command `set varName ?newValue?`: gives the variable a value, where there is one. The
/// result is the variable's value. Its words are the top `n` texts of the stack, the word of
/// the call lowest. (Tcl manual: set.)
pub fn cmd_set<W>(machine: &mut Machine<W>, n: usize) -> Result<(), End>
    requires words { n ≤ length machine.old.values.store.stack }
    requires some { 0 < n }
    ensures answer { Answers (spec.row_set (top n machine.old.values.store.stack)) as_result machine.old result machine.new }
    ensures stack { PushesResult (under n machine.old.values.store.stack) result machine.new.values.store.stack }
    ensures calm { IsCalm result }
    ensures units { machine.new.units ≡ machine.old.units }
{
    let base = machine.values.height() - n;
    match n {
        2 => read_result(machine, base + 1),
        3 => assign_result(machine, base + 1),
        _ => Err(misused(machine, At::Stack(base), Usage::Set)),
    }
}

// ---- incr

// Sets the variable whose name is this place of the stack to the decimal text of a number,
// which is pushed.
fn assign_whole<W>(machine: &mut Machine<W>, name: usize, n: i64) -> Result<(), End>
    requires { name < length machine.old.values.store.stack }
    ensures answer { Answers (spec.assign_result (text_at machine.old.values.store (At.Stack name)) (whole_text n)) as_result machine.old result machine.new }
    ensures stack { PushesOne machine.old.values.store.stack result machine.new.values.store.stack }
    ensures calm { IsCalm result }
    ensures units { machine.new.units ≡ machine.old.units }
{
    machine.values.push_whole(n)?;
    assign_result(machine, name)
}

// Sets the variable to the sum of two numbers, where it fits.
fn assign_sum<W>(machine: &mut Machine<W>, name: usize, n: i64, increment: i64) -> Result<(), End>
    requires { name < length machine.old.values.store.stack }
    ensures answer { Answers (spec.assign_sum (text_at machine.old.values.store (At.Stack name)) (n +ℤ increment)) as_result machine.old result machine.new }
    ensures stack { PushesOne machine.old.values.store.stack result machine.new.values.store.stack }
    ensures calm { IsCalm result }
    ensures units { machine.new.units ≡ machine.old.units }
{
    match sum(n, increment) {
        Some(sum) => assign_whole(machine, name, sum),
        None => Err(machine.raise(MessageId::IntegerTooLarge, b"", b"", ErrorCode::Overflow)),
    }
}

// Sets the variable to the sum of the number that the top text is, and an increment.
fn increase_from<W>(machine: &mut Machine<W>, name: usize, increment: i64) -> Result<(), End>
    requires { name < length machine.old.values.store.stack }
    ensures answer { Answers (spec.increase_from (text_at machine.old.values.store (At.Stack name)) increment
        (last_of machine.old.values.store.stack)) as_result machine.old result machine.new }
    ensures stack { PushesOne machine.old.values.store.stack result machine.new.values.store.stack }
    ensures calm { IsCalm result }
    ensures units { machine.new.units ≡ machine.old.units }
{
    let last = At::Stack(machine.values.height() - 1);
    let n = machine.whole_at(last)?;
    assign_sum(machine, name, n, increment)
}

// Increases the variable whose name is this place of the stack.
fn increase<W>(machine: &mut Machine<W>, name: usize, increment: i64) -> Result<(), End>
    requires { name < length machine.old.values.store.stack }
    ensures answer { Answers (spec.increase (text_at machine.old.values.store (At.Stack name)) increment) as_result machine.old result machine.new }
    ensures stack { PushesResult machine.old.values.store.stack result machine.new.values.store.stack }
    ensures calm { IsCalm result }
    ensures units { machine.new.units ≡ machine.old.units }
{
    push_variable_or(machine, At::Stack(name), b"0")?;
    increase_from(machine, name, increment)
}

// The same, where the increment is a text of the stack.
fn increase_by<W>(machine: &mut Machine<W>, name: usize, increment: At) -> Result<(), End>
    requires name { name < length machine.old.values.store.stack }
    requires increment { HasPlace machine.old.values.store increment }
    ensures answer { Answers (spec.increase_by (text_at machine.old.values.store (At.Stack name))
        (text_at machine.old.values.store increment)) as_result machine.old result machine.new }
    ensures stack { PushesResult machine.old.values.store.stack result machine.new.values.store.stack }
    ensures calm { IsCalm result }
    ensures units { machine.new.units ≡ machine.old.units }
{
    let n = machine.whole_at(increment)?;
    increase(machine, name, n)
}

/// The command `incr varName ?increment?`: adds the increment, which is 1 where there is none,
/// to the variable's number; an unset variable counts as 0. The result is the variable's value.
/// An increment that is no whole number of 64 bits is an error, then a variable that can't be
/// read or is no such number, then a sum that isn't; the variable stays as it was. Its words
/// are the top `n` texts of the stack, the word of the call lowest. (Tcl manual: incr.)
pub fn cmd_incr<W>(machine: &mut Machine<W>, n: usize) -> Result<(), End>
    requires words { n ≤ length machine.old.values.store.stack }
    requires some { 0 < n }
    ensures answer { Answers (spec.row_incr (top n machine.old.values.store.stack)) as_result machine.old result machine.new }
    ensures stack { PushesResult (under n machine.old.values.store.stack) result machine.new.values.store.stack }
    ensures calm { IsCalm result }
    ensures units { machine.new.units ≡ machine.old.units }
{
    let base = machine.values.height() - n;
    match n {
        2 => increase(machine, base + 1, 1),
        3 => increase_by(machine, base + 1, At::Stack(base + 2)),
        _ => Err(misused(machine, At::Stack(base), Usage::Incr)),
    }
}

// ---- append

// Puts the text of a place behind a text.
fn append_place<W>(machine: &mut Machine<W>, text: &mut Text, place: At) -> Result<(), NoMemory>
    requires { HasPlace machine.old.values.store place }
    ensures text { OnOk result (text.new ≡ text.old ++ text_at machine.old.values.store place) }
    ensures same { SameState machine.old machine.new }
    ensures stack { machine.new.values.store.stack ≡ machine.old.values.store.stack }
{
    machine.values.make_text(place)?;
    text.push(machine.values.lend(place))?;
    Ok(())
}

// Puts texts of the stack behind a text, in order, from one place up to another.
fn append_places<W>(
    machine: &mut Machine<W>,
    text: &mut Text,
    from: usize,
    to: usize,
) -> Result<(), NoMemory>
    requires order { from ≤ to }
    requires places { to ≤ length machine.old.values.store.stack }
    ensures text { OnOk result (text.new ≡ text.old ++ concat (take (to - from) (drop from machine.old.values.store.stack))) }
    ensures same { SameState machine.old machine.new }
    ensures stack { machine.new.values.store.stack ≡ machine.old.values.store.stack }
{
    for i in from..to {
        append_place(machine, text, At::Stack(i))?;
    }
    Ok(())
}

// The top text with texts of the stack behind it.
fn joined<W>(machine: &mut Machine<W>, from: usize, to: usize) -> Result<Text, NoMemory>
    requires order { from ≤ to }
    requires places { to < length machine.old.values.store.stack }
    ensures text { IfOk result (λ text. text ≡ last_of machine.old.values.store.stack ++ concat (take (to - from) (drop from machine.old.values.store.stack))) }
    ensures same { SameState machine.old machine.new }
    ensures stack { machine.new.values.store.stack ≡ machine.old.values.store.stack }
{
    let mut text = Text::new(Vec::new(machine.alloc));
    let last = At::Stack(machine.values.height() - 1);
    append_place(machine, &mut text, last)?;
    append_places(machine, &mut text, from, to)?;
    Ok(text)
}

// Sets the variable whose name is this place of the stack to a text, which is pushed.
fn assign_text<W>(machine: &mut Machine<W>, name: usize, text: &[u8]) -> Result<(), End>
    requires name { name < length machine.old.values.store.stack }
    requires text { IsText text.now }
    ensures answer { Answers (spec.assign_result (text_at machine.old.values.store (At.Stack name)) (chars text.now)) as_result machine.old result machine.new }
    ensures stack { PushesOne machine.old.values.store.stack result machine.new.values.store.stack }
    ensures calm { IsCalm result }
    ensures units { machine.new.units ≡ machine.old.units }
{
    machine.values.push_text(text)?;
    assign_result(machine, name)
}

// Sets the variable to the top text with the texts behind it that stand between the name and
// the top.
fn append_between<W>(machine: &mut Machine<W>, name: usize, last: usize) -> Result<(), End>
    requires name { name < last }
    requires last { length machine.old.values.store.stack ≡ last + 1 }
    ensures answer { Answers (spec.assign_result (text_at machine.old.values.store (At.Stack name))
        (last_of machine.old.values.store.stack ++ concat
        (take (last - (name + 1)) (drop (name + 1) machine.old.values.store.stack)))) as_result machine.old result machine.new }
    ensures stack { PushesOne machine.old.values.store.stack result machine.new.values.store.stack }
    ensures calm { IsCalm result }
    ensures units { machine.new.units ≡ machine.old.units }
{
    let text = joined(machine, name + 1, last)?;
    assign_text(machine, name, text.bytes())
}

// Puts the texts above this place of the stack behind the value of the variable whose name
// stands there.
fn append_all<W>(machine: &mut Machine<W>, name: usize) -> Result<(), End>
    requires { name < length machine.old.values.store.stack }
    ensures answer { Answers (spec.append_all (text_at machine.old.values.store (At.Stack name))
        (drop (name + 1) machine.old.values.store.stack)) as_result machine.old result machine.new }
    ensures stack { PushesResult machine.old.values.store.stack result machine.new.values.store.stack }
    ensures calm { IsCalm result }
    ensures units { machine.new.units ≡ machine.old.units }
{
    let last = machine.values.height();
    push_variable_or(machine, At::Stack(name), b"")?;
    append_between(machine, name, last)
}

/// The command `append varName ?value ...?`: puts the values behind the variable's text, in
/// order; an unset variable counts as empty. Without values the variable is only read. The
/// result is the variable's value. Its words are the top `n` texts of the stack, the word of
/// the call lowest. (Tcl manual: append.)
pub fn cmd_append<W>(machine: &mut Machine<W>, n: usize) -> Result<(), End>
    requires words { n ≤ length machine.old.values.store.stack }
    requires some { 0 < n }
    ensures answer { Answers (spec.row_append (top n machine.old.values.store.stack)) as_result machine.old result machine.new }
    ensures stack { PushesResult (under n machine.old.values.store.stack) result machine.new.values.store.stack }
    ensures calm { IsCalm result }
    ensures units { machine.new.units ≡ machine.old.units }
{
    let base = machine.values.height() - n;
    let name = base + 1;
    match n {
        1 => Err(misused(machine, At::Stack(base), Usage::Append)),
        2 => read_result(machine, name),
        _ => append_all(machine, name),
    }
}
