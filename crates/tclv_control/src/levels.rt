// The outcome of a procedure, by how its body ended.
ghost use Rattle.std.specs.Prelude.{◌≡◌, ◌<◌, length, map, true, IfOk, IfSome, OnOk};
ghost use Rattle.std.specs.Char.{is_ascii};
ghost use Rattle.std.specs.List.{list_all};
ghost use Rattle.std.specs.Option.{option_copied, option_map};
ghost use Rattle.std.specs.Str.{chars};
ghost use Rattle.tclv_text.specs.Numbers.{whole};
ghost use Rattle.tclv_text.specs.Texts.{IsText};
ghost use Rattle.tclv_value.specs.Stacks.{under};
ghost use Rattle.tclv_ctl.specs.Codes.{is_short, numbered, numbered_by};
ghost use Rattle.tclv_engine.specs.Answers.{Answers, IsCalm, Leaves, SameState, last_of};
ghost use Rattle.tclv_engine.specs.Plans.{PlanOver, as_plan, concluded};
ghost use Rattle.tclv_engine.specs.Results.{carried};
ghost use Rattle.tclv_control.specs.Levels as spec;

use crate::behind::{Behind, hand_on};
use crate::outcomes::carried_options;
use crate::return_plans::level_text;
use std::alloc::Global;
use tclv_engine::{Carried, End, Ended, Leaving, Machine, Plan};
use tclv_model::{Code, ErrorCode, MessageId, Options, Pair};
use tclv_text::{NoMemory, Text, is_ascii_word, whole};

// ---- what a return stores

// The value of the first option of a key.
fn value_of<'a>(options: &'a [Pair], key: &[u8]) -> Option<&'a [u8]>
    requires { list_all is_ascii key.now ≡ true }
    ensures value { option_map (λ v. chars v) (option_copied result) ≡ spec.value_of key.now options.now }
    ensures utf8 { IfSome (option_copied result) IsText }
{
    for k in 0..options.len() {
        if is_ascii_word(options[k].key.bytes(), key) {
            return Some(options[k].value.bytes());
        }
    }
    None
}

// A number from 0 on; what is none counts as 0.
fn natural(word: &[u8]) -> u64
    requires { IsText word.now }
    ensures { result ≡ spec.natural_by (whole (chars word.now)) }
{
    match whole(word) {
        Ok(n) if n >= 0 => n as u64,
        _ => 0,
    }
}

// The level of a return.
fn level_of(options: &[Pair]) -> u64
    ensures { result ≡ spec.level_of options.now }
{
    match value_of(options, b"-level") {
        Some(value) => natural(value),
        None => 0,
    }
}

// Whether a number has 32 bits.
fn is_short(n: i64) -> bool
    ensures { result ≡ is_short n }
{
    -2147483648 <= n && n <= 2147483647
}

// The code of a number; a larger number counts as that of ok.
fn numbered(n: i64) -> Code
    ensures { result ≡ spec.code_or_ok (numbered n) }
{
    if n == 0 {
        Code::Ok
    } else if n == 1 {
        Code::Error
    } else if n == 2 {
        Code::Return
    } else if n == 3 {
        Code::Break
    } else if n == 4 {
        Code::Continue
    } else if is_short(n) {
        Code::Other(n as i32)
    } else {
        Code::Ok
    }
}

// The code of a text that is a number; what is none counts as ok.
fn code_of(word: &[u8]) -> Code
    requires { IsText word.now }
    ensures { result ≡ spec.code_or_ok (numbered_by (whole (chars word.now))) }
{
    match whole(word) {
        Ok(n) => numbered(n),
        Err(_) => Code::Ok,
    }
}

// The code that a return stores.
fn stored_code(options: &[Pair]) -> Code
    ensures { result ≡ spec.stored_code options.now }
{
    match value_of(options, b"-code") {
        Some(value) => code_of(value),
        None => Code::Ok,
    }
}

// ---- the level of options

// A copy of an option, with this level if it is that of the level.
fn at_level(alloc: Global, pair: &Pair, level: &Text) -> Result<Pair, NoMemory>
    ensures { IfOk result (λ p. p ≡ spec.at_level level.now pair.now) }
{
    let key = pair.key.copy(alloc)?;
    let value = if is_ascii_word(pair.key.bytes(), b"-level") {
        level.copy(alloc)?
    } else {
        pair.value.copy(alloc)?
    };
    Ok(Pair { key, value })
}

// Copies of options, with this level.
fn all_at_level(alloc: Global, options: &[Pair], level: &Text) -> Result<Options, NoMemory>
    ensures { IfOk result (λ made. made ≡ map (spec.at_level level.now) options.now) }
{
    let mut made = Options::new(alloc);
    for k in 0..options.len() {
        made.push(at_level(alloc, &options[k], level)?)?;
    }
    Ok(made)
}

// The same, by the number of the level.
fn with_level<W>(
    machine: &mut Machine<W>,
    level: u64,
    options: &[Pair],
) -> Result<Options, NoMemory>
    ensures options { IfOk result (λ made. made ≡ spec.with_level level options.now) }
    ensures stack { OnOk result (machine.new.values.store.stack ≡ machine.old.values.store.stack) }
    ensures same { SameState machine.old machine.new }
{
    let text = level_text(machine, level)?;
    all_at_level(machine.alloc, options, &text)
}

// ---- outcomes

// Ends with a code and with these options at a level. The result is the top text.
fn lower<W>(
    machine: &mut Machine<W>,
    level: u64,
    code: Code,
    options: &[Pair],
) -> Result<Plan<Behind>, End>
    requires { 0 < length machine.old.values.store.stack }
    ensures answer { Answers (spec.lowered level code (last_of machine.old.values.store.stack) options.now) as_plan machine.old result machine.new }
    ensures stack { Leaves (PlanOver (under 1 machine.old.values.store.stack)) (under 1 machine.old.values.store.stack) result machine.new.values.store.stack }
    ensures calm { IsCalm result }
    ensures same { SameState machine.old machine.new }
{
    let made = with_level(machine, level, options)?;
    hand_on(Ended::Left(Leaving::Other(code, Carried::Kept(made))))
}

// The outcome of a return that carries these options, whose result is the top text.
fn returned<W>(machine: &mut Machine<W>, options: &[Pair]) -> Result<Plan<Behind>, End>
    requires { 0 < length machine.old.values.store.stack }
    ensures answer { Answers (spec.returned (last_of machine.old.values.store.stack) options.now) as_plan machine.old result machine.new }
    ensures stack { Leaves (PlanOver (under 1 machine.old.values.store.stack)) (under 1 machine.old.values.store.stack) result machine.new.values.store.stack }
    ensures calm { IsCalm result }
    ensures same { SameState machine.old machine.new }
{
    let level = level_of(options);
    if level == 0 {
        return hand_on(Ended::Ok(Carried::Plain));
    }
    if level == 1 {
        return lower(machine, 0, stored_code(options), options);
    }
    lower(machine, level - 1, Code::Return, options)
}

// The same, by what is kept of the options.
fn return_kept<W>(machine: &mut Machine<W>, kept: Carried) -> Result<Plan<Behind>, End>
    requires { 0 < length machine.old.values.store.stack }
    ensures answer { Answers (spec.returned (last_of machine.old.values.store.stack) (carried Code.Return kept)) as_plan machine.old result machine.new }
    ensures stack { Leaves (PlanOver (under 1 machine.old.values.store.stack)) (under 1 machine.old.values.store.stack) result machine.new.values.store.stack }
    ensures calm { IsCalm result }
    ensures same { SameState machine.old machine.new }
{
    let options = carried_options(machine.alloc, Code::Return, kept)?;
    returned(machine, options.all())
}

// The outcome of a procedure whose body ended with a code, and what is kept of the options.
fn outcome_of_code<W>(
    machine: &mut Machine<W>,
    code: Code,
    kept: Carried,
) -> Result<Plan<Behind>, End>
    requires { 0 < length machine.old.values.store.stack }
    ensures answer { Answers (spec.leveled code (last_of machine.old.values.store.stack) (carried code kept)) as_plan machine.old result machine.new }
    ensures stack { Leaves (PlanOver (under 1 machine.old.values.store.stack)) (under 1 machine.old.values.store.stack) result machine.new.values.store.stack }
    ensures calm { IsCalm result }
    ensures same { SameState machine.old machine.new }
{
    match code {
        Code::Ok => hand_on(Ended::Ok(kept)),
        Code::Error => hand_on(Ended::Left(Leaving::Other(Code::Error, kept))),
        Code::Return => return_kept(machine, kept),
        Code::Break => Err(machine.raise(MessageId::BreakOutsideLoop, b"", b"", ErrorCode::NoCode)),
        Code::Continue => Err(machine.raise(
            MessageId::ContinueOutsideLoop,
            b"",
            b"",
            ErrorCode::NoCode,
        )),
        Code::Other(n) => hand_on(Ended::Left(Leaving::Other(Code::Other(n), kept))),
    }
}

/// The outcome of a procedure whose body ended so, and whose result is the top text of the stack: a
/// return goes one level down, and no loop is broken or continued from inside. (Tcl: proc(n),
/// return(n).)
pub fn outcome_of<W>(machine: &mut Machine<W>, ended: Ended) -> Result<Plan<Behind>, End>
    requires { 0 < length machine.old.values.store.stack }
    ensures answer { Answers (spec.outcome_of (concluded ended (last_of machine.old.values.store.stack))) as_plan machine.old result machine.new }
    ensures stack { Leaves (PlanOver (under 1 machine.old.values.store.stack)) (under 1 machine.old.values.store.stack) result machine.new.values.store.stack }
    ensures calm { IsCalm result }
    ensures same { SameState machine.old machine.new }
{
    match ended {
        Ended::Ok(kept) => hand_on(Ended::Ok(kept)),
        Ended::Left(Leaving::Error(errorcode)) => hand_on(Ended::Left(Leaving::Error(errorcode))),
        Ended::Left(Leaving::Other(code, kept)) => outcome_of_code(machine, code, kept),
    }
}
