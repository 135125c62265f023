// What `info` says of procedures and of the level.
ghost use Rattle.std.specs.Prelude.{◌≡◌, ◌++◌, ◌∷◌, ◌<◌, ◌≤◌, [], length, pos, slice_index_or, None, Err, IfOk, OnOk};
ghost use Rattle.std.specs.Str.{bytes_eq, chars};
ghost use Rattle.tclv_text.specs.Numbers.{whole_text};
ghost use Rattle.tclv_text.specs.Quotes.{list_text};
ghost use Rattle.tclv_text.specs.Texts.{IsText};
ghost use Rattle.tclv_model.specs.Message.{text_of};
ghost use Rattle.tclv_model.specs.ErrorCodes.{error_code};
ghost use Rattle.tclv_value.specs.View.{HasPlace, IsMade, text_at};
ghost use Rattle.tclv_value.specs.Stacks.{top, under};
ghost use Rattle.tclv_engine.specs.Answers.{Answers, IsCalm, KeepsStack, PushesOne, PushesResult, Raises, SameState, as_result};
ghost use Rattle.tclv_engine.specs.Frames as frames;
ghost use Rattle.tclv_engine.specs.Names.{bytes_of};
ghost use Rattle.tclv_engine.specs.Holdings.{SameVariables};
ghost use Rattle.tclv_engine.specs.ListAssignment.{unseen};
ghost use Rattle.tclv_engine.specs.Variables.{assign};
ghost use Rattle.tclv_interp.specs.ProcInfoRows as spec;
ghost use Rattle.tclv_interp.specs.ProcRows.{is_procedure};

use crate::builtins::{Tables, Target};
use std::rc::Rc;
use tclv_engine::{End, Machine, Values, error_texts};
use tclv_model::{ErrorCode, MessageId, Usage};
use tclv_plain::{misused, push_flag};
use tclv_reply::{is_qualified, push_count};
use tclv_text::{NoMemory, as_str};
use tclv_value::{At, Param, ProcDef};

/// A subcommand of `info` that asks for a procedure or for the level.
#[derive(Clone, Copy, Debug, PartialEq, Eq)]
pub enum ProcInfo {
    /// `info args procName`
    Args,
    /// `info body procName`
    Body,
    /// `info default procName arg varName`
    Default,
    /// `info level`
    Level,
}

// The subcommand that a word names.
fn proc_info(word: &[u8]) -> Option<ProcInfo>
    requires { IsText word.now }
    ensures { result ≡ spec.proc_info word.now }
{
    match as_str(word) {
        "args" => Some(ProcInfo::Args),
        "body" => Some(ProcInfo::Body),
        "default" => Some(ProcInfo::Default),
        "level" => Some(ProcInfo::Level),
        _ => None,
    }
}

// ---- the procedure

// The procedure that a target is, shared and not copied; `None` where it is built in.
fn shared(target: &Target) -> Result<Option<Rc<ProcDef>>, NoMemory>
    ensures { IfOk result (λ found. spec.ShowsProcedure target.now found) }
{
    match target {
        Target::Builtin(_) => Ok(None),
        Target::Procedure(def) => Ok(Some(def.share()?)),
    }
}

// The procedure that the text of a place names, which is made; `None` where there is none.
fn found(machine: &Machine<Tables>, name: At) -> Result<Option<Rc<ProcDef>>, NoMemory>
    requires place { HasPlace machine.now.values.store name }
    requires made { IsMade machine.now.values.store name }
    ensures { IfOk result (λ def. spec.ShowsFound (spec.target_at machine.now.own (text_at machine.now.values.store name)) def) }
{
    match machine.own.commands.lend(machine.values.lend(name)) {
        Some(target) => shared(target),
        None => Ok(None),
    }
}

// The procedure that the text of a place names, which is made.
fn procedure_made(machine: &mut Machine<Tables>, name: At) -> Result<Rc<ProcDef>, End>
    requires place { HasPlace machine.old.values.store name }
    requires made { IsMade machine.old.values.store name }
    ensures answer { Answers (spec.procedure (text_at machine.old.values.store name)) is_procedure machine.old result machine.new }
    ensures stack { KeepsStack machine.old.values.store.stack result machine.new.values.store.stack }
    ensures calm { IsCalm result }
    ensures units { machine.new.units ≡ machine.old.units }
{
    if is_qualified(machine.values.lend(name)) {
        return Err(machine.not_built());
    }
    match found(machine, name)? {
        Some(def) => Ok(def),
        None => Err(machine.raise_at(MessageId::NotProcedure, name, b"", ErrorCode::NoCode)),
    }
}

// The procedure that this place of the stack names.
fn procedure_at(machine: &mut Machine<Tables>, name: usize) -> Result<Rc<ProcDef>, End>
    requires { name < length machine.old.values.store.stack }
    ensures answer { Answers (spec.procedure (text_at machine.old.values.store (At.Stack name))) is_procedure machine.old result machine.new }
    ensures stack { KeepsStack machine.old.values.store.stack result machine.new.values.store.stack }
    ensures calm { IsCalm result }
    ensures units { machine.new.units ≡ machine.old.units }
{
    machine.values.make_text(At::Stack(name))?;
    procedure_made(machine, At::Stack(name))
}

// ---- its parts

// Pushes the names of parameters.
fn push_names(values: &mut Values, params: &[Param]) -> Result<(), NoMemory>
    ensures pushed { OnOk result (values.new.store.stack ≡ values.old.store.stack ++ frames.names_of params.now) }
    ensures same { SameVariables values.old values.new }
{
    for i in 0..params.len() {
        values.push_text(params[i].name.bytes())?;
    }
    Ok(())
}

// Pushes the name of a last parameter that takes the words that are left, if there is one.
fn push_rest(values: &mut Values, rest: bool) -> Result<(), NoMemory>
    ensures pushed { OnOk result (values.new.store.stack ≡ values.old.store.stack ++ frames.rest_name rest) }
    ensures same { SameVariables values.old values.new }
{
    if rest {
        return values.push_text(b"args");
    }
    Ok(())
}

// Pushes the list of the names of a procedure's parameters.
fn push_parameters(values: &mut Values, def: &ProcDef) -> Result<(), NoMemory>
    ensures pushed { OnOk result (values.new.store.stack ≡ values.old.store.stack ++ list_text (spec.parameters_of def.now) ∷ []) }
    ensures same { SameVariables values.old values.new }
{
    let height = values.height();
    push_names(values, def.params())?;
    push_rest(values, def.has_rest())?;
    values.push_list(values.height() - height)
}

// `info args`, where the name is this place of the stack.
fn info_args(machine: &mut Machine<Tables>, name: usize) -> Result<(), End>
    requires { name < length machine.old.values.store.stack }
    ensures answer { Answers (spec.info_args (text_at machine.old.values.store (At.Stack name))) as_result machine.old result machine.new }
    ensures stack { PushesOne machine.old.values.store.stack result machine.new.values.store.stack }
    ensures calm { IsCalm result }
    ensures units { machine.new.units ≡ machine.old.units }
{
    let def = procedure_at(machine, name)?;
    push_parameters(&mut machine.values, &def)?;
    Ok(())
}

// `info body`, where the name is this place of the stack.
fn info_body(machine: &mut Machine<Tables>, name: usize) -> Result<(), End>
    requires { name < length machine.old.values.store.stack }
    ensures answer { Answers (spec.info_body (text_at machine.old.values.store (At.Stack name))) as_result machine.old result machine.new }
    ensures stack { PushesOne machine.old.values.store.stack result machine.new.values.store.stack }
    ensures calm { IsCalm result }
    ensures units { machine.new.units ≡ machine.old.units }
{
    let def = procedure_at(machine, name)?;
    machine.values.push_text(def.body().bytes())?;
    Ok(())
}

// ---- defaults

// The two are the same bytes.
fn is_name(name: &[u8], word: &[u8]) -> bool
    ensures { result ≡ bytes_eq name.now word.now }
{
    name == word
}

// The place of the first parameter of this name.
fn place_of(params: &[Param], name: &[u8]) -> Option<usize>
    ensures { result ≡ spec.place_from (frames.names_of params.now) name.now 0 }
{
    for i in 0..params.len() {
        if is_name(params[i].name.bytes(), name) {
            return Some(i);
        }
    }
    None
}

// Gives the variable whose name is this place of the stack a text.
fn assign_text(machine: &mut Machine<Tables>, text: &[u8], var: usize) -> Result<(), End>
    requires text { IsText text.now }
    requires place { var < length machine.old.values.store.stack }
    ensures answer { Answers (assign (text_at machine.old.values.store (At.Stack var)) (chars text.now)) unseen machine.old result machine.new }
    ensures stack { KeepsStack machine.old.values.store.stack result machine.new.values.store.stack }
    ensures calm { IsCalm result }
    ensures units { machine.new.units ≡ machine.old.units }
{
    machine.values.push_text(text)?;
    machine.assign_top(At::Stack(var))?;
    machine.values.pop(1);
    Ok(())
}

// Gives the variable whose name is this place of the stack a text, and pushes whether that is a default.
fn store(machine: &mut Machine<Tables>, text: &[u8], has: bool, var: usize) -> Result<(), End>
    requires text { IsText text.now }
    requires place { var < length machine.old.values.store.stack }
    ensures answer { Answers (spec.stored (text_at machine.old.values.store (At.Stack var)) (chars text.now) has) as_result machine.old result machine.new }
    ensures stack { PushesOne machine.old.values.store.stack result machine.new.values.store.stack }
    ensures calm { IsCalm result }
    ensures units { machine.new.units ≡ machine.old.units }
{
    assign_text(machine, text, var)?;
    push_flag(machine, has)
}

// The same, for the default of a parameter, by its number, and for the empty text where it has none.
fn store_default(
    machine: &mut Machine<Tables>,
    params: &[Param],
    i: usize,
    var: usize,
) -> Result<(), End>
    requires number { i < length params.now }
    requires place { var < length machine.old.values.store.stack }
    ensures answer { Answers (spec.stored_default (text_at machine.old.values.store (At.Stack var))
        (slice_index_or (spec.defaults_of params.now) i None)) as_result machine.old result machine.new }
    ensures stack { PushesOne machine.old.values.store.stack result machine.new.values.store.stack }
    ensures calm { IsCalm result }
    ensures units { machine.new.units ≡ machine.old.units }
{
    match &params[i].default {
        Some(text) => store(machine, text.bytes(), true, var),
        None => store(machine, b"", false, var),
    }
}

// Whether a name is that of a last parameter that takes the words that are left.
fn is_rest(rest: bool, name: &[u8]) -> bool
    ensures { result ≡ spec.is_rest rest name.now }
{
    rest && name == b"args".as_slice()
}

// Raises the error that a procedure has no such parameter. Both texts are made.
fn no_parameter(machine: &mut Machine<Tables>, name: At, arg: At) -> End
    requires name { HasPlace machine.old.values.store name }
    requires name_made { IsMade machine.old.values.store name }
    requires arg { HasPlace machine.old.values.store arg }
    requires arg_made { IsMade machine.old.values.store arg }
    ensures raises { Raises (text_of MessageId.NoSuchParameter (text_at machine.old.values.store name) (text_at machine.old.values.store arg))
        (error_code ErrorCode.NoCode (text_at machine.old.values.store name)) machine.new.values.store.stack result }
    ensures same { SameState machine.old machine.new }
    ensures stack { KeepsStack {T = Unit {0}} machine.old.values.store.stack (Err result) machine.new.values.store.stack }
{
    let texts = error_texts(
        machine.alloc,
        MessageId::NoSuchParameter,
        machine.values.lend(name),
        machine.values.lend(arg),
        ErrorCode::NoCode,
    );
    machine.throw(texts)
}

// `info default` of a word that is the name of no parameter but perhaps of a last one that takes the words
// that are left. The names are places of the stack as below.
fn unnamed_default(
    machine: &mut Machine<Tables>,
    def: &ProcDef,
    name: usize,
    arg: usize,
    var: usize,
) -> Result<(), End>
    requires name { name < length machine.old.values.store.stack }
    requires name_made { IsMade machine.old.values.store (At.Stack name) }
    requires arg { arg < length machine.old.values.store.stack }
    requires arg_made { IsMade machine.old.values.store (At.Stack arg) }
    requires var { var < length machine.old.values.store.stack }
    ensures answer { let store = machine.old.values.store in
        Answers (spec.unnamed (spec.is_rest def.now.rest (bytes_of (text_at store (At.Stack arg)))) (text_at store (At.Stack name))
        (text_at store (At.Stack arg)) (text_at store (At.Stack var))) as_result machine.old result machine.new }
    ensures stack { PushesOne machine.old.values.store.stack result machine.new.values.store.stack }
    ensures calm { IsCalm result }
    ensures units { machine.new.units ≡ machine.old.units }
{
    if is_rest(def.has_rest(), machine.values.lend(At::Stack(arg))) {
        return store(machine, b"", false, var);
    }
    Err(no_parameter(machine, At::Stack(name), At::Stack(arg)))
}

// `info default` of a procedure. The names of the procedure, of the parameter and of the variable are
// places of the stack; the first two are made.
fn default_made(
    machine: &mut Machine<Tables>,
    def: &ProcDef,
    name: usize,
    arg: usize,
    var: usize,
) -> Result<(), End>
    requires name { name < length machine.old.values.store.stack }
    requires name_made { IsMade machine.old.values.store (At.Stack name) }
    requires arg { arg < length machine.old.values.store.stack }
    requires arg_made { IsMade machine.old.values.store (At.Stack arg) }
    requires var { var < length machine.old.values.store.stack }
    ensures answer { let store = machine.old.values.store in Answers (spec.default_of def.now (text_at store (At.Stack name)) (text_at store (At.Stack arg))
        (text_at store (At.Stack var))) as_result machine.old result machine.new }
    ensures stack { PushesOne machine.old.values.store.stack result machine.new.values.store.stack }
    ensures calm { IsCalm result }
    ensures units { machine.new.units ≡ machine.old.units }
{
    match place_of(def.params(), machine.values.lend(At::Stack(arg))) {
        Some(i) => store_default(machine, def.params(), i, var),
        None => unnamed_default(machine, def, name, arg, var),
    }
}

// `info default`, where the names of the procedure, of the parameter and of the variable are these places
// of the stack.
fn info_default(
    machine: &mut Machine<Tables>,
    name: usize,
    arg: usize,
    var: usize,
) -> Result<(), End>
    requires name { name < length machine.old.values.store.stack }
    requires arg { arg < length machine.old.values.store.stack }
    requires var { var < length machine.old.values.store.stack }
    ensures answer { let store = machine.old.values.store in Answers (spec.info_default (text_at store (At.Stack name)) (text_at store (At.Stack arg))
        (text_at store (At.Stack var))) as_result machine.old result machine.new }
    ensures stack { PushesOne machine.old.values.store.stack result machine.new.values.store.stack }
    ensures calm { IsCalm result }
    ensures units { machine.new.units ≡ machine.old.units }
{
    let def = procedure_at(machine, name)?;
    machine.values.make_text(At::Stack(name))?;
    machine.values.make_text(At::Stack(arg))?;
    default_made(machine, &def, name, arg, var)
}

// ---- the level

// Pushes the decimal text of a count.
fn counted(values: &mut Values, count: usize) -> Result<(), NoMemory>
    ensures pushed { OnOk result (values.new.store.stack ≡ values.old.store.stack ++ whole_text (pos count) ∷ []) }
    ensures same { SameVariables values.old values.new }
{
    push_count(&mut values.store, count as u64)
}

// `info level`.
fn info_level(machine: &mut Machine<Tables>) -> Result<(), End>
    ensures answer { Answers spec.info_level as_result machine.old result machine.new }
    ensures stack { PushesOne machine.old.values.store.stack result machine.new.values.store.stack }
    ensures calm { IsCalm result }
    ensures units { machine.new.units ≡ machine.old.units }
{
    let level = machine.values.level();
    counted(&mut machine.values, level)?;
    Ok(())
}

// ---- the subcommands

/// The subcommand that the words name, which are the top `n` texts of the stack, the word of the call
/// lowest; `None` where it is one of the others.
pub fn proc_info_in(machine: &mut Machine<Tables>, n: usize) -> Result<Option<ProcInfo>, NoMemory>
    requires { n ≤ length machine.old.values.store.stack }
    ensures found { IfOk result (λ found. found ≡ spec.proc_info_in (top n machine.old.values.store.stack)) }
    ensures same { SameState machine.old machine.new }
    ensures stack { machine.new.values.store.stack ≡ machine.old.values.store.stack }
{
    if n < 2 {
        return Ok(None);
    }
    let sub = At::Stack(machine.values.height() - n + 1);
    machine.values.make_text(sub)?;
    Ok(proc_info(machine.values.lend(sub)))
}

// `info args`, whose words are the top `n` texts of the stack.
fn run_args(machine: &mut Machine<Tables>, n: usize) -> Result<(), End>
    requires words { n ≤ length machine.old.values.store.stack }
    requires some { 1 < n }
    ensures answer { Answers (spec.row_args (top n machine.old.values.store.stack)) as_result machine.old result machine.new }
    ensures stack { PushesResult (under n machine.old.values.store.stack) result machine.new.values.store.stack }
    ensures calm { IsCalm result }
    ensures units { machine.new.units ≡ machine.old.units }
{
    let base = machine.values.height() - n;
    match n {
        3 => info_args(machine, base + 2),
        _ => Err(misused(machine, At::Stack(base), Usage::InfoArgs)),
    }
}

// `info body`, whose words are the top `n` texts of the stack.
fn run_body(machine: &mut Machine<Tables>, n: usize) -> Result<(), End>
    requires words { n ≤ length machine.old.values.store.stack }
    requires some { 1 < n }
    ensures answer { Answers (spec.row_body (top n machine.old.values.store.stack)) as_result machine.old result machine.new }
    ensures stack { PushesResult (under n machine.old.values.store.stack) result machine.new.values.store.stack }
    ensures calm { IsCalm result }
    ensures units { machine.new.units ≡ machine.old.units }
{
    let base = machine.values.height() - n;
    match n {
        3 => info_body(machine, base + 2),
        _ => Err(misused(machine, At::Stack(base), Usage::InfoBody)),
    }
}

// `info default`, whose words are the top `n` texts of the stack.
fn run_default(machine: &mut Machine<Tables>, n: usize) -> Result<(), End>
    requires words { n ≤ length machine.old.values.store.stack }
    requires some { 1 < n }
    ensures answer { Answers (spec.row_default (top n machine.old.values.store.stack)) as_result machine.old result machine.new }
    ensures stack { PushesResult (under n machine.old.values.store.stack) result machine.new.values.store.stack }
    ensures calm { IsCalm result }
    ensures units { machine.new.units ≡ machine.old.units }
{
    let base = machine.values.height() - n;
    match n {
        5 => info_default(machine, base + 2, base + 3, base + 4),
        _ => Err(misused(machine, At::Stack(base), Usage::InfoDefault)),
    }
}

// `info level`, whose words are the top `n` texts of the stack.
fn run_level(machine: &mut Machine<Tables>, n: usize) -> Result<(), End>
    requires words { n ≤ length machine.old.values.store.stack }
    requires some { 1 < n }
    ensures answer { Answers (spec.row_level (top n machine.old.values.store.stack)) as_result machine.old result machine.new }
    ensures stack { PushesResult (under n machine.old.values.store.stack) result machine.new.values.store.stack }
    ensures calm { IsCalm result }
    ensures units { machine.new.units ≡ machine.old.units }
{
    let base = machine.values.height() - n;
    match n {
        2 => info_level(machine),
        _ => Err(misused(machine, At::Stack(base), Usage::InfoLevel)),
    }
}

/// Runs a subcommand: the words are the top `n` texts of the stack, the word of the call lowest.
pub fn run_proc_info(machine: &mut Machine<Tables>, command: ProcInfo, n: usize) -> Result<(), End>
    requires words { n ≤ length machine.old.values.store.stack }
    requires some { 1 < n }
    ensures answer { Answers (spec.proc_info_row command (top n machine.old.values.store.stack)) as_result machine.old result machine.new }
    ensures stack { PushesResult (under n machine.old.values.store.stack) result machine.new.values.store.stack }
    ensures calm { IsCalm result }
    ensures units { machine.new.units ≡ machine.old.units }
{
    match command {
        ProcInfo::Args => run_args(machine, n),
        ProcInfo::Body => run_body(machine, n),
        ProcInfo::Default => run_default(machine, n),
        ProcInfo::Level => run_level(machine, n),
    }
}
