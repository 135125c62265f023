// The words of `proc`: its parameters and its body.
ghost use Rattle.std.specs.Prelude.{◌≡◌, ◌+◌, ◌-◌, ◌<◌, ◌≤◌, [], ◌∷◌, ◌++◌, false, length, take, drop, codes, OnOk, IfOk, slice_index_or};
ghost use Rattle.std.specs.Str.{chars, encode_utf8_all};
ghost use Rattle.tclv_text.specs.Texts.{IsText};
ghost use Rattle.tclv_model.specs.Rows.{and_then};
ghost use Rattle.tclv_model.specs.Values.{list_of};
ghost use Rattle.tclv_value.specs.Changes.{KeepsTexts};
ghost use Rattle.tclv_value.specs.Stacks.{top};
ghost use Rattle.tclv_reply.specs.Names.{is_element, is_qualified};
ghost use Rattle.tclv_reply.specs.Replies.{Reads, call_word};
ghost use Rattle.tclv_ctl.specs.Steps.{Finds, Understands};
ghost use Rattle.tclv_ctl.specs.Parameters.{name_flaw, named, fields, parameter, parameters, ends_in_args, procedure, proc_of};

use std::rc::Rc;
use tclv_model::{CmdFault, MessageId, Usage};
use tclv_reply::{
    copy_of, cut, elements_of, is_element, is_qualified, push_elements, refuse, refuse_count,
    refuse_on, settle_refusal,
};
use tclv_text::{NoMemory, Text, is_ascii_word};
use tclv_value::{At, Param, ProcDef, Store};

// Whether a name is that of an element of an array.
fn names_element(name: &[u8]) -> bool
    requires { IsText name.now }
    ensures { result ≡ is_element (encode_utf8_all (chars name.now)) }
{
    is_element(name)
}

// Whether a name holds `::`.
fn names_qualified(name: &[u8]) -> bool
    requires { IsText name.now }
    ensures { result ≡ is_qualified (encode_utf8_all (chars name.now)) }
{
    is_qualified(name)
}

// Why a parameter can't have this name.
fn name_flaw(name: &[u8]) -> Option<MessageId>
    requires { IsText name.now }
    ensures { result ≡ name_flaw (chars name.now) }
{
    if is_ascii_word(name, b"") {
        Some(MessageId::ParameterWithoutName)
    } else if names_element(name) {
        Some(MessageId::ParameterIsElement)
    } else if names_qualified(name) {
        Some(MessageId::ParameterIsNotSimple)
    } else {
        None
    }
}

// The parameter of a name.
fn name_parameter(store: &mut Store, name: Text, default: Option<Text>) -> Result<Param, CmdFault>
    ensures { Reads (named name default) (λ p x. x ≡ p) store.old store.new result }
{
    match name_flaw(name.bytes()) {
        None => Ok(Param { name, default }),
        Some(flaw) => Err(refuse(store, flaw, name.bytes(), "NONE")),
    }
}

// The parameter of a specifier with these fields, which stands at a place.
fn read_fields(store: &mut Store, at: usize, texts: &[Text]) -> Result<Param, CmdFault>
    requires { at < length store.old.stack }
    ensures { Reads (fields (slice_index_or store.old.stack at []) texts.now) (λ p x. x ≡ p)
        store.old store.new result }
{
    match texts {
        [] => Err(refuse(store, MessageId::ParameterWithoutName, b"", "NONE")),
        [name] => {
            let name = name.copy(store.allocator())?;
            name_parameter(store, name, None)
        }
        [name, default] => {
            let name = name.copy(store.allocator())?;
            let default = default.copy(store.allocator())?;
            name_parameter(store, name, Some(default))
        }
        _ => Err(refuse_on(store, MessageId::TooManyParameterFields, at, "NONE")),
    }
}

// The parameter of the specifier at a place.
fn read_parameter(store: &mut Store, at: usize) -> Result<Param, CmdFault>
    requires { at < length store.old.stack }
    ensures { Reads (parameter (slice_index_or store.old.stack at [])) (λ p x. x ≡ p)
        store.old store.new result }
{
    let fields = elements_of(store, at)?;
    read_fields(store, at, fields.all())
}

// Adds a parameter.
fn add_parameter(params: &mut Vec<Param>, param: Param) -> Result<(), NoMemory>
    ensures { OnOk result (params.new.items ≡ params.old.items ++ param ∷ []) }
{
    params.push(param)?;
    Ok(())
}

// The parameters of the specifiers from one place up to another.
fn read_between(store: &mut Store, from: usize, to: usize) -> Result<Vec<Param>, CmdFault>
    requires order { from ≤ to }
    requires within { to ≤ length store.old.stack }
    ensures { Reads (parameters (take (to - from) (drop from store.old.stack)))
        (λ ps x. x.items ≡ ps) store.old store.new result }
{
    let mut params = Vec::new(store.allocator());
    for at in from..to {
        match read_parameter(store, at) {
            Ok(param) => add_parameter(&mut params, param)?,
            Err(kind) => return Err(kind),
        }
    }
    Ok(params)
}

// The parameters of the list of specifiers at a place.
fn read_parameters(store: &mut Store, at: usize) -> Result<Vec<Param>, CmdFault>
    requires { at < length store.old.stack }
    ensures { Finds (and_then (list_of (slice_index_or store.old.stack at [])) parameters)
        (λ ps x. x.items ≡ ps) store.old store.new result }
{
    let from = store.height();
    push_elements(store, At::Stack(at))?;
    let to = store.height();
    read_between(store, from, to)
}

// Whether the last parameter has the name `args`.
fn ends_in_args(params: &[Param]) -> bool
    ensures { result ≡ ends_in_args params.now }
{
    match params.last() {
        Some(last) => is_ascii_word(last.name.bytes(), b"args"),
        None => false,
    }
}

// The procedure with these parameters and the body at a place.
fn make_procedure(
    store: &mut Store,
    body: usize,
    mut params: Vec<Param>,
) -> Result<Rc<ProcDef>, NoMemory>
    requires { body < length store.old.stack }
    ensures made { IfOk result (λ x. x.value ≡ procedure (slice_index_or store.old.stack body []) params.items) }
    ensures kept { KeepsTexts store.old store.new }
{
    let tree = store.script(At::Stack(body))?;
    let text = copy_of(store, body)?;
    let rest = ends_in_args(params.as_slice());
    if rest {
        params.pop();
    }
    Ok(Rc::new(store.allocator(), ProcDef::new(params, rest, text, tree))?)
}

// Reads the `n` words on top as those of `proc`.
fn read_procedure(store: &mut Store, n: usize) -> Result<Rc<ProcDef>, CmdFault>
    requires { n + 1 ≤ length store.old.stack }
    ensures { Finds (proc_of (call_word n store.old.stack) (top n store.old.stack))
        (λ p x. x.value ≡ p) store.old store.new result }
{
    let height = store.height();
    if n != 3 {
        return Err(refuse_count(store, height - n - 1, Usage::Proc));
    }
    let params = read_parameters(store, height - 2)?;
    let made = make_procedure(store, height - 1, params)?;
    Ok(made)
}

/// Reads the top `n` texts as the words of `proc` behind the word of the call, which lies below
/// them: a name, the list of the specifiers of the parameters, and the body. A specifier is a list of
/// a name, or of a name and a default; a last parameter `args` takes the words that are left. On `Ok`
/// the words stay.
///
/// - `WrongArgs` comes where there aren't three words.
/// - `Message` comes where the list of specifiers is none, and then for the first specifier, from the
///   left, that is no list, that has more than two fields, whose name is missing or empty, has a `(`
///   and ends in `)`, or holds `::`.
///
/// On these two the message and the error code take the words' place. After `NoMemory` every place
/// has the text that it had. (Tcl: proc(n).)
pub fn proc_def(store: &mut Store, n: usize) -> Result<Rc<ProcDef>, CmdFault>
    requires { n + 1 ≤ length store.old.stack }
    ensures { Understands (proc_of (call_word n store.old.stack) (top n store.old.stack))
        (λ p x. x.value ≡ p) n store.old store.new result }
{
    let height = store.height();
    match read_procedure(store, n) {
        Ok(made) => {
            cut(store, height);
            Ok(made)
        }
        Err(kind) => Err(settle_refusal(store, n, height, kind)),
    }
}
