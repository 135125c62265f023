// The arguments of a call of a procedure.
ghost use Rattle.std.specs.Prelude.{◌≡◌, ℕ, List, ◌+◌, ◌-◌, ◌<◌, ◌≤◌, [], ◌∷◌, ◌++◌, false, length, take, drop, codes, if◌then◌else◌, OnOk, IfOk};
ghost use Rattle.std.specs.List.{flat_map};
ghost use Rattle.std.specs.Str.{chars};
ghost use Rattle.tclv_text.specs.Texts.{IsText};
ghost use Rattle.tclv_model.specs.Message.{text_of};
ghost use Rattle.tclv_model.specs.Rows.{wrong_count};
ghost use Rattle.tclv_model.specs.declared.messages.MessageId.TheVariants.{WrongArguments};
ghost use Rattle.tclv_value.specs.Changes.{KeepsTexts};
ghost use Rattle.tclv_value.specs.Stacks.{top, under};
ghost use Rattle.tclv_reply.specs.Replies.{Grows, Refused};
ghost use Rattle.tclv_ctl.specs.Arguments.{bound, shown, parameter_usage, spaced, arguments, Replaces, ArePushed};

use std::alloc::Global;
use tclv_model::{CmdFault, MessageId};
use tclv_reply::{copy_of, push_ascii, push_bytes, push_message, settle_refusal};
use tclv_text::{NoMemory, Text};
use tclv_value::{Param, ProcDef, Store};

// Adds a word to a text, behind a space.
#[tactic(auto, using(crate::proofs::UsageLemmas::space_points))]
fn add_spaced(text: &mut Text, word: &[u8]) -> Result<(), NoMemory>
    requires { IsText word.now }
    ensures { OnOk result (text.new ≡ text.old ++ (codes " " ++ chars word.now)) }
{
    text.push(b" ")?;
    text.push(word)?;
    Ok(())
}

// Adds a word to a text, behind a space and between question marks.
#[tactic(auto, using(crate::proofs::UsageLemmas::open_points, crate::proofs::UsageLemmas::close_points))]
fn add_optional(text: &mut Text, word: &[u8]) -> Result<(), NoMemory>
    requires { IsText word.now }
    ensures { OnOk result (text.new ≡ text.old ++ (codes " ?" ++ (chars word.now ++ codes "?"))) }
{
    text.push(b" ?")?;
    text.push(word)?;
    text.push(b"?")?;
    Ok(())
}

// Adds the words from one place up to another to a text, a space before each.
fn add_words(store: &mut Store, from: usize, to: usize, text: &mut Text) -> Result<(), NoMemory>
    requires order { from ≤ to }
    requires within { to ≤ length store.old.stack }
    ensures added { OnOk result (text.new ≡ text.old
        ++ flat_map (λ w. codes " " ++ w) (take (to - from) (drop from store.old.stack))) }
    ensures kept { KeepsTexts store.old store.new }
{
    for at in from..to {
        let word = copy_of(store, at)?;
        add_spaced(text, word.bytes())?;
    }
    Ok(())
}

// The words from one place up to another, one space between them.
fn spaced_words(store: &mut Store, from: usize, to: usize) -> Result<Text, NoMemory>
    requires some { from < to }
    requires within { to ≤ length store.old.stack }
    ensures text { IfOk result (λ t. t ≡ spaced (take (to - from) (drop from store.old.stack))) }
    ensures kept { KeepsTexts store.old store.new }
{
    let mut text = copy_of(store, from)?;
    add_words(store, from + 1, to, &mut text)?;
    Ok(text)
}

// Adds to a usage how it shows a parameter.
fn add_parameter(usage: &mut Text, param: &Param) -> Result<(), NoMemory>
    ensures { OnOk result (usage.new ≡ usage.old ++ shown param.now) }
{
    match &param.default {
        None => add_spaced(usage, param.name.bytes()),
        Some(_) => add_optional(usage, param.name.bytes()),
    }
}

// Adds to a usage how it shows parameters.
fn add_parameters(usage: &mut Text, params: &[Param]) -> Result<(), NoMemory>
    ensures { OnOk result (usage.new ≡ usage.old ++ flat_map shown params.now) }
{
    for param in params {
        add_parameter(usage, param)?;
    }
    Ok(())
}

// Adds to a usage how it shows that a procedure takes the words that are left.
#[tactic(auto, using(crate::proofs::UsageLemmas::rest_points))]
fn add_rest(usage: &mut Text, rest: bool) -> Result<(), NoMemory>
    ensures { OnOk result (usage.new ≡ usage.old ++ (if rest then codes " ?arg ...?" else [])) }
{
    if !rest {
        return Ok(());
    }
    usage.push(b" ?arg ...?")
}

// How the usage shows the parameters of a procedure.
#[tactic(auto, using(crate::proofs::UsageLemmas::no_points))]
fn parameter_usage(alloc: Global, def: &ProcDef) -> Result<Text, NoMemory>
    ensures { IfOk result (λ t. t ≡ parameter_usage def.now) }
{
    let mut usage = Text::new(Vec::new(alloc));
    add_parameters(&mut usage, def.params())?;
    add_rest(&mut usage, def.has_rest())?;
    Ok(usage)
}

// Pushes the message that the number of words is wrong, and its code. The words of the call before
// its arguments stand from one place up to another.
fn push_usage(store: &mut Store, def: &ProcDef, from: usize, to: usize) -> Result<(), NoMemory>
    requires some { from < to }
    requires within { to ≤ length store.old.stack }
    ensures grows { Grows store.old store.new }
    ensures pushed { OnOk result (store.new.stack ≡ store.old.stack ++
        (text_of WrongArguments (spaced (take (to - from) (drop from store.old.stack)))
        (parameter_usage def.now) ∷ codes "TCL WRONGARGS" ∷ [])) }
{
    let call = spaced_words(store, from, to)?;
    let usage = parameter_usage(store.allocator(), def)?;
    push_message(
        store,
        MessageId::WrongArguments,
        call.bytes(),
        usage.bytes(),
    )?;
    push_ascii(store, "TCL WRONGARGS")?;
    Ok(())
}

// Refuses the number of words with this message.
fn refuse_usage(store: &mut Store, def: &ProcDef, from: usize, to: usize) -> CmdFault
    requires some { from < to }
    requires within { to ≤ length store.old.stack }
    ensures grows { Grows store.old store.new }
    ensures refused { Refused {A = List (List ℕ)} (wrong_count (spaced (take (to - from) (drop from store.old.stack)))
        (parameter_usage def.now)) result store.old.stack store.new.stack }
{
    match push_usage(store, def, from, to) {
        Ok(()) => CmdFault::WrongArgs,
        Err(_) => CmdFault::NoMemory,
    }
}

// Pushes what parameters get that have no word, up to the first that has no default; whether each
// has one.
fn push_defaults(store: &mut Store, params: &[Param], rest: bool) -> Result<bool, NoMemory>
    ensures grows { Grows store.old store.new }
    ensures pushed { IfOk result (λ all. ArePushed (bound params.now rest []) all store.old.stack store.new.stack) }
{
    for param in params {
        match &param.default {
            Some(default) => push_bytes(store, default.bytes())?,
            None => return Ok(false),
        }
    }
    if rest {
        push_bytes(store, b"")?;
    }
    Ok(true)
}

// Pushes what the parameters behind the words get, whose number is `n`; whether they can be bound.
fn push_missing(store: &mut Store, def: &ProcDef, n: usize) -> Result<bool, NoMemory>
    requires words { n ≤ length store.old.stack }
    requires last { length def.now.params < n → def.now.rest ≡ false }
    ensures grows { Grows store.old store.new }
    ensures pushed { IfOk result (λ all. ArePushed (bound def.now.params def.now.rest (top n store.old.stack))
        all (under n store.old.stack) store.new.stack) }
{
    let params = def.params();
    if n > params.len() {
        return Ok(false);
    }
    push_defaults(store, &params[n..], def.has_rest())
}

/// Binds the top `n` texts, which are the arguments of a call of a procedure: on `Ok` one text a
/// parameter, in order, takes their place. From the left each parameter gets a word, else its
/// default; a last parameter that takes the words that are left gets the list of them. Words are
/// shared, and not copied. The `heads` texts below the words are those of the call before its
/// arguments.
///
/// `WrongArgs` comes where a parameter without a default has no word, and where words are left that
/// no parameter takes; then the message, whose usage begins with the words of the call before its
/// arguments, and the error code take the words' place. After `NoMemory` every place has the text
/// that it had. (Tcl: proc(n).)
pub fn bind(store: &mut Store, def: &ProcDef, heads: usize, n: usize) -> Result<(), CmdFault>
    requires heads { 0 < heads }
    requires words { heads + n ≤ length store.old.stack }
    ensures { Replaces (arguments (top heads (under n store.old.stack)) def.now (top n store.old.stack)) n
        store.old store.new result }
{
    let count = def.params().len();
    if def.has_rest() && n > count {
        store.push_list(n - count)?;
        return Ok(());
    }
    let height = store.height();
    match push_missing(store, def, n) {
        Ok(true) => Ok(()),
        Ok(false) => {
            let kind = refuse_usage(store, def, height - n - heads, height - n);
            Err(settle_refusal(store, n, height, kind))
        }
        Err(_) => Err(settle_refusal(store, n, height, CmdFault::NoMemory)),
    }
}
