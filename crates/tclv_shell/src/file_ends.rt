// What the end of a script file makes of the outcome of its script.
ghost use Rattle.std.specs.Prelude.{◌≡◌, [], IfOk};
ghost use Rattle.std.specs.Option.{option_map};
ghost use Rattle.std.specs.Str.{IsAscii, chars, encode_utf8_all};
ghost use Rattle.tclv_text.specs.Texts.{IsText};
ghost use Rattle.tclv_text.specs.Numbers.{whole_text};
ghost use Rattle.tclv_model.specs.Message.{text_of};
ghost use Rattle.tclv_shell.specs.FileEnds.{option_number, after_level, error_of_number};

use crate::final_messages::message_text;
use std::alloc::Global;
use tclv_model::{Code, MessageId, Options, Pair};
use tclv_text::{NoMemory, whole, whole_text};

#[tactic(auto, using(crate::proofs::KeyLemmas::same_key))]
// The number of an option, or another number where it isn't there or is no whole number.
fn option_number(options: &[Pair], key: &[u8], otherwise: i64) -> i64
    requires { IsAscii key.now }
    ensures { result ≡ option_number key.now otherwise options.now }
{
    for pair in options {
        if pair.key.bytes() == key {
            return whole(pair.value.bytes()).unwrap_or(otherwise);
        }
    }
    otherwise
}

/// The number of a code once a level is off: a return of level 1 is the code that it stores.
pub fn after_level(code: Code, options: &Options) -> i64
    ensures { result ≡ after_level code options.now }
{
    let options = options.all();
    if code == Code::Return && option_number(options, b"-level", 1) == 1 {
        option_number(options, b"-code", 0)
    } else {
        i64::from(code.number())
    }
}

fn copied(alloc: Global, text: &[u8]) -> Result<Vec<u8>, NoMemory>
    requires { IsText text.now }
    ensures { IfOk result (λ copy. copy.items ≡ encode_utf8_all (chars text.now)) }
{
    Ok(Vec::from_slice(alloc, text)?)
}

fn bad_code(alloc: Global, n: i64) -> Result<Vec<u8>, NoMemory>
    ensures { IfOk result (λ text. text.items ≡ text_of MessageId.BadCodeReturned (encode_utf8_all (whole_text n)) []) }
{
    let mut number = Vec::new(alloc);
    whole_text(n, &mut number)?;
    message_text(alloc, MessageId::BadCodeReturned, &number)
}

/// The message of the error that a script file ends with, where it ends with one, by the number of
/// its code and its result. An error's message is its result; a break, a continue, and any other
/// code but ok are errors with messages of their own.
pub fn file_error(alloc: Global, n: i64, text: &[u8]) -> Result<Option<Vec<u8>>, NoMemory>
    requires { IsText text.now }
    ensures { IfOk result (λ error. option_map (λ e. e.items) error ≡ error_of_number n (chars text.now)) }
{
    match n {
        0 => Ok(None),
        1 => Ok(Some(copied(alloc, text)?)),
        3 => Ok(Some(message_text(alloc, MessageId::BreakOutsideLoop, &[])?)),
        4 => Ok(Some(message_text(alloc, MessageId::ContinueOutsideLoop, &[])?)),
        _ => Ok(Some(bad_code(alloc, n)?)),
    }
}
