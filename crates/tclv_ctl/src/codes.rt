// Codes, as words name them.
ghost use Rattle.std.specs.Prelude.{◌≡◌};
ghost use Rattle.std.specs.Str.{chars};
ghost use Rattle.tclv_text.specs.Texts.{IsText};
ghost use Rattle.tclv_reply.specs.Replies.{Reads};
ghost use Rattle.tclv_ctl.specs.Codes.{is_short, numbered, code_of, completion_code};

use tclv_model::{CmdFault, Code, MessageId};
use tclv_reply::refuse;
use tclv_text::{is_ascii_word, whole};
use tclv_value::Store;

// Whether a number has 32 bits.
fn is_short(n: i64) -> bool
    ensures { result ≡ is_short n }
{
    -2147483648 <= n && n <= 2147483647
}

// The code of a number.
fn numbered(n: i64) -> Option<Code>
    ensures { result ≡ numbered n }
{
    if n == 0 {
        Some(Code::Ok)
    } else if n == 1 {
        Some(Code::Error)
    } else if n == 2 {
        Some(Code::Return)
    } else if n == 3 {
        Some(Code::Break)
    } else if n == 4 {
        Some(Code::Continue)
    } else if is_short(n) {
        Some(Code::Other(n as i32))
    } else {
        None
    }
}

// The code that a word names.
fn code_of(word: &[u8]) -> Option<Code>
    requires { IsText word.now }
    ensures { result ≡ code_of (chars word.now) }
{
    if is_ascii_word(word, b"ok") {
        Some(Code::Ok)
    } else if is_ascii_word(word, b"error") {
        Some(Code::Error)
    } else if is_ascii_word(word, b"return") {
        Some(Code::Return)
    } else if is_ascii_word(word, b"break") {
        Some(Code::Break)
    } else if is_ascii_word(word, b"continue") {
        Some(Code::Continue)
    } else {
        match whole(word) {
            Ok(n) => numbered(n),
            Err(_) => None,
        }
    }
}

// The code that a word must name.
pub(crate) fn completion_code(store: &mut Store, word: &[u8]) -> Result<Code, CmdFault>
    requires { IsText word.now }
    ensures { Reads (completion_code (chars word.now)) (λ c x. x ≡ c) store.old store.new result }
{
    match code_of(word) {
        Some(code) => Ok(code),
        None => Err(refuse(store, MessageId::BadCompletionCode, word, "NONE")),
    }
}
