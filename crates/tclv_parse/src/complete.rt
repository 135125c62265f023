// Whether a script lacks a closing mark.

ghost use Rattle.std.specs.Prelude.{◌≡◌};
ghost use Rattle.std.specs.Str.{chars};
ghost use Rattle.tclv_text.specs.Texts.{IsText};
ghost use Rattle.tclv_parse.specs.Grammar.{fault};
ghost use Rattle.tclv_parse.specs.Complete.{is_closed, is_complete};

use crate::{ParseFault, Tokens};

fn is_closed(fault: ParseFault) -> bool
    ensures { result ≡ is_closed fault }
{
    !matches!(
        fault,
        ParseFault::CloseBrace
            | ParseFault::CloseQuote
            | ParseFault::CloseBracket
            | ParseFault::CloseParen
            | ParseFault::VarBrace
    )
}

/// Whether no closing mark is missing: false exactly where the fault of the script is `CloseBrace`,
/// `CloseQuote`, `CloseBracket`, `CloseParen` or `VarBrace`. It takes no memory. Source: info(n),
/// `info complete`.
pub fn is_complete(text: &[u8]) -> bool
    requires { IsText text.now }
    ensures { result ≡ is_complete (fault (chars text.now)) }
{
    let mut tokens = Tokens::new(text);
    'pieces: loop {
        match tokens.next() {
            Some(Ok(_)) => {}
            Some(Err(fault)) => return is_closed(fault),
            None => return true,
        }
    }
}
