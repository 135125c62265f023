// The list of the arguments.
ghost use Rattle.std.specs.Prelude.{◌≡◌, IfOk, map, string_bytes};
ghost use Rattle.std.specs.Str.{chars};
ghost use Rattle.tclv_text.specs.Texts.{IsText};
ghost use Rattle.tclv_text.specs.Quotes.{quoted, list_text};

use std::alloc::Global;
use tclv_text::{NoMemory, Text, quote};

// An argument as it stands in a list, as UTF-8.
fn element(alloc: Global, argument: &str, first: bool) -> Result<Vec<u8>, NoMemory>
    ensures utf8 { IfOk result (λ text. IsText text.items) }
    ensures text { IfOk result (λ text. chars text.items ≡ quoted (chars argument.now) first) }
{
    let mut text = Vec::new(alloc);
    quote(argument.as_bytes(), first, &mut text)?;
    Ok(text)
}

/// The canonical text of the list of the arguments.
pub fn list_text(alloc: Global, arguments: &[String]) -> Result<Text, NoMemory>
    ensures { IfOk result (λ text. text ≡ list_text (map chars (map string_bytes arguments.now))) }
{
    let [first, rest @ ..] = arguments else {
        return Ok(Text::new(Vec::new(alloc)));
    };
    let mut text = Text::new(element(alloc, first.as_str(), true)?);
    for argument in rest {
        text.push(b" ")?;
        text.push(&element(alloc, argument.as_str(), false)?)?;
    }
    Ok(text)
}
