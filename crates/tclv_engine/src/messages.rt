// The texts of errors.
ghost use Rattle.std.specs.Prelude.{◌≡◌, IfOk};
ghost use Rattle.std.specs.Str.{chars};
ghost use Rattle.tclv_text.specs.Texts.{IsText};
ghost use Rattle.tclv_model.specs.Message.{text_of};

use std::alloc::Global;
use tclv_model::{MessageId, message};
use tclv_text::{NoMemory, Text};

/// The text of a message with its parts, as UTF-8.
pub fn message_text(
    alloc: Global,
    kind: MessageId,
    first: &[u8],
    second: &[u8],
) -> Result<Text, NoMemory>
    requires first { IsText first.now }
    requires second { IsText second.now }
    ensures { IfOk result (λ text. text ≡ text_of kind (chars first.now) (chars second.now)) }
{
    let mut text = Vec::new(alloc);
    message(kind, first, second, &mut text)?;
    Ok(Text::new(text))
}
