// The text of a script file.
ghost use Rattle.std.specs.Prelude.{◌≡◌, IfOk};
ghost use Rattle.tclv_shell.specs.ScriptText.{script_text};

use std::alloc::Global;
use tclv_text::{NoMemory, Text};

// The bytes of a file with each end of a line as a newline.
fn with_newlines(alloc: Global, bytes: &[u8]) -> Result<Vec<u8>, NoMemory>
    ensures { IfOk result (λ text. text.items ≡ script_text bytes.now) }
{
    let mut text = Vec::with_capacity(alloc, bytes.len())?;
    let mut behind_return = false;
    for byte in bytes {
        match *byte {
            b'\r' => text.push(b'\n')?,
            b'\n' if behind_return => {}
            other => text.push(other)?,
        }
        behind_return = *byte == b'\r';
    }
    Ok(text)
}

/// The text of a script, given the text of its file: CR LF and a lone CR become a newline.
pub fn script_text(alloc: Global, file: &Text) -> Result<Text, NoMemory>
    ensures { IfOk result (λ text. text ≡ script_text file.now) }
{
    let bytes = with_newlines(alloc, file.bytes())?;
    Ok(Text::new(bytes))
}
