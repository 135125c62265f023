// The characters of names and words.

ghost use Rattle.std.specs.Prelude.{◌≡◌, ◌<◌, ◌≤◌, ◌^◌, ◌++◌, [], ◌∷◌, take, drop, length, IfOk, OnOk};
ghost use Rattle.tclv_parse.specs.Runs.{run_len};
ghost use Rattle.tclv_parse.specs.Grammar as grammar;
ghost use Rattle.tclv_parse.specs.Trees as spec;
ghost use Rattle.tclv_parse.specs.Trees.{Reads};

use crate::runs::{Run, ends_word, level_of, take_run};
use crate::{ParseFault, Part, Stop};
use sqlite_items::Items;
use std::alloc::Global;
use tclv_text::{Cursor, NoMemory, Sign, Text};

/// A text without characters.
pub(crate) fn empty(alloc: Global) -> Text
    ensures { result ≡ [] }
{
    Text::new(Vec::new(alloc))
}

/// Appends a character.
pub(crate) fn push_char(text: &mut Text, c: char) -> Result<(), NoMemory>
    ensures { OnOk result (text.new ≡ text.old ++ c ∷ []) }
{
    let mut buffer = [0; 4];
    text.push(c.encode_utf8(&mut buffer).as_bytes())?;
    Ok(())
}

/// The longest name of letters, digits, underscores and colons that stand side by side.
pub(crate) fn plain_name(alloc: Global, cursor: &mut Cursor<'_>) -> Result<Text, NoMemory>
    requires short { length cursor.old < 2 ^ 63 }
    ensures name { IfOk result (λ name. name ≡ take (run_len Run.Sigil cursor.old) cursor.old) }
    ensures rest { cursor.new ≡ drop (run_len Run.Sigil cursor.old) cursor.old }
{
    let (name, _) = take_run(cursor, Run::Sigil);
    let mut text = empty(alloc);
    text.push(name)?;
    Ok(text)
}

/// The text of a word in braces, from behind its opening brace: up to the brace that matches it,
/// which is passed. A backslash-newline in it is read. After an `Err` the place is any. The fault
/// is `CloseBrace`, exactly where that brace is missing. Source: Tcl(n), rule 6.
pub fn braced(alloc: Global, cursor: &mut Cursor<'_>) -> Result<Text, Stop>
    requires { length cursor.old < 2 ^ 63 }
    ensures reads { Reads (grammar.braced cursor.old 0) result cursor.new }
    ensures left { OnOk result (length cursor.new ≤ length cursor.old) }
{
    let mut text = empty(alloc);
    let mut level = 0;
    'raw: loop {
        match cursor.peek() {
            Sign::End => return Err(Stop::Fault(ParseFault::CloseBrace)),
            Sign::Fold => push_char(&mut text, cursor.skip_escape())?,
            Sign::CloseBrace if level == 0 => {
                cursor.skip();
                return Ok(text);
            }
            _ => {
                let (raw, end) = take_run(cursor, Run::Braced(level));
                text.push(raw)?;
                level = level_of(end);
            }
        }
    }
}

/// The parts of a word in braces.
pub(crate) fn text_parts(alloc: Global, text: Text) -> Result<Items<Part>, Stop>
    ensures ok { IfOk result (λ parts. parts ≡ grammar.text_part text) }
    ensures err { spec.IsMemory result }
{
    let mut parts = Items::new(alloc);
    if !text.bytes().is_empty() {
        parts.push(Part::Literal(text))?;
    }
    Ok(parts)
}

/// A word that was closed ends here, or has this fault.
#[tactic(auto, unfolding(crate::specs::Grammar::closed))]
pub(crate) fn closed(inner: bool, fault: ParseFault, cursor: &Cursor<'_>) -> Result<(), Stop>
    ensures { Reads (grammar.closed inner fault cursor.now) result cursor.now }
{
    if ends_word(inner, cursor.peek()) {
        Ok(())
    } else {
        Err(Stop::Fault(fault))
    }
}

/// The closing mark of a quoted word.
#[tactic(auto, unfolding(crate::specs::Grammar::end_quote))]
pub(crate) fn end_quote(inner: bool, cursor: &mut Cursor<'_>) -> Result<(), Stop>
    ensures { Reads (grammar.end_quote inner cursor.old) result cursor.new }
{
    match cursor.peek() {
        Sign::Quote => {
            cursor.skip();
            closed(inner, ParseFault::AfterQuote, cursor)
        }
        _ => Err(Stop::Fault(ParseFault::CloseQuote)),
    }
}

/// The closing mark of an index.
#[tactic(auto, unfolding(crate::specs::Grammar::end_index))]
pub(crate) fn end_index(cursor: &mut Cursor<'_>) -> Result<(), Stop>
    ensures { Reads (grammar.end_index cursor.old) result cursor.new }
{
    match cursor.peek() {
        Sign::CloseParen => {
            cursor.skip();
            Ok(())
        }
        _ => Err(Stop::Fault(ParseFault::CloseParen)),
    }
}

/// The name of a variable in braces, from behind the opening one, with its closing brace passed.
pub(crate) fn enclosed_name(alloc: Global, cursor: &mut Cursor<'_>) -> Result<Text, Stop>
    requires { length cursor.old < 2 ^ 63 }
    ensures { spec.ReadsEnd (spec.enclosed_name cursor.old) result cursor.new }
{
    let start = cursor.here();
    'name: loop {
        match cursor.peek() {
            Sign::End => return Err(Stop::Fault(ParseFault::VarBrace)),
            Sign::CloseBrace => {
                let mut name = empty(alloc);
                name.push(start.up_to(cursor))?;
                cursor.skip();
                return Ok(name);
            }
            _ => cursor.skip(),
        }
    }
}
