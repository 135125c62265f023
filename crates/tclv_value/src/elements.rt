// The elements of lists, read from a text and written to one.
ghost use Rattle.std.specs.Prelude.{◌≡◌, ℕ, List, ◌∷◌, [], ◌++◌, Ok, OnOk, IfOk, IfErr, map};
ghost use Rattle.std.specs.List.{All};
ghost use Rattle.std.specs.Str.{chars};
ghost use Rattle.tclv_text.specs.Texts.{IsText};
ghost use Rattle.tclv_text.specs.Elements.{elements};
ghost use Rattle.tclv_text.specs.Spans.{IsTextSpan, span_text};
ghost use Rattle.tclv_value.specs.Elements.{IsListText};
ghost use Rattle.tclv_value.specs.Lists.{RefusesList};

use crate::faults::ValueFault;
use std::alloc::Global;
use tclv_text::{NoMemory, Span, Text, quote, split_list, unescape};

// The element at a span of a text.
pub(crate) fn element(alloc: Global, text: &[u8], span: Span) -> Result<Text, NoMemory>
    requires { IsTextSpan text.now span }
    ensures { IfOk result (λ t. t ≡ span_text text.now span) }
{
    let spelling = &text[span.from..span.to];
    if span.raw {
        let bytes = Vec::from_slice(alloc, spelling)?;
        return Ok(Text::new(bytes));
    }
    let mut bytes = Vec::new(alloc);
    unescape(spelling, &mut bytes)?;
    Ok(Text::new(bytes))
}

// The elements of a text.
pub(crate) fn elements_of(alloc: Global, text: &[u8]) -> Result<Vec<Text>, ValueFault>
    requires { IsText text.now }
    ensures elements { IfOk result (λ ts. elements (chars text.now) ≡ Ok ts.items) }
    ensures refused { IfErr result (λ fault. RefusesList fault (chars text.now)) }
{
    let spans = split_list(alloc, text)?;
    let found = texts_at(alloc, text, spans.all())?;
    Ok(found)
}

// The elements at spans of a text.
fn texts_at(alloc: Global, text: &[u8], spans: &[Span]) -> Result<Vec<Text>, NoMemory>
    requires { All (IsTextSpan text.now) spans.now }
    ensures { IfOk result (λ ts. ts.items ≡ map (span_text text.now) spans.now) }
{
    let mut found = Vec::new(alloc);
    for span in spans {
        let one = element(alloc, text, *span)?;
        found.push(one)?;
    }
    Ok(found)
}

// Adds an element to the canonical text of a list, or some of it where memory runs out.
pub(crate) fn add_element(element: &[u8], list: &mut Vec<u8>) -> Result<(), NoMemory>
    requires { IsText element.now }
    ensures { OnOk result ((ts : List (List ℕ)) → IsListText ts list.old.items →
        IsListText (ts ++ chars element.now ∷ []) list.new.items) }
{
    if list.is_empty() {
        return quote(element, true, list);
    }
    list.push(b' ')?;
    quote(element, false, list)
}

// Adds elements to the canonical text of a list, or some of them where memory runs out.
pub(crate) fn add_elements(elements: &[Text], list: &mut Vec<u8>) -> Result<(), NoMemory>
    ensures { OnOk result ((ts : List (List ℕ)) → IsListText ts list.old.items →
        IsListText (ts ++ elements.now) list.new.items) }
{
    for element in elements {
        add_element(element.bytes(), list)?;
    }
    Ok(())
}

// The canonical text of a list, as UTF-8.
pub(crate) fn list_bytes(alloc: Global, elements: &[Text]) -> Result<Vec<u8>, NoMemory>
    ensures { IfOk result (λ bytes. IsListText elements.now bytes.items) }
{
    let mut list = Vec::new(alloc);
    add_elements(elements, &mut list)?;
    Ok(list)
}
