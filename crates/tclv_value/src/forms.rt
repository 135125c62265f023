// The table of types: the forms that a value may be kept in beside its text, or in its place.
ghost use Rattle.std.specs.Prelude.{◌≡◌, ◌<◌, ℕ, length, map, Some, None, IfSome, IfNone, IfOk, OnOk, OnErr, slice_index};
ghost use Rattle.tclv_text.specs.Texts.{Appends};
ghost use Rattle.tclv_text.specs.Quotes.{list_text};
ghost use Rattle.tclv_value.specs.Elements.{IsListText};
ghost use Rattle.tclv_value.specs.Kept.{list_in};

use crate::elements::add_element;
use std::alloc::Global;
use tclv_forms::ListForm;
use tclv_heap::{ObjId, Texts, Types};
use tclv_text::{NoMemory, whole_text};

/// How a value is kept.
#[derive(Drop)]
pub(crate) enum Form {
    /// As a whole number.
    Whole(i64),
    /// As a list, whose elements are objects.
    List(ListForm),
}

impl Form {
    ghost use Rattle.tclv_value.specs.declared.forms.Form.TheVariants as form;

    /// The number, where the value is kept as one.
    pub(crate) fn as_whole(&self) -> Option<i64>
        ensures { IfSome result (λ n. self.now ≡ form.Whole n) }
    {
        match self {
            Form::Whole(n) => Some(*n),
            Form::List(_) => None,
        }
    }

    /// The list, where the value is kept as one.
    pub(crate) fn as_list(&self) -> Option<&ListForm>
        ensures some { IfSome result (λ list. self.now ≡ form.List list.now) }
        ensures none { IfNone result (list_in (Some self.now) ≡ None) }
    {
        match self {
            Form::Whole(_) => None,
            Form::List(list) => Some(list),
        }
    }
}

/// The forms of a store's values.
#[derive(Drop)]
pub(crate) struct Forms;

impl Types for Forms {
    ghost use Rattle.tclv_value.specs.Forms.{form_table};

    type Form = Form;

    ghost table = { form_table };

    fn kid_count(&self, f: &Form) -> usize {
        match f {
            Form::Whole(_) => 0,
            Form::List(list) => list.len(),
        }
    }

    fn kid(&self, f: &Form, k: usize) -> ObjId {
        match f {
            Form::Whole(_) => unreachable!(),
            Form::List(list) => list.at(k),
        }
    }

    fn spells(&self, f: &Form) -> bool {
        // A number that is read is known to be of 64 bits.
        match f {
            Form::Whole(n) => {
                let _number = *n;
                true
            }
            Form::List(_) => true,
        }
    }

    fn counts(&self, f: &Form) -> bool {
        true
    }

    fn spell<K: Texts>(
        &self,
        alloc: Global,
        f: &Form,
        kids: &K,
        out: &mut Vec<u8>,
    ) -> Result<(), NoMemory> {
        match f {
            Form::Whole(n) => whole_text(*n, out),
            Form::List(list) => spell_list(alloc, list, kids, out),
        }
    }

    fn duplicate(&self, alloc: Global, f: &Form) -> Result<Form, NoMemory> {
        match f {
            Form::Whole(n) => Ok(Form::Whole(*n)),
            Form::List(list) => Ok(Form::List(list.copy(alloc, 1)?)),
        }
    }
}

// Appends the canonical text of a list, from the texts of its elements. After `NoMemory` `out` is as
// before.
fn spell_list<K: Texts>(
    alloc: Global,
    list: &ListForm,
    kids: &K,
    out: &mut Vec<u8>,
) -> Result<(), NoMemory>
    requires { (k : ℕ) → k < length list.now.ids → K.has kids.now (slice_index list.now.ids k) }
    ensures ok { OnOk result (Appends out.old.items out.new.items
        (list_text (map (K.stands kids.now) list.now.ids))) }
    ensures err { OnErr result (out.new.items ≡ out.old.items) }
{
    let text = list_of_kids(alloc, list, kids)?;
    out.extend_from_slice(text.as_slice())?;
    Ok(())
}

// The canonical text of a list, from the texts of its elements.
fn list_of_kids<K: Texts>(alloc: Global, list: &ListForm, kids: &K) -> Result<Vec<u8>, NoMemory>
    requires { (k : ℕ) → k < length list.now.ids → K.has kids.now (slice_index list.now.ids k) }
    ensures { IfOk result (λ bytes. IsListText (map (K.stands kids.now) list.now.ids) bytes.items) }
{
    let mut text = Vec::new(alloc);
    for k in 0..list.len() {
        add_element(kids.text(list.at(k)), &mut text)?;
    }
    Ok(text)
}
