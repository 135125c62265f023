// Dicts, read from words.
ghost use Rattle.std.specs.Prelude.{◌≡◌, ◌<◌, [], length, OnOk, IfOk, slice_index_or};
ghost use Rattle.std.specs.Option.{option_map};
ghost use Rattle.tclv_text.specs.Pairs.{put, pairs_of};
ghost use Rattle.tclv_model.specs.Values.{dict_of};
ghost use Rattle.tclv_reply.specs.Replies.{Reads};
ghost use Rattle.tclv_ctl.specs.Returns.{paired};

use std::alloc::Global;
use tclv_model::{CmdFault, MessageId};
use tclv_reply::{elements_of, refuse};
use tclv_text::{NoMemory, Text};
use tclv_value::Store;

// Puts the value of a key: a key that is there keeps its place, and a new one goes last.
pub(crate) fn put(pairs: &mut Vec<(Text, Text)>, key: Text, value: Text) -> Result<(), NoMemory>
    ensures { OnOk result (pairs.new.items ≡ put key value pairs.old.items) }
{
    for k in 0..pairs.len() {
        if pairs[k].0.is_same(&key) {
            pairs[k].1 = value;
            return Ok(());
        }
    }
    pairs.push((key, value))?;
    Ok(())
}

// The pairs of texts two by two, or none where the last one is alone.
fn pairs_of(alloc: Global, texts: &[Text]) -> Result<Option<Vec<(Text, Text)>>, NoMemory>
    ensures { IfOk result (λ x. pairs_of texts.now ≡ option_map (λ ps. ps.items) x) }
{
    let mut pairs = Vec::new(alloc);
    for k in 0..texts.len() / 2 {
        let key = texts[2 * k].copy(alloc)?;
        let value = texts[2 * k + 1].copy(alloc)?;
        put(&mut pairs, key, value)?;
    }
    if texts.len() % 2 == 1 {
        return Ok(None);
    }
    Ok(Some(pairs))
}

// The pairs, or the refusal of a last key without a value.
fn paired(
    store: &mut Store,
    pairs: Option<Vec<(Text, Text)>>,
) -> Result<Vec<(Text, Text)>, CmdFault>
    ensures { Reads (paired (option_map (λ ps. ps.items) pairs)) (λ ps x. x.items ≡ ps)
        store.old store.new result }
{
    match pairs {
        Some(pairs) => Ok(pairs),
        None => Err(refuse(store, MessageId::MissingDictValue, b"", "NONE")),
    }
}

// The pairs of the dict that a text on the stack is.
pub(crate) fn read_dict(store: &mut Store, at: usize) -> Result<Vec<(Text, Text)>, CmdFault>
    requires { at < length store.old.stack }
    ensures { Reads (dict_of (slice_index_or store.old.stack at [])) (λ ps x. x.items ≡ ps)
        store.old store.new result }
{
    let elements = elements_of(store, at)?;
    let pairs = pairs_of(store.allocator(), elements.all())?;
    paired(store, pairs)
}
