// The options of commands, which stand before their other words.
ghost use Rattle.std.specs.Prelude.{◌≡◌, ◌-◌, ◌<◌, ◌≤◌, ℕ, List, Option, None, [], length, take, drop, IsTrue, slice_index_or};
ghost use Rattle.std.specs.List.{list_all};
ghost use Rattle.std.specs.Char.{is_ascii};
ghost use Rattle.std.specs.Str.{chars};
ghost use Rattle.tclv_text.specs.Texts.{IsText};
ghost use Rattle.tclv_model.specs.Rows.{wrong_count};
ghost use Rattle.tclv_model.specs.Usages.{usage_of};
ghost use Rattle.tclv_value.specs.View.{IsMade};
ghost use Rattle.tclv_value.specs.declared.places.At.TheVariants.{Stack};
ghost use Rattle.tclv_reply.specs.Replies.{Reads};
ghost use Rattle.tclv_reply.specs.Options.{known_or_bad, options_read, AreOptions};

use crate::numbers::check_index;
use crate::replies::{refuse_count, refuse_on};
use crate::words::{make_word, word_at, word_is};
use tclv_model::{CmdFault, MessageId, Usage};
use tclv_value::Store;

/// What the options of a command that have no value settle.
pub trait Settings: Copy {
    // What they are after a word, if it is an option without a value.
    ghost after: { List ℕ → Self → Option Self };

    /// The settings after an option; `None` where the word is none of them.
    fn after(self, word: &[u8]) -> Option<Self>
        requires { IsText word.now }
        ensures { result ≡ after (chars word.now) self };
}

/// The words of a call that are its options: those of the stack from one place up to another.
#[derive(Clone, Copy)]
pub struct OptionWords {
    /// Where the word of the call is.
    pub call: usize,
    /// Where the options begin.
    pub from: usize,
    /// Where they end.
    pub to: usize,
}

// The settings after the option that a word, which is made, is.
fn settings_at<S: Settings>(store: &Store, at: usize, settings: S) -> Option<S>
    requires place { at < length store.now.stack }
    requires made { IsMade store.now (Stack at) }
    ensures { result ≡ S.after (slice_index_or store.now.stack at []) settings }
{
    settings.after(word_at(store, at))
}

// The settings after a word that must be an option without a value.
fn read_word<S: Settings>(store: &mut Store, at: usize, settings: S) -> Result<S, CmdFault>
    requires { at < length store.old.stack }
    ensures { Reads (known_or_bad (slice_index_or store.old.stack at [])
        (S.after (slice_index_or store.old.stack at []) settings)) (λ s x. x ≡ s)
        store.old store.new result }
{
    make_word(store, at)?;
    match settings_at(store, at, settings) {
        Some(changed) => Ok(changed),
        None => Err(refuse_on(store, MessageId::BadOption, at, "NONE")),
    }
}

/// Reads options from the left: the settings after those without a value, and where the value is of
/// the option of a name, which must have the form of an index. Of two that exclude each other the
/// later counts. Refuses a word that is no option, an index of bad form, and, with the usage, the
/// option whose value isn't there.
pub fn read_options<S: Settings>(
    store: &mut Store,
    words: OptionWords,
    plain: S,
    name: &str,
    usage: Usage,
) -> Result<(S, Option<usize>), CmdFault>
    requires call { words.call < length store.old.stack }
    requires order { words.from ≤ words.to }
    requires within { words.to ≤ length store.old.stack }
    requires name { IsTrue (list_all is_ascii name.now) }
    ensures { Reads (options_read name.now (λ o s. known_or_bad o (S.after o s))
        (wrong_count (slice_index_or store.old.stack words.call []) (usage_of usage))
        (take (words.to - words.from) (drop words.from store.old.stack))
        (record { settings = plain; index = None })) (AreOptions store.old.stack)
        store.old store.new result }
{
    let mut settings = plain;
    let mut index = None;
    let mut at = words.from;
    'words: while at < words.to {
        if word_is(store, at, name)? {
            if at + 1 == words.to {
                return Err(refuse_count(store, words.call, usage));
            }
            check_index(store, at + 1)?;
            index = Some(at + 1);
            at += 2;
        } else {
            settings = read_word(store, at, settings)?;
            at += 1;
        }
    }
    Ok((settings, index))
}
