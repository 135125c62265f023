// The words of `return`: its code, its level, and its other options.
ghost use Rattle.std.specs.Prelude.{◌≡◌, ℕ, List, ◌+◌, ◌<◌, ◌≤◌, ◌^◌, [], ◌∷◌, ◌++◌, length, drop, map, IsTrue, IfSome, OnOk, IfOk, slice_index_or, codes};
ghost use Rattle.std.specs.Char.{is_ascii};
ghost use Rattle.std.specs.List.{list_all};
ghost use Rattle.std.specs.Str.{chars};
ghost use Rattle.tclv_text.specs.Texts.{IsText};
ghost use Rattle.tclv_text.specs.Numbers.{whole};
ghost use Rattle.tclv_model.specs.declared.outcomes.Code.TheVariants.{Error};
ghost use Rattle.tclv_model.specs.Rows.{Gives, and_then};
ghost use Rattle.tclv_model.specs.Values.{dict_of};
ghost use Rattle.tclv_value.specs.Stacks.{top};
ghost use Rattle.tclv_reply.specs.Replies.{Reads};
ghost use Rattle.tclv_ctl.specs.Steps.{Understands};
ghost use Rattle.tclv_ctl.specs.Codes.{completion_code};
ghost use Rattle.tclv_ctl.specs.Returns.{natural_by, return_level, naming, is_error_code, with_code, with_level, with_other, with_option, with_pairs, with_word, with_words, plain_return, asks_of, error_code_in, beside_error_code, error_options, asked_by, return_of, pair_of, IsReturn};

use crate::codes::completion_code;
use crate::dicts::{put, read_dict};
use std::alloc::Global;
use tclv_model::{CmdFault, Code, MessageId, Options, Pair};
use tclv_reply::{copy_of, refuse, settle_refusal};
use tclv_text::{NoMemory, Text, is_ascii_word, whole};
use tclv_value::Store;

/// What `return` is asked for.
#[derive(Drop)]
pub struct Ret {
    /// The code, which is not `Return`: that is `Ok` one level further up.
    pub code: Code,
    /// How many calls of procedures and methods end before the code comes.
    pub level: u64,
    /// The options but code and level, in order. For an error the first is its error code.
    pub options: Options,
}

/// Which option of `return` a word names.
#[derive(Clone, Copy, Debug, PartialEq, Eq)]
pub(crate) enum Named {
    /// `-code`.
    Code,
    /// `-level`.
    Level,
    /// `-options`.
    Dict,
    /// Another one.
    Other,
}

/// What options ask for so far.
#[derive(Drop)]
pub(crate) struct Wanted {
    code: Code,
    level: u64,
    others: Vec<(Text, Text)>,
}

// Which option a word names.
fn naming(word: &[u8]) -> Named
    requires { IsText word.now }
    ensures { result ≡ naming (chars word.now) }
{
    if is_ascii_word(word, b"-code") {
        Named::Code
    } else if is_ascii_word(word, b"-level") {
        Named::Level
    } else if is_ascii_word(word, b"-options") {
        Named::Dict
    } else {
        Named::Other
    }
}

// The number that a word is, where it isn't negative.
fn natural(word: &[u8]) -> Option<u64>
    requires { IsText word.now }
    ensures says { result ≡ natural_by (whole (chars word.now)) }
    ensures small { IfSome result (λ n. n < 2 ^ 63) }
{
    match whole(word) {
        Ok(n) if n >= 0 => Some(n as u64),
        _ => None,
    }
}

// The level that a word must be.
fn return_level(store: &mut Store, word: &[u8]) -> Result<u64, CmdFault>
    requires { IsText word.now }
    ensures reads { Reads (return_level (chars word.now)) (λ n x. x ≡ n) store.old store.new result }
    ensures small { IfOk result (λ n. n < 2 ^ 63) }
{
    match natural(word) {
        Some(level) => Ok(level),
        None => Err(refuse(store, MessageId::BadReturnLevel, word, "NONE")),
    }
}

// What is asked for with the code that a word names.
fn with_code(store: &mut Store, wanted: Wanted, word: &[u8]) -> Result<Wanted, CmdFault>
    requires text { IsText word.now }
    requires small { wanted.level < 2 ^ 63 }
    ensures reads { Reads (and_then (completion_code (chars word.now)) (λ c. Gives (with_code c (asks_of wanted))))
        (λ s x. asks_of x ≡ s) store.old store.new result }
    ensures small { IfOk result (λ x. x.level < 2 ^ 63) }
{
    let Wanted { level, others, .. } = wanted;
    let code = completion_code(store, word)?;
    Ok(Wanted {
        code,
        level,
        others,
    })
}

// What is asked for with the level that a word is.
fn with_level(store: &mut Store, wanted: Wanted, word: &[u8]) -> Result<Wanted, CmdFault>
    requires { IsText word.now }
    ensures reads { Reads (and_then (return_level (chars word.now)) (λ n. Gives (with_level n (asks_of wanted))))
        (λ s x. asks_of x ≡ s) store.old store.new result }
    ensures small { IfOk result (λ x. x.level < 2 ^ 63) }
{
    let Wanted { code, others, .. } = wanted;
    let level = return_level(store, word)?;
    Ok(Wanted {
        code,
        level,
        others,
    })
}

// What is asked for with an option that is neither.
fn with_other(wanted: Wanted, name: Text, value: Text) -> Result<Wanted, NoMemory>
    requires { wanted.level < 2 ^ 63 }
    ensures asks { IfOk result (λ x. asks_of x ≡ with_other name value (asks_of wanted)) }
    ensures small { IfOk result (λ x. x.level < 2 ^ 63) }
{
    let Wanted {
        code,
        level,
        mut others,
    } = wanted;
    put(&mut others, name, value)?;
    Ok(Wanted {
        code,
        level,
        others,
    })
}

// What is asked for with one option more, which has this name.
fn with_option(
    store: &mut Store,
    wanted: Wanted,
    named: Named,
    name: Text,
    value: Text,
) -> Result<Wanted, CmdFault>
    requires { wanted.level < 2 ^ 63 }
    ensures reads { Reads (with_option named name value (asks_of wanted)) (λ s x. asks_of x ≡ s)
        store.old store.new result }
    ensures small { IfOk result (λ x. x.level < 2 ^ 63) }
{
    match named {
        Named::Code => with_code(store, wanted, value.bytes()),
        Named::Level => with_level(store, wanted, value.bytes()),
        Named::Dict => Ok(with_other(wanted, name, value)?),
        Named::Other => Ok(with_other(wanted, name, value)?),
    }
}

// What is asked for with a pair as an option.
fn with_pair(store: &mut Store, wanted: Wanted, pair: &(Text, Text)) -> Result<Wanted, CmdFault>
    requires { wanted.level < 2 ^ 63 }
    ensures reads { Reads (with_option (naming pair.now.0) pair.now.0 pair.now.1 (asks_of wanted))
        (λ s x. asks_of x ≡ s) store.old store.new result }
    ensures small { IfOk result (λ x. x.level < 2 ^ 63) }
{
    let name = pair.0.copy(store.allocator())?;
    let value = pair.1.copy(store.allocator())?;
    let named = naming(name.bytes());
    with_option(store, wanted, named, name, value)
}

// What is asked for with these pairs as options.
fn with_pairs(store: &mut Store, wanted: Wanted, pairs: &[(Text, Text)]) -> Result<Wanted, CmdFault>
    requires { wanted.level < 2 ^ 63 }
    ensures reads { Reads (with_pairs pairs.now (asks_of wanted)) (λ s x. asks_of x ≡ s)
        store.old store.new result }
    ensures small { IfOk result (λ x. x.level < 2 ^ 63) }
{
    let mut found = wanted;
    for k in 0..pairs.len() {
        match with_pair(store, found, &pairs[k]) {
            Ok(more) => found = more,
            Err(kind) => return Err(kind),
        }
    }
    Ok(found)
}

// What is asked for with the pairs of the dict at a place as options.
fn with_dict(store: &mut Store, wanted: Wanted, at: usize) -> Result<Wanted, CmdFault>
    requires place { at < length store.old.stack }
    requires small { wanted.level < 2 ^ 63 }
    ensures reads { Reads (and_then (dict_of (slice_index_or store.old.stack at [])) (λ ps. with_pairs ps (asks_of wanted)))
        (λ s x. asks_of x ≡ s) store.old store.new result }
    ensures small { IfOk result (λ x. x.level < 2 ^ 63) }
{
    let pairs = read_dict(store, at)?;
    with_pairs(store, wanted, pairs.as_slice())
}

// What is asked for with the option of this name, whose value stands at a place.
fn with_value(
    store: &mut Store,
    wanted: Wanted,
    named: Named,
    name: Text,
    at: usize,
) -> Result<Wanted, CmdFault>
    requires place { at < length store.old.stack }
    requires small { wanted.level < 2 ^ 63 }
    ensures reads { Reads (with_option named name (slice_index_or store.old.stack at []) (asks_of wanted))
        (λ s x. asks_of x ≡ s) store.old store.new result }
    ensures small { IfOk result (λ x. x.level < 2 ^ 63) }
{
    let value = copy_of(store, at)?;
    with_option(store, wanted, named, name, value)
}

// What is asked for with the option whose name and whose value stand at two places.
fn with_word(
    store: &mut Store,
    wanted: Wanted,
    at: usize,
    behind: usize,
) -> Result<Wanted, CmdFault>
    requires name { at < length store.old.stack }
    requires value { behind < length store.old.stack }
    requires small { wanted.level < 2 ^ 63 }
    ensures reads { Reads (with_word (naming (slice_index_or store.old.stack at [])) (slice_index_or store.old.stack at [])
        (slice_index_or store.old.stack behind []) (asks_of wanted)) (λ s x. asks_of x ≡ s)
        store.old store.new result }
    ensures small { IfOk result (λ x. x.level < 2 ^ 63) }
{
    let name = copy_of(store, at)?;
    match naming(name.bytes()) {
        Named::Dict => with_dict(store, wanted, behind),
        Named::Code => with_value(store, wanted, Named::Code, name, behind),
        Named::Level => with_value(store, wanted, Named::Level, name, behind),
        Named::Other => with_value(store, wanted, Named::Other, name, behind),
    }
}

// What the words on top ask for, which begin at a place.
fn read_options(store: &mut Store, from: usize) -> Result<Wanted, CmdFault>
    requires { from ≤ length store.old.stack }
    ensures reads { Reads (with_words (drop from store.old.stack) plain_return) (λ s x. asks_of x ≡ s)
        store.old store.new result }
    ensures small { IfOk result (λ x. x.level < 2 ^ 63) }
{
    let mut wanted = Wanted {
        code: Code::Ok,
        level: 1,
        others: Vec::new(store.allocator()),
    };
    for k in 0..(store.height() - from) / 2 {
        let at = from + 2 * k;
        match with_word(store, wanted, at, at + 1) {
            Ok(more) => wanted = more,
            Err(kind) => return Err(kind),
        }
    }
    Ok(wanted)
}

// A text of ASCII characters.
fn ascii_text(alloc: Global, text: &str) -> Result<Text, NoMemory>
    requires { IsTrue (list_all is_ascii text.now) }
    ensures { IfOk result (λ t. t ≡ text.now) }
{
    Ok(Text::new(Vec::from_slice(alloc, text.as_bytes())?))
}

// Whether a name is that of the error code.
fn is_error_code(name: &Text) -> bool
    ensures { result ≡ is_error_code name.now }
{
    is_ascii_word(name.bytes(), b"-errorcode")
}

// The error code among pairs.
fn error_code_in(alloc: Global, pairs: &[(Text, Text)]) -> Result<Text, NoMemory>
    ensures { IfOk result (λ t. t ≡ error_code_in pairs.now) }
{
    for k in 0..pairs.len() {
        if is_error_code(&pairs[k].0) {
            return pairs[k].1.copy(alloc);
        }
    }
    ascii_text(alloc, "NONE")
}

// Puts a pair behind the options that are there.
fn add_pair(alloc: Global, options: &mut Options, pair: &(Text, Text)) -> Result<(), NoMemory>
    ensures { OnOk result (map pair_of options.new ≡ map pair_of options.old ++ pair.now ∷ []) }
{
    let key = pair.0.copy(alloc)?;
    let value = pair.1.copy(alloc)?;
    options.push(Pair { key, value })
}

// The options that these pairs are.
fn options_of(alloc: Global, pairs: &[(Text, Text)]) -> Result<Options, NoMemory>
    ensures { IfOk result (λ options. map pair_of options ≡ pairs.now) }
{
    let mut options = Options::new(alloc);
    for k in 0..pairs.len() {
        add_pair(alloc, &mut options, &pairs[k])?;
    }
    Ok(options)
}

// Puts the pairs but the error code behind the options that are there.
fn add_others(alloc: Global, options: &mut Options, pairs: &[(Text, Text)]) -> Result<(), NoMemory>
    ensures { OnOk result (map pair_of options.new ≡ map pair_of options.old ++ beside_error_code pairs.now) }
{
    for k in 0..pairs.len() {
        if !is_error_code(&pairs[k].0) {
            add_pair(alloc, options, &pairs[k])?;
        }
    }
    Ok(())
}

// The options of an error that is asked for with these pairs.
fn error_options(alloc: Global, pairs: &[(Text, Text)]) -> Result<Options, NoMemory>
    ensures { IfOk result (λ options. map pair_of options ≡ error_options pairs.now) }
{
    let mut options = Options::new(alloc);
    let key = ascii_text(alloc, "-errorcode")?;
    let value = error_code_in(alloc, pairs)?;
    options.push(Pair { key, value })?;
    add_others(alloc, &mut options, pairs)?;
    Ok(options)
}

// What `return` is asked for with this code, level and options.
fn make_return(
    alloc: Global,
    code: Code,
    level: u64,
    pairs: &[(Text, Text)],
) -> Result<Ret, NoMemory>
    ensures { IfOk result (IsReturn (record { code = code; level = level; options = pairs.now })) }
{
    let options = options_of(alloc, pairs)?;
    Ok(Ret {
        code,
        level,
        options,
    })
}

// What `return` is asked for, where options ask for an error.
fn make_error(alloc: Global, level: u64, pairs: &[(Text, Text)]) -> Result<Ret, NoMemory>
    ensures { IfOk result (IsReturn (asked_by Error level pairs.now)) }
{
    let options = error_options(alloc, pairs)?;
    Ok(Ret {
        code: Code::Error,
        level,
        options,
    })
}

// What `return` is asked for, where options ask for this.
fn finish(alloc: Global, code: Code, level: u64, pairs: &[(Text, Text)]) -> Result<Ret, NoMemory>
    requires { level < 2 ^ 63 }
    ensures { IfOk result (IsReturn (asked_by code level pairs.now)) }
{
    match code {
        Code::Ok => make_return(alloc, Code::Ok, level, pairs),
        Code::Error => make_error(alloc, level, pairs),
        Code::Return => make_return(alloc, Code::Ok, level + 1, pairs),
        Code::Break => make_return(alloc, Code::Break, level, pairs),
        Code::Continue => make_return(alloc, Code::Continue, level, pairs),
        Code::Other(n) => make_return(alloc, Code::Other(n), level, pairs),
    }
}

// Reads the words on top, which begin at a place, as those of `return`.
fn read_return(store: &mut Store, from: usize) -> Result<Ret, CmdFault>
    requires { from ≤ length store.old.stack }
    ensures { Reads (return_of (drop from store.old.stack)) IsReturn store.old store.new result }
{
    let wanted = read_options(store, from)?;
    let alloc = store.allocator();
    let ret = finish(alloc, wanted.code, wanted.level, wanted.others.as_slice())?;
    Ok(ret)
}

/// Reads the top `n` texts as the words of `return` behind the word of the call, which lies below
/// them: options with their values, and, where the words are odd in number, the result. `-code` and
/// `-level` settle code and level, `-options` stands for the options that are the pairs of a dict,
/// and each other name is an option of the outcome. Of two of one name the later counts. On `Ok` the
/// words stay.
///
/// `Message` comes for the first option, from the left, whose value isn't what it must be: that of
/// `-code` a code's name or a number of 32 bits, that of `-level` a whole number of 64 bits that
/// isn't negative, that of `-options` a dict. Then the message and the error code take the words'
/// place. After `NoMemory` every place has the text that it had. (Tcl: return(n).)
pub fn return_words(store: &mut Store, n: usize) -> Result<Ret, CmdFault>
    requires { n + 1 ≤ length store.old.stack }
    ensures { Understands (return_of (top n store.old.stack)) IsReturn n store.old store.new result }
{
    let height = store.height();
    match read_return(store, height - n) {
        Ok(ret) => Ok(ret),
        Err(kind) => Err(settle_refusal(store, n, height, kind)),
    }
}
