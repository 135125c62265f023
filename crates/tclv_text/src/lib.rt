//! Texts and their readers, the base of the shell; and want of memory and the counters of the value
//! layer.
//!
//! A text is a list of code points; its bytes are their UTF-8. All layers above speak of texts by
//! their code points, and lend them as byte slices that are valid UTF-8. This crate reads what a text
//! is: its elements as a list ([`split_list`]), its whole number ([`whole`]), truth value ([`truth`])
//! and place in a list ([`index_of`]), its escapes ([`unescape`], [`backslash`]), and the signs that
//! a script's grammar looks for ([`Cursor`]). It tells whether a glob pattern fits a text
//! ([`glob_match`]) and whether two texts are the same, in their case or in any ([`is_same_text`],
//! [`is_ascii_word`], [`fold_char`]); it trims white space ([`trim_space`], [`trim_unescaped`]); and
//! it writes the text of a list's element ([`quote`]) and of a number ([`whole_text`]). White space,
//! trimming and folding of case come from here alone. Each reader's contract says its exact answer
//! by a definition over code points; [`laws`] says what the definitions keep.
#![tactic(auto)]

mod characters;
mod counters;
mod cursors;
mod escapes;
mod globs;
mod indices;
pub mod laws;
mod lists;
mod memory;
mod numbers;
mod quotes;
mod texts;
mod trims;
mod truths;
mod words;

pub use counters::Stats;
pub use cursors::{Cursor, Sign};
pub use escapes::{backslash, unescape};
pub use globs::glob_match;
pub use indices::{IndexFault, index_of};
pub use lists::{ListFault, Span, Spans, split_list};
pub use memory::NoMemory;
pub use numbers::{WholeFault, whole, whole_text};
pub use quotes::quote;
pub use texts::{Text, as_str};
pub use trims::{trim_space, trim_unescaped};
pub use truths::truth;
pub use words::{fold_char, is_ascii_word, is_same_text};
