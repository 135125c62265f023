//! What commands over values share: how a call replies, and how it reads its words.
//!
//! A data command is a call over a store. The words after the command's name are the top texts of its
//! stack, and the word of the call lies below them. On `Ok` the result takes the words' place; on a
//! refusal the message and the error code do. Which comes is said by the command's row, a definition
//! over the texts of the words: `Answers` says so of a call that touches no variable, and `VarAnswers`
//! of one that is handed a variable. After want of memory every place has the text that it had.
//!
//! A call goes by steps, which may leave further texts above the words: a step that reads a value
//! gives it or the row's refusal (`Reads`), and the last one leaves the result on top (`Leaves`).
//! `settle` ends the call: it puts what the steps left in place of the words.
//!
//! The layer promises this to the crates of data commands, none of which stands on another: words are
//! read as lists, places, whole numbers and options, and variables by their state, each with its one
//! refusal.
#![tactic(auto)]

mod comparing;
mod elements;
mod names;
mod numbers;
mod options;
mod replies;
mod values;
mod variables;
mod words;

pub use comparing::{Matching, fits_pattern};
pub use elements::{Elements, elements_of, push_elements};
pub use names::{NameShape, is_element, is_qualified, open_of};
pub use numbers::{
    check_index, clipped_behind, clipped_place, is_index, place_among, place_inside, place_of,
    place_within, whole_of,
};
pub use options::{OptionWords, Settings, read_options};
pub use replies::{
    cut, push_all, push_ascii, push_bytes, push_count, push_message, push_message_on, push_number,
    push_word, push_words, refuse, refuse_count, refuse_on, refuse_words, settle, settle_refusal,
};
pub use values::{know_text, list_len, refuse_list};
pub use variables::{give_text, read_variable, set_cell};
pub use words::{copy_of, make_place, make_word, word_at, word_is};
