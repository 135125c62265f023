//! The list commands that touch only values.
//!
//! Each command is a call over a store. The words after the command's name are the top texts of its
//! stack, and the word of the call lies below them. On `Ok` the result takes the words' place. On a
//! refusal the message and the error code do. What comes is said by the command's row, a definition
//! over the texts of the words, and it comes exactly there. All other places keep their texts.
//!
//! The layer promises this to the shell that evaluates scripts, which knows of each command its row
//! alone.
#![tactic(auto)]

mod changing;
mod joining;
mod making;
mod paths;
mod points;
mod reading;
mod searching;
mod sequences;
mod setting;
mod sorting;
mod variables;

pub use changing::{cmd_linsert, cmd_lremove, cmd_lreplace, cmd_lreverse};
pub use joining::{cmd_concat, cmd_join, cmd_split};
pub use making::{cmd_list, cmd_lrepeat};
pub use reading::{cmd_lindex, cmd_llength, cmd_lrange};
pub use searching::cmd_lsearch;
pub use sequences::cmd_lseq;
pub use setting::{cmd_lpop, cmd_lset};
pub use sorting::cmd_lsort;
pub use variables::cmd_lappend;
