//! The words of commands of control, as far as they need no evaluation.
//!
//! Each call reads the words that stand on top of a store's stack, behind the word of the call, and
//! gives what they ask for: of `switch` and `try` a plan, whose places have the texts that it is
//! about; of `proc` the procedure, of a call of a procedure one text a parameter in place of its words,
//! and of `return` the code, the level and the options. What the words ask for is said by the command's
//! definition, over their texts alone, and so is each refusal: it comes exactly there, and its message
//! and its error code take the words' place.
//!
//! The clauses of `switch` are then compared with the string. A refusal has the kinds of those of data
//! commands, `CmdFault` of `tclv_model`.
//!
//! The layer promises this to the shell that evaluates scripts, which runs the plans.
#![tactic(auto)]

mod arguments;
mod choosing;
mod codes;
mod dicts;
mod handlers;
mod procedures;
mod returns;
mod switching;
mod trapping;
mod words;

pub use arguments::bind;
pub use choosing::chosen_body;
pub use handlers::{Condition, HandlerPlaces, TryPlan, try_clauses};
pub use procedures::proc_def;
pub use returns::{Ret, return_words};
pub use switching::{ClausePlaces, SwitchPlan, switch_clauses};
pub use trapping::chosen_handler;
