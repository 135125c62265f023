//! The evaluation of scripts, in which no command stands.
//!
//! The meaning of a script stands in specs/: a state, what a computation of the meaning gives, the
//! substitution of words, the value of expressions, loops, and the evaluation of scripts. Values are
//! texts there. A command evaluates nothing: it looks at its words and the state, and says what it
//! wants done; the evaluation performs that. The commands and the tables that they keep are handed in
//! by the trait `Host`. The code walks trees of scripts and keeps values in a store, where they are
//! shared.
#![tactic(auto)]

mod each_groups;
mod each_loops;
mod endings;
mod evaluation;
mod expanding;
mod expression_texts;
mod expressions;
mod faults;
mod frames;
mod functions;
mod host;
pub mod laws;
mod links;
mod list_assignment;
mod loops;
mod machine;
mod messages;
mod named_cells;
mod operations;
mod performing;
mod plans;
mod pushing;
mod raising;
mod refusing;
mod tested_loops;
mod units;
mod values;
mod variables;
mod whole_numbers;

pub use each_groups::{Group, Groups};
pub use endings::{Carried, End, Ended, Leaving};
pub use host::Host;
pub use links::is_level;
pub use machine::Machine;
pub use messages::message_text;
pub use named_cells::{link_named, missing_named, read_named, take_back_named, write_named};
pub use plans::{Branch, Branches, Inner, Plan, Way};
pub use raising::error_texts;
pub use values::Values;
pub use variables::element_name;
