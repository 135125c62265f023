//! The commands that evaluate no script: variables, channels, the end of a run, values and lists, and
//! the codes `break` and `continue`.
//!
//! The row of each command stands in specs/, as a computation over the words and the state. A call has
//! its words on top of the stack, the word of the call lowest, and leaves the result there in their
//! place. No command here takes a unit, and none but `puts` touches the outside.
#![tactic(auto)]

mod array_commands;
mod array_indices;
mod array_setting;
mod array_unsetting;
mod cell_commands;
mod channel_commands;
mod channels;
mod data_commands;
mod info_commands;
mod link_commands;
mod list_commands;
mod loop_commands;
mod misuse;
mod plain_commands;
mod results;
mod run_commands;
mod unset_commands;
mod variable_commands;

pub use cell_commands::CellCommand;
pub use data_commands::DataCommand;
pub use misuse::misused;
pub use plain_commands::{PlainCommand, run_plain};
pub use results::push_flag;
