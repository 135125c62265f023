//! The commands of control: `eval`, `expr`, `for`, `foreach`, `if`, `lmap`, `switch` and `while`; and those
//! of codes, which end with one or see how a script ended: `catch`, `error`, `return`, `throw` and `try`.
//!
//! None of them evaluates anything. Each looks at its words, which are the top texts of a machine's
//! stack, the word of the call lowest, and says what it wants done; the evaluation performs that.
//! What it wants is said by its row in specs/, over the texts of the words alone. Words that fit no
//! form of the command are an error, and nothing but the stack changes in any case.
//!
//! What is done behind a script is a value, `Behind`; doing it evaluates nothing either, and wants no more
//! than a plan.
//!
//! The layer promises this to the table of commands, whatever else a machine keeps (`W`).
#![tactic(auto)]

mod behind;
mod call_plans;
mod catch_plans;
mod codes;
mod control;
mod each_plans;
mod error_plans;
mod if_plans;
mod level_plans;
mod levels;
mod misuse;
mod outcomes;
mod return_plans;
mod script_plans;
mod switch_plans;
mod try_plans;
mod while_plans;
mod words;

pub use behind::{Behind, finish_behind, hand_on};
pub use call_plans::plan_call;
pub use catch_plans::{finish_catch, plan_catch};
pub use codes::{CodeCommand, plan_code};
pub use control::{ControlCommand, plan_control};
pub use each_plans::{plan_foreach, plan_lmap};
pub use error_plans::{plan_error, plan_throw};
pub use if_plans::plan_if;
pub use level_plans::plan_uplevel;
pub use levels::outcome_of;
pub use outcomes::{carried_options, code_of, options_of};
pub use return_plans::plan_return;
pub use script_plans::{plan_eval, plan_expr};
pub use switch_plans::plan_switch;
pub use try_plans::{finish_body, finish_handler, finish_last, plan_try};
pub use while_plans::{plan_for, plan_while};
pub use words::Words;
