//! The top call: from the words of a command line to the bytes written and the exit status.
//!
//! `run` promises the headline of this project: for every script, arguments and files, the bytes
//! written, the files left and the exit status are those of the meaning; a device's fault or want
//! of memory ends the run after a prefix of that meaning's writes. The program `tclvsh` calls it.
#![tactic(auto)]

mod arguments;
mod file_ends;
mod final_messages;
mod halts;
mod script_ends;
mod script_files;
mod script_texts;
mod scripts;
mod top_call;
mod words;

pub use top_call::run;
