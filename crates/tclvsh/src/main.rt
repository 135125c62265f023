//! The program `tclvsh`: runs a script file over the real files and streams.
//!
//! It hands the words of the command line to `tclv_shell::run`, whose contract says what a run
//! writes, and ends with the status that it gives. Words that aren't UTF-8 are in no form, so there
//! are no words then and the run ends with the usage line.
#![tactic(auto)]

use std::env;
use std::env::Env;
use std::io::ErrorKind;
use std::process::ExitCode;
use tclv_io::RealOutside;
use tclv_shell::run;
use tclv_text::NoMemory;

/// The status of a run that ended for want of memory.
const OUT_OF_MEMORY: u8 = 123;

// The words behind the program's name, or none where one isn't UTF-8.
fn command_words<R: Env + AllocGlobal>(rt: &R) -> Result<Vec<String>, NoMemory> {
    let mut words = Vec::new(rt.alloc());
    match env::args(rt) {
        Ok(args) => {
            for word in args.skip(1) {
                words.push(word)?;
            }
            Ok(words)
        }
        Err(e) if e.kind() == ErrorKind::OutOfMemory => Err(NoMemory),
        Err(_) => Ok(words),
    }
}

fn main(rt: HostRuntime) -> ExitCode {
    let alloc = rt.alloc();
    let Ok(words) = command_words(&rt) else {
        return ExitCode::from(OUT_OF_MEMORY);
    };
    let errors = rt.stderr();
    let mut out = RealOutside::new(rt, errors, alloc);
    let report = run(alloc, &words, &mut out);
    ExitCode::from(report.status)
}
