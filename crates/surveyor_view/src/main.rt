//! The command `surveyor-view`: it hands the words of the command line, the files of the system, and standard output and
//! error to the viewer.
#![tactic(auto)]

use disk_file::{HostSink, HostSources};
use std::alloc::AllocError;
use std::env;
use std::process::ExitCode;
use view_top::view;

/// The status of want of memory.
const NO_MEMORY: u8 = 8;

/// The words of the command line. A command line that is no text has none.
fn words(rt: &HostRuntime) -> Result<Vec<String>, AllocError> {
    let mut words = Vec::new(rt.alloc());
    if let Ok(args) = env::args(rt) {
        for word in args {
            words.push(word)?;
        }
    }
    Ok(words)
}

fn main(rt: HostRuntime) -> ExitCode {
    let Ok(words) = words(&rt) else {
        return ExitCode::from(NO_MEMORY);
    };
    let mut sources = HostSources::new(&rt);
    let mut out = HostSink::stdout(&rt);
    let mut err = HostSink::stderr(&rt);
    ExitCode::from(view(rt.alloc(), &words, &mut sources, &mut out, &mut err))
}
