//! The program `regent`: executes the command in the words of its command line.
#![tactic(auto)]

use regent_run::regent_here;
use std::process::ExitCode;

fn main(rt: HostRuntime) -> ExitCode {
    ExitCode::from(regent_here(&rt, rt.stdout(), rt.stderr()))
}
