//! The program `regent` as in regent_cli, for a stored run of a program that faults.
#![tactic(auto)]

use regent_run::regent_here;
use std::process::ExitCode;

fn main(rt: HostRuntime) -> ExitCode {
    ExitCode::from(regent_here(&rt, rt.stdout(), rt.stderr()))
}
