//! The program `trace_view`: from a trace on the standard input to its picture on the standard output.
#![tactic(auto)]

use run_io::{StdSink, StdSource};
use std::process::ExitCode;
use trace_picture::view_trace;

fn main(rt: HostRuntime) -> ExitCode {
    let mut source = StdSource::new(rt.stdin());
    let mut out = StdSink::new(rt.stdout());
    let mut err = StdSink::new(rt.stderr());
    ExitCode::from(view_trace(rt.alloc(), &mut source, &mut out, &mut err))
}
