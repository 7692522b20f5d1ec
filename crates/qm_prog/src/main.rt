//! The program `quadq`: the process, with its standard streams, handed to the top call.
#![tactic(auto)]

use qm_io::{ProcessLine, StdSink, StdSource};
use qm_top::run_process;
use std::process::ExitCode;

fn main(rt: HostRuntime) -> ExitCode {
    let line = ProcessLine::new(&rt);
    let mut input = StdSource::new(rt.reader());
    let mut out = StdSink::new(rt.stdout());
    let mut err = StdSink::new(rt.stderr());
    ExitCode::from(run_process(rt.alloc(), &line, &mut input, &mut out, &mut err))
}
