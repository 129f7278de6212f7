//! The program: lines on standard input, reports on standard output. What it promises stands on `run_program` of
//! `cell_session`; here that is tied to the process.
#![tactic(auto)]

use cell_session::{Cluster, run_program, words_of};
use io_ends::{StdSink, StdSource};
use std::process::ExitCode;
use std::{env, mem};

fn main(rt: HostRuntime) -> ExitCode {
    let mut cluster = Cluster::empty(rt.alloc());
    let code = run_program(
        &rt,
        rt.alloc(),
        words_of(rt.alloc(), env::args(&rt)),
        &mut StdSource::new(rt.stdin()),
        &mut StdSink::new(rt.stdout()),
        &mut cluster,
    );
    // the process ends here, and what the lanes hold goes with it
    mem::forget(cluster);
    code
}
