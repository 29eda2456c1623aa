//! `show_steps`: each step of a run, one line for each turn. All that matters is in `run` of `step_printing`.
#![tactic(auto)]

use core_views::NoMemory;
use run_status::{Status, arguments};
use std::io;
use std::process::ExitCode;
use step_printing::run;
use tdp_io::{StdSink, StdSource};

fn main(rt: HostRuntime) -> ExitCode {
    let status = match arguments(&rt) {
        Ok(words) => {
            let mut src = StdSource::new(rt.reader());
            let mut out = StdSink::new(io::writer(&rt));
            run(rt.alloc(), &words, &mut src, &mut out)
        }
        Err(NoMemory) => Status::NoMemory,
    };
    ExitCode::from(status.code())
}
