//! `tdpmmu`: a KVM guest's second-stage memory, run from a trace of guest
//! accesses. Everything that matters is in `run`.
#![tactic(auto)]

mod command;
mod program;

use core_views::NoMemory;
use program::run;
use run_status::{Status, arguments};
use std::io;
use std::process::ExitCode;
use tdp_io::{NoGate, StdSink, StdSource};

fn main(rt: HostRuntime) -> ExitCode {
    let status = match arguments(&rt) {
        Ok(words) => {
            let mut src = StdSource::new(rt.reader());
            let mut out = StdSink::new(io::writer(&rt));
            run(&rt, rt.alloc(), &words, &mut src, &mut out, &NoGate)
        }
        Err(NoMemory) => Status::NoMemory,
    };
    ExitCode::from(status.code())
}

#[cfg(test)]
mod gates;
#[cfg(test)]
mod limits;
#[cfg(test)]
mod tests;
