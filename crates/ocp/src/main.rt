//! `ocp`: an engine for on-board control procedures on its ground console.
//!
//! It does the job that its words ask for: a command, from a source to a sink, the exit status, and
//! on standard error a hint if an input is refused.
#![tactic(auto)]

mod hint;
mod kept;
mod performing;
mod status;
mod words;

use kept::KeptSource;
use ocp_ports::Device;
use ocp_slices::Threaded;
use performing::perform;
use std::process::ExitCode;
use words::{job_of_words, refuse_words};

fn main(rt: HostRuntime) -> ExitCode {
    match job_of_words(&rt) {
        Ok(job) => {
            let crew = Threaded {
                rt: &rt,
                alloc: rt.alloc(),
            };
            let input = Device {
                inner: rt.stdin(),
                failed: 0,
            };
            let mut writer = Device {
                inner: rt.stdout(),
                failed: 0,
            };
            let mut reader = KeptSource::for_job(rt.alloc(), job, input);
            perform(&rt, &crew, job, &mut reader, &mut writer)
        }
        Err(fault) => refuse_words(&rt, fault),
    }
}
