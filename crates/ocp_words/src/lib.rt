//! The command line of `ocp`: its words in, the job that they ask for out.
#![tactic(auto)]

mod command;
mod help;
mod job;
mod reading;

pub use job::{CheckSettings, Job, Settings, WordsFault};
pub use reading::{not_utf8, read_given, read_words};
