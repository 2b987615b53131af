//! The lines of a console script: a source in, its lines out, and the octets of a line in, its
//! command out.
#![tactic(auto)]

mod command;
mod help;
mod lines;
mod reading;
mod verbs;
mod words;

pub use command::{
    Command, Count, Flags, MAX_BUDGET, MAX_MEMORY_LENGTH, MAX_OCTETS_LENGTH, MAX_STEPS, MAX_TURNS,
    MAX_WORKERS, Shift,
};
pub use help::SCRIPT_HELP;
pub use lines::Lines;
pub use reading::read_command;
pub use words::next_word;
