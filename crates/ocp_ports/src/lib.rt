//! Where the commands read and write: sources and sinks that count their failed calls, whole inputs
//! and whole outputs. Also who does the work of a console's `work` lines.
#![tactic(auto)]

mod crew;
mod device;
mod fault;
mod input;
mod output;
mod ports;

pub use crew::{Crew, CrewFault};
pub use device::Device;
pub use fault::{ConsoleFault, MAX_LINE_OCTETS, MAX_LINES};
pub use input::{CHUNK, MAX_INPUT, read_whole};
pub use output::{error_text, write_whole};
pub use ports::{Sink, Source};
