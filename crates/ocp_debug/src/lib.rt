//! The debugger: breakpoints, the trace flag, views, memory, and the trace of the last 256
//! instructions, with their texts.
#![tactic(auto)]

mod breakpoints;
mod command;
mod commands;
pub mod laws;
mod reading;
mod ring;
mod stepping;
mod text;
mod texts;
mod trace;

pub use command::{Command, DebugFault};
pub use commands::{Decided, Setting, apply, clear_break, decide, enact, set_break, set_trace};
pub use ocp_table::{MAX_BREAKPOINTS, StepOutcome, View};
pub use reading::{memory, view};
pub use ring::TraceRing;
pub use stepping::instruction;
pub use text::{push_outcome, push_spaced_word};
pub use texts::{trace_text, view_text};
pub use trace::{TRACE_RECORDS, Trace};
