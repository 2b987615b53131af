//! The console: a script of lines in, its transcript out.
#![tactic(auto)]

mod console;
mod debugging;
pub mod laws;
mod script;
mod sending;
mod text;
mod texts;

pub use script::run;
