//! What a procedure can never do, whatever it is started with and whatever the engine answers.
//!
//! `examine` looks for what is known at each slot of an image, a certificate. Nothing rests on that
//! search: `check` tests the certificate against each instruction, and its contract says what an
//! image with such a certificate never does.
#![tactic(auto)]

mod answers;
mod asks;
mod certificate;
mod checker;
mod counting;
mod covering;
mod examining;
mod finding;
mod form;
pub mod laws;
mod loading;
mod range;
mod ranking;
mod refusal;
mod rounds;
mod steps;
mod tying;
mod word;

pub use asks::check_pool;
pub use certificate::{Node, Row};
pub use checker::check;
pub use counting::{Counter, Rank};
pub use examining::{Findings, examine};
pub use form::{Form, Forms};
pub use range::{Range, Stride};
pub use refusal::{Refusal, Why};
pub use rounds::check_rounds;
pub use word::{Word, Words};
