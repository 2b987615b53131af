//! What procedures share, and what they are sent: the pool of words, a procedure's mailbox, and the
//! engine calls that use them.
#![tactic(auto)]

mod call;
mod engine;
mod mailbox;
mod pool;

pub use call::{Called, PoolFault, PoolOperation};
pub use engine::engine_call;
pub use mailbox::{MAX_MAILBOX_WORDS, Mailbox};
pub use ocp_profile::MAX_POOL_WORDS;
pub use pool::Pool;
