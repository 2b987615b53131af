//! What the checker of images shows of one machine, stated for flights: for every list of events
//! of every engine in which such an image is loaded.
#![tactic(auto)]

pub mod laws;
