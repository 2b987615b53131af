//! Hostile use, by tests alone: growths of memory that are refused one after another, devices that
//! fail, threads that share one engine, and another board behind their lock. Apart from the tests
//! the crate has the allocator that refuses.
#![tactic(auto)]

#[cfg(test)]
mod boards;
#[cfg(test)]
mod console;
#[cfg(test)]
mod crews;
#[cfg(test)]
mod devices;
pub mod heap;
#[cfg(test)]
mod packets;
#[cfg(test)]
mod pairs;
#[cfg(test)]
mod scenes;
#[cfg(test)]
mod words;
