//! Answers as texts.

use crate::reading::Fault;
use std::alloc::Global;
use std::fmt::{self, Debug, Display};

/// The text that a call is answered.
pub type Answer = Result<String, Fault>;

/// What a value shows.
pub fn text_of<D: Display + Drop>(alloc: Global, value: D) -> Answer {
    Ok(String::format(alloc, value)?)
}

/// A value that is shown by the name of its variant.
#[derive(Clone, Copy)]
pub struct Named<D>(pub D);

impl<D: Debug> Display for Named<D> {
    fn fmt<W: fmt::Write>(&self, f: &mut fmt::Formatter<W>) -> fmt::Result {
        write!(f, "{:?}", self.0)
    }
}

/// Two values, with a space between them.
#[derive(Clone, Copy)]
pub struct Both<A, B>(pub A, pub B);

impl<A: Display, B: Display> Display for Both<A, B> {
    fn fmt<W: fmt::Write>(&self, f: &mut fmt::Formatter<W>) -> fmt::Result {
        write!(f, "{} {}", self.0, self.1)
    }
}

/// The name of a variant.
pub fn name_of<D: Debug + Drop>(alloc: Global, value: D) -> Answer {
    text_of(alloc, Named(value))
}

/// `Ok`, or the name of the fault.
pub fn show_done<E: Debug + Drop>(alloc: Global, done: Result<(), E>) -> Answer {
    match done {
        Ok(()) => text_of(alloc, "Ok"),
        Err(fault) => name_of(alloc, fault),
    }
}
