//! Tickets, and their works, that lines made.

use driver_lines::*;
use ocp_slices::{Ticket, Work};

/// The tickets that were not run, and the works that were not committed.
#[derive(Drop)]
pub(crate) struct Runs {
    tickets: Vec<Ticket>,
    works: Vec<Work>,
}

impl Runs {
    pub fn new(alloc: Global) -> Runs {
        Runs {
            tickets: Vec::new(alloc),
            works: Vec::new(alloc),
        }
    }

    /// Adds a ticket: its procedure.
    pub fn add(&mut self, alloc: Global, ticket: Ticket) -> Answer {
        let id = ticket.id();
        self.tickets.push(ticket)?;
        text_of(alloc, id)
    }

    /// Runs one of the tickets, if there are any: the procedure and the count of its work.
    pub fn run(&mut self, alloc: Global, which: usize, budget: u32) -> Answer {
        let work = some!(alloc, take_one(&mut self.tickets, which)).run(budget);
        let (id, count) = (work.id(), work.count());
        self.works.push(work)?;
        text!(alloc; id, count)
    }

    /// One of the works, if there are any.
    pub fn take_work(&mut self, which: usize) -> Option<Work> {
        take_one(&mut self.works, which)
    }
}

/// The one at an index, which is counted around, if there are any. The last one is put in its
/// place.
fn take_one<T: Drop>(all: &mut Vec<T>, which: usize) -> Option<T> {
    if all.is_empty() {
        return None;
    }
    let index = which % all.len();
    Some(all.swap_remove(index))
}
