//! Tickets, and their works, that earlier lines made.

use driver_lines::*;
use ocp_core::{Ticket, Work};

/// The tickets that there are, the first with the number 0, and the works; none in the place of one
/// that was used.
#[derive(Drop)]
pub(crate) struct Runs {
    tickets: Vec<Option<Ticket>>,
    works: Vec<Option<Work>>,
}

impl Runs {
    pub fn new(alloc: Global) -> Runs {
        Runs {
            tickets: Vec::new(alloc),
            works: Vec::new(alloc),
        }
    }

    /// Adds a ticket, and shows its number and its procedure.
    pub fn add_ticket(&mut self, alloc: Global, ticket: Ticket) -> Answer {
        let (number, id) = (self.tickets.len(), ticket.id());
        self.tickets.push(Some(ticket))?;
        text!(alloc; number, id)
    }

    /// Runs a ticket, and shows the number, the procedure and the count of its work.
    pub fn run(&mut self, alloc: Global, ticket: usize, budget: u32) -> Answer {
        let ticket = take_at(&mut self.tickets, ticket)?;
        self.add_work(alloc, ticket.run(budget))
    }

    fn add_work(&mut self, alloc: Global, work: Work) -> Answer {
        let (number, id, count) = (self.works.len(), work.id(), work.count());
        self.works.push(Some(work))?;
        text!(alloc; number, id, count)
    }

    /// The work of a number, once.
    pub fn work(&mut self, number: usize) -> Result<Work, Fault> {
        take_at(&mut self.works, number)
    }
}

/// The ticket or the work of a number, once.
fn take_at<T>(places: &mut [Option<T>], number: usize) -> Result<T, Fault> {
    let place = places.get_mut(number).ok_or(Fault::Syntax)?;
    place.take().ok_or(Fault::Syntax)
}
