//! The book of a shared engine.

ghost use Rattle.std.specs.Prelude.{◌≡◌, ◌≤◌, ◌+◌, None, IfOk, IfErr, OnOk, OnErr, drop, length, map};
ghost use Rattle.ocp_core.specs.Clauses.{entries_with_marks, entry_with_mark};
ghost use Rattle.ocp_seats.specs.Going.{GoesOn};
ghost use Rattle.ocp_seats.specs.Seats.{BookContents, HandsOut, Opens, RefusesSeat};
ghost use Rattle.ocp_seats.specs.Taking.{Takes, RefusesTake};
ghost use Rattle.ocp_seats.specs.Mirror.Codes.{book_code};

use crate::{Engine, Entry, MAX_SEATS, Naming, Seat, SeatFault, Ticket};
use std::alloc::{Allocator, Global};
use std::marker::Model;
use std::sync::ledger;
use std::sync::ledger::{Blank, Share};
use thiserror::Error;

/// An engine with the counts for its seats: the procedure taken last by any seat, the number of its
/// entries at the start, the number of seats given out, the count of the entries since, and the
/// share that is not given out. The fields that each turn writes come first, next to the lock.
pub struct Book<L: Naming, A: Allocator = Global> {
    taken: Option<u16>,
    pub(crate) engine: Engine<A>,
    start: usize,
    seats: u16,
    pub(crate) tally: ledger::Book<L>,
    rest: Share<L>,
}

/// Kept as one call: the proof of each caller is then shorter.
impl<L: Naming, A: Allocator> Drop for Book<L, A> {
    fn drop(self) {
        let _engine = self.into_engine();
    }
}

impl<L: Naming, A: Allocator> Model for Book<L, A> {
    ghost Value = { BookContents };

    ghost coded = { book_code };

    ghost view = { λ b. record {
      engine = b.engine;
      start = b.start;
      seats = b.seats;
      taken = b.taken;
      count = b.tally.total;
    } };

    ghost invariant = { λ b. (length b.engine.entries ≡ b.start + b.tally.total)
        × (b.engine.capacity ≡ b.start + L.room) × (b.rest.parts + b.seats ≡ 65)
        × (b.rest.amount ≡ 0) × (b.seats ≤ 64)
        × (b.start ≡ length L.log.entries) × GoesOn L.log b.engine };
}

impl<L: Naming, A: Allocator> Book<L, A> {
    /// A book that counts the entries after those of the engine, with the blank of a ledger of 65
    /// parts. Its name has the engine's room and its journal.
    pub fn new(engine: Engine<A>, blank: Blank) -> Self
        requires { Opens blank.name blank.parts L.name L.parts L.room L.log engine }
        ensures engine { result.engine ≡ engine }
        ensures start { result.start ≡ length engine.entries }
        ensures seats { result.seats ≡ 0 }
        ensures taken { result.taken ≡ None }
        ensures count { result.count ≡ 0 }
    {
        let (tally, rest) = blank.open::<L>();
        let start = engine.journal().len();
        Book {
            engine,
            start,
            seats: 0,
            taken: None,
            tally,
            rest,
        }
    }

    /// The next seat, whose receipts have room for each entry that may come after the book's start.
    /// Refused, in this order, if all 64 seats are given out, and if there is no memory for the
    /// receipts; then nothing is changed.
    pub fn seat(&mut self, alloc: A) -> Result<Seat<L, A>, SeatFault>
        ensures ok { IfOk result (λ seat. HandsOut self.old self.new seat) }
        ensures err { IfErr result (λ why. (self.new ≡ self.old) × RefusesSeat self.old why) }
    {
        if self.seats == MAX_SEATS {
            return Err(SeatFault::SeatsFull);
        }
        let room = self.engine.journal().capacity() as usize - self.start;
        let Ok(receipts) = Vec::with_capacity(alloc, room) else {
            return Err(SeatFault::Memory);
        };
        self.seats += 1;
        let share = self.rest.split_off(1, 0);
        Ok(Seat {
            number: self.seats,
            share,
            receipts,
        })
    }

    /// A ticket for the next running procedure after the one that was taken last. It becomes the
    /// one taken last. Refused, in this order, if none runs and if there is no memory for its
    /// ticket; then nothing is changed.
    pub fn take(&mut self, alloc: A) -> Result<Ticket<A>, TakeFault>
    where
        A: Copy,
        ensures ok { IfOk result (λ ticket. Takes self.old self.new ticket) }
        ensures err { IfErr result (λ why. (self.new ≡ self.old) × RefusesTake self.old why) }
    {
        let Some(id) = self.engine.next_running(self.taken) else {
            return Err(TakeFault::NoneRunning);
        };
        let ticket = match self.engine.ticket(alloc, id) {
            Ok(ticket) => ticket.unwrap(),
            Err(_) => return Err(TakeFault::Memory),
        };
        self.taken = Some(id);
        Ok(ticket)
    }

    /// As `take`, into an existing ticket, which stays if the call is refused. If the ticket's
    /// machine has the addresses of the procedure's, the ticket keeps its memory and no memory is
    /// asked for.
    pub fn take_into(&mut self, alloc: A, ticket: &mut Ticket<A>) -> Result<(), TakeFault>
    where
        A: Copy,
        ensures ok { OnOk result (Takes self.old self.new ticket.new) }
        ensures err { IfErr result (λ why. (self.new ≡ self.old) × RefusesTake self.old why) }
        ensures kept { OnErr result (ticket.new ≡ ticket.old) }
    {
        let Some(next) = self.engine.next_running(self.taken) else {
            return Err(TakeFault::NoneRunning);
        };
        if !self.engine.ticket_into(next, ticket) {
            *ticket = self.take(alloc)?;
            return Ok(());
        }
        self.taken = Some(next);
        Ok(())
    }

    /// The engine.
    pub fn engine(&self) -> &Engine<A>
        ensures { result.now ≡ self.now.engine }
    {
        &self.engine
    }

    /// How many seats were given out.
    pub fn seat_count(&self) -> u16
        ensures value { result ≡ self.now.seats }
        ensures most { result ≤ 64 }
    {
        self.seats
    }

    /// The entries since the start.
    pub(crate) fn since(&self) -> &[Entry<A>]
        ensures { map entry_with_mark result.now
            ≡ drop self.now.start (entries_with_marks self.now.engine) }
    {
        &self.engine.journal().entries()[self.start..]
    }

    /// The engine, without the counts for its seats.
    pub fn into_engine(self) -> Engine<A>
        ensures { result ≡ self.engine }
    {
        let Self {
            engine,
            taken: _,
            start: _,
            seats: _,
            tally: _,
            rest: _,
        } = self;
        engine
    }
}

/// Why no procedure is taken, in this order.
#[derive(Clone, Copy, PartialEq, Eq, Debug, Error)]
pub enum TakeFault {
    #[error("no procedure is running")]
    NoneRunning,
    #[error("out of memory")]
    Memory,
}
