//! The end of a book: whether all seats are back, and their receipts are the journal.

ghost use Rattle.std.specs.Prelude.{◌≡◌, ◌≢◌, ◌≤◌, ◌<◌, ◌==◌, ◌↔◌, ℕ, All, IfErr, IfOk, IsTrue, MatchOption, count_by, drop, length, map, slice_index, slice_index_or};
ghost use Rattle.ocp_core.specs.Clauses.{entries_with_marks, entry_with_mark};
ghost use Rattle.ocp_seats.specs.Going.{GoesOn};
ghost use Rattle.ocp_seats.specs.Closing.{IsWhole, IsReceipted, RefusesClose};
ghost use Rattle.ocp_seats.specs.History.{IsHistory};

use crate::{Book, Engine, Entry, MAX_SEATS, Naming, Seat};
use std::alloc::{Allocator, Global};
use thiserror::Error;

/// Why a book is not closed, in this order.
#[derive(Clone, Copy, PartialEq, Eq, Debug, Error)]
pub enum CloseFault {
    #[error("the seats are not those that the book gave out, each once")]
    MissingSeat,
    /// An entry since the start is by none of the seats, or the receipts of a seat are not its
    /// entries with their marks.
    #[error("the receipts are not the journal")]
    ReceiptMismatch,
}

/// A book that is not closed, with the seats that were given back.
#[derive(Drop)]
pub struct NotClosed<L: Naming, A: Allocator = Global> {
    pub why: CloseFault,
    pub book: Book<L, A>,
    pub seats: Vec<Seat<L, A>, A>,
}

impl<L: Naming, A: Allocator> Book<L, A> {
    /// The engine, whose journal is the one at the start, followed by the entries of the seats.
    /// Refused, in this order, if the seats are not those given out, each once, and if an entry
    /// since the start is by none of them or a seat's receipts are not its entries with their
    /// marks, in order. Then the book and the seats come back.
    pub fn close(self, seats: Vec<Seat<L, A>, A>) -> Result<Engine<A>, NotClosed<L, A>>
        ensures ok { IfOk result (λ engine. engine ≡ self.engine) }
        ensures whole { IfOk result (λ _. IsWhole seats.items self.seats) }
        ensures history { IfOk result (λ _. IsHistory self.engine self.start seats.items) }
        ensures goes_on { IfOk result (λ engine. GoesOn L.log engine) }
        ensures start { IfOk result (λ _. self.start ≡ length L.log.entries) }
        ensures back { IfErr result (λ refused. (refused.book ≡ self) × (refused.seats ≡ seats)) }
        ensures err { IfErr result (λ refused. RefusesClose self.seats
            (drop self.start (entries_with_marks self.engine)) seats.items refused.why) }
    {
        let why = if !is_whole(seats.as_slice(), self.seat_count()) {
            CloseFault::MissingSeat
        } else if !is_receipted(self.since(), seats.as_slice(), self.seat_count()) {
            CloseFault::ReceiptMismatch
        } else {
            return Ok(self.into_engine());
        };
        Err(NotClosed {
            why,
            book: self,
            seats,
        })
    }
}

/// Whether the seats are those with the numbers 1 to `handed_out`, each once.
fn is_whole<L: Naming, A: Allocator>(seats: &[Seat<L, A>], handed_out: u16) -> bool
    ensures { IsTrue result ↔ IsWhole seats.now handed_out }
{
    if seats.len() != usize::from(handed_out) {
        return false;
    }
    for seat in seats {
        if seat.number() == 0 || seat.number() > handed_out {
            return false;
        }
    }
    for number in 1..=handed_out {
        if count_number(seats, number) != 1 {
            return false;
        }
    }
    true
}

fn count_number<L: Naming, A: Allocator>(seats: &[Seat<L, A>], number: u16) -> usize
    ensures { result ≡ count_by (λ s. s.number == number) seats.now }
{
    seats.iter().filter(|s| s.number() == number).count()
}

fn seat_of<'a, L: Naming, A: Allocator>(
    seats: &'a [Seat<L, A>],
    number: u16,
) -> Option<&'a Seat<L, A>>
    ensures { MatchOption result (All (λ s. s.number ≢ number) seats.now)
        (λ s. (s.now.number ≡ number)
        × ((i : ℕ) × (i < length seats.now) × (s.now ≡ slice_index_or seats.now i s.now))) }
{
    seats.iter().find(|s| s.number() == number)
}

/// A place in the receipts of each seat, by the seat's number: the first one.
fn first_places() -> [usize; MAX_SEATS as usize + 1]
    ensures { (k : ℕ) → slice_index result k ≡ 0 }
{
    [0; MAX_SEATS as usize + 1]
}

/// Whether each entry is by one of the seats, and each seat's receipts are its entries. One walk
/// over the entries decides it, with a place kept in the receipts of each seat.
#[tactic(auto, using(crate::proofs::Walks::none_walked))]
fn is_receipted<L: Naming, A: Allocator>(
    entries: &[Entry<A>],
    seats: &[Seat<L, A>],
    handed_out: u16,
) -> bool
    requires whole { IsWhole seats.now handed_out }
    requires most { handed_out ≤ 64 }
    ensures { IsTrue result ↔ IsReceipted (map entry_with_mark entries.now) seats.now }
{
    let mut places = first_places();
    for entry in entries {
        let Some(seat) = seat_of(seats, entry.by()) else {
            return false;
        };
        let number = usize::from(entry.by());
        if !seat.has_at(places[number], entry) {
            return false;
        }
        places[number] += 1;
    }
    for seat in seats {
        if places[usize::from(seat.number())] != seat.receipts().len() {
            return false;
        }
    }
    true
}
