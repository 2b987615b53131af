//! Seats.

ghost use Rattle.std.specs.Prelude.{◌≡◌, ◌↔◌, ◌<◌, ◌≤◌, ◌+◌, ◌^◌, [], ◌∷◌, ℕ, IsTrue, Some, length, map, slice_get, vec_capacity, vec_len};
ghost use Rattle.ocp_core.specs.Clauses.{Log, empty_log, entry_with_mark};
ghost use Rattle.ocp_seats.specs.Seats.{Gains, SeatContents};
ghost use Rattle.ocp_profile.specs.declared.profile.Profile.TheVariants.{One};
ghost use Rattle.ocp_seats.specs.Mirror.Codes.{seat_code};

use ocp_core::{Engine, Entry};
use std::alloc::{Allocator, Global};
use std::marker::{Brand, Model};
use std::sync::ledger::{Book, Ledger, Share};
use thiserror::Error;

/// How many seats one book gives out at most.
pub const MAX_SEATS: u16 = 64;

/// Which shared engine it is: how many entries it has room for after its start, and its journal at
/// the start.
pub trait Naming: Ledger {
    ghost room: { ℕ };

    ghost log: { Log };
}

impl Naming for Brand {
    ghost room = { 0 };

    ghost log = { empty_log One 0 0 0 };
}

/// A seat at a shared engine: its number, its part in the count of the engine's entries, and a
/// receipt for each entry that its calls appended.
pub struct Seat<L: Naming, A: Allocator = Global> {
    pub(crate) number: u16,
    pub(crate) share: Share<L>,
    pub(crate) receipts: Vec<Entry<A>, A>,
}

/// Kept as one call: the proof of each caller is then shorter.
impl<L: Naming, A: Allocator> Drop for Seat<L, A> {
    fn drop(self) {
        let Self {
            number: _,
            share: _,
            receipts: _,
        } = self;
    }
}

impl<L: Naming, A: Allocator> Model for Seat<L, A> {
    ghost Value = { SeatContents };

    ghost coded = { seat_code };

    ghost view = { λ s. record {
      number = s.number;
      receipts = map entry_with_mark s.receipts.items;
      share = s.share.amount;
    } };

    ghost invariant = { λ s. (s.share.parts ≡ 1) × (s.share.amount ≡ vec_len s.receipts)
        × (L.room ≤ vec_capacity s.receipts) };
}

impl<L: Naming, A: Allocator> Seat<L, A> {
    /// 1, 2 and so on, in the order in which the book gave the seats out.
    pub fn number(&self) -> u16
        ensures { result ≡ self.now.number }
    {
        self.number
    }

    /// A receipt for each entry that the seat's calls appended, the oldest first: a copy of the
    /// entry with its mark.
    pub fn receipts(&self) -> &[Entry<A>]
        ensures value { map entry_with_mark result.now ≡ self.now.receipts }
        ensures length { length result.now ≡ length self.now.receipts }
    {
        self.receipts.as_slice()
    }

    /// Whether the receipt at a place is that of an entry.
    pub(crate) fn has_at(&self, place: usize, entry: &Entry<A>) -> bool
        ensures same { IsTrue result ↔
            (slice_get self.now.receipts place ≡ Some (entry_with_mark entry.now)) }
        ensures below { IsTrue result → place + 1 < 2 ^ 64 }
    {
        if place >= self.receipts.len() {
            return false;
        }
        self.receipts[place].is_same(entry)
    }

    /// Counts an entry that the engine's journal gained by a call of the seat, and keeps its
    /// receipt.
    pub(crate) fn gain(&mut self, tally: &mut Book<L>, engine: &Engine<A>, entry: Entry<A>)
        requires { length engine.now.entries + L.room ≡
            engine.now.capacity + (tally.old.total + 1) }
        ensures tally { tally.new.total ≡ tally.old.total + 1 }
        ensures seat { Gains self.old self.new (entry_with_mark entry ∷ []) }
    {
        tally.add(&mut self.share, 1);
        tally.audit(&mut self.share);
        // There are no more entries than the capacity, by the contract of `len`.
        let _within = engine.journal().len();
        self.receipts.push_reserved(entry);
    }
}

/// Why no seat is given out, in this order.
#[derive(Clone, Copy, PartialEq, Eq, Debug, Error)]
pub enum SeatFault {
    #[error("all seats are given out")]
    SeatsFull,
    #[error("out of memory")]
    Memory,
}
