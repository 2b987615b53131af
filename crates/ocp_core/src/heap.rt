//! Where an event takes the memory of octets and reports.

ghost use Rattle.std.specs.Prelude.{◌≡◌, Bool, true, false, OnOk, OnErr};

use ocp_reports::{PacketList, SharedReports};
use ocp_world::Keeps;
use std::alloc::{AllocError, Allocator};
use std::marker::Model;

/// The allocator of the copy of a request's octets and of its reports, seen as whether it refused
/// some of their memory since this was made.
#[derive(Drop)]
pub struct Heap<A: Allocator> {
    pub(crate) alloc: A,
    refused: bool,
}

impl<A: Allocator> Model for Heap<A> {
    ghost Value = { Bool };

    ghost view = { λ h. h.refused };
}

impl<A: Allocator> Heap<A> {
    /// A heap that has refused nothing.
    pub fn new(alloc: A) -> Self
        ensures { result ≡ false }
    {
        Heap {
            alloc,
            refused: false,
        }
    }

    /// Returns what was made, and notes if its memory was refused.
    pub fn note<T>(&mut self, made: Result<T, AllocError>) -> Result<T, AllocError>
        ensures same { result ≡ made }
        ensures refused { OnErr result (self.new ≡ true) }
        ensures kept { OnOk result (self.new ≡ self.old) }
    {
        self.refused |= made.is_err();
        made
    }
}

/// Keeps a copy of the reports, with a handle for each who has them.
impl<A: Allocator + Copy> Keeps for Heap<A> {
    type Kept = SharedReports<A>;

    ghost holds = { λ kept packets. kept ≡ packets };

    ghost refused = { λ h. h };

    fn keep(&mut self, packets: PacketList<'_>) -> Result<SharedReports<A>, AllocError> {
        let made = SharedReports::of(self.alloc, packets);
        self.note(made)
    }
}
