//! Octets and reports that are kept, each with several handles.

ghost use Rattle.std.specs.Prelude.{◌≡◌, ◌↔◌, ℕ, List, ◌==◌, All, IsTrue, IfOk, length};
ghost use Rattle.std.specs.Arc.{arc_value};
ghost use Rattle.ocp_reports.specs.Packets.{IsTelemetryPacket};

use crate::PacketList;
use std::alloc::{AllocError, Allocator, Global};
use std::marker::Model;
use std::sync::Arc;

/// Octets that are kept, seen as their list. All handles of the same octets share one memory.
#[derive(Drop)]
pub struct Octets<A: Allocator = Global> {
    octets: Arc<Vec<u8, A>, A>,
}

impl<A: Allocator> Model for Octets<A> {
    ghost Value = { List ℕ };

    ghost view = { λ o. (arc_value o.octets).items };
}

impl<A: Allocator> Octets<A> {
    /// A copy of borrowed octets.
    pub fn copy_of(alloc: A, octets: &[u8]) -> Result<Self, AllocError>
    where
        A: Copy,
        ensures { IfOk result (λ copy. copy ≡ octets.now) }
    {
        let octets = Vec::from_slice(alloc, octets)?;
        Ok(Octets {
            octets: Arc::new(alloc, octets)?,
        })
    }

    /// One more handle. It takes no memory, and is refused if 2^63 - 1 share the octets.
    pub fn share(&self) -> Result<Self, AllocError>
        ensures { IfOk result (λ handle. handle ≡ self.now) }
    {
        Ok(Octets {
            octets: Arc::try_clone(&self.octets)?,
        })
    }

    pub fn as_slice(&self) -> &[u8]
        ensures { result.now ≡ self.now }
    {
        self.octets.as_slice()
    }

    /// Whether they are the same octets, by value.
    pub fn is_same(&self, other: &Self) -> bool
        ensures { IsTrue result ↔ (self.now ≡ other.now) }
    {
        self.as_slice() == other.as_slice()
    }
}

/// A packet of reports that are kept, seen as its octets.
#[derive(Drop)]
pub struct Packet<A: Allocator = Global> {
    content: Vec<u8, A>,
}

impl<A: Allocator> Model for Packet<A> {
    ghost Value = { List ℕ };

    ghost view = { λ p. p.content.items };
}

impl<A: Allocator> Packet<A> {
    pub fn as_slice(&self) -> &[u8]
        ensures { result.now ≡ self.now }
    {
        self.content.as_slice()
    }

    fn is_same(&self, other: &Self) -> bool
        ensures { IsTrue result ↔ (self.now ≡ other.now) }
    {
        self.as_slice() == other.as_slice()
    }
}

/// The reports of one request or drain, each a whole telemetry packet, in the order in which they
/// are sent. All handles of the same reports share one memory.
pub struct Reports<A: Allocator = Global> {
    packets: Arc<Vec<Packet<A>, A>, A>,
}

/// Kept as one call: the proof of each caller is then shorter.
impl<A: Allocator> Drop for Reports<A> {
    fn drop(self) {
        let Self { packets: _ } = self;
    }
}

impl<A: Allocator> Model for Reports<A> {
    ghost Value = { List (List ℕ) };

    ghost view = { λ r. (arc_value r.packets).items };

    ghost invariant = { λ r. All IsTelemetryPacket (arc_value r.packets).items };
}

impl<A: Allocator> Reports<A> {
    /// How many packets there are.
    pub fn len(&self) -> usize
        ensures { result ≡ length self.now }
    {
        self.packets().len()
    }

    pub fn is_empty(&self) -> bool
        ensures { result ≡ (length self.now == 0) }
    {
        self.packets().is_empty()
    }

    /// The packets, each of which is read as telemetry.
    pub fn packets(&self) -> &[Packet<A>]
        ensures value { result.now ≡ self.now }
        ensures telemetry { All IsTelemetryPacket self.now }
    {
        self.packets.as_slice()
    }

    /// Whether they are the same packets in the same order, by value.
    pub fn is_same(&self, other: &Self) -> bool
        ensures { IsTrue result ↔ (self.now ≡ other.now) }
    {
        if self.len() != other.len() {
            return false;
        }
        for (index, packet) in self.packets().iter().enumerate() {
            if !packet.is_same(&other.packets()[index]) {
                return false;
            }
        }
        true
    }
}

/// The reports of a request or drain, seen as their list, with a handle for each who keeps them:
/// the caller, the journal and the seat. All are taken before anything is changed, since one may be
/// refused.
#[derive(Drop)]
pub struct SharedReports<A: Allocator = Global> {
    answer: Reports<A>,
    journal: Reports<A>,
    receipt: Reports<A>,
}

impl<A: Allocator> Model for SharedReports<A> {
    ghost Value = { List (List ℕ) };

    ghost view = { λ r. r.answer };

    ghost invariant = { λ r. (r.journal ≡ r.answer) × (r.receipt ≡ r.answer) };
}

impl<A: Allocator> SharedReports<A> {
    /// The reports that these packets are.
    pub fn of(alloc: A, packets: PacketList<'_>) -> Result<Self, AllocError>
    where
        A: Copy,
        ensures { IfOk result (λ shared. shared ≡ packets.entry) }
    {
        let mut packets = packets;
        let mut copies = Vec::new(alloc);
        while let Some(packet) = packets.next() {
            copies.push(Packet {
                content: Vec::from_slice(alloc, packet)?,
            })?;
        }
        let packets = Arc::new(alloc, copies)?;
        let journal = Arc::try_clone(&packets)?;
        let receipt = Arc::try_clone(&packets)?;
        Ok(SharedReports {
            answer: Reports { packets },
            journal: Reports { packets: journal },
            receipt: Reports { packets: receipt },
        })
    }

    /// The answer, the mark of the journal's entry, and that of the seat's receipt.
    pub fn into_parts(self) -> (Reports<A>, Reports<A>, Reports<A>)
        ensures answer { result.0 ≡ self }
        ensures journal { result.1 ≡ self }
        ensures receipt { result.2 ≡ self }
    {
        (self.answer, self.journal, self.receipt)
    }
}
