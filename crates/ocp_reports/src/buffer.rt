//! Packets of reports as they are written, one after the other.

ghost use Rattle.std.specs.Prelude.{◌≡◌, ◌≤◌, ◌+◌, ◌++◌, ◌∷◌, [], IfOk, IfNone, IfSome, length, vec_capacity};
ghost use Rattle.pus_fields.specs.Telemetry.{telemetry_octets};
ghost use Rattle.ocp_reports.specs.Packets.{IsTelemetryPacket, together};
ghost use Rattle.ocp_reports.specs.Room.{HasRoomAfter};

use pus_fields::laws::telemetry_octets_are_read_back;
use pus_fields::{Tm, write_tm};
use std::alloc::{AllocError, Allocator, Global};
use std::marker::Model;

/// How many packets a buffer holds at most.
pub const MAX_PACKETS: usize = 64;

/// How many octets the packets in a buffer are at most, together.
pub const MAX_PACKET_OCTETS: usize = 1_600;

/// Telemetry packets, one after the other, seen as their list. All room is reserved when the buffer
/// is made: room for the reports of a request, or of a drain of 64 completions.
#[derive(Drop)]
pub struct PacketBuffer<A: Allocator = Global> {
    octets: Vec<u8, A>,
    // The length of each packet.
    lengths: Vec<u16, A>,
}

impl<A: Allocator> Model for PacketBuffer<A> {
    ghost use Rattle.std.specs.Prelude.{ℕ, ◌≤◌, List, vec_capacity};
    ghost use Rattle.ocp_reports.specs.Pieces.{pieces, ArePackets};

    ghost Value = { List (List ℕ) };

    ghost view = { λ b. pieces b.octets.items b.lengths.items };

    ghost invariant = { λ b. ArePackets b.octets.items b.lengths.items
        × (1600 ≤ vec_capacity b.octets) × (64 ≤ vec_capacity b.lengths) };
}

impl<A: Allocator> PacketBuffer<A> {
    /// A buffer without packets. It takes memory twice: 1,600 octets, and 128 for the lengths.
    pub fn new(alloc: A) -> Result<Self, AllocError>
    where
        A: Copy,
        ensures { IfOk result (λ buffer. buffer ≡ []) }
    {
        Ok(PacketBuffer {
            octets: Vec::with_capacity(alloc, MAX_PACKET_OCTETS)?,
            lengths: Vec::with_capacity(alloc, MAX_PACKETS)?,
        })
    }

    /// Removes all packets.
    pub(crate) fn clear(&mut self)
        ensures { self.new ≡ [] }
    {
        self.octets.clear();
        self.lengths.clear();
    }

    /// Adds the packet of telemetry.
    pub(crate) fn push(&mut self, telemetry: &Tm<'_>)
        requires { HasRoomAfter self.old (19 + length telemetry.now.payload) }
        ensures { self.new ≡ self.old ++ telemetry_octets telemetry.now ∷ [] }
    {
        telemetry_octets_are_read_back();
        let start = self.octets.len();
        write_tm(telemetry, &mut self.octets).unwrap();
        let length = self.octets.len() - start;
        self.lengths.push_reserved(length as u16);
    }

    /// How many packets there are.
    pub fn len(&self) -> usize
        ensures { result ≡ length self.now }
    {
        self.lengths.len()
    }

    /// The octets of all packets, one packet after the other.
    pub fn octets(&self) -> &[u8]
        ensures { result.now ≡ together self.now }
    {
        self.octets.as_slice()
    }

    /// The packets, the first one first.
    pub fn packets(&self) -> PacketList<'_>
        ensures { result ≡ self.now }
    {
        PacketList {
            octets: self.octets.as_slice(),
            lengths: self.lengths.as_slice(),
        }
    }
}

/// Telemetry packets that are lent, seen as the list of those that are left.
#[derive(Drop)]
pub struct PacketList<'a> {
    octets: &'a [u8],
    lengths: &'a [u16],
}

impl<'a> Model for PacketList<'a> {
    ghost use Rattle.std.specs.Prelude.{ℕ, List};
    ghost use Rattle.ocp_reports.specs.Pieces.{pieces, ArePackets};

    ghost Value = { List (List ℕ) };

    ghost view = { λ p. pieces p.octets.now p.lengths.now };

    ghost invariant = { λ p. ArePackets p.octets.now p.lengths.now };
}

impl<'a> PacketList<'a> {
    /// The first packet that is left, if there is one.
    pub fn next(&mut self) -> Option<&'a [u8]>
        ensures some { IfSome result (λ packet. self.old ≡ packet.now ∷ self.new) }
        ensures telemetry { IfSome result (λ packet. IsTelemetryPacket packet.now) }
        ensures none { IfNone result (self.old ≡ []) }
        ensures stays { IfNone result (self.new ≡ self.old) }
    {
        let (length, lengths) = self.lengths.split_first()?;
        let (packet, octets) = self.octets.split_at(usize::from(*length));
        *self = PacketList { octets, lengths };
        Some(packet)
    }
}
