//! Laws of the packet relation, which relate `read` and `write`. A written packet is read back as
//! the header and the data field that it was written from. A packet that was read is written again
//! octet for octet.

ghost use Rattle.std.specs.Prelude.{◌≡◌, ◌≤◌, ℕ, List, All, length};
ghost use Rattle.space_packet.specs.Packet.{IsPacket, IsHeader, IsOctet, packet_octets};
ghost use Rattle.space_packet.specs.declared.primary.Primary.{Primary};
ghost use Rattle.space_packet.specs.declared.writing.TheConstants.{MAX_DATA_LENGTH};

/// Octets are a packet of at most one header and one data field.
#[tactic(auto, using(crate::proofs::Packets::one_reading))]
pub fn one_header_for_a_packet()
    ensures { (octets : List ℕ) (a b : Primary) (x y : List ℕ) →
        IsPacket octets a x → IsPacket octets b y → (a ≡ b) × (x ≡ y) }
{}

/// A header and a data field have at most one packet.
pub fn one_packet_for_a_header()
    ensures { (p q : List ℕ) (header : Primary) (payload : List ℕ) →
        All IsOctet p → All IsOctet q →
        IsPacket p header payload → IsPacket q header payload → p ≡ q }
{}

/// The octets that are written for a header and a data field are their packet.
pub fn written_octets_are_the_packet()
    ensures { (header : Primary) (payload : List ℕ) → IsHeader header →
        1 ≤ length payload → length payload ≤ MAX_DATA_LENGTH →
        IsPacket (packet_octets header payload) header payload }
{}
