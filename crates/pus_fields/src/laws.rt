//! Laws of the packet relations: a telecommand has one packet, and what is written for it is read
//! back. The same holds for telemetry.

ghost use Rattle.std.specs.Prelude.{◌≡◌, ◌≤◌, ℕ, List, All, Ok, length};
ghost use Rattle.space_packet.specs.Packet.{IsOctet};
ghost use Rattle.pus_fields.specs.Telecommand.{IsTelecommand, IsTelecommandInRange, Telecommand, telecommand_octets};
ghost use Rattle.pus_fields.specs.TelecommandFaults.{telecommand_of};
ghost use Rattle.pus_fields.specs.Telemetry.{IsTelemetry, IsTelemetryInRange, Telemetry, telemetry_octets};
ghost use Rattle.pus_fields.specs.TelemetryFaults.{telemetry_of};
ghost use Rattle.pus_fields.specs.declared.writing.TheConstants.{MAX_TELECOMMAND_DATA, MAX_TELEMETRY_DATA};

use space_packet::laws::{one_packet_for_a_header, written_octets_are_the_packet};

/// The octets of a telecommand are its packet.
pub fn telecommand_octets_are_its_packet()
    ensures { (tc : Telecommand) → IsTelecommandInRange tc →
        length tc.payload ≤ MAX_TELECOMMAND_DATA →
        IsTelecommand (telecommand_octets tc) tc }
{
    written_octets_are_the_packet();
}

/// A telecommand has no other packet.
pub fn one_packet_for_a_telecommand()
    ensures { (octets : List ℕ) (tc : Telecommand) → All IsOctet octets → IsTelecommand octets tc →
        octets ≡ telecommand_octets tc }
{
    one_packet_for_a_header();
    written_octets_are_the_packet();
}

/// The octets of a telecommand are read as that telecommand.
pub fn telecommand_octets_are_read_back()
    ensures { (tc : Telecommand) → IsTelecommandInRange tc →
        length tc.payload ≤ MAX_TELECOMMAND_DATA →
        telecommand_of tc.apid (telecommand_octets tc) ≡ Ok tc }
{
    written_octets_are_the_packet();
}

/// The octets of telemetry are its packet.
pub fn telemetry_octets_are_its_packet()
    ensures { (tm : Telemetry) → IsTelemetryInRange tm → length tm.payload ≤ MAX_TELEMETRY_DATA →
        IsTelemetry (telemetry_octets tm) tm }
{
    written_octets_are_the_packet();
}

/// Telemetry has no other packet.
pub fn one_packet_for_telemetry()
    ensures { (octets : List ℕ) (tm : Telemetry) → All IsOctet octets → IsTelemetry octets tm →
        octets ≡ telemetry_octets tm }
{
    one_packet_for_a_header();
    written_octets_are_the_packet();
}

/// The octets of telemetry are read as that telemetry.
pub fn telemetry_octets_are_read_back()
    ensures { (tm : Telemetry) → IsTelemetryInRange tm → length tm.payload ≤ MAX_TELEMETRY_DATA →
        telemetry_of (telemetry_octets tm) ≡ Ok tm }
{
    written_octets_are_the_packet();
}
