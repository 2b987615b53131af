//! Why octets are no telecommand or no telemetry, and why a packet was not written.

ghost use Rattle.std.specs.Prelude.{◌≡◌};
ghost use Rattle.pus_fields.specs.declared.fault.TcFault.TheVariants.{Discarded};
ghost use Rattle.pus_fields.specs.declared.fault.WriteFault.TheVariants.{Memory};
ghost use Rattle.pus_fields.specs.TelecommandFaults.{discard_name, discard_of};
ghost use Rattle.pus_fields.specs.TelemetryFaults.{fault_of, fault_of_packet};

use space_packet::PacketFault;
use std::alloc::AllocError;
use thiserror::Error;

/// Why octets are discarded, without a report, in the order in which faults are looked for.
#[derive(Clone, Copy, Debug, PartialEq, Eq, Error)]
pub enum Discard {
    #[error("fewer than 7 octets")]
    Short,
    #[error("the packet version number is not 0")]
    Version,
    #[error("the length of the data field is not the one in the header")]
    Length,
    #[error("the packet is telemetry")]
    NotTelecommand,
    #[error("the packet is for another application process")]
    OtherApid,
}

impl Discard {
    /// Its name in what the program prints.
    pub fn name(self) -> &'static str
        ensures { result.now ≡ discard_name self }
    {
        match self {
            Discard::Short => "Short",
            Discard::Version => "Version",
            Discard::Length => "Length",
            Discard::NotTelecommand => "NotTelecommand",
            Discard::OtherApid => "OtherApid",
        }
    }
}

/// Why a telecommand is not accepted, in the order in which faults are looked for. Its sender gets
/// a report.
#[derive(Clone, Copy, Debug, PartialEq, Eq, Error)]
pub enum Rejection {
    #[error("the sequence flags are not 11, unsegmented")]
    Segmented,
    #[error("there is no secondary header")]
    NoSecondary,
    #[error("the data field has under 7 octets")]
    NoRoom,
    #[error("the last two octets are not the error control of the others")]
    Pec,
    #[error("the version number of the secondary header is not 2")]
    PusVersion,
}

/// The first thing that is wrong with octets that should be a telecommand: each discard comes
/// before each rejection.
#[derive(Clone, Copy, Debug, PartialEq, Eq, Error)]
pub enum TcFault {
    /// The sender gets no report.
    #[error("discarded: {0}")]
    Discarded(Discard),
    /// The sender gets a report with the request identifier: the first four octets of the packet.
    #[error("rejected: {0}")]
    Rejected(Rejection, [u8; 4]),
}

/// The first thing that is wrong with octets that should be telemetry, in this order.
#[derive(Clone, Copy, Debug, PartialEq, Eq, Error)]
pub enum TmFault {
    #[error("there are fewer than 7 octets")]
    Short,
    #[error("the packet version number is not 0")]
    Version,
    #[error("the length of the data field is not the one in the header")]
    Length,
    #[error("the packet is a telecommand")]
    NotTelemetry,
    #[error("the sequence flags are not 11, unsegmented")]
    Segmented,
    #[error("there is no secondary header")]
    NoSecondary,
    #[error("the data field has under 13 octets")]
    NoRoom,
    #[error("the last two octets are not the error control of the others")]
    Pec,
    #[error("the version number of the secondary header is not 2")]
    PusVersion,
    #[error("the time reference status or the message type counter is not 0")]
    NotProfile,
}

/// Why a packet was not written, in this order.
#[derive(Clone, Copy, Debug, PartialEq, Eq, Error)]
pub enum WriteFault {
    #[error("the payload does not fit into a packet")]
    TooLong,
    #[error("out of memory")]
    Memory,
}

/// The case of the same name of another type.
macro_rules! same_case {
    ($fault:ident: $from:ident to $to:ident, $($case:ident)|+) => {
        match $fault {
            $($from::$case => $to::$case,)+
        }
    };
}

impl From<PacketFault> for TcFault {
    ghost from_gives = { λ fault result. result ≡ Discarded (discard_of fault) };

    fn from(fault: PacketFault) -> TcFault {
        TcFault::Discarded(same_case!(fault: PacketFault to Discard, Short | Version | Length))
    }
}

impl From<PacketFault> for TmFault {
    ghost from_gives = { λ fault result. result ≡ fault_of_packet fault };

    fn from(fault: PacketFault) -> TmFault {
        same_case!(fault: PacketFault to TmFault, Short | Version | Length)
    }
}

impl From<Rejection> for TmFault {
    ghost from_gives = { λ why result. result ≡ fault_of why };

    fn from(why: Rejection) -> TmFault {
        same_case!(why: Rejection to TmFault, Segmented | NoSecondary | NoRoom | Pec | PusVersion)
    }
}

impl From<AllocError> for WriteFault {
    ghost from_gives = { λ _ r. r ≡ Memory };

    fn from(_error: AllocError) -> Self {
        WriteFault::Memory
    }
}
