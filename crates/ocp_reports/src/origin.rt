//! What the reports of a request repeat of it.

use bitflags::Flags;
use obcp_types::Due;
use pus_fields::Ack;

/// What a request's reports repeat of it: its first four octets, its acknowledgement flags, the
/// destination of the reports, which is the request's source, and the time at which it came.
#[derive(Clone, Copy)]
pub struct Origin {
    pub request: [u8; 4],
    pub ack: Ack,
    pub destination: u16,
    pub time: u32,
}

impl Origin {
    ghost use Rattle.std.specs.Prelude.{◌≡◌};
    ghost use Rattle.ocp_reports.specs.Origin.{origin_of_packet};
    ghost use Rattle.ocp_reports.specs.Due.{origin_of_due};

    /// The origin of a packet whose secondary header is not read: its reports go to destination 0,
    /// and no report of success is asked for.
    pub fn of_packet(request: [u8; 4], time: u32) -> Origin
        ensures { result ≡ origin_of_packet request time }
    {
        Origin {
            request,
            ack: Ack::empty(),
            destination: 0,
            time,
        }
    }

    /// The origin of a completion that waited, sent at this time: its report goes to the source of
    /// the request.
    pub(crate) fn of_due(due: &Due, time: u32) -> Origin
        ensures { result ≡ origin_of_due time due.now }
    {
        Origin {
            request: due.origin.request,
            ack: due.origin.ack,
            destination: due.origin.source,
            time,
        }
    }
}
