//! What a handle holds.

ghost use Rattle.ocp_flight.specs.Flown.{Flown};
ghost use Rattle.ocp_flight.specs.Mirror.Codes.{flown_code};

use ocp_flight::Flight;
use ocp_reports::PacketBuffer;
use std::marker::Model;

/// An engine, and the buffer that its reports are written to. Contracts see the engine.
#[derive(Drop)]
pub struct OpenEngine {
    pub(crate) engine: Flight,
    pub(crate) packets: PacketBuffer,
}

impl Model for OpenEngine {
    ghost Value = { Flown };

    ghost coded = { flown_code };

    ghost view = { λ o. o.engine };
}
