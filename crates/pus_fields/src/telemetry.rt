//! Telemetry.

use space_packet::{Apid, SequenceCount};
use std::marker::Model;

/// A telemetry packet (ECSS-E-ST-70-41C, 7.4.3).
#[derive(Drop)]
pub struct Tm<'a> {
    /// The application process identifier, 0 to 2,047.
    pub apid: Apid,
    /// The sequence count, 0 to 16,383.
    pub count: SequenceCount,
    /// The service type.
    pub service: u8,
    /// The message subtype.
    pub subtype: u8,
    /// The destination identifier.
    pub destination: u16,
    /// The time, in whole seconds.
    pub time: u32,
    /// The payload: the octets between the secondary header and the error control.
    pub payload: &'a [u8],
}

impl<'a> Model for Tm<'a> {
    ghost use Rattle.pus_fields.specs.Telemetry.{Telemetry};

    ghost Value = { Telemetry };

    ghost view = { λ t. record {
      apid = t.apid;
      count = t.count;
      service = t.service;
      subtype = t.subtype;
      destination = t.destination;
      time = t.time;
      payload = t.payload.now;
    } };
}
