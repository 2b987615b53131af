//! A telecommand.

ghost use Rattle.std.specs.Prelude.{◌<◌, ◌^◌, SomeIff};
ghost use Rattle.pus_fields.specs.Acknowledgement.{flags_of};

use crate::ack::Ack;
use bitflags::Flags;
use byteorder::{BigEndian, ByteOrder};
use space_packet::{Apid, IDLE_APID, SequenceCount};
use std::marker::Model;

/// A telecommand (ECSS-E-ST-70-41C, 7.4.4). The type keeps that `id` is what `apid` and `count`
/// give, that `apid` is not 2,047, that of idle packets, and that there are no acknowledgement
/// flags other than the four.
#[derive(Drop)]
pub struct Tc<'a> {
    /// The request identifier: the first four octets of its packet.
    pub id: [u8; 4],
    /// The application process identifier, 0 to 2,046.
    pub apid: Apid,
    /// The sequence count, 0 to 16,383.
    pub count: SequenceCount,
    /// The acknowledgement flags.
    pub ack: Ack,
    /// The service type.
    pub service: u8,
    /// The message subtype.
    pub subtype: u8,
    /// The source identifier.
    pub source: u16,
    /// The payload: the octets between the secondary header and the error control.
    pub payload: &'a [u8],
}

impl<'a> Model for Tc<'a> {
    ghost use Rattle.std.specs.Prelude.{◌≡◌, ◌<◌, ◌^◌};
    ghost use Rattle.pus_fields.specs.Acknowledgement.{flags_of};
    ghost use Rattle.pus_fields.specs.Telecommand.{Telecommand, request_id};
    ghost use Rattle.space_packet.specs.declared.range.TheConstants.{IDLE_APID, SEQUENCE_COUNTS};

    ghost Value = { Telecommand };

    ghost view = { λ t. record {
      apid = t.apid;
      count = t.count;
      ack = t.ack;
      service = t.service;
      subtype = t.subtype;
      source = t.source;
      payload = t.payload.now;
    } };

    ghost invariant = { λ t. (t.apid < IDLE_APID) × (t.count < SEQUENCE_COUNTS)
        × (flags_of t.ack < 2 ^ 4) × (t.id ≡ request_id t.apid t.count) };
}

impl<'a> Tc<'a> {
    /// A telecommand, if the application process identifier is not 2,047, and there are no
    /// acknowledgement flags other than the four.
    pub fn new(
        apid: Apid,
        count: SequenceCount,
        ack: Ack,
        service: u8,
        subtype: u8,
        source: u16,
        payload: &'a [u8],
    ) -> Option<Tc<'a>>
        ensures { SomeIff result ((apid < IDLE_APID) × (flags_of ack < 2 ^ 4)) (record {
          apid = apid;
          count = count;
          ack = ack;
          service = service;
          subtype = subtype;
          source = source;
          payload = payload.now;
        }) }
    {
        if apid.number() >= IDLE_APID || ack.bits() >= 1 << 4 {
            return None;
        }
        let mut id = [0; 4];
        BigEndian::write_u16(&mut id, (1 << 12) + (1 << 11) + apid.number());
        BigEndian::write_u16(&mut id[2..], (3 << 14) + count.number());
        Some(Tc {
            id,
            apid,
            count,
            ack,
            service,
            subtype,
            source,
            payload,
        })
    }
}
