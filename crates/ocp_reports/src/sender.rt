//! The reports of requests and drains as telemetry packets.

ghost use Rattle.std.specs.Prelude.{◌≡◌, ◌≤◌, ◌+◌, ◌%◌, ◌++◌, ◌∷◌, [], length};
ghost use Rattle.std.specs.Option.{option_to_list};
ghost use Rattle.obcp_messages.specs.Report.{IsReport, report_data};
ghost use Rattle.ocp_reports.specs.Origin.{dispatch_of};
ghost use Rattle.ocp_reports.specs.Reports.{dispatch_of_notice, reports_of};
ghost use Rattle.ocp_reports.specs.Due.{due_dispatches, drain_dispatches};
ghost use Rattle.ocp_reports.specs.Packets.{packets};
ghost use Rattle.ocp_reports.specs.Room.{GrowsWithin, HasRoomAfter, most_octets};

use crate::{MAX_PACKETS, Origin, PacketBuffer};
use obcp_messages::{Report, StartFault, report_fields};
use obcp_types::Due;
use pus_fields::Tm;
use space_packet::{Apid, SEQUENCE_COUNTS, SequenceCount};
use std::alloc::Allocator;
use verification::{Notice, Outcome, completion, notices};

/// The application process that sends reports, and the sequence count of its next one.
#[derive(Clone, Copy)]
pub struct Sender {
    pub apid: Apid,
    pub count: SequenceCount,
}

/// A sequence count after `packets` more packets.
#[tactic(auto, using(crate::proofs::Packets::counts))]
pub fn count_after(count: SequenceCount, packets: usize) -> SequenceCount
    ensures { result ≡ (count + packets) % SEQUENCE_COUNTS }
{
    let more = (packets % usize::from(SEQUENCE_COUNTS)) as u16;
    SequenceCount::new((count.number() + more) % SEQUENCE_COUNTS).unwrap()
}

impl Sender {
    // Adds the packet of a report.
    fn add<A: Allocator>(&self, origin: Origin, report: &Report, out: &mut PacketBuffer<A>)
        requires { IsReport report.now →
            HasRoomAfter out.old (19 + length (report_data report.now)) }
        ensures packets { let count = self.now.count + length out.old in
            out.new ≡ out.old ++
            packets self.now.apid count (dispatch_of origin report.now ∷ []) }
        ensures within { GrowsWithin out.old out.new (19 + length (report_data report.now)) }
        ensures short { length (report_data report.now) ≤ 49 }
    {
        let data = report_fields(report);
        let telemetry = Tm {
            apid: self.apid,
            count: count_after(self.count, out.len()),
            service: report.service(),
            subtype: report.subtype(),
            destination: origin.destination,
            time: origin.time,
            payload: data.as_slice(),
        };
        out.push(&telemetry);
    }

    // Adds the packet of a notice, if it has one.
    fn send<A: Allocator>(
        &self,
        origin: Origin,
        notice: Notice,
        answer: &Option<Report>,
        out: &mut PacketBuffer<A>,
    )
        requires { HasRoomAfter out.old (most_octets notice) }
        ensures packets { let count = self.now.count + length out.old in
            let more = dispatch_of_notice origin (option_to_list answer.now) notice in
            out.new ≡ out.old ++ packets self.now.apid count more }
        ensures within { GrowsWithin out.old out.new (most_octets notice) }
    {
        let request = origin.request;
        match notice {
            Notice::Accepted => self.add(origin, &Report::Accepted { request }, out),
            Notice::NotAccepted(failure) => {
                let code = failure.code();
                self.add(origin, &Report::NotAccepted { request, code }, out);
            }
            Notice::Started => self.add(origin, &Report::Started { request }, out),
            Notice::NotStarted(failure) => {
                let fault = StartFault::from(failure);
                self.add(origin, &Report::NotStarted { request, fault }, out);
            }
            Notice::Answer => {
                if let Some(report) = answer {
                    self.add(origin, report, out);
                }
            }
            Notice::Completed => self.add(origin, &Report::Completed { request }, out),
            Notice::NotCompleted(failure) => {
                let code = failure.code();
                self.add(origin, &Report::NotCompleted { request, code }, out);
            }
        }
    }

    /// Writes the packets of the reports of a request, in place of what is in the buffer: at most
    /// four, of at most 68 octets each.
    pub fn write_reports<A: Allocator>(
        &self,
        origin: Origin,
        outcome: Outcome,
        answer: &Option<Report>,
        out: &mut PacketBuffer<A>,
    )
        ensures { let all = reports_of origin outcome (option_to_list answer.now) in
            out.new ≡ packets self.now.apid self.now.count all }
    {
        out.clear();
        let list = notices(origin.ack, &outcome);
        let all = list.as_slice();
        for notice in all {
            self.send(origin, *notice, answer, out);
        }
    }

    // Adds the packet of a completion that waited, sent at this time to the source of its request,
    // if it has one.
    fn send_due<A: Allocator>(&self, time: u32, due: &Due, out: &mut PacketBuffer<A>)
        requires { HasRoomAfter out.old 25 }
        ensures packets { let count = self.now.count + length out.old in
            out.new ≡ out.old ++ packets self.now.apid count (due_dispatches time due.now) }
        ensures within { GrowsWithin out.old out.new 25 }
    {
        if let Some(notice) = completion(due.origin.ack, due.failure) {
            self.send(Origin::of_due(due, time), notice, &None, out);
        }
    }

    /// Writes the packets of the reports of at most 64 completions that waited, the first one
    /// first, in place of what is in the buffer: at most 25 octets each. They are sent at this time
    /// to the sources of their requests.
    pub fn write_drained<A: Allocator>(&self, time: u32, due: &[Due], out: &mut PacketBuffer<A>)
        requires { length due.now ≤ MAX_PACKETS }
        ensures { out.new ≡
            packets self.now.apid self.now.count (drain_dispatches time due.now) }
    {
        out.clear();
        for one in due {
            self.send_due(time, one, out);
        }
    }
}
