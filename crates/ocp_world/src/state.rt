//! What the engine keeps of its world.

ghost use Rattle.std.specs.Prelude.{◌≡◌, ◌≤◌, ◌<◌, ℕ, List, true, false, Err, IfOk, IfSome, length};
ghost use Rattle.ocp_world.specs.Clauses.{Commanded, Debug, Decides, Does, DoesIn, HasFewArguments, IsCommanded, IsPutAt, IsWorld, Kept, Put, Request as Asked, Sends, Step, Stepped, Unasked, World, after, command_effect, directive_effect, directive_of, effect_of, has_no_place, opening, option_to_list, reports_of, step_ended, telecommand_of, with_packets};
ghost use Rattle.ocp_table.specs.RequestTable as directive;
ghost use Rattle.ocp_world.specs.declared.answers.EngineFault.TheVariants as engine;

use crate::{EngineFault, Keeps};
use obcp_messages::{Report, Request, StatusRows, read_request};
use obcp_types::{AcceptanceFailure, PendingOrigin};
use ocp_debug::{Command, DebugFault, Decided, TraceRing};
use ocp_pool::{MAX_POOL_WORDS, Pool};
use ocp_profile::Profile;
use ocp_reports::{Origin, PacketBuffer, Sender, count_after};
use ocp_table::laws::an_unload_takes_a_load_back;
use ocp_table::{Change, Decision, Directive, InstructionAnswer, Place, Table};
use pus_fields::{Tc, TcFault};
use space_packet::{Apid, SequenceCount};
use std::alloc::{AllocError, Allocator};
use verification::Outcome;

/// The procedures with the profile, the pool, the sender of reports, and the last trace records.
#[derive(Drop)]
pub struct State<A: Allocator> {
    pub table: Table<A>,
    pub pool: Pool<A>,
    pub sender: Sender,
    pub ring: TraceRing<A>,
}

impl<A: Allocator> State<A> {
    /// Does one instruction of a procedure, by its place.
    pub fn instruction(&mut self, id: u16, place: Place) -> InstructionAnswer
        ensures world { (w : World) (by : ℕ) → IsWorld w self.old →
            IsWorld (after w (Step by id)).world self.new }
        ensures answer { (w : World) (by : ℕ) → IsWorld w self.old →
            Stepped result.outcome ≡ (after w (Step by id)).answer }
        ensures step { (w : World) → IsWorld w self.old → result.step ≡ step_ended w id }
    {
        ocp_debug::laws::keeping_is_kept_up();
        ocp_debug::instruction(&mut self.table, id, place, &mut self.pool, &mut self.ring)
    }

    /// Decides what a debugger's command sets, or why it is refused.
    pub fn decide(&self, id: u16, command: Command) -> Result<Decided, DebugFault>
        ensures ok { IfOk result (λ decided.
            Decides self.now.table id command decided.setting) }
        ensures answer { (w : World) (by : ℕ) → IsWorld w self.now →
            IsCommanded (after w (Debug by id command)).answer result }
    {
        ocp_debug::decide(&self.table, id, command)
    }

    /// Sets what was decided of a debugger's command.
    pub fn enact(&mut self, id: u16, decided: Decided)
        ensures { (w : World) (by : ℕ) (command : Command) → IsWorld w self.old →
            Decides self.old.table id command decided.setting →
            IsWorld (after w (Debug by id command)).world self.new }
    {
        ocp_debug::enact(&mut self.table, id, decided);
    }

    /// Does a debugger's command.
    pub fn command(&mut self, id: u16, command: Command) -> Result<(), DebugFault>
        ensures world { (w : World) (by : ℕ) → IsWorld w self.old →
            IsWorld (after w (Debug by id command)).world self.new }
        ensures answer { (w : World) (by : ℕ) → IsWorld w self.old →
            Commanded result ≡ (after w (Debug by id command)).answer }
    {
        ocp_debug::apply(&mut self.table, id, command)
    }

    /// The index of a pool word, if there is one at this index; else it can't be written.
    pub fn word_index(&self, index: u64) -> Option<u16>
        ensures word { IfSome result (λ word. (word ≡ index) × (word < length self.now.pool)) }
        ensures few { IfSome result (λ word. word < MAX_POOL_WORDS) }
        ensures answer { (w : World) (by value : ℕ) → IsWorld w self.now →
            IsPutAt (after w (Put by index value)).answer result }
    {
        if index < self.pool.words() as u64 {
            Some(index as u16)
        } else {
            None
        }
    }

    /// Writes the pool word at an index, and changes nothing else.
    pub fn put_word(&mut self, index: u16, value: u64)
        requires { index < length self.old.pool }
        ensures { (w : World) (by : ℕ) → IsWorld w self.old →
            IsWorld (after w (Put by index value)).world self.new }
    {
        self.pool.set(usize::from(index), value);
    }
}

impl<A: Allocator + Copy> State<A> {
    /// The state of a profile in which no procedure is loaded, with `words` pool words, all of them
    /// 0.
    pub fn new(alloc: A, profile: Profile, apid: Apid, words: u16) -> Result<Self, AllocError>
        requires some { 1 ≤ words }
        requires few { words ≤ MAX_POOL_WORDS }
        ensures { IfOk result (IsWorld (opening profile apid words)) }
    {
        let count = SequenceCount::new(0).unwrap();
        Ok(State {
            ring: TraceRing::new(alloc)?,
            pool: Pool::new(alloc, words)?,
            table: Table::new(alloc, profile)?,
            sender: Sender { apid, count },
        })
    }
}

impl<A: Allocator> State<A> {
    // Writes the reports of a request that changes no procedure, and lets the keeper keep them.
    fn reply<K: Keeps>(
        &mut self,
        keeper: &mut K,
        origin: Origin,
        outcome: Outcome,
        answer: &Option<Report>,
        packets: &mut PacketBuffer<A>,
    ) -> Result<K::Kept, EngineFault>
        ensures does { Does self.old self.new (with_packets result packets.new) (λ w. record {
          on_records = Kept Unasked;
          reply = Sends (reports_of origin outcome (option_to_list answer.now));
        }) }
        ensures kept { IfOk result (λ kept. K.holds kept packets.new) }
        ensures table { self.new.table ≡ self.old.table }
        ensures pool { self.new.pool ≡ self.old.pool }
        ensures ring { self.new.ring ≡ self.old.ring }
        ensures memory { result ≡ Err engine.Memory → K.refused keeper.new ≡ true }
    {
        self.sender.write_reports(origin, outcome, answer, packets);
        let kept = keeper.keep(packets.packets())?;
        self.sender.count = count_after(self.sender.count, packets.len());
        Ok(kept)
    }

    // Does what a request asks of a loaded procedure.
    fn direct<K: Keeps>(
        &mut self,
        keeper: &mut K,
        origin: Origin,
        id: u16,
        directive: Directive<'_>,
        packets: &mut PacketBuffer<A>,
    ) -> Result<K::Kept, EngineFault>
        requires { HasFewArguments (directive_of directive false) }
        ensures does { Does self.old self.new (with_packets result packets.new)
            (λ w. directive_effect origin (directive_of directive.entry (has_no_place w)) id
            w.records) }
        ensures kept { IfOk result (λ kept. K.holds kept packets.new) }
        ensures memory { result ≡ Err engine.Memory → K.refused keeper.new ≡ true }
    {
        match self.table.decide(id, directive) {
            Ok(decided) => {
                let outcome = match decided.decision {
                    Decision::Changes(Change::Pended(_)) => Outcome::Started,
                    Decision::Unloads
                    | Decision::Changes(
                        Change::Started { .. }
                        | Change::Sent(_)
                        | Change::Quit(_)
                        | Change::Resumed,
                    ) => Outcome::Done,
                };
                let kept = self.reply(keeper, origin, outcome, &None, packets)?;
                self.table.enact(id, decided);
                Ok(kept)
            }
            Err(failure) => {
                self.reply(keeper, origin, Outcome::NotStarted(failure), &None, packets)
            }
        }
    }

    // Loads a procedure. If its reports are not kept, it is unloaded again.
    fn load<K: Keeps>(
        &mut self,
        keeper: &mut K,
        origin: Origin,
        id: u16,
        code: &[u8],
        packets: &mut PacketBuffer<A>,
    ) -> Result<K::Kept, EngineFault>
        ensures does { Does self.old self.new (with_packets result packets.new)
            (λ w. directive_effect origin (directive.Load w.profile code.now) id w.records) }
        ensures kept { IfOk result (λ kept. K.holds kept packets.new) }
        ensures memory { result ≡ Err engine.Memory → K.refused keeper.new ≡ true }
    {
        an_unload_takes_a_load_back();
        if let Err(failure) = self.table.load(id, code) {
            return self.reply(keeper, origin, Outcome::NotStarted(failure), &None, packets);
        }
        let result = self.reply(keeper, origin, Outcome::Done, &None, packets);
        if result.is_err() {
            self.table.unload(id).unwrap();
        }
        result
    }

    // Serves a request, with the number of its event.
    fn serve<K: Keeps>(
        &mut self,
        keeper: &mut K,
        event: u64,
        origin: Origin,
        request: &Request<'_>,
        packets: &mut PacketBuffer<A>,
    ) -> Result<K::Kept, EngineFault>
        ensures does { (w : World) → IsWorld w self.old → event ≡ w.events →
            DoesIn w (command_effect request.now origin w) (with_packets result packets.new)
            self.new }
        ensures kept { IfOk result (λ kept. K.holds kept packets.new) }
        ensures memory { result ≡ Err engine.Memory → K.refused keeper.new ≡ true }
    {
        let packet = origin.request;
        let from = PendingOrigin {
            event,
            request: packet,
            source: origin.destination,
            ack: origin.ack,
        };
        let (id, directive) = match request {
            Request::Load { id, code } => {
                return self.load(keeper, origin, *id, code.octets(), packets);
            }
            Request::Status => {
                let rows = StatusRows::new(self.table.statuses()).unwrap();
                let report = Some(Report::Status { rows });
                return self.reply(keeper, origin, Outcome::Done, &report, packets);
            }
            Request::Unload { id } => (*id, Directive::Unload),
            Request::Activate {
                id,
                budget,
                arguments,
            } => {
                let (budget, arguments) = (*budget, arguments.octets());
                (*id, Directive::Activate { budget, arguments })
            }
            Request::Stop { id, step } => (*id, Directive::Stop(*step, from)),
            Request::Suspend { id, step } => (*id, Directive::Suspend(*step, from)),
            Request::Resume { id } => (*id, Directive::Resume),
            Request::Communicate { id, words } => (*id, Directive::Communicate(words.as_slice())),
            Request::Abort { id } => (*id, Directive::Abort),
        };
        self.direct(keeper, origin, id, directive, packets)
    }

    /// Does what a telecommand asks for, as it was read at this time, and writes its reports. The
    /// event has this number: `event` events were accepted before it. Memory is answered only if
    /// the keeper finds none for the reports; then nothing is changed.
    #[tactic(auto, unfolding(crate::specs::Requests::command_of))]
    pub fn receive<K: Keeps>(
        &mut self,
        keeper: &mut K,
        event: u64,
        time: u32,
        read: Result<Tc<'_>, TcFault>,
        packets: &mut PacketBuffer<A>,
    ) -> Result<K::Kept, EngineFault>
        ensures does { (w : World) (by : ℕ) (octets : List ℕ) →
            IsWorld w self.old → event ≡ w.events → read.entry ≡ telecommand_of w.apid octets →
            DoesIn w (effect_of w (Asked by time octets)) (with_packets result packets.new)
            self.new }
        ensures kept { IfOk result (λ kept. K.holds kept packets.new) }
        ensures memory { result ≡ Err engine.Memory → K.refused keeper.new ≡ true }
    {
        match read {
            Ok(telecommand) => {
                let origin = Origin {
                    request: telecommand.id,
                    ack: telecommand.ack,
                    destination: telecommand.source,
                    time,
                };
                match read_request(self.table.profile(), &telecommand) {
                    Ok(request) => self.serve(keeper, event, origin, &request, packets),
                    Err(fault) => {
                        let outcome = Outcome::Refused(AcceptanceFailure::Request(fault));
                        self.reply(keeper, origin, outcome, &None, packets)
                    }
                }
            }
            Err(TcFault::Rejected(rejection, request)) => {
                let origin = Origin::of_packet(request, time);
                let outcome = Outcome::Refused(AcceptanceFailure::Packet(rejection));
                self.reply(keeper, origin, outcome, &None, packets)
            }
            Err(TcFault::Discarded(cause)) => Err(EngineFault::Discarded(cause)),
        }
    }
}
