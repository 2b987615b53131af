//! What a console keeps from line to line, and what each line does to it.

ghost use Rattle.std.specs.Prelude.{◌≡◌, ◌≢◌, ◌<◌, ◌⊎◌, [], length, IfOk, IfErr, OnOk};
ghost use Rattle.space_packet.specs.declared.range.TheConstants.{IDLE_APID};

use crate::debugging::{no_octets_text, octets_text, place_text, switch_text};
use crate::texts::{
    answer_text, journal_text, pool_text, put_text, round_text, step_text, work_text,
};
use obcp_messages::Request;
use ocp_core::Engine;
use ocp_debug::view_text;
use ocp_lines::{Command, Count, Flags, MAX_MEMORY_LENGTH, Shift, read_command};
use ocp_ports::{ConsoleFault, Crew};
use ocp_profile::Profile;
use ocp_words::Settings;
use space_packet::{Apid, SequenceCount};
use std::alloc::{AllocError, Allocator};

/// What a console keeps from line to line.
#[derive(Drop)]
pub(crate) struct Console<A: Allocator> {
    /// The profile of the lines and telecommands, which is the engine's.
    pub profile: Profile,
    pub engine: Engine<A>,
    /// The application process identifier of the ground's telecommands.
    pub apid: Apid,
    /// The time of the next requests and drains, in whole seconds.
    pub time: u32,
    /// The ground count: the sequence count of the next telecommand.
    pub count: SequenceCount,
    /// What the last line printed.
    pub output: Vec<u8, A>,
    pub ghost apid_in_range: { apid < IDLE_APID },
}

impl<A: Allocator + Copy> Console<A> {
    ghost use Rattle.ocp_lines.specs.Grammar.{IsCarried, IsSayable, meaning_of};
    ghost use Rattle.ocp_console.specs.Answering.{Does, state_of, opening, on_octets, on_request, on_drain, memory_text, effect_of};
    ghost use Rattle.ocp_console.specs.Crew.{HasDone, HasRefused};
    ghost use Rattle.ocp_ports.specs.declared.crew.CrewFault.{CrewFault};
    ghost use Rattle.ocp_ports.specs.Faults.{crew_fault};
    ghost use Rattle.ocp_console.specs.Mirror.Replies.{works_of, Answers};

    /// A console on a new engine.
    pub fn new(alloc: A, settings: Settings) -> Result<Console<A>, AllocError>
        ensures { IfOk result (λ console. state_of console ≡ opening settings) }
    {
        let engine = Engine::new(
            alloc,
            settings.profile,
            settings.apid,
            settings.pool_words,
            settings.capacity,
        )?;
        Ok(Console {
            profile: settings.profile,
            engine,
            apid: Apid::new(settings.apid).unwrap(),
            time: 0,
            count: SequenceCount::new(0).unwrap(),
            output: Vec::new(alloc),
        })
    }

    /// What an `up` line does with these octets.
    fn request(&mut self, alloc: A, octets: &[u8]) -> Result<(), AllocError>
        requires { self.old.output.items ≡ [] }
        ensures { OnOk result ((state_of self.new, self.new.output.items) ≡
            on_octets (state_of self.old) octets.now) }
    {
        let answer = self.engine.request(alloc, 0, self.time, octets);
        answer_text(answer, &mut self.output)
    }

    /// What a `send` line does.
    fn send(&mut self, alloc: A, flags: Flags, request: &Request) -> Result<(), AllocError>
        requires carried { IsCarried self.old.profile request.now }
        requires empty { self.old.output.items ≡ [] }
        ensures { OnOk result ((state_of self.new, self.new.output.items) ≡
            on_request (state_of self.old) flags.number request.now) }
    {
        let packet = self.telecommand(alloc, flags, request)?;
        self.request(alloc, packet.as_slice())
    }

    /// What a `drain` line does.
    fn drain(&mut self, alloc: A) -> Result<(), AllocError>
        requires { self.old.output.items ≡ [] }
        ensures { OnOk result
            ((state_of self.new, self.new.output.items) ≡ on_drain (state_of self.old)) }
    {
        let answer = self.engine.drain(alloc, 0, self.time);
        answer_text(answer, &mut self.output)
    }

    /// What a `mem` line prints.
    fn memory(
        &mut self,
        id: u16,
        address: u64,
        length: Count<MAX_MEMORY_LENGTH>,
    ) -> Result<(), AllocError>
        requires { self.old.output.items ≡ [] }
        ensures state { state_of self.new ≡ state_of self.old }
        ensures output { OnOk result (self.new.output.items ≡
            memory_text (state_of self.old) id address length.number) }
    {
        let mut room = [0; MAX_MEMORY_LENGTH as usize];
        let octets = &mut room[..length.number as usize];
        match self.engine.memory(id, address, octets) {
            Ok(()) => octets_text(id, address, octets, &mut self.output),
            Err(fault) => no_octets_text(id, address, fault, &mut self.output),
        }
    }

    /// Does what a command asks for, unless that is work of the crew. A call that is not inlined
    /// would copy the command, of 80 octets.
    #[inline(always)]
    fn obey(&mut self, alloc: A, command: Command<'_>) -> Result<(), AllocError>
        requires sayable { IsSayable self.old.profile (meaning_of command) }
        requires alone { (shift : Shift) → command ≢ Command.Work shift }
        requires empty { self.old.output.items ≡ [] }
        ensures { OnOk result (Does (state_of self.new, self.new.output.items) ≡
            effect_of (state_of self.old) (meaning_of command.entry)) }
    {
        match command {
            Command::Nothing | Command::Work(_) => Ok(()),
            Command::Up(octets) => self.request(alloc, octets),
            Command::Send { flags, request } => self.send(alloc, flags, &request),
            Command::Time(time) => {
                self.time = time;
                Ok(())
            }
            Command::Step { id, steps } => {
                let slice = self.engine.slice(0, id, steps.number);
                step_text(id, slice, &mut self.output)
            }
            Command::Round { id, steps } => {
                let round = self.engine.round(0, id, steps.number);
                round_text(id, round, &mut self.output)
            }
            Command::Break { id, place } => {
                let answer = self.engine.set_break(0, id, place);
                place_text(b"break ", id, place, "set", answer, &mut self.output)
            }
            Command::Unbreak { id, place } => {
                let answer = self.engine.clear_break(0, id, place);
                place_text(b"unbreak ", id, place, "cleared", answer, &mut self.output)
            }
            Command::Trace { id, on } => {
                let answer = self.engine.trace(0, id, on);
                switch_text(id, on, answer, &mut self.output)
            }
            Command::Traces => self.engine.trace_lines(&mut self.output),
            Command::View(id) => view_text(id, self.engine.view(id), &mut self.output),
            Command::Memory {
                id,
                address,
                length,
            } => self.memory(id, address, length),
            Command::Pool(index) => {
                let word = self.engine.pool_word(index);
                pool_text(index, word, &mut self.output)
            }
            Command::Put { index, value } => {
                let answer = self.engine.put_word(0, index, value);
                put_text(index, value, answer, &mut self.output)
            }
            Command::Journal => journal_text(self.engine.events(), &mut self.output),
            Command::Drain => self.drain(alloc),
        }
    }

    /// Does what the line of this number asks for, or returns the work that it asks of the crew.
    pub fn answer(
        &mut self,
        alloc: A,
        number: u32,
        line: &[u8],
    ) -> Result<Option<Shift>, ConsoleFault>
        ensures { Answers (state_of self.old) (state_of self.new) self.new.output.items
            number line.now result }
    {
        self.output.clear();
        let mut scratch = Vec::new(alloc);
        match read_command(&mut scratch, self.profile, line)? {
            None => Err(ConsoleFault::Syntax(number)),
            Some(Command::Work(shift)) => Ok(Some(shift)),
            Some(command) => {
                self.obey(alloc, command)?;
                Ok(None)
            }
        }
    }

    /// The console after the crew's work. Refused as the crew refuses, or as `Memory` if the line
    /// that it prints finds no memory. The engine is then lost.
    pub fn work<C: Crew<Engine<A>>>(
        mut self,
        crew: &C,
        shift: Shift,
    ) -> Result<Console<A>, ConsoleFault>
        requires { C.ready crew.now }
        ensures done { IfOk result (λ console.
            HasDone (C.answers crew.now) (state_of self) (works_of shift)
            (state_of console, console.output.items)) }
        ensures refused { IfErr result (λ fault. (fault ≡ ConsoleFault.Memory)
            ⊎ ((refused : CrewFault) × (fault ≡ crew_fault refused)
            × HasRefused (C.answers crew.now) (state_of self) (works_of shift) refused)) }
    {
        let workers = shift.workers.number as u16;
        let budget = shift.budget.number;
        let turns = shift.turns.number;
        self.engine = crew.work(self.engine, workers, budget, turns)?;
        self.output.clear();
        work_text(shift.workers.number, &mut self.output)?;
        Ok(self)
    }
}
