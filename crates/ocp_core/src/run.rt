//! Lists of events.

ghost use Rattle.std.specs.Prelude.{◌≡◌, Err, IfOk, IfErr, OnOk, map, take, slice_get};
ghost use Rattle.ocp_world.specs.declared.answers.EngineFault.TheVariants.{Memory};
ghost use Rattle.ocp_core.specs.Clauses.{Applies, Enters, HasRoom, Requested, StopsAt, TakesMemory, answer_of, answers, event_of, log_after_all, refusal_of, replay_from, world_of};

use crate::laws::{refused_events_change_nothing, worlds_have_no_full_journal};
use crate::{
    Answer, DebugFault, Engine, EngineFault, Event, PutFault, RunFault, RunRefusal, StepOutcome,
};
use std::alloc::Allocator;

// Why a run ends before an event with this answer, if it does.
fn refusal_of<A: Allocator>(answer: &Answer<A>) -> Option<RunRefusal>
    ensures { result ≡ refusal_of (answer_of answer.now) }
{
    match answer {
        Answer::Requested(Err(EngineFault::Memory)) => Some(RunRefusal::Memory),
        Answer::Requested(Err(EngineFault::JournalFull))
        | Answer::Stepped(StepOutcome::JournalFull)
        | Answer::Commanded(Err(DebugFault::JournalFull))
        | Answer::Written(Err(PutFault::JournalFull)) => Some(RunRefusal::JournalFull),
        _ => None,
    }
}

impl<A: Allocator + Copy> Engine<A> {
    // Does an event. Memory is answered only to a request and to a drain.
    fn answer(&mut self, alloc: A, event: Event<'_>) -> Answer<A>
        ensures enters { Enters self.old self.new (event_of event.entry) (answer_of result) }
        ensures memory { answer_of result ≡ Requested (Err Memory) →
            TakesMemory self.old (event_of event.entry) }
    {
        match event {
            Event::Request { by, time, octets } => {
                Answer::Requested(self.request(alloc, by, time, octets))
            }
            Event::Drain { by, time } => Answer::Requested(self.drain(alloc, by, time)),
            Event::Step { by, id } => Answer::Stepped(self.step(by, id)),
            Event::SetBreak { by, id, place } => Answer::Commanded(self.set_break(by, id, place)),
            Event::ClearBreak { by, id, place } => {
                Answer::Commanded(self.clear_break(by, id, place))
            }
            Event::Trace { by, id, on } => Answer::Commanded(self.trace(by, id, on)),
            Event::PutWord { by, index, value } => Answer::Written(self.put_word(by, index, value)),
        }
    }

    // Does an event, or refuses it: the journal is full, or there is no memory.
    fn run_event(&mut self, alloc: A, event: Event<'_>) -> Result<Answer<A>, RunRefusal>
        ensures { Applies self.old self.new (event_of event.entry) result }
    {
        refused_events_change_nothing();
        worlds_have_no_full_journal();
        let answer = self.answer(alloc, event);
        match refusal_of(&answer) {
            Some(refusal) => Err(refusal),
            None => Ok(answer),
        }
    }

    /// Does events in order, and answers each; an accepted one leaves its entry in the journal. It
    /// ends before the first event that is refused because the journal is full or there is no
    /// memory. It then returns that refusal, the event's index and the answers of the events before
    /// it, which keep their effect. Room for all answers is taken first: if there is none, the
    /// index is 0. A later instruction takes no memory.
    pub fn run(&mut self, alloc: A, events: &[Event<'_>]) -> Result<Vec<Answer<A>, A>, RunFault<A>>
        ensures answers { IfOk result (λ v.
            map answer_of v.items ≡ answers (world_of self.old) (map event_of events.now)) }
        ensures world { OnOk result
            (world_of self.new ≡ replay_from (world_of self.old) (map event_of events.now)) }
        ensures journal { OnOk result
            (self.new ≡ log_after_all self.old (map event_of events.now)) }
        ensures room { OnOk result (HasRoom self.old (map event_of events.now)) }
        ensures answers_before { IfErr result (λ fault.
            let before = map event_of (take fault.index events.now) in
            map answer_of fault.answers.items ≡ answers (world_of self.old) before) }
        ensures world_before { IfErr result (λ fault.
            let before = map event_of (take fault.index events.now) in
            world_of self.new ≡ replay_from (world_of self.old) before) }
        ensures journal_before { IfErr result (λ fault.
            self.new ≡ log_after_all self.old (map event_of (take fault.index events.now))) }
        ensures room_before { IfErr result (λ fault.
            HasRoom self.old (map event_of (take fault.index events.now))) }
        ensures refused { IfErr result (λ fault.
            let event = slice_get (map event_of events.now) fault.index in
            StopsAt self.new fault.refusal fault.index event) }
    {
        let Ok(mut answers) = Vec::with_capacity(alloc, events.len()) else {
            return Err(RunFault {
                refusal: RunRefusal::Memory,
                index: 0,
                answers: Vec::new(alloc),
            });
        };
        for (index, event) in events.iter().enumerate() {
            match self.run_event(alloc, *event) {
                Ok(answer) => answers.push_reserved(answer),
                Err(refusal) => {
                    return Err(RunFault {
                        refusal,
                        index,
                        answers,
                    });
                }
            }
        }
        Ok(answers)
    }
}
