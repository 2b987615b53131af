//! What keeps the entries of an engine.

ghost use Rattle.std.specs.Prelude.{◌≡◌, ◌≤◌, ℕ, Bool, true, List, Ok, IfOk, OnErr};
ghost use Rattle.ocp_core.specs.Log as logs;
ghost use Rattle.ocp_core.specs.Clauses.{MAX_APID, Commanded, MayAdd, MayAddReports, Stepped, World, Written, entry_for, event_of, replay_from};

use crate::{Command, Event, StepOutcome};
use ocp_world::Keeps;
use space_packet::Apid;
use std::alloc::AllocError;

/// A store of the entries of an engine. The calls of `calls` are written over it.
pub trait Store {
    // The world that the engine is in: the replay of all entries from the world that it began with.
    ghost world: { Self → World };

    // There is no room for this entry.
    ghost is_full: { Self → logs.Entry → Bool };

    // The store with one entry more.
    ghost with_entry: { Self → logs.Entry → Self };

    /// The engine's application process identifier.
    fn apid(&self) -> Apid
        ensures value { result ≡ (world self.now).apid }
        ensures in_range { result ≤ MAX_APID };

    /// The number of the next event: how many were accepted.
    fn events(&self) -> u64
        ensures { result ≡ (world self.now).events };

    /// Whether there is no room for the entry of an event. That of one instruction needs the room
    /// of any number of them.
    fn is_full(&self, event: &Event<'_>) -> bool
        ensures { result ≡ is_full self.now (entry_for (event_of event.now)) };

    /// Adds the entry of instructions, all of them accepted, with the outcome of the last.
    fn push_steps(&mut self, by: u16, id: u16, count: u32, last: StepOutcome)
        requires some { 1 ≤ count }
        requires may { MayAdd world is_full self.old (logs.Steps by id count) (Stepped last) }
        ensures { self.new ≡ with_entry self.old (logs.Steps by id count) };

    /// Adds the entry of a debugger's command that was done.
    fn push_command(&mut self, by: u16, id: u16, command: Command)
        requires { MayAdd world is_full self.old (logs.Debugged by id command) (Commanded (Ok tt)) }
        ensures { self.new ≡ with_entry self.old (logs.Debugged by id command) };

    /// Adds the entry of a write of a pool word that was done.
    fn push_word(&mut self, by: u16, index: u16, value: u64)
        requires { MayAdd world is_full self.old (logs.Wrote by index value) (Written (Ok tt)) }
        ensures { self.new ≡ with_entry self.old (logs.Wrote by index value) };

    // The world with one entry more is that after the entry's events.
    ghost replays_entry: { (s : Self) (e : logs.Entry) →
        world (with_entry s e) ≡ replay_from (world s) (logs.events_of e) };

    // A slice asks for room before it knows how many instructions it does.
    ghost fills_alike: { (s : Self) (by id count other : ℕ) →
        is_full s (logs.Steps by id count) ≡ is_full s (logs.Steps by id other) };
}

/// A store that also takes requests and drains, with what is kept of their reports.
pub trait RequestStore: Store {
    /// Who keeps the reports.
    type Keeper: Keeps;

    /// What is kept of a request's octets before anything is changed.
    type KeptOctets: Drop;

    /// What the caller of a request or of a drain gets.
    type Receipt: Drop;

    // The kept value holds these octets.
    ghost keeps_octets: { Self.KeptOctets → List ℕ → Type 0 };

    // The receipt holds an entry and the reports that answered its event.
    ghost is_receipt: { Self.Receipt → logs.Entry → List (List ℕ) → Type 0 };

    /// Takes what the entry of a request needs. It fails for memory alone.
    fn keep_octets(keeper: &mut Self::Keeper, octets: &[u8]) -> Result<Self::KeptOctets, AllocError>
        ensures copy { IfOk result (λ copy. keeps_octets copy octets.now) }
        ensures refused { OnErr result (Self.Keeper.refused keeper.new ≡ true) };

    /// Adds the entry of a request that was done.
    fn push_request(
        &mut self,
        by: u16,
        time: u32,
        octets: &[u8],
        copy: Self::KeptOctets,
        kept: <Self::Keeper as Keeps>::Kept,
    ) -> Self::Receipt
        requires copied { keeps_octets copy octets.now }
        requires may { MayAddReports Self.world Self.is_full Self.Keeper.holds kept self.old
            (logs.Asked by time octets.now) }
        ensures store { self.new ≡ Self.with_entry self.old (logs.Asked by time octets.now) }
        ensures receipt { (reports : List (List ℕ)) → Self.Keeper.holds kept reports →
            is_receipt result (logs.Asked by time octets.now) reports };

    /// Adds the entry of a drain that was done.
    fn push_drain(
        &mut self,
        by: u16,
        time: u32,
        kept: <Self::Keeper as Keeps>::Kept,
    ) -> Self::Receipt
        requires { MayAddReports Self.world Self.is_full Self.Keeper.holds kept self.old
            (logs.Drained by time) }
        ensures store { self.new ≡ Self.with_entry self.old (logs.Drained by time) }
        ensures receipt { (reports : List (List ℕ)) → Self.Keeper.holds kept reports →
            is_receipt result (logs.Drained by time) reports };
}
