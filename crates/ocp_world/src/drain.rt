//! The drain: the completions that wait are reported.

ghost use Rattle.std.specs.Prelude.{◌≡◌, ℕ, true, Err, IfOk};
ghost use Rattle.ocp_world.specs.Clauses.{DoesIn, Drain, IsUndue, IsWorld, World, after, effect_of, is_accepted, with_packets};
ghost use Rattle.ocp_world.specs.declared.answers.EngineFault.TheVariants as engine;

use crate::{EngineFault, Keeps, State};
use ocp_reports::{PacketBuffer, count_after};
use std::alloc::Allocator;

impl<A: Allocator> State<A> {
    /// Whether a completion waits to be reported. If none does, a drain is refused.
    pub fn is_due(&self) -> bool
        ensures { (w : World) (by time : ℕ) → IsWorld w self.now →
            IsUndue (after w (Drain by time)).answer result }
    {
        !self.table.outbox().is_empty()
    }

    /// Writes the reports of all completions that wait, the oldest first, at this time, each to the
    /// source of its request. Then none waits. The keeper keeps them before anything is changed. It
    /// fails only if the keeper finds no memory; then nothing is changed.
    pub fn report_due<K: Keeps>(
        &mut self,
        keeper: &mut K,
        time: u32,
        packets: &mut PacketBuffer<A>,
    ) -> Result<K::Kept, EngineFault>
        requires { (w : World) (by : ℕ) → IsWorld w self.old →
            is_accepted (after w (Drain by time)).answer ≡ true }
        ensures does { (w : World) (by : ℕ) → IsWorld w self.old →
            DoesIn w (effect_of w (Drain by time)) (with_packets result packets.new) self.new }
        ensures kept { IfOk result (λ kept. K.holds kept packets.new) }
        ensures memory { result ≡ Err engine.Memory → K.refused keeper.new ≡ true }
    {
        self.sender
            .write_drained(time, self.table.outbox(), packets);
        let kept = keeper.keep(packets.packets())?;
        self.table.drain();
        self.sender.count = count_after(self.sender.count, packets.len());
        Ok(kept)
    }
}
