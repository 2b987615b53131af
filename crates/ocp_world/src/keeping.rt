//! What the caller of a request or a drain keeps of its reports.

ghost use Rattle.std.specs.Prelude.{◌≡◌, Bool, true, false, ℕ, List, IfOk, IsOk, OnErr, OnOk};

use ocp_reports::PacketList;
use std::alloc::AllocError;

/// Who keeps the reports of a request or a drain, before anything is changed.
pub trait Keeps {
    /// What is kept of the reports.
    type Kept: Drop;

    // The kept value holds these packets.
    ghost holds: { Self.Kept → List (List ℕ) → Type 0 };

    // Memory was refused.
    ghost refused: { Self → Bool };

    /// Keeps the packets of the reports. It fails for memory alone.
    fn keep(&mut self, packets: PacketList<'_>) -> Result<Self::Kept, AllocError>
        ensures kept { IfOk result (λ kept. holds kept packets.entry) }
        ensures refused { OnErr result (refused self.new ≡ true) }
        ensures unrefused { OnOk result (refused self.new ≡ refused self.old) };
}

/// Keeps nothing, and so never fails.
#[derive(Clone, Copy)]
pub struct Nothing;

impl Keeps for Nothing {
    type Kept = ();

    ghost holds = { λ _ _. Unit {0} };

    ghost refused = { λ _. false };

    fn keep(&mut self, _packets: PacketList<'_>) -> Result<(), AllocError>
        ensures kept { IsOk result }
        ensures refused { OnErr result (false ≡ true) }
        ensures unrefused { OnOk result (false ≡ false) }
    {
        Ok(())
    }
}
