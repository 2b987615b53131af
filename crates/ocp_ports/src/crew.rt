//! Who does the work of a `work` line.

ghost use Rattle.std.specs.Prelude.{◌≤◌, ℕ, Result};
ghost use Rattle.ocp_ports.specs.declared.crew.CrewFault.{CrewFault};

use thiserror::Error;

/// Who does the work of a `work` line, on engines of the type `E`.
pub trait Crew<E> {
    // What it needs to work.
    ghost ready: { Self → Type 0 };

    // The answers that it may give for an engine, the number of workers, the budget and the turns of each: the engine
    // that it gives back, or its refusal.
    ghost answers: { Self → E → ℕ → ℕ → ℕ → Result E CrewFault → Type 0 };

    /// Lets `workers` workers take turns at the engine's running procedures: each takes `turns`
    /// turns, of up to `budget` instructions. It gives the engine back, or drops it if it refuses.
    fn work(&self, engine: E, workers: u16, budget: u32, turns: u32) -> Result<E, CrewFault>
        requires ready { ready self.now }
        requires some { 1 ≤ workers }
        requires few { workers ≤ 16 }
        ensures { answers self.now engine workers budget turns result };
}

/// Why a crew gave no engine back.
#[derive(Clone, Copy, Debug, Error)]
pub enum CrewFault {
    #[error("out of memory")]
    Memory,
    #[error("the work could not be closed")]
    Workers,
}
