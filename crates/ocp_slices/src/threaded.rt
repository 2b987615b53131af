//! The crew of threads that does the work of a console's `work` lines.

ghost use Rattle.std.specs.Prelude.{IfOk};
ghost use Rattle.std.specs.Thread.{IsSync};
ghost use Rattle.ocp_slices.specs.Closed.{HasWorked};

use crate::{Engine, Open, WorkFault, work};
use ocp_ports::{Crew, CrewFault};
use std::alloc::Global;
use std::sync::Wait;
use std::thread::Threads;

/// A crew of threads. It shares the engine between as many seats as there are workers, with one
/// thread for each, and closes it. The journal that comes back is the given one, followed by one
/// history of what the workers did: only instructions, within their budget and turns.
#[derive(Drop)]
pub struct Threaded<'a, R: Threads + Wait + Sync> {
    pub rt: &'a R,
    pub alloc: Global,
}

impl<R: Threads + Wait + Sync> Crew<Engine> for Threaded<'_, R> {
    ghost ready = { λ _. IsSync R.row };

    ghost answers = { λ _ engine workers budget turns answer. IfOk answer
        (λ after. HasWorked engine after workers budget turns) };

    fn work(
        &self,
        engine: Engine,
        workers: u16,
        budget: u32,
        turns: u32,
    ) -> Result<Engine, CrewFault> {
        match work(self.rt, self.alloc, engine, workers, budget, turns, &Open) {
            Ok(engine) => Ok(engine),
            Err(WorkFault::Memory) => Err(CrewFault::Memory),
            Err(WorkFault::NotClosed) => Err(CrewFault::Workers),
        }
    }
}
