//! How a shared engine is closed.

ghost use Rattle.std.specs.Prelude.{◌≡◌, IfOk, IfErr};
ghost use Rattle.ocp_slices.specs.Closed.{IsClosed, RefusesShared};

use crate::{CloseFault, Engine, Naming, Seat, SharedEngine};
use ocp_seats::NotClosed;

/// A shared engine that was not closed, with the seats, and why.
#[derive(Drop)]
pub struct StillShared<L: Naming> {
    pub why: CloseFault,
    pub shared: SharedEngine<L>,
    pub seats: Vec<Seat<L>>,
}

impl<L: Naming> SharedEngine<L> {
    /// Closes the book behind the lock, as its own call does, and returns the engine. Refused, in
    /// this order, if the seats are not those that were given out, each once, and if the entries
    /// since the start are not exactly the seats' receipts; then the shared engine and the seats
    /// come back.
    pub fn close(self, seats: Vec<Seat<L>>) -> Result<Engine, StillShared<L>>
        ensures ok { IfOk result (λ engine. IsClosed L.log engine seats.items) }
        ensures back { IfErr result (λ fault. fault.seats ≡ seats) }
        ensures why { IfErr result (λ fault. RefusesShared seats.items fault.why) }
    {
        match self.into_inner().close(seats) {
            Ok(engine) => Ok(engine),
            Err(NotClosed { why, book, seats }) => Err(StillShared {
                why,
                shared: SharedEngine::over(book),
                seats,
            }),
        }
    }
}
