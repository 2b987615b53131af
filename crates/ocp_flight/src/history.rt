//! What an engine began with, and all pieces of octets since then, which only proofs read. It takes
//! no memory, and its calls do nothing when they run.

ghost use Rattle.std.specs.Prelude.{◌≡◌, ℕ, List, [], ◌∷◌, ◌++◌, None};
ghost use Rattle.std.specs.Borrow.{ftrue};
ghost use Rattle.ocp_flight.specs.Mirror.Restoration.{Restoration, restored_code};

use std::marker::{Model, PhantomData};

/// What was restored, if anything was, and the pieces, the oldest first.
#[derive(Drop)]
pub(crate) struct History {
    marker: PhantomData<u8>,
    pub ghost pieces: { List (List ℕ) },
    pub ghost restored: { Restoration } by { restored_code },
}

impl Model for History {
    ghost also_owns = { λ _. ftrue };
}

impl History {
    /// Nothing was restored, and there is no piece yet.
    pub(crate) fn new() -> History
        ensures { (result.pieces ≡ []) × (result.restored ≡ None) }
    {
        History {
            marker: PhantomData,
        }
    }

    /// One more piece, given in two parts.
    pub(crate) fn note(&mut self, _head: &[u8], _tail: &[u8])
        ensures { self.new ≡
            record self.old { pieces = self.old.pieces ++ (_head.now ++ _tail.now) ∷ [] } }
    {}
}
