//! The engine behind a lock.

ghost use Rattle.std.specs.Prelude.{◌≡◌, ◌≤◌, [], IfOk};
ghost use Rattle.ocp_debug.specs.declared.command.Command.TheVariants as command;
ghost use Rattle.ocp_world.specs.World as world;
ghost use Rattle.ocp_core.specs.Clauses.{Commanded, Requested, Stepped, Written};
ghost use Rattle.ocp_seats.specs.Seats.{Opens};
ghost use Rattle.ocp_slices.specs.Replies.{SeatReply, TakeReply, IsServed, IsSliced, IsHandedIn};

use crate::input::{DebuggerCommand, Drain, PutWord, Request, Step};
use crate::{
    Board, Book, Command, CommitOutcome, DebugFault, Engine, EngineFault, Naming, PutFault,
    Reports, Seat, SeatFault, Slice, StepOutcome, TakeFault, Ticket, Work,
};
use std::alloc::Global;
use std::hint::spin_loop;
use std::marker::PhantomData;
use std::sync::ledger::Blank;
use std::sync::{Mutex, MutexGuard, Wait};

/// How often a thread checks whether the lock is free before it sleeps, and how often it pauses
/// between two checks: about a millisecond in all. Most turns hold the lock for less than a
/// microsecond, and a sleeping thread takes longer to wake.
const LOOKS: u32 = 8_000;

const PAUSES: u32 = 2;

/// One engine for several threads: a board behind a lock, by default the book of an engine. Each
/// call of a seat takes the lock once. It returns the board's answer, and the seat gains the
/// receipt of what was accepted: its own arguments, its own number and the answer that it got.
#[derive(Drop)]
pub struct SharedEngine<L: Naming, B: Board<L> = Book<L>> {
    pub(crate) board: Mutex<B>,
    of: PhantomData<L>,
}

impl<L: Naming> SharedEngine<L> {
    /// The book of an engine behind a lock, with the blank of a ledger of 65 parts. Its name has
    /// the engine's room and its journal.
    pub fn new(engine: Engine, blank: Blank) -> Self
        requires { Opens blank.name blank.parts L.name L.parts L.room L.log engine }
    {
        SharedEngine::over(Book::new(engine, blank))
    }
}

impl<L: Naming, B: Board<L>> SharedEngine<L, B> {
    /// Any board behind a lock.
    pub fn over(board: B) -> Self {
        SharedEngine {
            board: Mutex::new(board),
            of: PhantomData,
        }
    }

    /// The board, under the lock.
    pub(crate) fn lock<R: Wait>(&self, rt: &R) -> MutexGuard<'_, B> {
        for _look in 0..LOOKS {
            if let Some(board) = self.board.try_lock() {
                return board;
            }
            for _pause in 0..PAUSES {
                spin_loop();
            }
        }
        self.board.lock(rt)
    }

    /// The board, once no thread shares it.
    pub fn into_inner(self) -> B {
        self.board.into_inner()
    }

    /// The next seat, with a number of 1 to 64 and no receipts. Refused, in this order, if 64 were
    /// given out, and if there is no memory for the receipts of all entries that the engine has
    /// room for.
    pub fn seat<R: Wait>(&self, rt: &R, alloc: Global) -> Result<Seat<L>, SeatFault>
        ensures given { B.answers (SeatReply result) }
        ensures receipts { IfOk result (λ seat. (seat.receipts ≡ []) × (seat.share ≡ 0)) }
        ensures number { IfOk result (λ seat. (1 ≤ seat.number) × (seat.number ≤ 64)) }
    {
        self.lock(rt).seat(alloc)
    }

    /// A ticket for the running procedure with the least id above the one taken last by any seat,
    /// else with the least id. Refused, in this order, if none runs, and if there is no memory for
    /// the copy of its program and the two copies of its machine.
    pub fn take<R: Wait>(&self, rt: &R, alloc: Global) -> Result<Ticket, TakeFault>
        ensures given { B.answers (TakeReply result) }
    {
        self.lock(rt).take(alloc, &mut None)
    }

    /// Puts a work's instructions into its procedure. Refused, in this order, if there are none, if
    /// the procedure is not what the work began with, and if the journal is full; then nothing is
    /// changed. The work is dropped in any case.
    pub fn commit<R: Wait>(&self, rt: &R, seat: &mut Seat<L>, mut work: Work) -> CommitOutcome
        ensures handed_in { IsHandedIn B.answers seat.old seat.new work result }
    {
        self.lock(rt).hand_in(seat, &mut work)
    }

    /// Takes the octets of a telecommand packet and answers its reports, as the engine's call with
    /// the seat's number.
    pub fn request<R: Wait>(
        &self,
        rt: &R,
        alloc: Global,
        seat: &mut Seat<L>,
        time: u32,
        octets: &[u8],
    ) -> Result<Reports, EngineFault>
        ensures served { IsServed B.answers seat.old seat.new
            (world.Request seat.old.number time octets.now) (Requested result) }
    {
        let request = Request {
            alloc,
            time,
            octets,
        };
        self.lock(rt).apply(seat, request)
    }

    /// Reports the completions that wait, the oldest first, at a time in whole seconds, as the
    /// engine's call with the seat's number. Refused, in this order, if none waits, if the journal
    /// is full, and if there is no memory.
    pub fn drain<R: Wait>(
        &self,
        rt: &R,
        alloc: Global,
        seat: &mut Seat<L>,
        time: u32,
    ) -> Result<Reports, EngineFault>
        ensures served { IsServed B.answers seat.old seat.new
            (world.Drain seat.old.number time) (Requested result) }
    {
        self.lock(rt).apply(seat, Drain { alloc, time })
    }

    /// Does one instruction of a procedure, as the engine's call with the seat's number.
    pub fn step<R: Wait>(&self, rt: &R, seat: &mut Seat<L>, id: u16) -> StepOutcome
        ensures served { IsServed B.answers seat.old seat.new
            (world.Step seat.old.number id) (Stepped result) }
    {
        self.lock(rt).apply(seat, Step { id })
    }

    /// Does up to `budget` instructions of one procedure, as the engine's call with the seat's
    /// number.
    pub fn slice<R: Wait>(&self, rt: &R, seat: &mut Seat<L>, id: u16, budget: u32) -> Slice
        requires { 1 ≤ budget }
        ensures sliced { IsSliced B.answers seat.old seat.new id budget result }
    {
        self.lock(rt).slice(seat, id, budget)
    }

    /// Writes the pool word at an index from outside, as the engine's call with the seat's number.
    pub fn put_word<R: Wait>(
        &self,
        rt: &R,
        seat: &mut Seat<L>,
        index: u64,
        value: u64,
    ) -> Result<(), PutFault>
        ensures served { IsServed B.answers seat.old seat.new
            (world.Put seat.old.number index value) (Written result) }
    {
        self.lock(rt).apply(seat, PutWord { index, value })
    }

    /// Sets a breakpoint, as the engine's call with the seat's number.
    pub fn set_break<R: Wait>(
        &self,
        rt: &R,
        seat: &mut Seat<L>,
        id: u16,
        place: u16,
    ) -> Result<(), DebugFault>
        ensures served { IsServed B.answers seat.old seat.new
            (world.Debug seat.old.number id (command.SetBreak place)) (Commanded result) }
    {
        let command = Command::SetBreak(place);
        self.lock(rt).apply(seat, DebuggerCommand { id, command })
    }

    /// Clears a breakpoint, as the engine's call with the seat's number.
    pub fn clear_break<R: Wait>(
        &self,
        rt: &R,
        seat: &mut Seat<L>,
        id: u16,
        place: u16,
    ) -> Result<(), DebugFault>
        ensures served { IsServed B.answers seat.old seat.new
            (world.Debug seat.old.number id (command.ClearBreak place)) (Commanded result) }
    {
        let command = Command::ClearBreak(place);
        self.lock(rt).apply(seat, DebuggerCommand { id, command })
    }

    /// Sets whether each instruction of a procedure leaves a trace record, as the engine's call
    /// with the seat's number.
    pub fn trace<R: Wait>(
        &self,
        rt: &R,
        seat: &mut Seat<L>,
        id: u16,
        on: bool,
    ) -> Result<(), DebugFault>
        ensures served { IsServed B.answers seat.old seat.new
            (world.Debug seat.old.number id (command.SetTrace on)) (Commanded result) }
    {
        let command = Command::SetTrace(on);
        self.lock(rt).apply(seat, DebuggerCommand { id, command })
    }
}
