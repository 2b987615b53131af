//! A procedure that was saved, and why a table refuses it.
ghost use Rattle.std.specs.Prelude.{◌≡◌, ◌≤◌, length};
ghost use Rattle.std.specs.List.{list_all};
ghost use Rattle.ocp_table.specs.Clauses.{are_framed, are_no_breakpoints, fault_of_control, fault_of_machine, frame_pointer, has_needless_budget, is_active, is_framed, is_pending, is_place, is_running_status, machine_of_saved, passes_unrun, pends_inactive, record_of_saved, rises, stands_in};

use crate::{Control, MAX_BREAKPOINTS, Pending, Profile, Status};
use bpf_moves::Registers;
use bpf_step::{FRAME_OCTETS, FRAME_POINTER, Frame, MAX_LOCAL_CALLS};
use ocp_loader::{LoadFault, Program};
use ocp_pool::MAX_MAILBOX_WORDS;
use ocp_regions::Parts;
use std::alloc::Allocator;
use thiserror::Error;

/// All that a table holds of a procedure, apart from its identifier.
#[derive(Clone, Copy)]
pub struct Saved<'a> {
    /// The octets of the image.
    pub code: &'a [u8],
    pub registers: Registers,
    /// The slot of the next instruction.
    pub place: u16,
    /// What the local calls that are open have saved, the latest last.
    pub frames: &'a [Frame],
    pub memory: Parts<'a>,
    pub control: Control,
    /// The slots of instructions at which breakpoints are set, in rising order.
    pub breakpoints: &'a [u16],
    pub traced: bool,
    /// How many instructions are left of the budget, if one is set.
    pub remaining: Option<u32>,
    /// The words of the mailbox, the oldest first.
    pub mailbox: &'a [u64],
}

/// Why a table refuses a procedure that was saved, in the order in which faults are looked for. A
/// breakpoint without an instruction comes after the faults of the image.
#[derive(Clone, Copy, PartialEq, Eq, Debug, Error)]
pub enum SavedFault {
    #[error("a table holds at most 16 procedures")]
    TableFull,
    #[error("an identifier is above those before it")]
    Order,
    #[error("at most 64 completions are pending or wait")]
    Outbox,
    #[error("only an active procedure has a pending stop or suspend")]
    Pending,
    #[error("only a running procedure has the pass flag")]
    Pass,
    #[error("profile 1 has no budgets")]
    Budget,
    #[error("there are at most 8 breakpoints, at instructions, in rising order")]
    Breakpoints,
    #[error("a mailbox has at most 16 words")]
    Mailbox,
    #[error(transparent)]
    Image(LoadFault),
    #[error("at most 7 local calls are open")]
    Frames,
    #[error("a machine is at an instruction, and returns to instructions")]
    Place,
    #[error("r10 is the frame pointer of its depth")]
    FramePointer,
}

// Whether a stop or suspend is pending.
fn is_pending(pending: Pending) -> bool
    ensures { result ≡ is_pending pending }
{
    match pending {
        Pending::Nothing => false,
        Pending::Stop(_, _) | Pending::Suspend(_, _) => true,
    }
}

// Whether a procedure runs or is held.
fn is_active(status: Status) -> bool
    ensures { result ≡ is_active status }
{
    match status {
        Status::Inactive => false,
        Status::Running | Status::Held => true,
    }
}

// Whether something is pending for an inactive procedure.
fn pends_inactive(control: Control) -> bool
    ensures { result ≡ pends_inactive control }
{
    is_pending(control.pending) && !is_active(control.status)
}

// Whether a procedure runs.
fn is_running(status: Status) -> bool
    ensures { result ≡ is_running_status status }
{
    matches!(status, Status::Running)
}

// Whether a procedure that does not run has the pass flag.
fn passes_unrun(control: Control) -> bool
    ensures { result ≡ passes_unrun control }
{
    control.pass && !is_running(control.status)
}

// Whether a budget is set that the profile does not have.
fn has_needless_budget(profile: Profile, remaining: Option<u32>) -> bool
    ensures { result ≡ has_needless_budget profile remaining }
{
    match profile {
        Profile::One => remaining.is_some(),
        Profile::Two => false,
    }
}

// Whether each place is above the one before it.
fn rise(places: &[u16]) -> bool
    ensures { result ≡ rises places.now }
{
    let [first, rest @ ..] = places else {
        return true;
    };
    let mut before = *first;
    for place in rest {
        if *place <= before {
            return false;
        }
        before = *place;
    }
    true
}

// Whether there are too many breakpoints, or they do not rise.
fn are_no_breakpoints(places: &[u16]) -> bool
    ensures { result ≡ are_no_breakpoints places.now }
{
    places.len() > MAX_BREAKPOINTS || !rise(places)
}

// R10 at a depth.
fn frame_pointer(depth: usize) -> u64
    requires { depth ≤ MAX_LOCAL_CALLS }
    ensures { result ≡ frame_pointer depth }
{
    FRAME_POINTER - FRAME_OCTETS * depth as u64
}

// Whether R10 of each frame is the frame pointer of its depth.
fn are_framed(frames: &[Frame]) -> bool
    requires { length frames.now ≤ MAX_LOCAL_CALLS }
    ensures { result ≡ are_framed 0 frames.now }
{
    for (depth, frame) in frames.iter().enumerate() {
        if frame.r10 != frame_pointer(depth) {
            return false;
        }
    }
    true
}

// Whether an instruction begins at a slot.
fn is_place<A: Allocator>(program: &Program<A>, slot: u16) -> bool
    ensures { result ≡ is_place program.now slot }
{
    program.encoding_at(slot).is_some()
}

// Whether an instruction begins at each slot.
fn are_places<A: Allocator>(program: &Program<A>, slots: &[u16]) -> bool
    ensures { result ≡ list_all (is_place program.now) slots.now }
{
    slots.iter().all(|slot| is_place(program, *slot))
}

// Whether an instruction begins at the place of each frame.
fn return_to_places<A: Allocator>(program: &Program<A>, frames: &[Frame]) -> bool
    ensures { result ≡ list_all (λ frame. is_place program.now frame.place) frames.now }
{
    frames.iter().all(|frame| is_place(program, frame.place))
}

impl Saved<'_> {
    // Whether the machine is at an instruction of a program, and returns to instructions of it.
    fn stands_in<A: Allocator>(&self, program: &Program<A>) -> bool
        ensures { result ≡ stands_in program.now (machine_of_saved self.now) }
    {
        is_place(program, self.place) && return_to_places(program, self.frames)
    }

    // Whether R10, now and in each frame, is the frame pointer of its depth.
    fn is_framed(&self) -> bool
        requires { length self.now.frames.now ≤ MAX_LOCAL_CALLS }
        ensures { result ≡ is_framed (machine_of_saved self.now) }
    {
        self.registers[10] == frame_pointer(self.frames.len()) && are_framed(self.frames)
    }

    /// The first fault of what requests and a debugger set, under a profile.
    pub(crate) fn control_fault(&self, profile: Profile) -> Option<SavedFault>
        ensures { result ≡ fault_of_control profile (record_of_saved self.now) }
    {
        if pends_inactive(self.control) {
            return Some(SavedFault::Pending);
        }
        if passes_unrun(self.control) {
            return Some(SavedFault::Pass);
        }
        if has_needless_budget(profile, self.remaining) {
            return Some(SavedFault::Budget);
        }
        if are_no_breakpoints(self.breakpoints) {
            return Some(SavedFault::Breakpoints);
        }
        if self.mailbox.len() > MAX_MAILBOX_WORDS {
            return Some(SavedFault::Mailbox);
        }
        None
    }

    /// The first fault of what stands in the program of its image.
    pub(crate) fn machine_fault<A: Allocator>(&self, program: &Program<A>) -> Option<SavedFault>
        requires { program.now ≡ self.now.code.now }
        ensures { result ≡ fault_of_machine (record_of_saved self.now) }
    {
        if !are_places(program, self.breakpoints) {
            return Some(SavedFault::Breakpoints);
        }
        if self.frames.len() > MAX_LOCAL_CALLS {
            return Some(SavedFault::Frames);
        }
        if !self.stands_in(program) {
            return Some(SavedFault::Place);
        }
        if !self.is_framed() {
            return Some(SavedFault::FramePointer);
        }
        None
    }
}
