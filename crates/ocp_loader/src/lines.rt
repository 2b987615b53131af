//! Room in which an image is read.
ghost use Rattle.std.specs.Prelude.{◌≡◌, ◌≤◌, ◌/◌, IfErr, OnOk, OnErr, Ok, Err, Bool, length, vec_capacity};
ghost use Rattle.ocp_profile.specs.declared.profile.Profile.{Profile};
ghost use Rattle.ocp_loader.specs.declared.fault.LoadFault.TheVariants.{Memory};
ghost use Rattle.ocp_loader.specs.LineAt.{IsPlace};
ghost use Rattle.ocp_loader.specs.LoadResult.{load_result};
ghost use Rattle.ocp_loader.specs.Admitted.{IsAdmitted, HasSlots};
ghost use Rattle.ocp_loader.specs.Faults.{IsFirstFault};
ghost use Rattle.ocp_loader.specs.Mirror.Reading.{IsRead, read_slots};
ghost use Rattle.ocp_loader.specs.Mirror.Checks.{lines_result};

use crate::check::lines_fault;
use crate::fault::LoadFault;
use crate::laws::faults_are_of_images_that_may_not_be_run;
use crate::program::{MAX_OCTETS, MAX_SLOTS, SLOT_OCTETS};
use crate::read::read_lines;
use bpf_types::Line;
use ocp_profile::Profile;
use std::alloc::{AllocError, Allocator, Global};
use std::marker::Model;

/// Tests the length of an image: 1 to 2,048 slots of 8 octets.
#[tactic(auto, unfolding(crate::specs::LoadResult::load_result), using(crate::proofs::First::has_slots))]
pub(crate) fn check_length(code: &[u8]) -> Result<(), LoadFault>
    ensures ok { OnOk result (HasSlots code.now) }
    ensures read { OnOk result
        ((profile : Profile) →
        load_result profile code.now
        ≡ lines_result (read_slots profile code.now (length code.now / 8))) }
    ensures err { (profile : Profile) →
        IfErr result (λ fault. load_result profile code.now ≡ Err fault) }
    ensures refused { (profile : Profile) → OnErr result (¬ IsAdmitted profile code.now) }
    ensures first { (profile : Profile) → IfErr result (IsFirstFault profile code.now) }
    ensures memory { result ≡ Err Memory → ⊥ }
{
    faults_are_of_images_that_may_not_be_run();
    if code.is_empty() {
        return Err(LoadFault::EmptyCode);
    }
    if code.len() % SLOT_OCTETS != 0 {
        return Err(LoadFault::RaggedCode);
    }
    if code.len() > MAX_OCTETS {
        return Err(LoadFault::TooLong);
    }
    Ok(())
}

/// Reads the lines of an image by slot, or finds its first fault under the profile.
fn judge<A: Allocator>(
    lines: &mut Vec<Option<Line>, A>,
    profile: Profile,
    code: &[u8],
) -> Result<(), LoadFault>
    requires { MAX_SLOTS ≤ vec_capacity lines.old }
    ensures ok { OnOk result (load_result profile code.now ≡ Ok lines.new.items) }
    ensures read { OnOk result
        ((second : Bool) × IsRead profile code.now (length code.now / 8) lines.new.items second) }
    ensures slots { OnOk result (HasSlots code.now) }
    ensures few { OnOk result (length lines.new.items ≤ MAX_SLOTS) }
    ensures err { IfErr result (λ fault. load_result profile code.now ≡ Err fault) }
    ensures first { IfErr result (IsFirstFault profile code.now) }
    ensures memory { result ≡ Err Memory → ⊥ }
    ensures capacity { vec_capacity lines.new ≡ vec_capacity lines.old }
{
    check_length(code)?;
    read_lines(lines, profile, code, (code.len() / SLOT_OCTETS) as u16)?;
    match lines_fault(lines) {
        Some(fault) => Err(fault),
        None => Ok(()),
    }
}

/// Room for the lines of the largest image, in which `Program::reload` reads an image. All of it is
/// reserved by `new`. Its content between two calls has no meaning.
#[derive(Drop)]
pub struct Lines<A: Allocator = Global> {
    by_slot: Vec<Option<Line>, A>,
}

impl<A: Allocator> Model for Lines<A> {
    ghost use Rattle.std.specs.Prelude.{List, Option, ◌≤◌, vec_capacity};
    ghost use Rattle.bpf_types.specs.declared.line.Line.{Line};
    ghost use Rattle.ocp_loader.specs.Image.{max_slots};

    ghost Value = { List (Option Line) };

    ghost view = { λ l. l.by_slot.items };

    ghost invariant = { λ l. max_slots ≤ vec_capacity l.by_slot };
}

impl<A: Allocator> Lines<A> {
    /// Reserves the room: 2,048 lines.
    pub fn new(alloc: A) -> Result<Self, AllocError> {
        let by_slot = Vec::with_capacity(alloc, MAX_SLOTS)?;
        Ok(Lines { by_slot })
    }

    /// Reads the lines of an image that may be run, or finds its first fault.
    pub(crate) fn read(&mut self, profile: Profile, code: &[u8]) -> Result<(), LoadFault>
        ensures ok { OnOk result (load_result profile code.now ≡ Ok self.new) }
        ensures admitted { OnOk result (IsAdmitted profile code.now) }
        ensures begins { OnOk result (IsPlace code.now 0) }
        ensures slots { OnOk result (HasSlots code.now) }
        ensures few { OnOk result (length self.new ≤ MAX_SLOTS) }
        ensures err { IfErr result (λ fault. load_result profile code.now ≡ Err fault) }
        ensures refused { OnErr result (¬ IsAdmitted profile code.now) }
        ensures first { IfErr result (IsFirstFault profile code.now) }
        ensures memory { result ≡ Err Memory → ⊥ }
    {
        faults_are_of_images_that_may_not_be_run();
        judge(&mut self.by_slot, profile, code)
    }

    /// The lines that were read.
    pub(crate) fn as_slice(&self) -> &[Option<Line>]
        ensures { result.now ≡ self.now }
    {
        &self.by_slot
    }
}
