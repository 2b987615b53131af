//! Laws on machines. The functions do nothing when they run: their contracts are the laws.
ghost use Rattle.std.specs.Prelude.{◌≡◌, ◌≤◌, ℕ, Bool, List, [], length, Option, Some};
ghost use Rattle.ocp_profile.specs.declared.profile.Profile.{Profile};
ghost use Rattle.ocp_regions.specs.declared.regions.TheConstants.{ARGUMENT_OCTETS};
ghost use Rattle.bpf_types.specs.declared.line.Line.{Line};
ghost use Rattle.ocp_loader.specs.Admitted.{IsAdmitted, IsAdmittedAs};
ghost use Rattle.ocp_loader.specs.Places.{IsAt};
ghost use Rattle.bpf_step.specs.Machine.{State, Next, machine_at_start, machine_at_restart, HasMemoryOf, HasAddressesOf};
ghost use Rattle.bpf_step.specs.Calls.{state_after_engine_call};
ghost use Rattle.bpf_step.specs.Step.{one_step, step};
ghost use Rattle.bpf_step.specs.Runs.{local_run};
ghost use Rattle.bpf_step.specs.Reach.{Reaches, IsFound, IsFramed};

use ocp_loader::laws::{
    faults_are_of_images_that_may_not_be_run, images_begin_with_an_instruction,
    lines_stand_at_their_places, places_lead_to_places,
};
use ocp_regions::laws::{cleared_memory_is_the_first_one, stores_keep_the_addresses};

/// The step of an admitted image is that of the line whose octets are at the place.
pub fn steps_are_those_of_the_lines()
    ensures { (profile : Profile) (image : List ℕ) (lines : List Line) (s : State) (l : Line) →
        IsAdmittedAs profile image lines → IsAt lines s.place l → one_step image s ≡ step l s }
{
    lines_stand_at_their_places();
}

/// The machine of an admitted image never meets an undefined opcode, a place outside the code or
/// the second half of a wide load, for any octets as arguments and any answers of the engine
/// (`IsAnswer`).
pub fn instructions_are_always_found()
    ensures { (profile : Profile) (image : List ℕ) (s : State) →
        IsAdmitted profile image → Reaches image s → IsFound image s }
{
    images_begin_with_an_instruction();
    faults_are_of_images_that_may_not_be_run();
    places_lead_to_places();
}

/// R10 of a machine that an admitted image reaches is 0x10001000 less 512 for each open local call,
/// of which there are at most seven. Each saved R10 is that of its depth.
pub fn r10_is_the_frame_pointer_of_the_depth()
    ensures { (profile : Profile) (image : List ℕ) (s : State) →
        IsAdmitted profile image → Reaches image s → IsFramed s }
{
    lines_stand_at_their_places();
}

/// A machine of a profile that is started again equals a new one of that profile, started with the
/// same arguments: nothing is left of what it did.
pub fn machines_started_anew_are_as_new()
    ensures new { (profile : Profile) (before : List ℕ) → length before ≤ ARGUMENT_OCTETS →
        HasMemoryOf profile (machine_at_start profile before) }
    ensures again { (profile : Profile) (arguments : List ℕ) (s : State) → HasMemoryOf profile s →
        machine_at_restart arguments s ≡ machine_at_start profile arguments }
    ensures first { (profile : Profile) (arguments : List ℕ) →
        machine_at_restart arguments (machine_at_start profile [])
        ≡ machine_at_start profile arguments }
{
    cleared_memory_is_the_first_one();
}

/// No instruction and no engine call changes a machine's addresses, so it stays one of its profile.
pub fn machines_keep_their_addresses()
    ensures stepped { (profile : Profile) (image : List ℕ) (s t : State) → HasMemoryOf profile s →
        one_step image s ≡ Next t → HasMemoryOf profile t }
    ensures answered { (profile : Profile) (s : State) (r0 : ℕ) (r1 : Option ℕ) →
        HasMemoryOf profile s → HasMemoryOf profile (state_after_engine_call s r0 r1) }
{
    stores_keep_the_addresses();
}

/// A run of instructions that a machine executes by itself does not change its addresses.
pub fn runs_keep_the_addresses()
    ensures { (image breakpoints : List ℕ) (pass : Bool) (s t : State) (n : ℕ) →
        local_run image breakpoints pass s n ≡ Some t → HasAddressesOf s t }
{
    stores_keep_the_addresses();
}
