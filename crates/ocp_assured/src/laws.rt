//! Laws on images in flight. The functions do nothing when they run: their contracts are the laws.
ghost use Rattle.std.specs.Prelude.{ℕ, List};
ghost use Rattle.ocp_check.specs.Never.{AsksWell, NeverFaults};
ghost use Rattle.ocp_check.specs.Rounds.{IsWithin};
ghost use Rattle.ocp_assured.specs.Flights.{AsksWellInFlight, AsksWellInJournals, IsWithinInFlight, MachinesAreReached, NeverFaultsInFlight, NeverFaultsInJournals};

use bpf_step::laws::{machines_keep_their_addresses, machines_started_anew_are_as_new};
use ocp_core::laws::{
    engine_calls_answer_from_the_pool, machines_follow_from_their_own_events,
    own_events_are_those_of_the_image, the_machine_faults_by_its_image,
};

/// In every engine, after any requests, instructions, commands of a debugger, drains and writes of
/// pool words in any order, the machine of each loaded procedure is one that its image reaches. It
/// may share the image with another procedure, be loaded again under the same identifier, and be
/// activated again with other arguments. The octets of requests are octets, each below 256, in this
/// law and in the others.
pub fn machines_in_flight_are_reached()
    ensures { MachinesAreReached }
{
    machines_keep_their_addresses();
    machines_started_anew_are_as_new();
    machines_follow_from_their_own_events();
    own_events_are_those_of_the_image();
}

/// If no machine of an image meets a fault of its own, no instruction of a procedure with this
/// image is answered fault 1, 2 or 3 in flight. `ocp_check::check` shows the condition.
pub fn images_that_never_fault_do_not_in_flight()
    ensures events { (image : List ℕ) → NeverFaults image → NeverFaultsInFlight image }
    ensures journal { (image : List ℕ) → NeverFaults image → NeverFaultsInJournals image }
{
    machines_in_flight_are_reached();
    own_events_are_those_of_the_image();
    the_machine_faults_by_its_image();
}

/// If an image asks only for words of a pool of n words, no instruction of a procedure with this
/// image is answered fault 4 in flight, in an engine with at least n pool words.
/// `ocp_check::check_pool` shows the condition.
pub fn images_that_ask_well_do_so_in_flight()
    ensures events { (image : List ℕ) (asked : ℕ) →
        AsksWell image asked → AsksWellInFlight image asked }
    ensures journal { (image : List ℕ) (asked : ℕ) →
        AsksWell image asked → AsksWellInJournals image asked }
{
    machines_in_flight_are_reached();
    own_events_are_those_of_the_image();
    the_machine_faults_by_its_image();
    engine_calls_answer_from_the_pool();
}

/// If an image does fewer than n instructions without the end of a step, each round of a procedure
/// with this image has at most n instructions in flight, counting the one that ends the step or the
/// procedure. `ocp_check::check_rounds` shows the condition.
pub fn rounds_are_within_their_bound_in_flight()
    ensures { (image : List ℕ) (most : ℕ) → IsWithin image most → IsWithinInFlight image most }
{
    machines_keep_their_addresses();
    machines_started_anew_are_as_new();
    own_events_are_those_of_the_image();
}
