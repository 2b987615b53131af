//! How much memory an open takes.

ghost use Rattle.std.specs.Prelude.{◌≡◌, ◌≤◌, Ok, Err};
ghost use Rattle.core.specs.Int.{next_multiple_of};
ghost use Rattle.ocp_flight.specs.Flown.{Flown};
ghost use Rattle.ocp_c.specs.declared.status.Status.{Status as Refusal};
ghost use Rattle.ocp_c.specs.Opening.{opening};
ghost use Rattle.ocp_c.specs.Sizes.{machine_octets, sum_of_pieces};

use crate::opening::profile_of;

// 16 records of procedures, and 16 executions that wait for a load.
const PROCEDURES: usize = 16 * 816 + 16 * 584;

// The room for a program: its octets, and 2,049 operations of 8 octets.
const PROGRAM: usize = 16_384 + 16_400;

// The memory of a machine under a profile, by its number: stack, arguments, work.
const fn machine(profile: u32) -> usize
    ensures { result ≡ machine_octets profile }
{
    4_096 + 256 + if profile == 1 { 1_024 } else { 4_096 }
}

// 2,048 lines, in which a load reads its image.
const LINES: usize = 2_048 * 24;

// 256 trace records.
const TRACES: usize = 256 * 112;

// The reports of a call, and the lengths of 64 of them.
const REPORTS: usize = 1_600 + 64 * 2;

// What the handle points to.
const ENGINE: usize = 1_920;

// The octets of the pieces that an open takes whatever the profile and the numbers are, without the
// memory of the machines.
const FIXED: usize = PROCEDURES + 16 * PROGRAM + LINES + TRACES + REPORTS + ENGINE;

// A number of octets, rounded up to a multiple of 16.
fn round_up(octets: usize) -> usize
    requires { octets ≤ 2_000_000_000 }
    ensures value { result ≡ next_multiple_of octets 16 }
    ensures few { result ≤ 2_000_000_016 }
{
    octets.next_multiple_of(16)
}

/// The octets that an open takes of a block whose pieces begin at multiples of 16, or 0 if it
/// refuses these numbers.
#[unsafe(no_mangle)]
pub extern "C" fn ocp_size(profile: u32, pool_words: u32, entries: u32, octets: u32) -> usize
    ensures refused { (why : Refusal) → opening profile 0 pool_words entries octets ≡ Err why →
        result ≡ 0 }
    ensures size { (flown : Flown) → opening profile 0 pool_words entries octets ≡ Ok flown →
        result ≡ sum_of_pieces profile pool_words entries octets }
{
    if profile_of(profile, 0, pool_words, entries, octets).is_err() {
        return 0;
    }
    FIXED
        + 16 * machine(profile)
        + round_up(8 * pool_words as usize)
        + round_up(4 * entries as usize)
        + round_up(octets as usize)
}
