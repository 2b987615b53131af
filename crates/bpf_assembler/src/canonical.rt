//! The canonical form of an assembly text.

ghost use Rattle.std.specs.Prelude.{◌≡◌, ◌⊎◌, ◌++◌, ℕ, List, Ok, Err, OnOk, OnErr, IfErr, ◌≤◌, vec_capacity};
ghost use Rattle.bpf_types.specs.declared.line.Line.{Line};
ghost use Rattle.bpf_canonical.specs.Canonical.{listing};
ghost use Rattle.bpf_assembler.specs.Text.{Means};
ghost use Rattle.bpf_assembler.specs.Assembling.{IsImageOfText, IsFaultOf, HasMeaning};
ghost use Rattle.bpf_assembler.specs.declared.fault.AsmFault.TheVariants.{Memory};

use crate::assembling::{both_passes, with_line};
use crate::fault::AsmFault;
use crate::laws::meanings_exclude_faults;
use bpf_decode::laws::images_are_unique;
use ocp_loader::load;
use ocp_profile::Profile;
use std::alloc::Allocator;

/// Appends the canonical form of an assembly text to the octets: the text is assembled under the
/// profile, the image loaded, and the program listed. Each instruction that the text means has its
/// line.
///
/// Refused as `assemble` is, and as Memory if memory for the listing is refused. A refusal
/// leaves `out` and its capacity unchanged. The capacity never shrinks.
pub fn write_canonical<A: Allocator + Copy, B: Allocator>(
    alloc: A,
    profile: Profile,
    text: &[u8],
    out: &mut Vec<u8, B>,
) -> Result<(), AsmFault>
    ensures ok { OnOk result ((lines : List Line) × Means text.now lines ×
        (out.new.items ≡ out.old.items ++ listing lines)) }
    ensures admitted { OnOk result (HasMeaning profile text.now) }
    ensures only { (image : List ℕ) → IsImageOfText profile text.now image →
        (result ≡ Err Memory) ⊎ (result ≡ Ok tt) }
    ensures fault { IfErr result (IsFaultOf profile text.now) }
    ensures err { OnErr result (out.new.items ≡ out.old.items) }
    ensures same_capacity { OnErr result (vec_capacity out.new ≡ vec_capacity out.old) }
    ensures capacity { vec_capacity out.old ≤ vec_capacity out.new }
{
    meanings_exclude_faults();
    images_are_unique();
    let (table, octets) = both_passes(alloc, text)?;
    let program = with_line(&table.rows, load(alloc, profile, &octets))?;
    Ok(program.listing(out)?)
}
