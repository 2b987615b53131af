//! Both passes, and the loader's judgement.

ghost use Rattle.std.specs.Prelude.{◌≡◌, ◌⊎◌, ℕ, List, Ok, Err, map, IfOk, IfErr};
ghost use Rattle.bpf_types.specs.declared.line.Line.{Line};
ghost use Rattle.bpf_canonical.specs.Canonical.{listing};
ghost use Rattle.ocp_loader.specs.Admitted.{MayBeRun, IsAdmittedAs};
ghost use Rattle.bpf_assembler.specs.Text.{Means};
ghost use Rattle.bpf_assembler.specs.Faults.{IsFault};
ghost use Rattle.bpf_assembler.specs.Mirror.Passes.{ArePassed, IsReported, Reports, entry};
ghost use Rattle.bpf_assembler.specs.Assembling.{IsImageOfText, IsFaultOf};
ghost use Rattle.bpf_assembler.specs.declared.fault.Why.{Why};
ghost use Rattle.bpf_assembler.specs.declared.fault.AsmFault.TheVariants.{Memory, At};

use crate::fault::{AsmFault, Why};
use crate::laws::{faults_are_unique, meanings_are_unique, meanings_exclude_faults};
use crate::listings::admitted_images_are_meant_by_their_listings;
use crate::resolving::{line_up_to, resolve_all};
use crate::table::{Row, Table};
use bpf_decode::laws::images_are_unique;
use ocp_loader::{LoadFault, approve};
use ocp_profile::Profile;
use std::alloc::{Allocator, Global};
use std::marker::Model;

/// An image that may be run. Contracts see the list of its octets.
#[derive(Drop)]
pub struct Image<A: Allocator = Global> {
    octets: Vec<u8, A>,
}

impl<A: Allocator> Model for Image<A> {
    ghost use Rattle.std.specs.Prelude.{ℕ, List};
    ghost use Rattle.ocp_loader.specs.Admitted.{MayBeRun};

    ghost Value = { List ℕ };

    ghost view = { λ i. i.octets.items };

    ghost invariant = { λ i. MayBeRun i.octets.items };
}

impl<A: Allocator> Image<A> {
    /// The octets of the image.
    pub fn octets(&self) -> &[u8]
        ensures value { result.now ≡ self.now }
        ensures admitted { MayBeRun result.now }
    {
        &self.octets
    }
}

/// The fault of an image, at the line of the instruction at its slot, or at line 0 if it is one
/// of the image's length.
fn fault_with_line(rows: &[Row<'_>], fault: LoadFault) -> AsmFault
    ensures { IsReported (map entry rows.now) fault result }
{
    match fault {
        LoadFault::Memory => AsmFault::Memory,
        LoadFault::EmptyCode | LoadFault::RaggedCode | LoadFault::TooLong => {
            AsmFault::at(0, Why::Load(fault))
        }
        _ => AsmFault::at(line_up_to(rows, fault.slot()), Why::Load(fault)),
    }
}

/// The loader's answer for the image, its fault at the line of the instruction at its slot.
pub(crate) fn with_line<T>(rows: &[Row<'_>], judged: Result<T, LoadFault>) -> Result<T, AsmFault>
    ensures { Reports (map entry rows.now) judged result }
{
    match judged {
        Ok(value) => Ok(value),
        Err(fault) => Err(fault_with_line(rows, fault)),
    }
}

/// Both passes: the instructions of a text in its table, and their octets.
pub(crate) fn both_passes<'a, A: Allocator + Copy>(
    alloc: A,
    text: &'a [u8],
) -> Result<(Table<'a, A>, Vec<u8, A>), AsmFault>
    ensures ok { IfOk result (λ r. ArePassed text.now r.0.rows.items r.1.items) }
    ensures fault { (profile : Profile) → IfErr result (IsFaultOf profile text.now) }
{
    let table = Table::of(alloc, text)?;
    let octets = resolve_all(alloc, &table.labels, &table.rows)?;
    Ok((table, octets))
}

/// The image of the instructions that a text means, if it may be run under the profile.
fn image_of<A: Allocator + Copy>(
    alloc: A,
    profile: Profile,
    text: &[u8],
) -> Result<Image<A>, AsmFault>
    ensures means { IfOk result (IsImageOfText profile text.now) }
    ensures fault { IfErr result (IsFaultOf profile text.now) }
{
    images_are_unique();
    let (table, octets) = both_passes(alloc, text)?;
    with_line(&table.rows, approve(alloc, profile, &octets))?;
    Ok(Image { octets })
}

/// The image of the instructions that a text means, if it may be run under the profile.
///
/// If the text is the listing of an image that may be run under the profile, it gives that image.
///
/// Else refused: line by line with Syntax, Range or DuplicateLabel; then in line order with
/// UnknownLabel, or Range of the distance of a label; then with the fault of the image (`approve`),
/// at the line of the instruction at its slot, or at line 0 if the image is empty or too long.
/// Memory may be answered in place of any other answer. The time is linear in the text, except for
/// a logarithm of the number of labels for each label and each name.
pub fn assemble<A: Allocator + Copy>(
    alloc: A,
    profile: Profile,
    text: &[u8],
) -> Result<Image<A>, AsmFault>
    ensures means { IfOk result (IsImageOfText profile text.now) }
    ensures fault { IfErr result (IsFaultOf profile text.now) }
    ensures lines { (lines : List Line) → Means text.now lines →
        IfOk result (λ image. IsAdmittedAs profile image lines) }
    ensures only { (image : List ℕ) → IsImageOfText profile text.now image →
        (result ≡ Err Memory) ⊎ (result ≡ Ok image) }
    ensures only_fault { (line : ℕ) (why : Why) → IsFault profile text.now line why →
        (result ≡ Err Memory) ⊎ (result ≡ Err (At line why)) }
    ensures listed { (image : List ℕ) (lines : List Line) → IsAdmittedAs profile image lines →
        text.now ≡ listing lines → (result ≡ Err Memory) ⊎ (result ≡ Ok image) }
{
    meanings_are_unique();
    faults_are_unique();
    meanings_exclude_faults();
    admitted_images_are_meant_by_their_listings();
    image_of(alloc, profile, text)
}
