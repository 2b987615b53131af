//! What an image can never do, found and shown.
ghost use Rattle.std.specs.Prelude.{◌≡◌, [], IfOk, IfSome, IsTrue};
ghost use Rattle.ocp_check.specs.Never.{NeverFaults};
ghost use Rattle.ocp_check.specs.Rounds.{IsWithin};
ghost use Rattle.ocp_check.specs.Never.{AsksWell};

use crate::asks::{check_pool, slot_asks_well, words_asked};
use crate::certificate::Node;
use crate::checker::{check, is_kept_at};
use crate::covering::{node_and_line, node_at};
use crate::finding::find;
use crate::ranking::{Ranking, cycle, find_ranks, most_of};
use crate::refusal::{Refusal, Why, reason};
use crate::rounds::check_rounds;
use ocp_loader::Program;
use std::alloc::{AllocError, Allocator, Global};

/// What was found out about an image.
#[derive(Drop)]
pub struct Findings<A: Allocator = Global> {
    /// No run ever meets a fault of the machine: AccessOutside, WriteToArguments or CallDepth.
    pub never_faults: bool,
    /// Else the places that may meet one, in slot order.
    pub faults: Vec<Refusal, A>,
    /// The calls that may ask for a word that a pool of the given size does not have.
    pub asks: Vec<Refusal, A>,
    /// Words of a pool with which no run meets BadPoolIndex, if that was shown. Fewer may do.
    pub words: Option<u16>,
    /// A bound on the instructions from a start or the end of a step up to the next end of a step
    /// or of the procedure, both counted, if that was shown.
    pub round: Option<u32>,
    /// Else some slots that may follow one another without end and without the end of a step.
    pub cycle: Vec<u16, A>,
}

/// Why a slot is not shown, if it is not.
fn refusal_at<A: Allocator>(
    program: &Program<A>,
    certificate: &[Option<Node>],
    slot: u16,
) -> Option<Refusal> {
    if is_kept_at(program, certificate, slot) {
        return None;
    }
    match node_and_line(program, certificate, slot) {
        Some((node, line)) => Some(Refusal {
            slot,
            why: reason(&node, line),
        }),
        None => None,
    }
}

/// The places that may meet a fault of the machine, by a certificate.
fn faults<A: Allocator + Copy>(
    alloc: A,
    program: &Program<A>,
    certificate: &[Option<Node>],
) -> Result<Vec<Refusal, A>, AllocError>
    ensures { IfOk result (λ found. found.items ≡ [] → NeverFaults program.now) }
{
    let mut found = Vec::new(alloc);
    if check(program, certificate) {
        return Ok(found);
    }
    for slot in 0..program.slots() as u16 {
        if let Some(refusal) = refusal_at(program, certificate, slot) {
            found.push(refusal)?;
        }
    }
    if found.is_empty() {
        found.push(Refusal {
            slot: 0,
            why: Why::Unsettled,
        })?;
    }
    Ok(found)
}

/// The calls that may ask for a word that a pool of this many words does not have.
fn asks<A: Allocator + Copy>(
    alloc: A,
    program: &Program<A>,
    certificate: &[Option<Node>],
    words: u16,
) -> Result<Vec<Refusal, A>, AllocError> {
    let mut found = Vec::new(alloc);
    for slot in 0..program.slots() as u16 {
        if !slot_asks_well(program, certificate, slot, words) {
            if let Some(node) = node_at(certificate, slot) {
                found.push(Refusal {
                    slot,
                    why: Why::Index(node.row[1]),
                })?;
            }
        }
    }
    Ok(found)
}

/// The least words of a pool that are shown to suffice.
fn words<A: Allocator>(program: &Program<A>, certificate: &[Option<Node>]) -> Option<u16>
    ensures { IfSome result (AsksWell program.now) }
{
    let words = words_asked(program, certificate)?;
    if check_pool(program, certificate, words) {
        Some(words)
    } else {
        None
    }
}

/// The most instructions of a round that are shown.
fn round<A: Allocator>(
    program: &Program<A>,
    certificate: &[Option<Node>],
    found: &Ranking<A>,
) -> Option<u32>
    ensures { IfSome result (IsWithin program.now) }
{
    let most = most_of(program, &found.by(certificate))?;
    if check_rounds(program, certificate, &found.ranks, &found.counters, most) {
        Some(most)
    } else {
        None
    }
}

/// What a certificate and ranks show of an image.
fn findings_by<A: Allocator + Copy>(
    alloc: A,
    program: &Program<A>,
    certificate: &[Option<Node>],
    found: &Ranking<A>,
    pool_words: u16,
) -> Result<Findings<A>, AllocError>
    ensures never { IfOk result (λ f. IsTrue f.never_faults → NeverFaults program.now) }
    ensures faults { IfOk result (λ f. f.faults.items ≡ [] → NeverFaults program.now) }
    ensures words { IfOk result (λ f. IfSome f.words (AsksWell program.now)) }
    ensures round { IfOk result (λ f. IfSome f.round (IsWithin program.now)) }
{
    let faults = faults(alloc, program, certificate)?;
    let asks = asks(alloc, program, certificate, pool_words)?;
    let cycle = cycle(alloc, program, &found.by(certificate))?;
    Ok(Findings {
        never_faults: check(program, certificate),
        faults,
        asks,
        words: words(program, certificate),
        round: round(program, certificate, found),
        cycle,
    })
}

/// What an image can never do, with any arguments, pool, mailbox and answers of engine calls. The
/// calls that may ask for a missing word are listed for a pool of the given number of words. The
/// time is linear in the slots: the searches go over them at most 2,000 times, of which at most 50
/// are for each loop each time that it is tried; the checks at most ten times. The memory is linear
/// too: a node and a rank for each slot, and a refusal for each place that is not shown.
pub fn examine<A: Allocator + Copy>(
    alloc: A,
    program: &Program<A>,
    pool_words: u16,
) -> Result<Findings<A>, AllocError>
    ensures never { IfOk result (λ f. IsTrue f.never_faults → NeverFaults program.now) }
    ensures faults { IfOk result (λ f. f.faults.items ≡ [] → NeverFaults program.now) }
    ensures words { IfOk result (λ f. IfSome f.words (AsksWell program.now)) }
    ensures round { IfOk result (λ f. IfSome f.round (IsWithin program.now)) }
{
    let certificate = find(alloc, program)?;
    let found = find_ranks(alloc, program, &certificate)?;
    findings_by(alloc, program, &certificate, &found, pool_words)
}
