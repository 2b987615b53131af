//! Pieces of octets in a ring.

ghost use Rattle.std.specs.Prelude.{◌≡◌, ◌≤◌, ◌<◌, ◌+◌, ◌++◌, ◌∷◌, [], true, length, take, drop, get_or, slice_get, IfOk};
ghost use Rattle.std.specs.Option.{option_map};
ghost use Rattle.circular_buffer.specs.Buffer.{buffer};
ghost use Rattle.ocp_flight.specs.Pieces.{TapeContents, extent, has_room};
ghost use Rattle.ocp_flight.specs.Mirror.Cut.{distance};

use circular_buffer::HeapCircularBuffer;
use std::alloc::{AllocError, Allocator, Global};
use std::marker::Model;

/// Pieces of octets, the oldest first. All room is reserved when it is made.
#[derive(Drop)]
pub(crate) struct Tape<A: Allocator = Global> {
    octets: HeapCircularBuffer<u8, A>,
    // Where each piece ends: a count of octets since the start, modulo 2^32.
    ends: HeapCircularBuffer<u32, A>,
    // Where the oldest piece begins, and where the newest ends.
    start: u32,
    end: u32,
}

impl<A: Allocator> Model for Tape<A> {
    ghost use Rattle.ocp_flight.specs.Pieces.{TapeContents};
    ghost use Rattle.ocp_flight.specs.Mirror.Cut.{contents_of, IsCut};

    ghost Value = { TapeContents };

    ghost view = { contents_of };

    ghost invariant = { IsCut };
}

// The number of octets from one end to another.
fn distance(from: u32, to: u32) -> u32
    ensures { result ≡ distance from to }
{
    to.wrapping_sub(from)
}

// Where the piece of this index begins.
fn beginning<A: Allocator>(start: u32, ends: &HeapCircularBuffer<u32, A>, index: usize) -> u32
    requires { index ≤ length ends.now.items }
    ensures { result ≡ get_or (start ∷ ends.now.items) index 0 }
{
    if index == 0 {
        return start;
    }
    match ends.get(index - 1) {
        Some(end) => *end,
        None => start,
    }
}

// Adds octets, for which there is room.
fn extend<A: Allocator>(octets: &mut HeapCircularBuffer<u8, A>, more: &[u8])
    requires { length octets.old.items + length more.now ≤ octets.old.capacity }
    ensures { octets.new ≡ buffer (octets.old.items ++ more.now) octets.old.capacity }
{
    if !more.is_empty() {
        octets.fill_from_slice(more);
    }
}

// Adds an end, for which there is room.
fn append<A: Allocator>(ends: &mut HeapCircularBuffer<u32, A>, end: u32)
    requires { length ends.old.items < ends.old.capacity }
    ensures { ends.new ≡ buffer (ends.old.items ++ end ∷ []) ends.old.capacity }
{
    let _room = ends.try_push_back(end);
}

// Fills a buffer with octets of two slices, one after the other, from an index on.
fn copy_out(front: &[u8], back: &[u8], from: usize, target: &mut [u8])
    requires { from + length target.old ≤ length front.now + length back.now }
    ensures { target.new ≡ take (length target.old) (drop from (front.now ++ back.now)) }
{
    if from >= front.len() {
        let from = from - front.len();
        target.copy_from_slice(&back[from..from + target.len()]);
        return;
    }
    let front = &front[from..];
    let count = front.len().min(target.len());
    let (first, last) = target.split_at_mut(count);
    first.copy_from_slice(&front[..count]);
    last.copy_from_slice(&back[..last.len()]);
}

impl<A: Allocator> Tape<A> {
    /// An empty tape, with room for a number of pieces, and for a number of octets.
    pub(crate) fn new(alloc: A, most: u32, room: u32) -> Result<Self, AllocError>
    where
        A: Copy,
        ensures { IfOk result (λ tape. tape ≡ record { pieces = []; most = most; room = room }) }
    {
        Ok(Tape {
            octets: HeapCircularBuffer::with_capacity(alloc, room as usize)?,
            ends: HeapCircularBuffer::with_capacity(alloc, most as usize)?,
            start: 0,
            end: 0,
        })
    }

    /// The number of pieces.
    pub(crate) fn len(&self) -> usize
        ensures value { result ≡ length self.now.pieces }
        ensures within { result ≤ self.now.most }
    {
        self.ends.len()
    }

    /// How many more pieces there may be.
    pub(crate) fn free_pieces(&self) -> usize
        ensures { length self.now.pieces + result ≡ self.now.most }
    {
        self.ends.capacity() - self.ends.len()
    }

    /// How many more octets there may be.
    pub(crate) fn free_octets(&self) -> usize
        ensures { extent self.now.pieces + result ≡ self.now.room }
    {
        self.octets.capacity() - self.octets.len()
    }

    /// Whether there is room for one more piece of this length.
    pub(crate) fn has_room(&self, length: usize) -> bool
        ensures { result ≡ has_room self.now length }
    {
        self.free_pieces() > 0 && length <= self.free_octets()
    }

    /// The length of the piece of an index, counted from the oldest, if there is one.
    pub(crate) fn length_at(&self, index: usize) -> Option<usize>
        ensures { result ≡ option_map length (slice_get self.now.pieces index) }
    {
        match self.ends.get(index) {
            Some(end) => {
                let start = beginning(self.start, &self.ends, index);
                Some(distance(start, *end) as usize)
            }
            None => None,
        }
    }

    /// Copies the piece of an index to the front of a buffer that has room for it.
    pub(crate) fn copy(&self, index: usize, target: &mut [u8])
        requires there { index < length self.now.pieces }
        requires room { length (get_or self.now.pieces index []) ≤ length target.old }
        ensures { target.new ≡ get_or self.now.pieces index []
            ++ drop (length (get_or self.now.pieces index [])) target.old }
    {
        if let Some(length) = self.length_at(index) {
            let start = beginning(self.start, &self.ends, index);
            let before = distance(self.start, start) as usize;
            let (front, back) = self.octets.as_slices();
            let (target, _rest) = target.split_at_mut(length);
            copy_out(front, back, before, target);
        }
    }

    /// Adds a piece, for which there is room, given in two parts.
    pub(crate) fn push(&mut self, head: &[u8], tail: &[u8])
        requires { has_room self.old (length head.now + length tail.now) ≡ true }
        ensures { self.new ≡
            record self.old { pieces = self.old.pieces ++ (head.now ++ tail.now) ∷ [] } }
    {
        extend(&mut self.octets, head);
        extend(&mut self.octets, tail);
        let length = (head.len() + tail.len()) as u32;
        self.end = self.end.wrapping_add(length);
        append(&mut self.ends, self.end);
    }

    /// Drops the oldest piece.
    fn pop(&mut self)
        requires { 1 ≤ length self.old.pieces }
        ensures { self.new ≡ record self.old { pieces = drop 1 self.old.pieces } }
    {
        if let Some(end) = self.ends.pop_front() {
            let length = distance(self.start, end) as usize;
            self.octets.truncate_front(self.octets.len() - length);
            self.start = end;
        }
    }

    /// Drops the oldest `count` pieces.
    pub(crate) fn release(&mut self, count: usize)
        requires { count ≤ length self.old.pieces }
        ensures { self.new ≡ record self.old { pieces = drop count self.old.pieces } }
    {
        for _done in 0..count {
            self.pop();
        }
    }
}
