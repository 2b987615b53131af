//! The words that a procedure was sent.
ghost use Rattle.std.specs.Prelude.{◌≡◌, ◌≤◌, ◌+◌, ◌++◌, ◌↔◌, IsTrue, [], length, drop, slice_get};

use arrayvec::ArrayVec;
use std::marker::Model;

/// The most words of a mailbox.
pub const MAX_MAILBOX_WORDS: usize = 16;

/// At most 16 words, the oldest first. Contracts see their list.
#[derive(Drop)]
pub struct Mailbox {
    words: ArrayVec<u64, MAX_MAILBOX_WORDS>,
}

impl Model for Mailbox {
    ghost use Rattle.std.specs.Prelude.{ℕ, List};

    ghost Value = { List ℕ };

    ghost view = { λ m. m.words.items };
}

impl Mailbox {
    /// A mailbox with no words.
    pub fn new() -> Self
        ensures { result ≡ [] }
    {
        Mailbox {
            words: ArrayVec::new(),
        }
    }

    /// Drops all words.
    pub fn clear(&mut self)
        ensures { self.new ≡ [] }
    {
        self.words.clear();
    }

    /// The words, the oldest first.
    pub fn words(&self) -> &[u64]
        ensures value { result.now ≡ self.now }
        ensures few { length result.now ≤ MAX_MAILBOX_WORDS }
    {
        self.words.as_slice()
    }

    /// The number of words.
    pub fn len(&self) -> usize
        ensures value { result ≡ length self.now }
        ensures bound { result ≤ MAX_MAILBOX_WORDS }
    {
        self.words.len()
    }

    /// Whether there is room for `count` more words.
    pub fn has_room(&self, count: usize) -> bool
        ensures { IsTrue result ↔ (length self.now + count ≤ MAX_MAILBOX_WORDS) }
    {
        count <= self.words.remaining_capacity()
    }

    /// Appends words. There must be room for all of them.
    pub fn append(&mut self, words: &[u64])
        requires { length self.old + length words.now ≤ MAX_MAILBOX_WORDS }
        ensures { self.new ≡ self.old ++ words.now }
    {
        self.words.try_extend_from_slice(words).unwrap();
    }

    /// Removes and returns the oldest word, if there is one.
    pub fn take(&mut self) -> Option<u64>
        ensures value { result ≡ slice_get self.old 0 }
        ensures rest { self.new ≡ drop 1 self.old }
    {
        self.words.pop_at(0)
    }
}
