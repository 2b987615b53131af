//! The pool of words that all procedures share.
ghost use Rattle.std.specs.Prelude.{◌≡◌, ◌≤◌, ◌<◌, IfOk, length, replicate, slice_get, slice_index, slice_set};

use ocp_profile::MAX_POOL_WORDS;
use std::alloc::{AllocError, Allocator, Global};
use std::marker::Model;

/// 1 to 256 words. Contracts see their list.
#[derive(Drop)]
pub struct Pool<A: Allocator = Global> {
    words: Vec<u64, A>,
}

impl<A: Allocator> Model for Pool<A> {
    ghost use Rattle.std.specs.Prelude.{ℕ, List, ◌≤◌, length};
    ghost use Rattle.ocp_profile.specs.declared.limits.TheConstants.{MAX_POOL_WORDS};

    ghost Value = { List ℕ };

    ghost view = { λ p. p.words.items };

    ghost invariant = { λ p. (1 ≤ length p.words.items) × (length p.words.items ≤ MAX_POOL_WORDS) };
}

impl<A: Allocator> Pool<A> {
    /// The given number of words, all zero. Refused if there is no memory for them.
    pub fn new(alloc: A, words: u16) -> Result<Self, AllocError>
        requires some { 1 ≤ words }
        requires few { words ≤ MAX_POOL_WORDS }
        ensures { IfOk result (λ pool. pool ≡ replicate words 0) }
    {
        Ok(Pool {
            words: vec![in alloc; 0; usize::from(words)]?,
        })
    }

    /// The number of words.
    pub fn words(&self) -> usize
        ensures value { result ≡ length self.now }
        ensures some { 1 ≤ result }
        ensures few { result ≤ MAX_POOL_WORDS }
    {
        self.words.len()
    }

    /// The word at an index.
    pub fn word(&self, index: usize) -> u64
        requires { index < length self.now }
        ensures { result ≡ slice_index self.now index }
    {
        self.words[index]
    }

    /// Writes the word at an index, and no other.
    pub fn set(&mut self, index: usize, value: u64)
        requires { index < length self.old }
        ensures { self.new ≡ slice_set self.old index value }
    {
        self.words[index] = value;
    }

    /// The word at an index, if it is one of the pool.
    pub fn get(&self, index: u64) -> Option<u64>
        ensures { result ≡ slice_get self.now index }
    {
        if index < self.words.len() as u64 {
            Some(self.words[index as usize])
        } else {
            None
        }
    }
}
