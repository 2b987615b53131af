//! The pool.
ghost use Rattle.std.specs.Prelude.{◌≡◌, ◌≤◌, ◌*◌, ◌+◌, ◌/◌, IfOk, length};
ghost use Rattle.ocp_saved.specs.Format.{pool_octets, words_octets};
ghost use Rattle.ocp_saved.specs.Reading.{Gives, pool_at, pool_part_at, words_in};

use crate::RestoreFault;
use crate::fields::{WORD_LENGTH, put_u16, put_u64, u16_up_to};
use byteorder::{BigEndian, ByteOrder};
use ocp_pool::{MAX_POOL_WORDS, Pool};
use std::alloc::Allocator;

// The octets of the words.
#[tactic(auto, unfolding(crate::specs::Reading::pool_part_at))]
fn pool_part_at(octets: &[u8]) -> Result<(&[u8], &[u8]), RestoreFault>
    ensures value { Gives (λ x. (x.0.now, x.1.now)) result (pool_part_at octets.now) }
    ensures some { IfOk result (λ x. 8 ≤ length x.0.now) }
    ensures few { IfOk result (λ x. length x.0.now ≤ 8 * MAX_POOL_WORDS) }
    ensures whole { IfOk result (λ x. 8 * (length x.0.now / 8) ≡ length x.0.now) }
{
    let (count, rest) = u16_up_to(MAX_POOL_WORDS, RestoreFault::Pool, octets)?;
    if count == 0 {
        return Err(RestoreFault::Pool);
    }
    let length = WORD_LENGTH * usize::from(count);
    if rest.len() < length {
        return Err(RestoreFault::Short);
    }
    let (words, rest) = rest.split_at(length);
    Ok((words, rest))
}

/// The octets of the words of the pool, of which there are 1 to 256.
#[tactic(auto, unfolding(crate::specs::Reading::pool_at))]
pub fn pool_at(octets: &[u8]) -> Result<(&[u8], &[u8]), RestoreFault>
    ensures value { Gives (λ x. (words_in (length x.0.now / 8) x.0.now, x.1.now)) result
        (pool_at octets.now) }
    ensures some { IfOk result (λ x. 8 ≤ length x.0.now) }
    ensures few { IfOk result (λ x. length x.0.now ≤ 8 * MAX_POOL_WORDS) }
    ensures whole { IfOk result (λ x. 8 * (length x.0.now / 8) ≡ length x.0.now) }
{
    let (words, rest) = pool_part_at(octets)?;
    Ok((words, rest))
}

/// Writes the words that octets have into a pool of as many words.
pub fn fill_pool<A: Allocator>(pool: &mut Pool<A>, octets: &[u8])
    requires { length octets.now ≡ WORD_LENGTH * length pool.old }
    ensures { pool.new ≡ words_in (length pool.old) octets.now }
{
    let mut rest = octets;
    for index in 0..pool.words() {
        pool.set(index, BigEndian::read_u64(rest));
        let (_, after) = rest.split_at(WORD_LENGTH);
        rest = after;
    }
}

// Writes the words of a pool.
fn put_pool_words<A: Allocator>(out: &mut [u8], pool: &Pool<A>)
    requires { length out.old ≡ WORD_LENGTH * length pool.now }
    ensures { out.new ≡ words_octets pool.now }
{
    for index in 0..pool.words() {
        let at = WORD_LENGTH * index;
        put_u64(&mut out[at..at + WORD_LENGTH], pool.word(index));
    }
}

/// How many octets the pool has, with the number of its words before them.
pub fn pool_length<A: Allocator>(pool: &Pool<A>) -> usize
    ensures { result ≡ 2 + WORD_LENGTH * length pool.now }
{
    2 + WORD_LENGTH * pool.words()
}

/// Writes the pool, with the number of its words before them.
pub fn put_pool<A: Allocator>(out: &mut [u8], pool: &Pool<A>)
    requires { length out.old ≡ 2 + WORD_LENGTH * length pool.now }
    ensures { out.new ≡ pool_octets pool.now }
{
    let (count, words) = out.split_at_mut(2);
    put_u16(count, pool.words() as u16);
    put_pool_words(words, pool);
}
