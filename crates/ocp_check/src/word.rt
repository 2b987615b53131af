//! What is known of words of the stack, of eight octets each.
ghost use Rattle.std.specs.Prelude.{◌≡◌, ◌≢◌, ◌≤◌, ◌<◌, ◌+◌, ◌%◌, ◌^◌, ℕ, true, IsFalse, slice_index_or, IsTrue, IfSome, Ok, Some, None};
ghost use Rattle.ocp_regions.specs.Memory.{Octets, memory_after_store};
ghost use Rattle.ocp_regions.specs.Access.{AreApart};
ghost use Rattle.ocp_check.specs.declared.form.Form.{Form};
ghost use Rattle.ocp_check.specs.declared.word.Word.{Word};
ghost use Rattle.ocp_check.specs.Mirror.Ranges.{IsIn, IsThere};
ghost use Rattle.ocp_check.specs.Mirror.Forms.{IsForm, bases_after};
ghost use Rattle.ocp_check.specs.Mirror.Words.{IsWord, AreWords, IsSameFrom, greater, word_above};

use crate::form::{
    BASES, Form, Forms, form_of_known, is_free, is_of_base, is_shifted, range_by_tie,
};
use crate::range::{Range, is_within, number_of};
use ocp_regions::laws::loads_give_what_was_stored;
use ocp_regions::{STACK, STACK_OCTETS};

/// The most words that are known of at a slot.
pub(crate) const WORDS: usize = 8;

/// The address after the stack.
const STACK_END: u64 = STACK + STACK_OCTETS as u64;

/// A word of the stack: what is known of the number there, and its form.
#[derive(Clone, Copy, PartialEq, Eq, Debug)]
pub struct Word {
    pub address: u64,
    pub known: Option<Range>,
    pub form: Option<Form>,
}

/// The words of which something is known.
pub type Words = [Option<Word>; WORDS];

/// Whether a store to one of some addresses leaves a word as it is.
fn is_apart(word: &Word, at: Range, octets: u64) -> bool
    requires { octets ≤ 8 }
    ensures { IsTrue result → (p : ℕ) → IsIn (Some at) p →
        AreApart p octets word.now.address 8 }
{
    match (at.high.checked_add(octets), word.address.checked_add(8)) {
        (Some(end), Some(word_end)) => end <= word.address || word_end <= at.low,
        _ => false,
    }
}

/// What is known of a word after a store to one of some addresses.
fn word_after(word: Option<Word>, at: Option<Range>, octets: u64) -> Option<Word>
    requires { octets ≤ 8 }
    ensures { (bases : ℕ → ℕ) (old new : Octets) (p v : ℕ) → IsWord word bases old → IsIn at p →
        IsThere true p octets → memory_after_store old p octets v ≡ Ok new →
        IsWord result bases new }
{
    loads_give_what_was_stored();
    match (word, at) {
        (Some(word), Some(at)) => {
            if is_apart(&word, at, octets) {
                Some(word)
            } else {
                None
            }
        }
        _ => None,
    }
}

/// The greater of two addresses.
pub(crate) fn later(a: u64, b: u64) -> u64
    ensures { result ≡ greater a b }
{
    if a < b { b } else { a }
}

/// An address that no store to one of some addresses goes beyond.
fn end_after(at: Range, octets: u64) -> u64
    ensures { (p : ℕ) → IsIn (Some at) p → IsThere true p octets → p + octets ≤ result }
{
    at.high.saturating_add(octets)
}

/// From which address on the stack is the same after a store.
pub(crate) fn kept_after(kept: u64, at: Option<Range>, octets: u64) -> u64
    requires { octets ≤ 8 }
    ensures { (first old new : Octets) (p v : ℕ) → IsSameFrom kept first old → IsIn at p →
        IsThere true p octets → memory_after_store old p octets v ≡ Ok new →
        IsSameFrom result first new }
{
    loads_give_what_was_stored();
    match at {
        None => STACK_END,
        Some(at) => {
            if at.low >= STACK_END {
                kept
            } else {
                later(kept, end_after(at, octets))
            }
        }
    }
}

/// The same range: its numbers are below 2 ^ 64. Kept as one call for its clause.
fn whole(known: Option<Range>) -> Option<Range>
    ensures { (v : ℕ) → IsIn known v → IsIn result (v % 2 ^ 64) }
{
    match known {
        Some(range) => Some(range),
        None => None,
    }
}

/// What is known of a word that has been stored.
fn word_of(address: u64, known: Option<Range>, form: Option<Form>) -> Option<Word>
    ensures { (bases : ℕ → ℕ) (old new : Octets) (v : ℕ) → IsIn known v → IsForm form bases v →
        IsThere true address 8 → memory_after_store old address 8 v ≡ Ok new →
        IsWord result bases new }
{
    loads_give_what_was_stored();
    if address < STACK_END {
        Some(Word {
            address,
            known: whole(known),
            form,
        })
    } else {
        None
    }
}

/// Whether what is known of a word second follows from what is known of one first, if the number of
/// each base becomes the one of its shift.
pub(crate) fn is_word_shifted(shifts: &[Form; BASES], from: Option<Word>, to: Option<Word>) -> bool
    ensures { IsTrue result → (bases : ℕ → ℕ) (m : Octets) → IsWord from bases m →
        IsWord to (bases_after shifts.now bases) m }
{
    match (from, to) {
        (_, None) => true,
        (None, Some(_)) => false,
        (Some(from), Some(to)) => {
            from.address == to.address
                && is_within(from.known, to.known)
                && is_shifted(shifts, form_of_known(from.known, from.form), to.form)
        }
    }
}

/// A word from an address on.
pub(crate) fn above(floor: u64, word: Option<Word>) -> Option<Word>
    ensures { result ≡ word_above floor word }
{
    match word {
        Some(word) if floor <= word.address => Some(word),
        _ => None,
    }
}

/// Which of the known words is at an address.
pub(crate) fn index_of(address: u64) -> usize
    ensures { result < 8 }
{
    (STACK_END.wrapping_sub(address) / 8 % 8) as usize
}

/// What is known of the words after a store to one of some addresses.
fn words_after(words: &Words, at: Option<Range>, octets: u64) -> Words
    requires { octets ≤ 8 }
    ensures { (bases : ℕ → ℕ) (old new : Octets) (p v : ℕ) → AreWords words.now bases old →
        IsIn at p → IsThere true p octets → memory_after_store old p octets v ≡ Ok new →
        AreWords result bases new }
{
    let mut after = [None; WORDS];
    for k in 0..WORDS {
        after[k] = word_after(words[k], at, octets);
    }
    after
}

/// The same, with the word that has been stored, if its address is known.
pub(crate) fn words_with(
    words: &Words,
    at: Option<Range>,
    octets: u64,
    known: Option<Range>,
    form: Option<Form>,
) -> Words
    requires { octets ≤ 8 }
    ensures { (bases : ℕ → ℕ) (old new : Octets) (p v : ℕ) → AreWords words.now bases old →
        IsIn at p → IsIn known v → IsForm form bases v → IsThere true p octets →
        memory_after_store old p octets v ≡ Ok new → AreWords result bases new }
{
    let mut after = words_after(words, at, octets);
    if octets == 8 {
        if let Some(address) = number_of(at) {
            after[index_of(address)] = word_of(address, known, form);
        }
    }
    after
}

/// What is known of a word, if this is known of a number of a form.
fn word_with_known(word: Option<Word>, form: Option<Form>, known: Option<Range>) -> Option<Word>
    ensures { (bases : ℕ → ℕ) (m : Octets) (v : ℕ) → IsWord word bases m →
        IsForm form bases v → IsIn known v → IsWord result bases m }
{
    let word = word?;
    Some(Word {
        known: range_by_tie(word.known, word.form, form, known),
        ..word
    })
}

/// What is known of the words, if this is known of a number of a form.
pub(crate) fn words_with_known(words: &Words, form: Option<Form>, known: Option<Range>) -> Words
    ensures { (bases : ℕ → ℕ) (m : Octets) (v : ℕ) → AreWords words.now bases m →
        IsForm form bases v → IsIn known v → AreWords result bases m }
{
    let mut changed = *words;
    for k in 0..WORDS {
        changed[k] = word_with_known(words[k], form, known);
    }
    changed
}

/// Whether a word is of a base.
fn is_word_of_base(word: Option<Word>, base: u8) -> bool
    ensures { IsFalse result → (w : Word) (f : Form) → word ≡ Some w → w.form ≡ Some f →
        f.base ≢ base }
{
    match word {
        Some(word) => is_of_base(word.form, base),
        None => false,
    }
}

/// Whether no word is of a base.
fn is_free_of_words(words: &Words, base: u8) -> bool
    ensures { IsTrue result → (k : ℕ) → k < 8 → (w : Word) (f : Form) →
        slice_index_or words.now k None ≡ Some w → w.form ≡ Some f → f.base ≢ base }
{
    for k in 0..WORDS {
        if is_word_of_base(words[k], base) {
            return false;
        }
    }
    true
}

/// A base of which no register and no word is, if there is one.
pub(crate) fn free_base(forms: &Forms, words: &Words) -> Option<u8>
    ensures registers { IfSome result (λ base. (k : ℕ) → k < 11 → (f : Form) →
        slice_index_or forms.now k None ≡ Some f → f.base ≢ base) }
    ensures words { IfSome result (λ base. (k : ℕ) → k < 8 → (w : Word) (f : Form) →
        slice_index_or words.now k None ≡ Some w → w.form ≡ Some f → f.base ≢ base) }
{
    for base in 0..BASES as u8 {
        if is_free(forms, base) && is_free_of_words(words, base) {
            return Some(base);
        }
    }
    None
}
