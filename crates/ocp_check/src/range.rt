//! What is known of a register: a range of numbers, or nothing.
ghost use Rattle.std.specs.Prelude.{◌*◌, ◌≡◌, ◌≢◌, ◌≤◌, ◌<◌, ◌+◌, ◌-◌, ◌/◌, ◌%◌, ◌^◌, ◌==◌, if◌then◌else◌, bit_and, bit_or, bit_xor, ℕ, IsTrue, IfSome, Some};
ghost use Rattle.std.specs.Int.{w64, cast_unsigned};
ghost use Rattle.bpf_types.specs.declared.line.Width.{Width};
ghost use Rattle.bpf_types.specs.declared.line.Width.TheVariants.{W32};
ghost use Rattle.bpf_types.specs.declared.line.Operation.TheVariants.{Arsh};
ghost use Rattle.ocp_check.specs.declared.range.Stride.TheVariants.{One};
ghost use Rattle.bpf_values.specs.Value.{arithmetic_result, is_taken, operate, modulus, passes};
ghost use Rattle.ocp_check.specs.Mirror.Ranges.{IsIn, IsMultiple, IsThere, half_of, just, test_without_signs};

use bpf_types::{Comparison, Operation, Width};
use ocp_regions::{ARGUMENT_OCTETS, ARGUMENTS, STACK, STACK_OCTETS, WORK};

/// How many octets of the work region every profile has: those of profile 1.
pub(crate) const WORK_OCTETS: u64 = 1024;

/// Numbers of which each is a multiple of one, two, four or eight.
#[derive(Clone, Copy, PartialEq, Eq, Debug)]
pub enum Stride {
    One,
    Two,
    Four,
    Eight,
}

/// The numbers from `low` to `high` that are multiples of the stride. If `high` is less there is
/// none: a machine of which this is known never comes about.
#[derive(Clone, Copy, PartialEq, Eq, Debug)]
pub struct Range {
    pub low: u64,
    pub high: u64,
    pub stride: Stride,
}

/// A test of numbers of a width that held, or did not.
#[derive(Clone, Copy)]
pub(crate) struct Test {
    pub width: Width,
    pub comparison: Comparison,
    pub held: bool,
}

/// The greatest stride of which a number is a multiple.
fn stride_of_number(number: u64) -> Stride
    ensures { IsMultiple result number }
{
    if number % 8 == 0 {
        Stride::Eight
    } else if number % 4 == 0 {
        Stride::Four
    } else if number % 2 == 0 {
        Stride::Two
    } else {
        Stride::One
    }
}

/// The stride of a range; that of its number, if it has one.
pub(crate) fn stride_of(range: Range) -> Stride
    ensures { (v : ℕ) → IsIn (Some range) v → IsMultiple result v }
{
    if range.low == range.high {
        stride_of_number(range.low)
    } else {
        range.stride
    }
}

/// The stride of numbers that have one or the other.
pub(crate) fn lesser(a: Stride, b: Stride) -> Stride
    ensures first { (v : ℕ) → IsMultiple a v → IsMultiple result v }
    ensures second { (v : ℕ) → IsMultiple b v → IsMultiple result v }
{
    if follows(a, b) {
        b
    } else if follows(b, a) {
        a
    } else {
        Stride::One
    }
}

/// Whether each multiple of the first stride is one of the second.
pub(crate) fn follows(a: Stride, b: Stride) -> bool
    ensures { IsTrue result → (v : ℕ) → IsMultiple a v → IsMultiple b v }
{
    match (a, b) {
        (_, Stride::One) => true,
        (Stride::Two, Stride::Two) => true,
        (Stride::Four, Stride::Two) => true,
        (Stride::Four, Stride::Four) => true,
        (Stride::Eight, _) => true,
        _ => false,
    }
}

/// The greatest number of a range.
pub(crate) fn top_of(range: Range) -> u64
    ensures { (v : ℕ) → IsIn (Some range) v → v ≤ result }
{
    match range.stride {
        Stride::One => range.high,
        Stride::Two => range.high - range.high % 2,
        Stride::Four => range.high - range.high % 4,
        Stride::Eight => range.high - range.high % 8,
    }
}

/// All numbers from a least one to a greatest one.
pub(crate) fn between(least: u64, greatest: u64) -> Option<Range>
    ensures exact { result ≡ Some (record { low = least; high = greatest; stride = One }) }
    ensures holds { (v : ℕ) → least ≤ v → v ≤ greatest → IsIn result v }
{
    Some(Range {
        low: least,
        high: greatest,
        stride: Stride::One,
    })
}

/// One number.
pub(crate) fn only(number: u64) -> Option<Range>
    ensures exact { result ≡ just number }
    ensures holds { IsIn result number }
{
    between(number, number)
}

/// The number that is known, if it is one.
pub(crate) fn number_of(known: Option<Range>) -> Option<u64>
    ensures { IfSome result (λ number. (v : ℕ) → IsIn known v → v ≡ number) }
{
    match known {
        Some(range) if range.low == range.high => Some(range.low),
        _ => None,
    }
}

/// Whether no number is meant.
pub(crate) fn is_empty(known: Option<Range>) -> bool
    ensures { IsTrue result → (v : ℕ) → IsIn known v → ⊥ }
{
    match known {
        Some(range) => range.high < range.low,
        None => false,
    }
}

/// Whether what is known second follows from what is known first.
pub(crate) fn is_within(inner: Option<Range>, outer: Option<Range>) -> bool
    ensures { IsTrue result → (v : ℕ) → IsIn inner v → IsIn outer v }
{
    match (inner, outer) {
        (_, None) => true,
        (None, Some(_)) => false,
        (Some(inner), Some(outer)) => {
            inner.high < inner.low
                || (outer.low <= inner.low
                    && top_of(inner) <= outer.high
                    && follows(stride_of(inner), outer.stride))
        }
    }
}

/// What is known of a sum modulo 2 ^ 64, if all sums wrap or none does.
pub(crate) fn sum(a: Option<Range>, b: Option<Range>) -> Option<Range>
    ensures { (x y : ℕ) → IsIn a x → IsIn b y → IsIn result ((x + y) % 2 ^ 64) }
{
    let (a, b) = (a?, b?);
    let stride = lesser(stride_of(a), stride_of(b));
    match (a.low.checked_add(b.low), a.high.checked_add(b.high)) {
        (Some(low), Some(high)) => Some(Range { low, high, stride }),
        (None, None) => Some(Range {
            low: a.low.wrapping_add(b.low),
            high: a.high.wrapping_add(b.high),
            stride,
        }),
        _ => None,
    }
}

/// What is known of a difference, if none wraps.
fn difference(a: Option<Range>, b: Option<Range>) -> Option<Range>
    ensures { (x y : ℕ) → IsIn a x → IsIn b y → IsIn result ((x + (2 ^ 64 - y)) % 2 ^ 64) }
{
    let (a, b) = (a?, b?);
    if b.high <= a.low && b.low <= b.high && a.low <= a.high {
        between(a.low - b.high, a.high - b.low)
    } else {
        None
    }
}

/// What is known of a product, if none wraps.
pub(crate) fn product(a: Option<Range>, b: Option<Range>) -> Option<Range>
    ensures { (x y : ℕ) → IsIn a x → IsIn b y → IsIn result ((x * y) % 2 ^ 64) }
{
    let (a, b) = (a?, b?);
    between(a.low.checked_mul(b.low)?, a.high.checked_mul(b.high)?)
}

/// What a shift by a known number multiplies or divides by.
fn power_of(b: Option<Range>, bits: u64) -> Option<u64>
    requires { (0 < bits) × (bits ≤ 64) }
    ensures { IfSome result (λ power. (y : ℕ) → IsIn b y → 2 ^ (y % bits) ≡ power) }
{
    Some(1 << (number_of(b)? % bits))
}

/// What is known of a shift to the left by a known number.
fn shift_left(a: Option<Range>, b: Option<Range>, bits: u64) -> Option<Range>
    requires { (0 < bits) × (bits ≤ 64) }
    ensures { (x y : ℕ) → IsIn a x → IsIn b y → IsIn result ((x * 2 ^ (y % bits)) % 2 ^ 64) }
{
    let power = power_of(b, bits)?;
    product(a, only(power))
}

/// What is known of a shift to the right.
fn shift_right(a: Option<Range>, b: Option<Range>, bits: u64) -> Option<Range>
    requires { (0 < bits) × (bits ≤ 64) }
    ensures { (x y : ℕ) → IsIn a x → IsIn b y → IsIn result (x / 2 ^ (y % bits)) }
{
    quotient(a, power_of(b, bits))
}

/// What is known of a quotient: it is no more than the dividend, or than that by a known divisor.
fn quotient(a: Option<Range>, divisor: Option<u64>) -> Option<Range>
    ensures { (x y : ℕ) → IsIn a x → IfSome divisor (λ number. y ≡ number) →
        IsIn result (if y == 0 then 0 else x / y) }
{
    let a = a?;
    match divisor {
        Some(number) if number > 0 => between(a.low / number, a.high / number),
        _ => between(0, a.high),
    }
}

/// What is known of a number that is no more than one of which this is known, and no more than a
/// limit, if there is one.
fn up_to(a: Option<Range>, limit: Option<u64>) -> Option<Range>
    ensures { (x v : ℕ) → IsIn a x → v ≤ x → IfSome limit (λ most. v ≤ most) → IsIn result v }
{
    match (a, limit) {
        (Some(a), Some(most)) => between(0, a.high.min(most)),
        (Some(a), None) => between(0, a.high),
        (None, Some(most)) => between(0, most),
        (None, None) => None,
    }
}

/// The greatest remainder by a divisor that is not zero.
fn greatest_remainder(b: Option<Range>) -> Option<u64>
    ensures { IfSome result (λ most. (x y : ℕ) → IsIn b y →
        (if y == 0 then x else x % y) ≤ most) }
{
    match b {
        Some(b) if b.low > 0 => Some(b.high.saturating_sub(1)),
        _ => None,
    }
}

/// What is known of a remainder: it is no more than the dividend, and it is less than a divisor
/// that is not zero.
fn remainder(a: Option<Range>, b: Option<Range>) -> Option<Range>
    ensures { (x y : ℕ) → IsIn a x → IsIn b y → IsIn result (if y == 0 then x else x % y) }
{
    up_to(a, greatest_remainder(b))
}

/// The greatest number, if there is a limit.
fn greatest(a: Option<Range>) -> Option<u64>
    ensures { IfSome result (λ most. (x : ℕ) → IsIn a x → x ≤ most) }
{
    Some(a?.high)
}

/// What is known of a conjunction: it is no more than either operand.
fn conjunction(a: Option<Range>, b: Option<Range>) -> Option<Range>
    ensures { (x y : ℕ) → IsIn a x → IsIn b y → IsIn result (bit_and x y) }
{
    up_to(a, greatest(b))
}

/// What is known of an exclusive disjunction: it is no more than the sum of the operands.
fn exclusive_disjunction(a: Option<Range>, b: Option<Range>) -> Option<Range>
    ensures { (x y : ℕ) → IsIn a x → IsIn b y → IsIn result (bit_xor x y) }
{
    let (a, b) = (a?, b?);
    between(0, a.high.checked_add(b.high)?)
}

/// What is known of an arithmetic shift to the right of numbers of a width: those without a sign
/// are divided.
fn arithmetic_shift_right(width: Width, a: Option<Range>, b: Option<Range>) -> Option<Range>
    ensures { (x y : ℕ) → IsIn a x → IsIn b y →
        IsIn result (operate width Arsh x y) }
{
    if !has_no_sign(width, a) {
        return None;
    }
    match width {
        Width::W32 => shift_right(a, b, 32),
        Width::W64 => shift_right(a, b, 64),
    }
}

/// What is known of a disjunction: it is no less than each operand, and no more than their sum.
fn disjunction(a: Option<Range>, b: Option<Range>) -> Option<Range>
    ensures { (x y : ℕ) → IsIn a x → IsIn b y → IsIn result (bit_or x y) }
{
    let (a, b) = (a?, b?);
    between(a.low.max(b.low), a.high.checked_add(b.high)?)
}

/// What is known of the low 32 bits of a number.
fn low(a: Option<Range>) -> Option<Range>
    ensures { (x : ℕ) → IsIn a x → IsIn result (x % 2 ^ 32) }
{
    match a {
        Some(a) if a.high <= 0xffff_ffff => Some(a),
        _ => between(0, 0xffff_ffff),
    }
}

/// What is known of the low 32 bits of a number, by what is known of its low 64 bits.
fn low_of_wrapped(a: Option<Range>) -> Option<Range>
    ensures { (n : ℕ) → IsIn a (n % 2 ^ 64) → IsIn result (n % 2 ^ 32) }
{
    low(a)
}

/// What is known of a number of 32 bits.
fn half(a: Option<Range>) -> Option<Range>
    ensures { (n : ℕ) → n < 2 ^ 32 → IsIn a n → IsIn result n }
{
    low(a)
}

/// What is known of a difference of 32 bits.
fn difference_of_halves(a: Option<Range>, b: Option<Range>) -> Option<Range>
    ensures { (x y : ℕ) → x < 2 ^ 32 → y < 2 ^ 32 → IsIn a x → IsIn b y →
        IsIn result ((x + (2 ^ 32 - y)) % 2 ^ 32) }
{
    match (a, b) {
        (Some(a), Some(b)) if b.high <= a.low && b.low <= b.high && a.low <= a.high => {
            between(a.low - b.high, a.high - b.low)
        }
        _ => between(0, 0xffff_ffff),
    }
}

/// What is known of the result of an operation on numbers of 32 bits: what is known of that on
/// numbers of 64 bits, if it needs no more than 32.
fn result_of_halves(operation: Operation, a: Option<Range>, b: Option<Range>) -> Option<Range>
    ensures { (x y : ℕ) → x < 2 ^ 32 → y < 2 ^ 32 → IsIn a x → IsIn b y →
        IsIn result (operate W32 operation x y) }
{
    match operation {
        Operation::Mov => b,
        Operation::Add => low_of_wrapped(sum(a, b)),
        Operation::Sub => difference_of_halves(a, b),
        Operation::Mul => low_of_wrapped(product(a, b)),
        Operation::Div => quotient(a, number_of(b)),
        Operation::Mod => remainder(a, b),
        Operation::And => conjunction(a, b),
        Operation::Or => half(disjunction(a, b)),
        Operation::Xor => half(exclusive_disjunction(a, b)),
        Operation::Lsh => low_of_wrapped(shift_left(a, b, 32)),
        Operation::Rsh => shift_right(a, b, 32),
        Operation::Arsh => arithmetic_shift_right(Width::W32, a, b),
        Operation::SignedDiv | Operation::SignedMod => between(0, 0xffff_ffff),
    }
}

/// What is known of the result of an operation.
pub(crate) fn result_of(
    width: Width,
    operation: Operation,
    a: Option<Range>,
    b: Option<Range>,
) -> Option<Range>
    ensures { (x y : ℕ) → IsIn a x → IsIn b y →
        IsIn result (arithmetic_result width operation x y) }
{
    match (width, operation) {
        (Width::W64, Operation::Mov) => b,
        (Width::W64, Operation::Add) => sum(a, b),
        (Width::W64, Operation::Sub) => difference(a, b),
        (Width::W64, Operation::Mul) => product(a, b),
        (Width::W64, Operation::Div) => quotient(a, number_of(b)),
        (Width::W64, Operation::Mod) => remainder(a, b),
        (Width::W64, Operation::And) => conjunction(a, b),
        (Width::W64, Operation::Or) => disjunction(a, b),
        (Width::W64, Operation::Xor) => exclusive_disjunction(a, b),
        (Width::W64, Operation::Lsh) => shift_left(a, b, 64),
        (Width::W64, Operation::Rsh) => shift_right(a, b, 64),
        (Width::W64, Operation::Arsh) => arithmetic_shift_right(width, a, b),
        (Width::W64, Operation::SignedDiv | Operation::SignedMod) => None,
        (Width::W32, _) => result_of_halves(operation, low(a), low(b)),
    }
}

/// What is known of a number that is at most another one.
fn at_most(a: Option<Range>, greatest: u64) -> Option<Range>
    ensures { (v : ℕ) → IsIn a v → v ≤ greatest → IsIn result v }
{
    match a {
        None => between(0, greatest),
        Some(a) => Some(Range {
            high: a.high.min(greatest),
            ..a
        }),
    }
}

/// What is known of a number that is at least another one.
fn at_least(a: Option<Range>, least: u64) -> Option<Range>
    ensures { (v : ℕ) → IsIn a v → least ≤ v → IsIn result v }
{
    let a = a?;
    Some(Range {
        low: a.low.max(least),
        ..a
    })
}

/// What is known of a number that is not a known one: that one is not at an end of the range.
fn other_than(a: Option<Range>, b: Range) -> Option<Range>
    ensures { (x y : ℕ) → IsIn a x → IsIn (Some b) y → x ≢ y → IsIn result x }
{
    let range = a?;
    if b.low != b.high {
        a
    } else if range.low == b.low && range.low < u64::MAX {
        at_least(a, range.low + 1)
    } else if top_of(range) == b.low && b.low > 0 {
        at_most(a, b.low - 1)
    } else {
        a
    }
}

/// What is known of the first operand after a test of unsigned numbers that held, or did not.
fn refinement_unsigned(test: Test, a: Option<Range>, b: Option<Range>) -> Option<Range>
    ensures { (x y : ℕ) → IsIn a x → IsIn b y →
        passes test.width test.comparison x y ≡ test.held → IsIn result x }
{
    let Some(b) = b else {
        return a;
    };
    match (test.comparison, test.held) {
        (Comparison::Less, true) | (Comparison::GreaterOrEqual, false) => {
            at_most(a, b.high.saturating_sub(1))
        }
        (Comparison::Less, false) | (Comparison::GreaterOrEqual, true) => at_least(a, b.low),
        (Comparison::LessOrEqual, true) | (Comparison::Greater, false) => at_most(a, b.high),
        (Comparison::LessOrEqual, false) | (Comparison::Greater, true) => {
            at_least(a, b.low.saturating_add(1))
        }
        (Comparison::Equal, true) | (Comparison::NotEqual, false) => Some(b),
        (Comparison::Equal, false) | (Comparison::NotEqual, true) => other_than(a, b),
        _ => a,
    }
}

/// The test of unsigned numbers for one of signed numbers.
fn without_signs(comparison: Comparison) -> Comparison
    ensures { result ≡ test_without_signs comparison }
{
    match comparison {
        Comparison::SignedGreater => Comparison::Greater,
        Comparison::SignedGreaterOrEqual => Comparison::GreaterOrEqual,
        Comparison::SignedLess => Comparison::Less,
        Comparison::SignedLessOrEqual => Comparison::LessOrEqual,
        _ => comparison,
    }
}

/// Whether the numbers of which this is known have no sign in this width.
fn has_no_sign(width: Width, known: Option<Range>) -> bool
    ensures { IsTrue result → (v : ℕ) → IsIn known v → v < half_of width }
{
    match known {
        Some(range) => range.high <= greatest_without_sign(width),
        None => false,
    }
}

/// The greatest number without a sign.
fn greatest_without_sign(width: Width) -> u64
    ensures { result ≡ half_of width - 1 }
{
    match width {
        Width::W32 => 0x7fff_ffff,
        Width::W64 => 0x7fff_ffff_ffff_ffff,
    }
}

/// Whether the first operand of a test of signed numbers is the second one or greater, if the test
/// held, or did not.
fn is_upward(test: Test) -> bool
    ensures { IsTrue result → (x y : ℕ) → x < modulus test.width → y < half_of test.width →
        passes test.width test.comparison x y ≡ test.held →
        (y ≤ x) × (x < half_of test.width) }
{
    match (test.comparison, test.held) {
        (Comparison::SignedGreater, true) | (Comparison::SignedGreaterOrEqual, true) => true,
        (Comparison::SignedLess, false) | (Comparison::SignedLessOrEqual, false) => true,
        _ => false,
    }
}

/// What is known of a number without a sign that is at least another.
fn upward(width: Width, a: Range, b: Range) -> Option<Range>
    ensures { (x y : ℕ) → IsIn (Some a) x → IsIn (Some b) y → (y ≤ x) × (x < half_of width) →
        IsIn result x }
{
    at_most(at_least(Some(a), b.low), greatest_without_sign(width))
}

/// What is known of a number of the width after a test of it that held, or did not.
fn refinement_of_number(test: Test, a: Range, b: Option<Range>) -> Option<Range>
    ensures { (x y : ℕ) → x < modulus test.width → IsIn (Some a) x → IsIn b y →
        passes test.width test.comparison x y ≡ test.held → IsIn result x }
{
    if !has_no_sign(test.width, b) {
        return refinement_unsigned(test, Some(a), b);
    }
    if has_no_sign(test.width, Some(a)) {
        let comparison = without_signs(test.comparison);
        return refinement_unsigned(Test { comparison, ..test }, Some(a), b);
    }
    match b {
        Some(b) if is_upward(test) => upward(test.width, a, b),
        _ => refinement_unsigned(test, Some(a), b),
    }
}

/// What is known of the first operand after a test that held, or did not. A test of 32 bits shows
/// something of a number that has no more.
pub(crate) fn refinement(test: Test, a: Option<Range>, b: Option<Range>) -> Option<Range>
    ensures { (x y : ℕ) → IsIn a x → IsIn b y →
        is_taken test.width test.comparison x y ≡ test.held → IsIn result x }
{
    match (test.width, a) {
        (Width::W64, Some(a)) => refinement_of_number(test, a, b),
        (Width::W64, None) => refinement_unsigned(test, None, b),
        (Width::W32, Some(a)) if a.high <= 0xffff_ffff => refinement_of_number(test, a, low(b)),
        (Width::W32, _) => a,
    }
}

/// Whether the octets of an access are all in one region; a store may not be to the arguments.
pub(crate) fn is_there(base: Option<Range>, offset: i16, octets: u64, writes: bool) -> bool
    requires { (1 ≤ octets) × (octets ≤ 8) }
    ensures { IsTrue result → (x : ℕ) → IsIn base x →
        IsThere writes ((x + cast_unsigned w64 offset) % 2 ^ 64) octets }
{
    let distance = i64::from(offset).cast_unsigned();
    match sum(base, only(distance)) {
        None => false,
        Some(at) => {
            let top = top_of(at);
            at.high < at.low
                || (STACK <= at.low && top <= STACK + STACK_OCTETS as u64 - octets)
                || (WORK <= at.low && top <= WORK + WORK_OCTETS - octets)
                || (!writes
                    && ARGUMENTS <= at.low
                    && top <= ARGUMENTS + ARGUMENT_OCTETS as u64 - octets)
        }
    }
}
