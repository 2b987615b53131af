//! What registers have in common: multiples of one number, with a number added to each.
ghost use Rattle.std.specs.Prelude.{◌*◌, ◌≡◌, ◌≢◌, ◌<◌, ◌+◌, ◌%◌, ◌^◌, ℕ, IsTrue, IsFalse, IfSome, Some, None, slice_index_or};
ghost use Rattle.bpf_types.specs.declared.line.Operation.TheVariants as op;
ghost use Rattle.bpf_types.specs.declared.line.Width.TheVariants.{W64};
ghost use Rattle.bpf_values.specs.Value.{arithmetic_result};
ghost use Rattle.ocp_check.specs.Mirror.Ranges.{IsIn};
ghost use Rattle.ocp_check.specs.declared.form.Form.{Form};
ghost use Rattle.ocp_check.specs.Mirror.Forms.{IsForm, number_by, bases_after};

use crate::range::{Range, follows, number_of, only, product, sum};
use bpf_moves::REGISTERS;
use bpf_types::{Operation, Width};

/// A number as `times` the number of a base and `plus` more, modulo 2 ^ 64. Numbers of one base are
/// tied to one another.
#[derive(Clone, Copy, PartialEq, Eq, Debug)]
pub struct Form {
    pub base: u8,
    pub times: u64,
    pub plus: u64,
}

/// The forms of the eleven registers.
pub type Forms = [Option<Form>; REGISTERS];

/// The most bases at a slot.
pub(crate) const BASES: usize = 20;

/// The form of a number that is known, and else the form that is given.
pub(crate) fn form_of_known(known: Option<Range>, form: Option<Form>) -> Option<Form>
    ensures { (bases : ℕ → ℕ) (v : ℕ) → IsIn known v → IsForm form bases v →
        IsForm result bases v }
{
    match number_of(known) {
        Some(number) => Some(Form {
            base: 0,
            times: 0,
            plus: number,
        }),
        None => form,
    }
}

/// The form of a sum with a number.
pub(crate) fn form_of_sum(a: Form, number: u64) -> Form
    ensures { (bases : ℕ → ℕ) (x : ℕ) → IsForm (Some a) bases x →
        IsForm (Some result) bases ((x + number) % 2 ^ 64) }
{
    Form {
        plus: a.plus.wrapping_add(number),
        ..a
    }
}

/// The form of a product.
fn product_of_form(a: Form, number: u64) -> Form
    ensures { (bases : ℕ → ℕ) (x : ℕ) → IsForm (Some a) bases x →
        IsForm (Some result) bases ((x * number) % 2 ^ 64) }
{
    Form {
        base: a.base,
        times: a.times.wrapping_mul(number),
        plus: a.plus.wrapping_mul(number),
    }
}

/// The form of the second number of an operation as its result, if it is moved.
fn form_of_move(width: Width, b: Form, known: Range) -> Option<Form>
    ensures { (bases : ℕ → ℕ) (x y : ℕ) → IsForm (Some b) bases y → IsIn (Some known) y →
        IsForm result bases (arithmetic_result width op.Mov x y) }
{
    match width {
        Width::W64 => Some(b),
        Width::W32 if known.high <= 0xffff_ffff => Some(b),
        Width::W32 => None,
    }
}

/// The form of the result of an operation of 64 bits with a number that is known.
fn form_with_number(operation: Operation, a: Form, number: u64) -> Option<Form>
    ensures { (bases : ℕ → ℕ) (x : ℕ) → IsForm (Some a) bases x →
        IsForm result bases (arithmetic_result W64 operation x number) }
{
    match operation {
        Operation::Sub => Some(form_of_sum(a, number.wrapping_neg())),
        Operation::Mul => Some(product_of_form(a, number)),
        Operation::Lsh if number == 1 => Some(product_of_form(a, 2)),
        Operation::Lsh if number == 2 => Some(product_of_form(a, 4)),
        Operation::Lsh if number == 3 => Some(product_of_form(a, 8)),
        _ => None,
    }
}

/// The form of a sum whose first number may be known.
fn form_of_sum_with(first: Option<u64>, b: Option<Form>) -> Option<Form>
    ensures { (bases : ℕ → ℕ) (x y : ℕ) → IfSome first (λ number. x ≡ number) →
        IsForm b bases y → IsForm result bases ((x + y) % 2 ^ 64) }
{
    match (first, b) {
        (Some(number), Some(b)) => Some(form_of_sum(b, number)),
        _ => None,
    }
}

/// The form of the result of an operation, by those of its operands and what is known of them.
pub(crate) fn form_of_result(
    width: Width,
    operation: Operation,
    a: Option<Form>,
    b: Option<Form>,
    first: Option<Range>,
    second: Option<Range>,
) -> Option<Form>
    ensures { (bases : ℕ → ℕ) (x y : ℕ) → IsIn first x → IsIn second y → IsForm a bases x →
        IsForm b bases y → IsForm result bases (arithmetic_result width operation x y) }
{
    match (width, operation) {
        (_, Operation::Mov) => form_of_move(width, b?, second?),
        (Width::W64, Operation::Add) => match (number_of(second), a) {
            (Some(number), Some(a)) => Some(form_of_sum(a, number)),
            _ => form_of_sum_with(number_of(first), b),
        },
        (Width::W64, _) => form_with_number(operation, a?, number_of(second)?),
        _ => None,
    }
}

/// What is known of a number by another one of the same base.
fn range_by_form(form: Form, other: Form, known: Range) -> Option<Range>
    ensures { (bases : ℕ → ℕ) (v x : ℕ) → IsForm (Some form) bases v →
        IsForm (Some other) bases x → IsIn (Some known) x → IsIn result (v % 2 ^ 64) }
{
    if form.base != other.base || other.times != 1 {
        return None;
    }
    let more = form.plus.wrapping_sub(form.times.wrapping_mul(other.plus));
    sum(product(Some(known), only(form.times)), only(more))
}

/// What is known of a number of which both are known.
fn both(a: Range, b: Range) -> Range
    ensures { (v : ℕ) → IsIn (Some a) v → IsIn (Some b) v → IsIn (Some result) v }
{
    Range {
        low: if a.low < b.low { b.low } else { a.low },
        high: if a.high < b.high { a.high } else { b.high },
        stride: if follows(a.stride, b.stride) {
            a.stride
        } else {
            b.stride
        },
    }
}

/// What is known of a number, if more is known of another one.
pub(crate) fn range_by_tie(
    range: Option<Range>,
    form: Option<Form>,
    other: Option<Form>,
    known: Option<Range>,
) -> Option<Range>
    ensures { (bases : ℕ → ℕ) (v x : ℕ) → IsIn range v → IsForm form bases v →
        IsForm other bases x → IsIn known x → IsIn result v }
{
    match (range, form, other, known) {
        (Some(range), Some(form), Some(other), Some(known)) => {
            match range_by_form(form, other, known) {
                Some(by) => Some(both(range, by)),
                None => Some(range),
            }
        }
        _ => range,
    }
}

/// Whether no register is of a base.
pub(crate) fn is_free(forms: &Forms, base: u8) -> bool
    ensures { IsTrue result → (k : ℕ) → k < 11 → (f : Form) →
        slice_index_or forms.now k None ≡ Some f → f.base ≢ base }
{
    for k in 0..REGISTERS {
        if is_of_base(forms[k], base) {
            return false;
        }
    }
    true
}

/// Whether a form is of a base.
pub(crate) fn is_of_base(form: Option<Form>, base: u8) -> bool
    ensures { IsFalse result → (f : Form) → form ≡ Some f → f.base ≢ base }
{
    match form {
        Some(form) => form.base == base,
        None => false,
    }
}

/// Whether a form follows from another one, if the number of each base becomes the one of its
/// shift.
pub(crate) fn is_shifted(shifts: &[Form; BASES], from: Option<Form>, to: Option<Form>) -> bool
    ensures { IsTrue result → (bases : ℕ → ℕ) (v : ℕ) → IsForm from bases v →
        IsForm to (bases_after shifts.now bases) v }
{
    match (from, to) {
        (_, None) => true,
        (None, Some(_)) => false,
        (Some(from), Some(to)) => match shifts.get(usize::from(to.base)) {
            Some(shift) => is_shifted_by(shift, from, to),
            None => false,
        },
    }
}

/// The same of two forms and the shift of the base of the second one.
pub(crate) fn is_shifted_by(shift: &Form, from: Form, to: Form) -> bool
    ensures { IsTrue result → (bases : ℕ → ℕ) (v : ℕ) → IsForm (Some from) bases v →
        v % 2 ^ 64 ≡ (to.times * number_by shift.now bases + to.plus) % 2 ^ 64 }
{
    let times = to.times.wrapping_mul(shift.times);
    let plus = to.times.wrapping_mul(shift.plus).wrapping_add(to.plus);
    if from.times != times {
        return false;
    }
    if from.plus != plus {
        return false;
    }
    if from.base == shift.base {
        true
    } else {
        times == 0
    }
}
