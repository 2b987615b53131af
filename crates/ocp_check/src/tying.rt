//! Which registers and words are tied to one another at a place to which machines come from several
//! slots.
//! Nothing rests on it: `check` tests what it finds.

use crate::certificate::Node;
use crate::form::{
    BASES, Form, form_of_known, form_of_sum, is_of_base, is_shifted_by, range_by_tie,
};
use crate::range::{Range, number_of};
use crate::word::WORDS;
use bpf_moves::REGISTERS;

/// The greatest factor of a tie.
const MOST_TIMES: u64 = 4096;

/// How many registers and words a node has.
pub(crate) const CELLS: usize = REGISTERS + WORDS;

/// What is known of the registers, and of the words after them.
#[derive(Clone, Copy)]
pub(crate) struct Cells {
    pub row: [Option<Range>; CELLS],
    pub forms: [Option<Form>; CELLS],
}

/// The registers and words of a node. Of words at other addresses than those of another node
/// nothing is known.
pub(crate) fn cells_of(node: &Node, other: &Node) -> Cells {
    let mut cells = Cells {
        row: [None; CELLS],
        forms: [None; CELLS],
    };
    for k in 0..REGISTERS {
        cells.row[k] = node.row[k];
        cells.forms[k] = node.forms[k];
    }
    for k in 0..WORDS {
        if let (Some(word), Some(same)) = (node.words[k], other.words[k]) {
            if word.address == same.address {
                cells.row[REGISTERS + k] = word.known;
                cells.forms[REGISTERS + k] = word.form;
            }
        }
    }
    cells
}

/// A base of which no cell is, if there is one.
fn base_left(forms: &[Option<Form>; CELLS]) -> Option<u8> {
    for base in 0..BASES as u8 {
        let mut is_free = true;
        for k in 0..CELLS {
            if is_of_base(forms[k], base) {
                is_free = false;
            }
        }
        if is_free {
            return Some(base);
        }
    }
    None
}

/// How much a number has grown, modulo 2 ^ 64, if it is known before and after and has changed.
fn growth_of(old: Option<Range>, form: Option<Form>, from: Option<Range>) -> Option<u64> {
    let before = number_of(old)?;
    let after = number_of(from)?;
    if before == after || form.is_some() {
        None
    } else {
        Some(after.wrapping_sub(before))
    }
}

/// The distance from zero of a number modulo 2 ^ 64.
fn distance_of(number: u64) -> u64 {
    let negative = number.wrapping_neg();
    if negative < number { negative } else { number }
}

/// The growth that is the nearest to zero.
fn least_growth(old: &Cells, from: &Cells) -> Option<u64> {
    let mut least: Option<u64> = None;
    for k in 0..CELLS {
        if let Some(growth) = growth_of(old.row[k], old.forms[k], from.row[k]) {
            match least {
                Some(known) if distance_of(known) <= distance_of(growth) => {}
                _ => least = Some(growth),
            }
        }
    }
    least
}

/// How many times a number is another one, modulo 2 ^ 64 and if both grow in the same direction.
fn times_of(growth: u64, unit: u64) -> Option<u64> {
    let (growth, unit) = if unit > u64::MAX / 2 {
        (growth.wrapping_neg(), unit.wrapping_neg())
    } else {
        (growth, unit)
    };
    if unit > 0 && growth % unit == 0 && growth / unit <= MOST_TIMES {
        Some(growth / unit)
    } else {
        None
    }
}

/// The forms of a node, and those of registers whose numbers were known and have changed: the
/// change that is the nearest to zero is their unit.
fn with_growth(old: &Cells, from: &Cells) -> [Option<Form>; CELLS] {
    let mut forms = old.forms;
    if let (Some(unit), Some(base)) = (least_growth(old, from), base_left(&old.forms)) {
        for k in 0..CELLS {
            if let (Some(growth), Some(number)) = (
                growth_of(old.row[k], old.forms[k], from.row[k]),
                number_of(old.row[k]),
            ) {
                if let Some(times) = times_of(growth, unit) {
                    forms[k] = Some(Form {
                        base,
                        times,
                        plus: number,
                    });
                }
            }
        }
    }
    forms
}

/// What becomes of the base of a cell's form, if the cell is the base and a number more.
fn shift_by(known: Option<Range>, form: Option<Form>, to: Form) -> Option<Form> {
    match form_of_known(known, form) {
        Some(form) if to.times == 1 => Some(form_of_sum(form, to.plus.wrapping_neg())),
        _ => None,
    }
}

/// Whether a cell follows a shift of its base.
fn follows_shift(shift: &Form, known: Option<Range>, form: Option<Form>, to: Form) -> bool {
    match form_of_known(known, form) {
        Some(form) => is_shifted_by(shift, form, to),
        None => false,
    }
}

/// How many cells of a base follow a shift of it, if there is one.
fn followers(from: &Cells, forms: &[Option<Form>; CELLS], base: u8, shift: Option<Form>) -> u32 {
    let Some(shift) = shift else {
        return 0;
    };
    let mut count = 0u32;
    for k in 0..CELLS {
        if let Some(to) = forms[k] {
            if to.base == base && follows_shift(&shift, from.row[k], from.forms[k], to) {
                count = count.saturating_add(1);
            }
        }
    }
    count
}

/// The shift of a base which most of its cells follow; that of the first cell if no cell has one.
fn best_shift(from: &Cells, forms: &[Option<Form>; CELLS], base: u8) -> Option<Form> {
    let mut best = match forms[0] {
        Some(to) => shift_by(from.row[0], from.forms[0], to),
        None => None,
    };
    let mut most = 0;
    for k in 0..CELLS {
        if let Some(to) = forms[k] {
            let shift = shift_by(from.row[k], from.forms[k], to);
            let count = followers(from, forms, base, shift);
            if to.base == base && count > most {
                best = shift;
                most = count;
            }
        }
    }
    best
}

/// The forms that both the old node and a new one have, of those that are given.
fn common(from: &Cells, forms: &[Option<Form>; CELLS]) -> [Option<Form>; CELLS] {
    let mut left = *forms;
    for k in 0..CELLS {
        if let Some(to) = forms[k] {
            let is_kept = match best_shift(from, forms, to.base) {
                Some(shift) => follows_shift(&shift, from.row[k], from.forms[k], to),
                None => false,
            };
            if !is_kept {
                left[k] = None;
            }
        }
    }
    left
}

/// Whether a register had one number and no form.
fn is_plain(known: Option<Range>, form: Option<Form>) -> bool {
    form.is_none() && number_of(known).is_some()
}

/// Forms with those of one base of the new node, of registers that had one number each.
fn with_adopted(
    old: &Cells,
    from: &Cells,
    forms: &[Option<Form>; CELLS],
    base: u8,
) -> [Option<Form>; CELLS] {
    let mut more = *forms;
    if let Some(free) = base_left(forms) {
        for k in 0..CELLS {
            if let Some(form) = from.forms[k] {
                if form.base == base && is_plain(old.row[k], old.forms[k]) {
                    more[k] = Some(Form { base: free, ..form });
                }
            }
        }
    }
    more
}

/// Forms with those of the new node, of registers that had one number each.
fn with_all_adopted(
    old: &Cells,
    from: &Cells,
    forms: &[Option<Form>; CELLS],
) -> [Option<Form>; CELLS] {
    let mut more = *forms;
    for base in 0..BASES as u8 {
        more = with_adopted(old, from, &more, base);
    }
    common(old, &more)
}

/// The forms of cells at a place that is as the old node says, or as the new one.
pub(crate) fn ties_of(old: &Cells, from: &Cells, may_grow: bool) -> [Option<Form>; CELLS] {
    if may_grow {
        let grown = with_growth(old, from);
        common(from, &with_all_adopted(old, from, &grown))
    } else {
        common(from, &old.forms)
    }
}

/// What is known of cells by others that are tied to them.
pub(crate) fn narrow_by_forms(
    row: &[Option<Range>; CELLS],
    forms: &[Option<Form>; CELLS],
) -> [Option<Range>; CELLS] {
    let mut narrow = *row;
    for k in 0..CELLS {
        for other in 0..CELLS {
            if other != k {
                narrow[k] = range_by_tie(narrow[k], forms[k], forms[other], row[other]);
            }
        }
    }
    narrow
}
