//! Lines that are calls: their words, what a word says, how an answer is shown, and scripts of
//! them. A program that makes calls available as lines has a table of them, by `table!`.
//!
//! A line is the name of a call and its arguments, with spaces between them. Blank lines and those
//! that begin with `#` say nothing. At the first line that is no call of the program, or whose
//! arguments are not its own, the answer is `error <line> Syntax`, and no later line is done; the
//! exit status is 1. A call that was refused memory is answered `Memory`, and the lines go on after
//! it. If the program itself was, or reading or writing failed, the exit status is 3.
//!
//! Numbers are decimal digits, names those of the library's variants. Octets are `-` for none, else
//! pieces with `|` between them: hexadecimal digits, or a text between double quotes, in which
//! `\n`, `\r` and `\t` are a line feed, a carriage return and a tab; after a piece `*20` repeats it
//! twenty times. Answers have the same forms; `None` is answered if the library makes no value of
//! the arguments.
#![tactic(auto)]

/// A table of names: the values of variants by their own names.
#[macro_export]
macro_rules! names {
    ($type:ident: $($variant:ident),+) => {
        &[$((stringify!($variant), $type::$variant)),+]
    };
}

/// Values, with spaces between them.
#[macro_export]
macro_rules! words {
    ($one:expr) => { $one };
    ($one:expr, $($more:expr),+) => { Both($one, words!($($more),+)) };
}

/// The text of values, with spaces between them.
#[macro_export]
macro_rules! text {
    ($alloc:expr; $($word:expr),+) => { text_of($alloc, words!($($word),+)) };
}

/// The value of an option. Without one the answer is `None`.
#[macro_export]
macro_rules! some {
    ($alloc:expr, $value:expr) => {
        match $value {
            Some(value) => value,
            None => return text_of($alloc, "None"),
        }
    };
}

/// What a word says, by the kind of the argument or by the function that reads it.
#[macro_export]
macro_rules! read {
    (number, $alloc:expr, $word:expr) => { number_of($word)? };
    (flag, $alloc:expr, $word:expr) => { flag_of($word)? };
    (profile, $alloc:expr, $word:expr) => { profile_of($word)? };
    (octets, $alloc:expr, $word:expr) => { octets($alloc, $word)? };
    (id, $alloc:expr, $word:expr) => { id_of($alloc, $word)? };
    ($reader:ident, $alloc:expr, $word:expr) => { $reader($word)? };
}

/// What words say by a table. A row has names, of which the first word is one, the other words with
/// their kinds, any further words in brackets, and what they say. Words of no row are for `else`.
#[macro_export]
macro_rules! table {
    ($alloc:expr, $words:expr; $($($name:literal)|+ $($word:ident $(: $kind:ident)?)*
            $([$others:ident])? => $answer:expr;)+) => {
        table!($alloc, $words; $($($name)|+ $($word $(: $kind)?)* $([$others])? => $answer;)+
            else Err(Fault::Syntax))
    };
    ($alloc:expr, $words:expr; $($($name:literal)|+ $($word:ident $(: $kind:ident)?)*
            $([$others:ident])? => $answer:expr;)+ else $other:expr) => {
        match *$words {
            $([$($name)|+, $($word,)* $(ref $others @ ..)?] => {
                $($(let $word = read!($kind, $alloc, $word);)?)*
                $answer
            })+
            _ => $other,
        }
    };
}

mod events;
mod reading;
mod script;
mod seats;
mod shown;
mod texts;

pub use events::{Asked, apply_event, event_octets, event_of, new_engine};
pub use reading::{
    Fault, flag_of, id_of, number_of, numbers_of, octets, or_memory, profile_of, value_of,
};
pub use script::{Calls, End, Reply, Script, answer_lines, exit_code};
pub use seats::{Sharing, answer_script, share};
pub use shown::{Numbers, Octets, Text};
pub use std::alloc::Global;
pub use texts::{Answer, Both, Named, name_of, show_done, text_of};
