//! A line of assembly text, as it was read.

use bpf_types::Line;
use thiserror::Error;

/// An instruction, and the label's name that is in place of its distance, which is then 0.
#[derive(Clone, Copy)]
pub struct Statement<'a> {
    pub line: Line,
    pub name: Option<&'a [u8]>,
}

/// The label and the instruction of a line, each if there is one.
#[derive(Clone, Copy)]
pub struct TextLine<'a> {
    pub label: Option<&'a [u8]>,
    pub body: Option<Statement<'a>>,
}

/// Why a line by itself is no line of assembly text: it does not have the form of one, or a number
/// in it is out of its range.
#[derive(Clone, Copy, PartialEq, Eq, Debug, Error)]
pub enum LineFault {
    #[error("the line does not have the form of one")]
    Syntax,
    #[error("a number is out of its range")]
    Range,
}
