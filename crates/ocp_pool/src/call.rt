//! What an engine call did.
ghost use Rattle.std.specs.Prelude.{◌≡◌};
ghost use Rattle.ocp_pool.specs.Call.{number_of, r0_of, r1_of, operation_of, fault_number};

use thiserror::Error;

/// What an engine call did, with its values.
///
/// | Number | Call | Effect | R0 | R1 |
/// |---|---|---|---|---|
/// | 1 | pool_get | none | word R1 of the pool | |
/// | 2 | pool_set | word R1 of the pool = R2 | the word before | |
/// | 3 | pool_add | word R1 of the pool = it + R2, modulo 2^64 | the new word | |
/// | 4 | next_param | the oldest word is taken out of the mailbox | 1, or 0 if it is empty | the word, if any |
/// | 5 | step_end | a step ends, whose number is R1 modulo 65,536 | 0 | |
/// | 6 | pool_compare_set | word R1 of the pool = R3, if it equals R2 | the word before | |
///
/// Only profile Two has call 6.
#[derive(Clone, Copy)]
pub enum Called {
    PoolGet {
        index: u64,
        word: u64,
    },
    PoolSet {
        index: u64,
        value: u64,
        old: u64,
    },
    PoolAdd {
        index: u64,
        value: u64,
        new: u64,
    },
    NextParam(Option<u64>),
    StepEnd(u16),
    PoolCompareSet {
        index: u64,
        expected: u64,
        value: u64,
        old: u64,
    },
}

/// What a call does to the pool.
#[derive(Clone, Copy)]
pub enum PoolOperation {
    /// The word at the index becomes the value.
    Set {
        index: u64,
        value: u64,
    },
    /// The value is added to the word at the index, modulo 2^64.
    Add {
        index: u64,
        value: u64,
    },
    /// The word at the index becomes the value if it equals what is expected.
    CompareSet {
        index: u64,
        expected: u64,
        value: u64,
    },
}

/// Why an engine call is refused. Nothing changed.
#[derive(Clone, Copy, PartialEq, Eq, Debug, Error)]
pub enum PoolFault {
    #[error("R1 is no index of the pool")]
    BadPoolIndex,
}

impl Called {
    /// The number of the call, 1 to 6.
    pub fn number(self) -> u8
        ensures { result ≡ number_of self }
    {
        match self {
            Called::PoolGet { .. } => 1,
            Called::PoolSet { .. } => 2,
            Called::PoolAdd { .. } => 3,
            Called::NextParam(_) => 4,
            Called::StepEnd(_) => 5,
            Called::PoolCompareSet { .. } => 6,
        }
    }

    /// What the caller gets in R0.
    pub fn r0(self) -> u64
        ensures { result ≡ r0_of self }
    {
        match self {
            Called::PoolGet { word, .. } => word,
            Called::PoolSet { old, .. } | Called::PoolCompareSet { old, .. } => old,
            Called::PoolAdd { new, .. } => new,
            Called::NextParam(Some(_)) => 1,
            Called::NextParam(None) | Called::StepEnd(_) => 0,
        }
    }

    /// What the caller gets in R1, if the call writes it.
    pub fn r1(self) -> Option<u64>
        ensures { result ≡ r1_of self }
    {
        match self {
            Called::NextParam(word) => word,
            _ => None,
        }
    }

    /// What the call did to the pool, if anything.
    pub fn operation(self) -> Option<PoolOperation>
        ensures { result ≡ operation_of self }
    {
        match self {
            Called::PoolSet { index, value, .. } => Some(PoolOperation::Set { index, value }),
            Called::PoolAdd { index, value, .. } => Some(PoolOperation::Add { index, value }),
            Called::PoolCompareSet {
                index,
                expected,
                value,
                ..
            } => Some(PoolOperation::CompareSet {
                index,
                expected,
                value,
            }),
            _ => None,
        }
    }
}

impl PoolFault {
    /// The number of the fault: 4, after those of the machine.
    pub fn number(self) -> u8
        ensures { result ≡ fault_number self }
    {
        match self {
            PoolFault::BadPoolIndex => 4,
        }
    }
}
