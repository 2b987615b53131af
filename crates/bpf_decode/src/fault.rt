//! Why octets are no instruction that may be loaded.

ghost use Rattle.std.specs.Prelude.{◌≡◌, ◌≤◌};
ghost use Rattle.bpf_decode.specs.Faults.{decode_number};

use thiserror::Error;

/// Why the octets at a slot are no instruction that may be loaded, in the order in which faults are
/// looked for.
#[derive(Clone, Copy, PartialEq, Eq, Debug, Error)]
pub enum DecodeFault {
    /// The opcode of a wide load, 0x18, without a second slot after it.
    #[error("the second slot of lddw is missing")]
    CutWide = 1,
    /// No row of the instruction table has the opcode.
    #[error("no instruction has the opcode in the first octet")]
    UnknownOpcode = 2,
    /// A register field of the first slot is over 10.
    #[error("registers are 0 to 10, in the halves of the second octet")]
    BadRegister = 3,
    /// A field that its row does not name is not zero, or one that it names has a value that the
    /// row does not allow.
    #[error("a field has a value that its instruction does not allow")]
    ReservedField = 4,
    /// The instruction writes R10, which is read-only.
    #[error("r10 is read and never written")]
    WritesFramePointer = 5,
}

impl DecodeFault {
    /// 1 to 5 in the order in which faults are looked for.
    pub fn number(self) -> u8
        ensures value { result ≡ decode_number self }
        ensures few { result ≤ 5 }
    {
        self as u8
    }
}
