//! The texts of help and of mistakes about the commands. No proof covers these texts;
//! `tests/test_commands.py` compares them.

/// What `--version` prints after the name.
pub(crate) const VERSION: &str = "0.1.0";

pub(crate) const OCP_USAGE: &str = "ocp [COMMAND] < FILE";

pub(crate) const OCP: &str = "On-board control procedures: engine, assembler and ground console";

pub(crate) const OCP_HELP: &str = "Each command reads standard input and writes standard output.
Without a command, ocp does what run does with its defaults.

Exit status:
  0  done, also after help and version
  1  the input has a fault: the last line of the output names it; or check did not show all
  2  the command line is refused: standard error says why
  3  a read, a write, memory or the workers failed: standard error says 'fault <name>'

Manuals: docs/MANUAL.md, docs/AUTHOR.md. Everything on one page: docs/CARD.md";

pub(crate) const ASM_USAGE: &str = "ocp asm [OPTIONS] < TEXT";

pub(crate) const ASM: &str =
    "Reads assembly text and writes its image as one line of hexadecimal digits";

pub(crate) const ASM_HELP: &str = "A line of the text: [label:] [instruction] [; comment]
  again: sub64 r1, 1 ; one less

Fault lines:
  error <line> Syntax, error <line> Range, error <line> DuplicateLabel,
  error <line> UnknownLabel, error <line> Load <n>, error 0 Load <n>, error 0 TooLong

Load faults:
  1 EmptyCode, 3 TooLong, 8 WritesFramePointer, 9 BadCall, 10 BadTarget, 11 FallsOffEnd
  With --profile 2, call 6 is allowed

Exit status:
  0 done, 1 the output is a fault line, 2 the command line is refused,
  3 a read, a write or memory failed

Example: `echo exit | ocp asm` writes 9500000000000000
Manual: docs/AUTHOR.md, sections 2 and 3; causes of Syntax: section 5. Mnemonics: docs/CARD.md";

pub(crate) const CHECK_USAGE: &str = "ocp check [OPTIONS] < IMAGE";

pub(crate) const CHECK: &str =
    "Reads an image in hexadecimal digits and writes what no run of it ever does";

pub(crate) const CHECK_HELP: &str = "What is written, if all of it is shown:
  faults 1 2 3   never
  fault 4        never, with 2 words of pool or more
  round          at most 24 instructions from a start or a step end to the next step end or the exit

Else a line for each place that may fault, and one if no bound of a round is shown:
  slot 6   ldxb r3, [r1+0]   may be AccessOutside: r1 is 0x20000000 to 0x20000100
  round   not bounded: slots 1 2 3 4 repeat without a step end

Fault lines:
  error 0 TooLong, error 0 Hex, error 0 Load <n>, error <slot> Load <n>

Exit status:
  0 all is shown, 1 not all is shown, or the output is a fault line,
  2 the command line is refused, 3 a read, a write or memory failed

Manual: docs/AUTHOR.md, section 3";

pub(crate) const LIST_USAGE: &str = "ocp list < IMAGE";

pub(crate) const LIST: &str = "Reads an image in hexadecimal digits and writes its listing";

pub(crate) const LIST_HELP: &str = "Fault lines:
  error 0 TooLong, error 0 Hex, error 0 Ragged, error <slot> Decode <n>

Decode faults:
  1 CutWide, 2 UnknownOpcode, 3 BadRegister, 4 ReservedField, 5 WritesFramePointer

Exit status:
  0 done, 1 the output is a fault line, 2 the command line is refused,
  3 a read, a write or memory failed

Example: `echo 9500000000000000 | ocp list` writes exit
Manual: docs/AUTHOR.md, section 3";

pub(crate) const RUN_USAGE: &str = "ocp run [OPTIONS] < SCRIPT";

pub(crate) const RUN: &str = "Reads a script of console lines and writes its transcript";
