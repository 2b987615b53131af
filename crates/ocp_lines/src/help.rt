//! The help text about a script. No proof covers this text; `tests/test_commands.py` compares it.

/// The lines of a script with the verbs of `send`, and the meaning of its transcript's numbers: the
/// text after the options in the help of the command that runs one.
pub const SCRIPT_HELP: &str = "Console lines:
  send <flags> <verb> ..                  a request; flags are a sum: 1 acceptance, 2 start,
                                          8 completion
  up [<hex>]                              a telecommand packet, given by its octets
  time <seconds>                          sets the time of later reports
  step <id> <n>                           executes up to n instructions of a procedure
  round <id> <n>                          the same, but not beyond the end of a step
  view <id>                               shows its status, place and registers
  mem <id> 0x<digits> <length>            shows octets of its memory
  break <id> <place>                      sets a breakpoint
  unbreak <id> <place>                    clears it
  trace <id> on, trace <id> off           starts or stops recording its instructions
  trace                                   shows the last 256 records
  pool <index>                            shows a word of the pool
  put <index> <value>                     writes a word of the pool from outside
  journal                                 shows how many events there were
  drain                                   sends the reports of completions that wait
  work <workers> <budget> <turns>         each worker makes turns of up to budget instructions
  # ..                                    a comment

Verbs of send:
  load <id> [<hex>], unload <id>, activate <id> [<hex>], stop <id> <step>, suspend <id> <step>,
  resume <id>, abort <id>, communicate <id> <number> .., status
  With --profile 2: activate <id> <budget> [<hex>]; budget 0 means no budget

Outcomes of step and round:
  Ran, Called, Broke, Ended, Faulted <n>, NotLoaded, NotRunning, JournalFull

Faults of a procedure:
  1 AccessOutside, 2 WriteToArguments, 3 CallDepth, 4 BadPoolIndex, 5 BudgetSpent

Codes of a failed acceptance (tm 1 2):
  1 Segmented, 2 NoSecondary, 3 NoRoom, 4 Pec, 5 PusVersion, 6 Service, 7 Subtype, 8 Layout

Codes of a failed start (tm 1 4):
  16 AlreadyLoaded, 17 TableFull, 18 BadCode, 19 NotLoaded, 20 NotInactive, 21 NotActive,
  22 NotRunning, 23 NotHeld, 24 StopPending, 25 MailboxFull, 27 OutboxFull

Code of a failed completion (tm 1 8):
  26 Overtaken

Load faults, after code 18:
  1 EmptyCode, 2 RaggedCode, 3 TooLong, 4 CutWide, 5 UnknownOpcode, 6 BadRegister,
  7 ReservedField, 8 WritesFramePointer, 9 BadCall, 10 BadTarget, 11 FallsOffEnd

Fault lines of the script:
  error <line> Syntax, error <line> LineTooLong, error 100001 TooManyLines

Exit status:
  0 done, 1 a fault line ends the output, 2 the command line is refused,
  3 a read, a write, memory or the workers failed

Example: `echo journal | ocp run --pool 8` writes journal 0
Manual: docs/MANUAL.md, section 4; causes of Syntax: section 10";
