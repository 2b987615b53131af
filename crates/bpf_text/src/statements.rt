//! Instructions, from their tokens: the grammar of each mnemonic's operands.
ghost use Rattle.std.specs.Prelude.{◌≡◌, false};
ghost use Rattle.bpf_canonical.specs.declared.mnemonic.Mnemonic.TheVariants as word;
ghost use Rattle.bpf_canonical.specs.declared.mnemonic.Stem.TheVariants as stem;
ghost use Rattle.bpf_text.specs.Judged.{texts, Judges, JudgesForm};
ghost use Rattle.bpf_text.specs.Mirror.Reads.{state, Answers};

use crate::line::{LineFault, Statement};
use crate::operands::Operands;
use bpf_canonical::{Mnemonic, Stem, read_mnemonic};
use bpf_types::{Comparison, Line, Operation, Order, SignedSize, Size, Width};

/// An instruction with no label's name.
fn plain<'a>(line: Line) -> Option<Statement<'a>>
    ensures { result ≡ Some (record { line = line; name = None }) }
{
    Some(Statement { line, name: None })
}

fn arithmetic<'a>(
    operands: &mut Operands<'_, 'a>,
    width: Width,
    operation: Operation,
) -> Option<Statement<'a>>
    ensures { Answers (word.Classed (stem.Arithmetic operation) width)
        (state operands.old) result (state operands.new) }
{
    let dst = operands.register()?;
    operands.expect(b",")?;
    let operand = operands.second()?;
    plain(Line::Arithmetic {
        width,
        operation,
        dst,
        operand,
    })
}

fn negate<'a>(operands: &mut Operands<'_, 'a>, width: Width) -> Option<Statement<'a>>
    ensures { Answers (word.Classed stem.Negate width)
        (state operands.old) result (state operands.new) }
{
    let dst = operands.register()?;
    plain(Line::Negate { width, dst })
}

fn move_extended<'a>(operands: &mut Operands<'_, 'a>, width: Width) -> Option<Statement<'a>>
    ensures { Answers (word.Classed stem.MoveExtended width)
        (state operands.old) result (state operands.new) }
{
    let dst = operands.register()?;
    operands.expect(b",")?;
    let src = operands.register()?;
    operands.expect(b",")?;
    let extension = operands.extension(width)?;
    plain(Line::MoveExtended {
        extension,
        dst,
        src,
    })
}

fn byte_order<'a>(operands: &mut Operands<'_, 'a>, order: Order) -> Option<Statement<'a>>
    ensures { Answers (word.ByteOrder order) (state operands.old) result (state operands.new) }
{
    let dst = operands.register()?;
    operands.expect(b",")?;
    let width = operands.swap_width()?;
    plain(Line::ByteOrder { order, width, dst })
}

fn load_wide<'a>(operands: &mut Operands<'_, 'a>) -> Option<Statement<'a>>
    ensures { Answers word.LoadWide (state operands.old) result (state operands.new) }
{
    let dst = operands.register()?;
    operands.expect(b",")?;
    let value = operands.number()?;
    plain(Line::LoadWide { dst, value })
}

fn jump<'a>(operands: &mut Operands<'_, 'a>) -> Option<Statement<'a>>
    ensures { Answers word.Jump (state operands.old) result (state operands.new) }
{
    let (distance, name) = operands.short_target()?;
    Some(Statement {
        line: Line::Jump { distance },
        name,
    })
}

fn long_jump<'a>(operands: &mut Operands<'_, 'a>) -> Option<Statement<'a>>
    ensures { Answers word.LongJump (state operands.old) result (state operands.new) }
{
    let (distance, name) = operands.long_target()?;
    Some(Statement {
        line: Line::LongJump { distance },
        name,
    })
}

fn jump_if<'a>(
    operands: &mut Operands<'_, 'a>,
    width: Width,
    comparison: Comparison,
) -> Option<Statement<'a>>
    ensures { Answers (word.Classed (stem.JumpIf comparison) width)
        (state operands.old) result (state operands.new) }
{
    let dst = operands.register()?;
    operands.expect(b",")?;
    let operand = operands.second()?;
    operands.expect(b",")?;
    let (distance, name) = operands.short_target()?;
    Some(Statement {
        line: Line::JumpIf {
            width,
            comparison,
            dst,
            operand,
            distance,
        },
        name,
    })
}

/// A call of the engine by its number, or a local call.
fn call<'a>(operands: &mut Operands<'_, 'a>) -> Option<Statement<'a>>
    ensures { Answers word.Call (state operands.old) result (state operands.new) }
{
    if operands.expect(b"local").is_some() {
        let (distance, name) = operands.long_target()?;
        return Some(Statement {
            line: Line::CallLocal { distance },
            name,
        });
    }
    let number = operands.immediate()?;
    plain(Line::Call { number })
}

fn load<'a>(operands: &mut Operands<'_, 'a>, size: Size) -> Option<Statement<'a>>
    ensures { Answers (word.Load size)
        (state operands.old) result (state operands.new) }
{
    let (dst, (base, offset)) = operands.load()?;
    plain(Line::Load {
        size,
        dst,
        base,
        offset,
    })
}

fn load_extended<'a>(operands: &mut Operands<'_, 'a>, size: SignedSize) -> Option<Statement<'a>>
    ensures { Answers (word.LoadExtended size)
        (state operands.old) result (state operands.new) }
{
    let (dst, (base, offset)) = operands.load()?;
    plain(Line::LoadExtended {
        size,
        dst,
        base,
        offset,
    })
}

fn store<'a>(operands: &mut Operands<'_, 'a>, size: Size) -> Option<Statement<'a>>
    ensures { Answers (word.Store size)
        (state operands.old) result (state operands.new) }
{
    let (base, offset) = operands.memory()?;
    operands.expect(b",")?;
    let src = operands.register()?;
    plain(Line::Store {
        size,
        base,
        offset,
        src,
    })
}

fn store_immediate<'a>(operands: &mut Operands<'_, 'a>, size: Size) -> Option<Statement<'a>>
    ensures { Answers (word.StoreImmediate size)
        (state operands.old) result (state operands.new) }
{
    let (base, offset) = operands.memory()?;
    operands.expect(b",")?;
    let value = operands.immediate()?;
    plain(Line::StoreImmediate {
        size,
        base,
        offset,
        value,
    })
}

/// The instruction of a mnemonic, from its operands.
fn instruction<'a>(operands: &mut Operands<'_, 'a>, mnemonic: Mnemonic) -> Option<Statement<'a>>
    ensures { Answers mnemonic (state operands.old) result (state operands.new) }
{
    match mnemonic {
        Mnemonic::Classed(Stem::Arithmetic(operation), width) => {
            arithmetic(operands, width, operation)
        }
        Mnemonic::Classed(Stem::Negate, width) => negate(operands, width),
        Mnemonic::Classed(Stem::MoveExtended, width) => move_extended(operands, width),
        Mnemonic::Classed(Stem::JumpIf(comparison), width) => jump_if(operands, width, comparison),
        Mnemonic::ByteOrder(order) => byte_order(operands, order),
        Mnemonic::LoadWide => load_wide(operands),
        Mnemonic::Load(size) => load(operands, size),
        Mnemonic::LoadExtended(size) => load_extended(operands, size),
        Mnemonic::Store(size) => store(operands, size),
        Mnemonic::StoreImmediate(size) => store_immediate(operands, size),
        Mnemonic::Jump => jump(operands),
        Mnemonic::LongJump => long_jump(operands),
        Mnemonic::Call => call(operands),
        Mnemonic::Exit => plain(Line::Exit),
    }
}

/// The instruction of a mnemonic and all of its operands: Syntax if a token is left, and then
/// Range if a number was out of its range.
fn complete<'a>(
    operands: &mut Operands<'_, 'a>,
    mnemonic: Mnemonic,
) -> Result<Statement<'a>, LineFault>
    requires { operands.old.out_of_range ≡ false }
    ensures { Judges mnemonic (texts operands.old.rest.now) result }
{
    match instruction(operands, mnemonic) {
        Some(_) if operands.out_of_range && operands.rest.is_empty() => Err(LineFault::Range),
        Some(statement) if operands.rest.is_empty() => Ok(statement),
        _ => Err(LineFault::Syntax),
    }
}

/// The instruction of these tokens.
#[inline(never)]
pub(crate) fn statement<'a>(tokens: &[&'a [u8]]) -> Result<Statement<'a>, LineFault>
    ensures { JudgesForm (texts tokens.now) result }
{
    let mut operands = Operands {
        rest: tokens,
        out_of_range: false,
    };
    let word = operands.token().ok_or(LineFault::Syntax)?;
    let mnemonic = read_mnemonic(word).ok_or(LineFault::Syntax)?;
    complete(&mut operands, mnemonic)
}
