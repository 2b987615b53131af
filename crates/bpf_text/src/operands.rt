//! A cursor over the operands of an instruction.
ghost use Rattle.std.specs.Prelude.{◌≡◌, ◌≢◌, ◌<◌, ◌^◌, ◌∷◌, List, ℕ, IfSome, IfNone, FitsSigned};
ghost use Rattle.std.specs.Int.{w16, w32};
ghost use Rattle.bpf_types.specs.Line.{IsReg, IsOperand, swap_width_bits};
ghost use Rattle.bpf_text.specs.Number.{IsNumeral};
ghost use Rattle.bpf_text.specs.Fields.{IsRegister, IsImmediate, IsSecond, IsTarget};
ghost use Rattle.bpf_text.specs.Judged.{texts, target_of};
ghost use Rattle.bpf_text.specs.Mirror.Gives.{bits_in, IsWidth, HasExtension, HasSwapWidth};
ghost use Rattle.bpf_text.specs.Grammar.{Token, ◌⸴◌, Bracket, Memory};
ghost use Rattle.bpf_text.specs.Mirror.Reads.{state, Reads, Takes, Notes};

use crate::fields;
use crate::line::LineFault;
use crate::number::numeral;
use bpf_types::{Extension, Operand, Reg, SwapWidth, Width};

/// The tokens that are left, and whether a number before them was out of its range. A method that
/// reads an operand answers `None` if the tokens do not have its form. For a number out of its
/// range it answers another one, so that Syntax is found before Range.
#[derive(Drop)]
pub(crate) struct Operands<'t, 'a> {
    pub rest: &'t [&'a [u8]],
    pub out_of_range: bool,
}

impl<'a> Operands<'_, 'a> {
    /// The next token.
    pub fn token(&mut self) -> Option<&'a [u8]>
        ensures { Takes (state self.old) result (state self.new) }
    {
        match self.rest {
            [token, rest @ ..] => {
                self.rest = rest;
                Some(*token)
            }
            [] => None,
        }
    }

    /// Passes over the word or the mark if it is the next token.
    pub fn expect(&mut self, word: &[u8]) -> Option<()>
        ensures some { IfSome result (λ u. (texts self.old.rest.now
            ≡ word.now ∷ texts self.new.rest.now)
            × (self.new.out_of_range ≡ self.old.out_of_range)) }
        ensures none { IfNone result ((rest : List (List ℕ)) →
            texts self.old.rest.now ≢ word.now ∷ rest) }
        ensures stays { IfNone result (state self.new ≡ state self.old) }
    {
        match self.rest {
            [token, rest @ ..] if *token == word => {
                self.rest = rest;
                Some(())
            }
            _ => None,
        }
    }

    /// What was read; or the other value if it is out of its range, which is noted.
    fn note<T: Copy>(&mut self, read: Result<T, LineFault>, other: T) -> Option<T>
        ensures range { Notes self.old.out_of_range read result self.new.out_of_range }
        ensures rest { texts self.new.rest.now ≡ texts self.old.rest.now }
    {
        match read {
            Ok(value) => Some(value),
            Err(LineFault::Syntax) => None,
            Err(LineFault::Range) => {
                self.out_of_range = true;
                Some(other)
            }
        }
    }

    pub fn register(&mut self) -> Option<Reg>
        ensures { Reads (λ n. n) (Token IsRegister) IsReg (state self.old) result (state self.new) }
    {
        fields::register(self.token()?)
    }

    /// A register or an immediate.
    pub fn second(&mut self) -> Option<Operand>
        ensures { Reads (λ o. o) (Token IsSecond) IsOperand
            (state self.old) result (state self.new) }
    {
        let second = fields::second(self.token()?);
        self.note(second, Operand::Immediate(0))
    }

    pub fn immediate(&mut self) -> Option<i32>
        ensures { Reads (λ z. z) (Token IsImmediate) (FitsSigned w32)
            (state self.old) result (state self.new) }
    {
        let immediate = fields::immediate(self.token()?);
        self.note(immediate, 0)
    }

    /// A number of 64 bits.
    pub fn number(&mut self) -> Option<u64>
        ensures { Reads (λ n. n) (Token IsNumeral) (λ n. n < 2 ^ 64)
            (state self.old) result (state self.new) }
    {
        let number = numeral(self.token()?);
        self.note(number, 0)
    }

    /// The width that a sign is extended from.
    pub fn extension(&mut self, width: Width) -> Option<Extension>
        ensures { Reads (bits_in width) (Token IsWidth) (HasExtension width)
            (state self.old) result (state self.new) }
    {
        let extension = fields::extension(width, self.token()?);
        self.note(extension, Extension::From8To32)
    }

    pub fn swap_width(&mut self) -> Option<SwapWidth>
        ensures { Reads swap_width_bits (Token IsNumeral) HasSwapWidth
            (state self.old) result (state self.new) }
    {
        let width = fields::swap_width(self.token()?);
        self.note(width, SwapWidth::Bits16)
    }

    /// A distance of 16 bits, or a label's name.
    pub fn short_target(&mut self) -> Option<(i16, Option<&'a [u8]>)>
        ensures { Reads target_of (Token IsTarget) (λ w. FitsSigned w16 w.0)
            (state self.old) result (state self.new) }
    {
        let target = fields::short_target(self.token()?);
        self.note(target, (0, None))
    }

    /// A distance of 32 bits, or a label's name.
    pub fn long_target(&mut self) -> Option<(i32, Option<&'a [u8]>)>
        ensures { Reads target_of (Token IsTarget) (λ w. FitsSigned w32 w.0)
            (state self.old) result (state self.new) }
    {
        let target = fields::long_target(self.token()?);
        self.note(target, (0, None))
    }

    /// The closing bracket, after an offset or none.
    fn offset(&mut self) -> Option<i16>
        ensures { Reads (λ z. z) Bracket (FitsSigned w16) (state self.old) result (state self.new) }
    {
        if self.expect(b"]").is_some() {
            return Some(0);
        }
        let distance = fields::short_distance(self.token()?);
        self.expect(b"]")?;
        self.note(distance, 0)
    }

    /// An operand in memory: a register in brackets, with an offset or none.
    pub fn memory(&mut self) -> Option<(Reg, i16)>
        ensures { Reads (λ p. (p.0, p.1)) Memory (λ w. IsReg w.0 × FitsSigned w16 w.1)
            (state self.old) result (state self.new) }
    {
        self.expect(b"[")?;
        let base = self.register()?;
        let offset = self.offset()?;
        Some((base, offset))
    }

    /// The operands of a load: a register, and an operand in memory.
    pub fn load(&mut self) -> Option<(Reg, (Reg, i16))>
        ensures { Reads (λ p. (p.0, (p.1.0, p.1.1))) (Token IsRegister ⸴ Memory)
            (λ w. IsReg w.0 × (IsReg w.1.0 × FitsSigned w16 w.1.1))
            (state self.old) result (state self.new) }
    {
        let dst = self.register()?;
        self.expect(b",")?;
        let (base, offset) = self.memory()?;
        Some((dst, (base, offset)))
    }
}
