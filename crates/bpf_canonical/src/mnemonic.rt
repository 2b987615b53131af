//! The first word of an instruction's text. Each table of words is written once, as a macro that is
//! read both ways.
ghost use Rattle.std.specs.Prelude.{◌≡◌, ◌≤◌, ◌+◌, ◌++◌, IfSome, Some, length};
ghost use Rattle.std.specs.Map.{lookup};
ghost use Rattle.std.specs.Str.{bytes_eq};
ghost use Rattle.bpf_types.specs.declared.line.Width.{Width};
ghost use Rattle.bpf_canonical.specs.declared.mnemonic.Mnemonic.{Mnemonic};
ghost use Rattle.bpf_canonical.specs.declared.mnemonic.Stem.{Stem};
ghost use Rattle.bpf_canonical.specs.Mnemonics.{mnemonic_name, stem_name, width_name};
ghost use Rattle.bpf_canonical.specs.Mnemonics as mnemonics;
ghost use Rattle.bpf_canonical.specs.Mirror.Words.{IsPlain};

use crate::text::Text;
use bpf_types::{Comparison, Line, Operation, Order, SignedSize, Size, Width};

/// What the first word of an instruction's text means: `canonical` begins with it.
#[derive(Clone, Copy)]
pub enum Mnemonic {
    /// A word that ends in its class: `add32`, .. `jsle64`.
    Classed(Stem, Width),
    /// `le`, `be`, `swap`.
    ByteOrder(Order),
    /// `lddw`.
    LoadWide,
    /// `ldxw`, `ldxh`, `ldxb`, `ldxdw`.
    Load(Size),
    /// `ldxsw`, `ldxsh`, `ldxsb`.
    LoadExtended(SignedSize),
    /// `stxw`, `stxh`, `stxb`, `stxdw`.
    Store(Size),
    /// `stw`, `sth`, `stb`, `stdw`.
    StoreImmediate(Size),
    /// `ja`.
    Jump,
    /// `ja32`.
    LongJump,
    /// `call`, of the engine or local.
    Call,
    /// `exit`.
    Exit,
}

/// A mnemonic without the class that it ends in.
#[derive(Clone, Copy)]
pub enum Stem {
    /// `add`, .. `arsh`, of two operands.
    Arithmetic(Operation),
    /// `neg`.
    Negate,
    /// `movsx`.
    MoveExtended,
    /// `jeq`, .. `jsle`.
    JumpIf(Comparison),
}

/// The words of the classes.
macro_rules! widths {
    ($way:ident $value:tt) => {
        $way!($value, Width: { W32 b"32", W64 b"64" })
    };
}

/// The words that a class follows.
macro_rules! stems {
    ($way:ident $value:tt) => {
        $way!($value, Stem:
            Arithmetic(Operation) {
                Add b"add", Sub b"sub", Mul b"mul", Div b"div", SignedDiv b"sdiv", Or b"or",
                And b"and", Lsh b"lsh", Rsh b"rsh", Mod b"mod", SignedMod b"smod", Xor b"xor",
                Mov b"mov", Arsh b"arsh"
            }
            { Negate b"neg", MoveExtended b"movsx" }
            JumpIf(Comparison) {
                Equal b"jeq", Greater b"jgt", GreaterOrEqual b"jge", Set b"jset",
                NotEqual b"jne", SignedGreater b"jsgt", SignedGreaterOrEqual b"jsge",
                Less b"jlt", LessOrEqual b"jle", SignedLess b"jslt", SignedLessOrEqual b"jsle"
            })
    };
}

/// The mnemonics that have no class.
macro_rules! plain {
    ($way:ident $value:tt) => {
        $way!($value, Mnemonic:
            ByteOrder(Order) { Little b"le", Big b"be", Swap b"swap" }
            { LoadWide b"lddw", Jump b"ja", LongJump b"ja32", Call b"call", Exit b"exit" }
            Load(Size) { Word b"ldxw", Half b"ldxh", Byte b"ldxb", Double b"ldxdw" }
            LoadExtended(SignedSize) { Word b"ldxsw", Half b"ldxsh", Byte b"ldxsb" }
            Store(Size) { Word b"stxw", Half b"stxh", Byte b"stxb", Double b"stxdw" }
            StoreImmediate(Size) { Word b"stw", Half b"sth", Byte b"stb", Double b"stdw" })
    };
}

/// The rows of a table of words, each with its meaning.
macro_rules! rows {
    ((), $of:ident: $($first:ident($its:ident) { $($name:ident $known:literal),* })*
        { $($alone:ident $word:literal),* }
        $($kind:ident($part:ident) { $($inner:ident $text:literal),* })*) => {
        [
            $($(($known, $of::$first($its::$name)),)*)*
            $(($word, $of::$alone),)*
            $($(($text, $of::$kind($part::$inner)),)*)*
        ]
    };
}

/// From the meaning of a word to the word. Other meanings have the arms after the value.
macro_rules! word {
    (($value:ident $($arms:tt)*), $of:ident:
        $($first:ident($its:ident) { $($name:ident $known:literal),* })*
        { $($alone:ident $word:literal),* }
        $($kind:ident($part:ident) { $($inner:ident $text:literal),* })*) => {
        match $value {
            $($($of::$first($its::$name) => $known,)*)*
            $($of::$alone => $word,)*
            $($($of::$kind($part::$inner) => $text,)*)*
            $($arms)*
        }
    };
}

/// The classes.
static WIDTHS: [(&[u8], Width); 2] = widths!(rows());

/// The stems.
static STEMS: [(&[u8], Stem); 27] = stems!(rows());

/// The mnemonics that have no class.
static PLAIN: [(&[u8], Mnemonic); 23] = plain!(rows());

impl<const ROOM: usize> Text<ROOM> {
    /// Appends a word. Most words have three or four octets; these are copied without a call.
    #[inline(always)]
    fn push_word(&mut self, word: &[u8])
        requires { length self.old + length word.now ≤ ROOM }
        ensures items { self.new ≡ self.old ++ word.now }
        ensures len { length self.new ≡ length self.old + length word.now }
    {
        match word.len() {
            3 => self.push_all(&word[..3]),
            4 => self.push_all(&word[..4]),
            _ => self.push_all(word),
        }
    }

    /// Appends the word of a stem, and the class that it ends in.
    fn push_classed(&mut self, stem: Stem, width: Width)
        requires { length self.old + 7 ≤ ROOM }
        ensures items { self.new ≡ self.old ++ (stem_name stem ++ width_name width) }
        ensures len { length self.new ≤ length self.old + 7 }
    {
        self.push_word(word_of_stem(stem));
        self.push_all(word_of_width(width));
    }

    /// Appends a mnemonic.
    pub(crate) fn push_mnemonic(&mut self, mnemonic: Mnemonic)
        requires { length self.old + 7 ≤ ROOM }
        ensures items { self.new ≡ self.old ++ mnemonic_name mnemonic }
        ensures len { length self.new ≤ length self.old + 7 }
    {
        match mnemonic {
            Mnemonic::Classed(stem, width) => self.push_classed(stem, width),
            _ => self.push_word(word_of_plain(mnemonic)),
        }
    }
}

/// The word of a stem.
#[inline(always)]
fn word_of_stem(stem: Stem) -> &'static [u8]
    ensures word { result.now ≡ stem_name stem }
    ensures len { length result.now ≤ 5 }
{
    stems!(word(stem))
}

/// The word of a class.
#[inline(always)]
fn word_of_width(width: Width) -> &'static [u8]
    ensures word { result.now ≡ width_name width }
    ensures len { length result.now ≡ 2 }
{
    widths!(word(width))
}

/// The word of a mnemonic that has no class.
fn word_of_plain(mnemonic: Mnemonic) -> &'static [u8]
    requires { IsPlain mnemonic }
    ensures word { result.now ≡ mnemonic_name mnemonic }
    ensures len { length result.now ≤ 5 }
{
    plain!(word(mnemonic Mnemonic::Classed(..) => unreachable!()))
}

/// The meaning of this word: that of its first row, if there are several.
fn meaning_of<M: Copy>(word: &[u8], rows: &[(&'static [u8], M)]) -> Option<M>
    ensures { result ≡ lookup (λ known. bytes_eq known.now word.now) rows.now }
{
    for (known, meaning) in rows {
        if *known == word {
            return Some(*meaning);
        }
    }
    None
}

/// The stem and the class that are this text.
fn stem_and_width(word: &[u8]) -> Option<(Stem, Width)>
    ensures some { IfSome result (λ p. word.now ≡ stem_name p.0 ++ width_name p.1) }
    ensures only { (s : Stem) (w : Width) → word.now ≡ stem_name s ++ width_name w →
        result ≡ Some (s, w) }
{
    let (stem, width) = word.split_at(word.len().saturating_sub(2));
    let width = meaning_of(width, &WIDTHS)?;
    Some((meaning_of(stem, &STEMS)?, width))
}

/// The mnemonic of an instruction.
pub fn mnemonic_of(line: &Line) -> Mnemonic
    ensures { result ≡ mnemonics.mnemonic_of line.now }
{
    match *line {
        Line::Arithmetic {
            width,
            operation,
            ..
        } => Mnemonic::Classed(Stem::Arithmetic(operation), width),
        Line::Negate { width, .. } => Mnemonic::Classed(Stem::Negate, width),
        Line::MoveExtended { extension, .. } => {
            Mnemonic::Classed(Stem::MoveExtended, extension.width())
        }
        Line::ByteOrder { order, .. } => Mnemonic::ByteOrder(order),
        Line::LoadWide { .. } => Mnemonic::LoadWide,
        Line::Load { size, .. } => Mnemonic::Load(size),
        Line::LoadExtended { size, .. } => Mnemonic::LoadExtended(size),
        Line::Store { size, .. } => Mnemonic::Store(size),
        Line::StoreImmediate { size, .. } => Mnemonic::StoreImmediate(size),
        Line::JumpIf {
            width,
            comparison,
            ..
        } => Mnemonic::Classed(Stem::JumpIf(comparison), width),
        Line::Jump { .. } => Mnemonic::Jump,
        Line::LongJump { .. } => Mnemonic::LongJump,
        Line::Call { .. } | Line::CallLocal { .. } => Mnemonic::Call,
        Line::Exit => Mnemonic::Exit,
    }
}

/// The mnemonic that is this text, or `None` if the text is no mnemonic.
pub fn read_mnemonic(word: &[u8]) -> Option<Mnemonic>
    ensures some { IfSome result (λ m. word.now ≡ mnemonic_name m) }
    ensures only { (m : Mnemonic) → word.now ≡ mnemonic_name m → result ≡ Some m }
{
    match stem_and_width(word) {
        Some((stem, width)) => Some(Mnemonic::Classed(stem, width)),
        None => meaning_of(word, &PLAIN),
    }
}
