//! The table of mnemonics, such as `add` and `jeq.w`, and the search for one.

ghost use Rattle.std.specs.Prelude.{◌≡◌, ◌≤◌, ◌-◌, ◌∷◌, ℕ, List, take, drop};
ghost use Rattle.asm.specs.Table.{name_of, first_named, mnemonic_of, mnemonics};

use insn::Size;
use word::{ByteOrder, Condition, Narrow, Operation, SwapSize, Width};

/// A mnemonic, the word with which an instruction begins.
#[derive(Clone, Copy)]
pub enum Mnemonic {
    Arithmetic(Width, Operation),
    Negate(Width),
    SignExtend(Width, Narrow),
    Swap(ByteOrder, SwapSize),
    LoadImmediate,
    Jump,
    LongJump,
    Branch(Width, Condition),
    Load(Size),
    LoadSigned(Narrow),
    StoreRegister(Size),
    StoreNumber(Size),
    Call,
    Exit,
}

/// All mnemonics. Those with the same first letter are adjacent.
static MNEMONICS: [Mnemonic; 86] = [
    Mnemonic::Arithmetic(Width::W64, Operation::Add),
    Mnemonic::Arithmetic(Width::W32, Operation::Add),
    Mnemonic::Arithmetic(Width::W64, Operation::And),
    Mnemonic::Arithmetic(Width::W32, Operation::And),
    Mnemonic::Arithmetic(Width::W64, Operation::ArithmeticShiftRight),
    Mnemonic::Arithmetic(Width::W32, Operation::ArithmeticShiftRight),
    Mnemonic::Swap(ByteOrder::Big, SwapSize::Half),
    Mnemonic::Swap(ByteOrder::Big, SwapSize::Word),
    Mnemonic::Swap(ByteOrder::Big, SwapSize::Double),
    Mnemonic::Call,
    Mnemonic::Arithmetic(Width::W64, Operation::Div),
    Mnemonic::Arithmetic(Width::W32, Operation::Div),
    Mnemonic::Exit,
    Mnemonic::Jump,
    Mnemonic::LongJump,
    Mnemonic::Branch(Width::W64, Condition::Equal),
    Mnemonic::Branch(Width::W32, Condition::Equal),
    Mnemonic::Branch(Width::W64, Condition::Above),
    Mnemonic::Branch(Width::W32, Condition::Above),
    Mnemonic::Branch(Width::W64, Condition::AtLeast),
    Mnemonic::Branch(Width::W32, Condition::AtLeast),
    Mnemonic::Branch(Width::W64, Condition::AnyBit),
    Mnemonic::Branch(Width::W32, Condition::AnyBit),
    Mnemonic::Branch(Width::W64, Condition::NotEqual),
    Mnemonic::Branch(Width::W32, Condition::NotEqual),
    Mnemonic::Branch(Width::W64, Condition::SignedAbove),
    Mnemonic::Branch(Width::W32, Condition::SignedAbove),
    Mnemonic::Branch(Width::W64, Condition::SignedAtLeast),
    Mnemonic::Branch(Width::W32, Condition::SignedAtLeast),
    Mnemonic::Branch(Width::W64, Condition::Below),
    Mnemonic::Branch(Width::W32, Condition::Below),
    Mnemonic::Branch(Width::W64, Condition::AtMost),
    Mnemonic::Branch(Width::W32, Condition::AtMost),
    Mnemonic::Branch(Width::W64, Condition::SignedBelow),
    Mnemonic::Branch(Width::W32, Condition::SignedBelow),
    Mnemonic::Branch(Width::W64, Condition::SignedAtMost),
    Mnemonic::Branch(Width::W32, Condition::SignedAtMost),
    Mnemonic::Swap(ByteOrder::Little, SwapSize::Half),
    Mnemonic::Swap(ByteOrder::Little, SwapSize::Word),
    Mnemonic::Swap(ByteOrder::Little, SwapSize::Double),
    Mnemonic::Arithmetic(Width::W64, Operation::ShiftLeft),
    Mnemonic::Arithmetic(Width::W32, Operation::ShiftLeft),
    Mnemonic::Load(Size::Byte),
    Mnemonic::Load(Size::Half),
    Mnemonic::Load(Size::Word),
    Mnemonic::Load(Size::Double),
    Mnemonic::LoadSigned(Narrow::Byte),
    Mnemonic::LoadSigned(Narrow::Half),
    Mnemonic::LoadSigned(Narrow::Word),
    Mnemonic::LoadImmediate,
    Mnemonic::Arithmetic(Width::W64, Operation::Move),
    Mnemonic::Arithmetic(Width::W32, Operation::Move),
    Mnemonic::Arithmetic(Width::W64, Operation::Mul),
    Mnemonic::Arithmetic(Width::W32, Operation::Mul),
    Mnemonic::Arithmetic(Width::W64, Operation::Mod),
    Mnemonic::Arithmetic(Width::W32, Operation::Mod),
    Mnemonic::SignExtend(Width::W64, Narrow::Byte),
    Mnemonic::SignExtend(Width::W32, Narrow::Byte),
    Mnemonic::SignExtend(Width::W64, Narrow::Half),
    Mnemonic::SignExtend(Width::W32, Narrow::Half),
    Mnemonic::SignExtend(Width::W64, Narrow::Word),
    Mnemonic::Negate(Width::W64),
    Mnemonic::Negate(Width::W32),
    Mnemonic::Arithmetic(Width::W64, Operation::Or),
    Mnemonic::Arithmetic(Width::W32, Operation::Or),
    Mnemonic::Arithmetic(Width::W64, Operation::ShiftRight),
    Mnemonic::Arithmetic(Width::W32, Operation::ShiftRight),
    Mnemonic::Arithmetic(Width::W64, Operation::Sub),
    Mnemonic::Arithmetic(Width::W32, Operation::Sub),
    Mnemonic::StoreRegister(Size::Byte),
    Mnemonic::StoreRegister(Size::Half),
    Mnemonic::StoreRegister(Size::Word),
    Mnemonic::StoreRegister(Size::Double),
    Mnemonic::StoreNumber(Size::Byte),
    Mnemonic::StoreNumber(Size::Half),
    Mnemonic::StoreNumber(Size::Word),
    Mnemonic::StoreNumber(Size::Double),
    Mnemonic::Arithmetic(Width::W64, Operation::SignedDiv),
    Mnemonic::Arithmetic(Width::W32, Operation::SignedDiv),
    Mnemonic::Arithmetic(Width::W64, Operation::SignedMod),
    Mnemonic::Arithmetic(Width::W32, Operation::SignedMod),
    Mnemonic::Swap(ByteOrder::Reversed, SwapSize::Half),
    Mnemonic::Swap(ByteOrder::Reversed, SwapSize::Word),
    Mnemonic::Swap(ByteOrder::Reversed, SwapSize::Double),
    Mnemonic::Arithmetic(Width::W64, Operation::Xor),
    Mnemonic::Arithmetic(Width::W32, Operation::Xor),
];

/// Returns a mnemonic as text, such as `add`.
pub fn name(mnemonic: Mnemonic) -> &'static str
    ensures { result.now ≡ name_of mnemonic }
{
    match mnemonic {
        Mnemonic::Arithmetic(width, operation) => arithmetic_name(width, operation),
        Mnemonic::SignExtend(width, part) => sign_extend_name(width, part),
        Mnemonic::Swap(order, size) => swap_name(order, size),
        Mnemonic::Branch(width, condition) => branch_name(width, condition),
        Mnemonic::Call => "call",
        Mnemonic::Exit => "exit",
        Mnemonic::Jump => "ja",
        Mnemonic::LongJump => "ja.w",
        Mnemonic::Load(Size::Byte) => "ldb",
        Mnemonic::Load(Size::Half) => "ldh",
        Mnemonic::Load(Size::Word) => "ldw",
        Mnemonic::Load(Size::Double) => "ldd",
        Mnemonic::LoadSigned(Narrow::Byte) => "ldsb",
        Mnemonic::LoadSigned(Narrow::Half) => "ldsh",
        Mnemonic::LoadSigned(Narrow::Word) => "ldsw",
        Mnemonic::LoadImmediate => "lddw",
        Mnemonic::Negate(Width::W64) => "neg",
        Mnemonic::Negate(Width::W32) => "neg.w",
        Mnemonic::StoreRegister(Size::Byte) => "stxb",
        Mnemonic::StoreRegister(Size::Half) => "stxh",
        Mnemonic::StoreRegister(Size::Word) => "stxw",
        Mnemonic::StoreRegister(Size::Double) => "stxd",
        Mnemonic::StoreNumber(Size::Byte) => "stb",
        Mnemonic::StoreNumber(Size::Half) => "sth",
        Mnemonic::StoreNumber(Size::Word) => "stw",
        Mnemonic::StoreNumber(Size::Double) => "std",
    }
}

/// Returns the mnemonic of an arithmetic operation as text, such as `add` for 64 bits and `add.w` for 32.
fn arithmetic_name(width: Width, operation: Operation) -> &'static str
    ensures { result.now ≡ name_of (Mnemonic.Arithmetic width operation) }
{
    match (width, operation) {
        (Width::W64, Operation::Add) => "add",
        (Width::W32, Operation::Add) => "add.w",
        (Width::W64, Operation::And) => "and",
        (Width::W32, Operation::And) => "and.w",
        (Width::W64, Operation::ArithmeticShiftRight) => "arsh",
        (Width::W32, Operation::ArithmeticShiftRight) => "arsh.w",
        (Width::W64, Operation::Div) => "div",
        (Width::W32, Operation::Div) => "div.w",
        (Width::W64, Operation::ShiftLeft) => "lsh",
        (Width::W32, Operation::ShiftLeft) => "lsh.w",
        (Width::W64, Operation::Move) => "mov",
        (Width::W32, Operation::Move) => "mov.w",
        (Width::W64, Operation::Mul) => "mul",
        (Width::W32, Operation::Mul) => "mul.w",
        (Width::W64, Operation::Mod) => "mod",
        (Width::W32, Operation::Mod) => "mod.w",
        (Width::W64, Operation::Or) => "or",
        (Width::W32, Operation::Or) => "or.w",
        (Width::W64, Operation::ShiftRight) => "rsh",
        (Width::W32, Operation::ShiftRight) => "rsh.w",
        (Width::W64, Operation::Sub) => "sub",
        (Width::W32, Operation::Sub) => "sub.w",
        (Width::W64, Operation::SignedDiv) => "sdiv",
        (Width::W32, Operation::SignedDiv) => "sdiv.w",
        (Width::W64, Operation::SignedMod) => "smod",
        (Width::W32, Operation::SignedMod) => "smod.w",
        (Width::W64, Operation::Xor) => "xor",
        (Width::W32, Operation::Xor) => "xor.w",
    }
}

/// Returns the mnemonic of a conditional jump as text, such as `jeq` for 64 bits and `jeq.w` for 32.
fn branch_name(width: Width, condition: Condition) -> &'static str
    ensures { result.now ≡ name_of (Mnemonic.Branch width condition) }
{
    match (width, condition) {
        (Width::W64, Condition::Equal) => "jeq",
        (Width::W32, Condition::Equal) => "jeq.w",
        (Width::W64, Condition::Above) => "jgt",
        (Width::W32, Condition::Above) => "jgt.w",
        (Width::W64, Condition::AtLeast) => "jge",
        (Width::W32, Condition::AtLeast) => "jge.w",
        (Width::W64, Condition::AnyBit) => "jset",
        (Width::W32, Condition::AnyBit) => "jset.w",
        (Width::W64, Condition::NotEqual) => "jne",
        (Width::W32, Condition::NotEqual) => "jne.w",
        (Width::W64, Condition::SignedAbove) => "jsgt",
        (Width::W32, Condition::SignedAbove) => "jsgt.w",
        (Width::W64, Condition::SignedAtLeast) => "jsge",
        (Width::W32, Condition::SignedAtLeast) => "jsge.w",
        (Width::W64, Condition::Below) => "jlt",
        (Width::W32, Condition::Below) => "jlt.w",
        (Width::W64, Condition::AtMost) => "jle",
        (Width::W32, Condition::AtMost) => "jle.w",
        (Width::W64, Condition::SignedBelow) => "jslt",
        (Width::W32, Condition::SignedBelow) => "jslt.w",
        (Width::W64, Condition::SignedAtMost) => "jsle",
        (Width::W32, Condition::SignedAtMost) => "jsle.w",
    }
}

/// Returns the mnemonic of a move with sign extension as text, such as `movsx8`.
fn sign_extend_name(width: Width, part: Narrow) -> &'static str
    ensures { result.now ≡ name_of (Mnemonic.SignExtend width part) }
{
    match (width, part) {
        (Width::W64, Narrow::Byte) => "movsx8",
        (Width::W32, Narrow::Byte) => "movsx8.w",
        (Width::W64, Narrow::Half) => "movsx16",
        (Width::W32, Narrow::Half) => "movsx16.w",
        (Width::W64, Narrow::Word) => "movsx32",
        (Width::W32, Narrow::Word) => "movsx32.w",
    }
}

/// Returns the mnemonic of a byte swap as text, such as `be16`.
fn swap_name(order: ByteOrder, size: SwapSize) -> &'static str
    ensures { result.now ≡ name_of (Mnemonic.Swap order size) }
{
    match (order, size) {
        (ByteOrder::Big, SwapSize::Half) => "be16",
        (ByteOrder::Big, SwapSize::Word) => "be32",
        (ByteOrder::Big, SwapSize::Double) => "be64",
        (ByteOrder::Little, SwapSize::Half) => "le16",
        (ByteOrder::Little, SwapSize::Word) => "le32",
        (ByteOrder::Little, SwapSize::Double) => "le64",
        (ByteOrder::Reversed, SwapSize::Half) => "swap16",
        (ByteOrder::Reversed, SwapSize::Word) => "swap32",
        (ByteOrder::Reversed, SwapSize::Double) => "swap64",
    }
}

/// Returns the first of these mnemonics whose text is `word`, or `None` if there is none.
fn search(all: &[Mnemonic], word: &[u8]) -> Option<Mnemonic>
    ensures { result ≡ first_named word.now all.now }
{
    for m in all {
        if name(*m).as_bytes() == word {
            return Some(*m);
        }
    }
    None
}

/// Returns the range of the table whose mnemonics begin with this letter, as its first index and the index after its
/// last. If there are none, returns the whole range.
fn bounds_by_letter(letter: u8) -> (usize, usize)
    ensures order { result.0 ≤ result.1 }
    ensures end { result.1 ≤ 86 }
    ensures found { (rest : List ℕ) →
        first_named (letter ∷ rest) (take (result.1 - result.0) (drop result.0 mnemonics)) ≡ mnemonic_of (letter ∷ rest) }
{
    match letter {
        b'a' => (0, 6),
        b'b' => (6, 9),
        b'c' => (9, 10),
        b'd' => (10, 12),
        b'e' => (12, 13),
        b'j' => (13, 37),
        b'l' => (37, 50),
        b'm' => (50, 61),
        b'n' => (61, 63),
        b'o' => (63, 65),
        b'r' => (65, 67),
        b's' => (67, 84),
        b'x' => (84, 86),
        _ => (0, 86),
    }
}

/// Returns a range of the table in which the mnemonic `word` must be, as its first index and the index after its last.
/// The range has the mnemonics that begin as `word` does or, if there are none, is the whole one.
fn bounds(word: &[u8]) -> (usize, usize)
    ensures order { result.0 ≤ result.1 }
    ensures end { result.1 ≤ 86 }
    ensures found { first_named word.now (take (result.1 - result.0) (drop result.0 mnemonics)) ≡ mnemonic_of word.now }
{
    match word {
        [b'j', b's', ..] => (21, 37),
        [b'l', b'd', ..] => (42, 50),
        [b's', b't', ..] => (69, 77),
        [letter, ..] => bounds_by_letter(*letter),
        [] => (0, 86),
    }
}

/// Returns the section of the table in which the mnemonic `word` must be, if the table has it.
fn section(word: &[u8]) -> &'static [Mnemonic]
    ensures { first_named word.now result.now ≡ mnemonic_of word.now }
{
    let (start, end) = bounds(word);
    &MNEMONICS[start..end]
}

/// Returns the mnemonic whose text is `word`, or `None` if there is none.
pub fn read_mnemonic(word: &[u8]) -> Option<Mnemonic>
    ensures { result ≡ mnemonic_of word.now }
{
    search(section(word), word)
}
