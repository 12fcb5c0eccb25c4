//! The kind of instruction that each opcode selects, as a table.
ghost use Rattle.std.specs.Prelude.{◌≡◌};
ghost use Rattle.codec.specs.Form.{form_of, IsOpcode};

use insn::Size;
use word::{ByteOrder, Condition, Narrow, Operation, Width};

/// A division. The `offset` field says whether it is signed (RFC 9669, section 4.1).
#[derive(Clone, Copy)]
pub enum Division {
    Quotient,
    Remainder,
}

/// The kind of instruction that an opcode selects.
#[derive(Clone, Copy)]
pub enum Form {
    Immediate(Width, Operation),
    Register(Width, Operation),
    DivideImmediate(Width, Division),
    DivideRegister(Width, Division),
    /// A plain move or one with sign extension, as the `offset` field says.
    MoveRegister(Width),
    Negate(Width),
    Swap(ByteOrder),
    LoadImmediate,
    Jump,
    LongJump,
    BranchImmediate(Width, Condition),
    BranchRegister(Width, Condition),
    Load(Size),
    LoadSigned(Narrow),
    StoreImmediate(Size),
    StoreRegister(Size),
    Call,
    Exit,
    /// An instruction that is in RFC 9669, but is not supported.
    LeftOut,
    Unknown,
}

/// The kind of instruction for each opcode. The low three bits of an opcode are its class. In arithmetic instructions
/// and jumps, the next bit says whether the operand is a register, and the high four bits are the operation or
/// condition (RFC 9669, section 3.3).
static FORMS: [Form; 256] = [
    Form::Unknown, // 0x00
    Form::Unknown, // 0x01
    Form::Unknown, // 0x02
    Form::Unknown, // 0x03
    Form::Immediate(Width::W32, Operation::Add), // 0x04
    Form::Jump, // 0x05
    Form::LongJump, // 0x06
    Form::Immediate(Width::W64, Operation::Add), // 0x07
    Form::Unknown, // 0x08
    Form::Unknown, // 0x09
    Form::Unknown, // 0x0a
    Form::Unknown, // 0x0b
    Form::Register(Width::W32, Operation::Add), // 0x0c
    Form::Unknown, // 0x0d
    Form::Unknown, // 0x0e
    Form::Register(Width::W64, Operation::Add), // 0x0f
    Form::Unknown, // 0x10
    Form::Unknown, // 0x11
    Form::Unknown, // 0x12
    Form::Unknown, // 0x13
    Form::Immediate(Width::W32, Operation::Sub), // 0x14
    Form::BranchImmediate(Width::W64, Condition::Equal), // 0x15
    Form::BranchImmediate(Width::W32, Condition::Equal), // 0x16
    Form::Immediate(Width::W64, Operation::Sub), // 0x17
    Form::LoadImmediate, // 0x18
    Form::Unknown, // 0x19
    Form::Unknown, // 0x1a
    Form::Unknown, // 0x1b
    Form::Register(Width::W32, Operation::Sub), // 0x1c
    Form::BranchRegister(Width::W64, Condition::Equal), // 0x1d
    Form::BranchRegister(Width::W32, Condition::Equal), // 0x1e
    Form::Register(Width::W64, Operation::Sub), // 0x1f
    Form::LeftOut, // 0x20
    Form::Unknown, // 0x21
    Form::Unknown, // 0x22
    Form::Unknown, // 0x23
    Form::Immediate(Width::W32, Operation::Mul), // 0x24
    Form::BranchImmediate(Width::W64, Condition::Above), // 0x25
    Form::BranchImmediate(Width::W32, Condition::Above), // 0x26
    Form::Immediate(Width::W64, Operation::Mul), // 0x27
    Form::LeftOut, // 0x28
    Form::Unknown, // 0x29
    Form::Unknown, // 0x2a
    Form::Unknown, // 0x2b
    Form::Register(Width::W32, Operation::Mul), // 0x2c
    Form::BranchRegister(Width::W64, Condition::Above), // 0x2d
    Form::BranchRegister(Width::W32, Condition::Above), // 0x2e
    Form::Register(Width::W64, Operation::Mul), // 0x2f
    Form::LeftOut, // 0x30
    Form::Unknown, // 0x31
    Form::Unknown, // 0x32
    Form::Unknown, // 0x33
    Form::DivideImmediate(Width::W32, Division::Quotient), // 0x34
    Form::BranchImmediate(Width::W64, Condition::AtLeast), // 0x35
    Form::BranchImmediate(Width::W32, Condition::AtLeast), // 0x36
    Form::DivideImmediate(Width::W64, Division::Quotient), // 0x37
    Form::Unknown, // 0x38
    Form::Unknown, // 0x39
    Form::Unknown, // 0x3a
    Form::Unknown, // 0x3b
    Form::DivideRegister(Width::W32, Division::Quotient), // 0x3c
    Form::BranchRegister(Width::W64, Condition::AtLeast), // 0x3d
    Form::BranchRegister(Width::W32, Condition::AtLeast), // 0x3e
    Form::DivideRegister(Width::W64, Division::Quotient), // 0x3f
    Form::LeftOut, // 0x40
    Form::Unknown, // 0x41
    Form::Unknown, // 0x42
    Form::Unknown, // 0x43
    Form::Immediate(Width::W32, Operation::Or), // 0x44
    Form::BranchImmediate(Width::W64, Condition::AnyBit), // 0x45
    Form::BranchImmediate(Width::W32, Condition::AnyBit), // 0x46
    Form::Immediate(Width::W64, Operation::Or), // 0x47
    Form::LeftOut, // 0x48
    Form::Unknown, // 0x49
    Form::Unknown, // 0x4a
    Form::Unknown, // 0x4b
    Form::Register(Width::W32, Operation::Or), // 0x4c
    Form::BranchRegister(Width::W64, Condition::AnyBit), // 0x4d
    Form::BranchRegister(Width::W32, Condition::AnyBit), // 0x4e
    Form::Register(Width::W64, Operation::Or), // 0x4f
    Form::LeftOut, // 0x50
    Form::Unknown, // 0x51
    Form::Unknown, // 0x52
    Form::Unknown, // 0x53
    Form::Immediate(Width::W32, Operation::And), // 0x54
    Form::BranchImmediate(Width::W64, Condition::NotEqual), // 0x55
    Form::BranchImmediate(Width::W32, Condition::NotEqual), // 0x56
    Form::Immediate(Width::W64, Operation::And), // 0x57
    Form::Unknown, // 0x58
    Form::Unknown, // 0x59
    Form::Unknown, // 0x5a
    Form::Unknown, // 0x5b
    Form::Register(Width::W32, Operation::And), // 0x5c
    Form::BranchRegister(Width::W64, Condition::NotEqual), // 0x5d
    Form::BranchRegister(Width::W32, Condition::NotEqual), // 0x5e
    Form::Register(Width::W64, Operation::And), // 0x5f
    Form::Unknown, // 0x60
    Form::Load(Size::Word), // 0x61
    Form::StoreImmediate(Size::Word), // 0x62
    Form::StoreRegister(Size::Word), // 0x63
    Form::Immediate(Width::W32, Operation::ShiftLeft), // 0x64
    Form::BranchImmediate(Width::W64, Condition::SignedAbove), // 0x65
    Form::BranchImmediate(Width::W32, Condition::SignedAbove), // 0x66
    Form::Immediate(Width::W64, Operation::ShiftLeft), // 0x67
    Form::Unknown, // 0x68
    Form::Load(Size::Half), // 0x69
    Form::StoreImmediate(Size::Half), // 0x6a
    Form::StoreRegister(Size::Half), // 0x6b
    Form::Register(Width::W32, Operation::ShiftLeft), // 0x6c
    Form::BranchRegister(Width::W64, Condition::SignedAbove), // 0x6d
    Form::BranchRegister(Width::W32, Condition::SignedAbove), // 0x6e
    Form::Register(Width::W64, Operation::ShiftLeft), // 0x6f
    Form::Unknown, // 0x70
    Form::Load(Size::Byte), // 0x71
    Form::StoreImmediate(Size::Byte), // 0x72
    Form::StoreRegister(Size::Byte), // 0x73
    Form::Immediate(Width::W32, Operation::ShiftRight), // 0x74
    Form::BranchImmediate(Width::W64, Condition::SignedAtLeast), // 0x75
    Form::BranchImmediate(Width::W32, Condition::SignedAtLeast), // 0x76
    Form::Immediate(Width::W64, Operation::ShiftRight), // 0x77
    Form::Unknown, // 0x78
    Form::Load(Size::Double), // 0x79
    Form::StoreImmediate(Size::Double), // 0x7a
    Form::StoreRegister(Size::Double), // 0x7b
    Form::Register(Width::W32, Operation::ShiftRight), // 0x7c
    Form::BranchRegister(Width::W64, Condition::SignedAtLeast), // 0x7d
    Form::BranchRegister(Width::W32, Condition::SignedAtLeast), // 0x7e
    Form::Register(Width::W64, Operation::ShiftRight), // 0x7f
    Form::Unknown, // 0x80
    Form::LoadSigned(Narrow::Word), // 0x81
    Form::Unknown, // 0x82
    Form::Unknown, // 0x83
    Form::Negate(Width::W32), // 0x84
    Form::Call, // 0x85
    Form::Unknown, // 0x86
    Form::Negate(Width::W64), // 0x87
    Form::Unknown, // 0x88
    Form::LoadSigned(Narrow::Half), // 0x89
    Form::Unknown, // 0x8a
    Form::Unknown, // 0x8b
    Form::Unknown, // 0x8c
    Form::Unknown, // 0x8d
    Form::Unknown, // 0x8e
    Form::Unknown, // 0x8f
    Form::Unknown, // 0x90
    Form::LoadSigned(Narrow::Byte), // 0x91
    Form::Unknown, // 0x92
    Form::Unknown, // 0x93
    Form::DivideImmediate(Width::W32, Division::Remainder), // 0x94
    Form::Exit, // 0x95
    Form::Unknown, // 0x96
    Form::DivideImmediate(Width::W64, Division::Remainder), // 0x97
    Form::Unknown, // 0x98
    Form::Unknown, // 0x99
    Form::Unknown, // 0x9a
    Form::Unknown, // 0x9b
    Form::DivideRegister(Width::W32, Division::Remainder), // 0x9c
    Form::Unknown, // 0x9d
    Form::Unknown, // 0x9e
    Form::DivideRegister(Width::W64, Division::Remainder), // 0x9f
    Form::Unknown, // 0xa0
    Form::Unknown, // 0xa1
    Form::Unknown, // 0xa2
    Form::Unknown, // 0xa3
    Form::Immediate(Width::W32, Operation::Xor), // 0xa4
    Form::BranchImmediate(Width::W64, Condition::Below), // 0xa5
    Form::BranchImmediate(Width::W32, Condition::Below), // 0xa6
    Form::Immediate(Width::W64, Operation::Xor), // 0xa7
    Form::Unknown, // 0xa8
    Form::Unknown, // 0xa9
    Form::Unknown, // 0xaa
    Form::Unknown, // 0xab
    Form::Register(Width::W32, Operation::Xor), // 0xac
    Form::BranchRegister(Width::W64, Condition::Below), // 0xad
    Form::BranchRegister(Width::W32, Condition::Below), // 0xae
    Form::Register(Width::W64, Operation::Xor), // 0xaf
    Form::Unknown, // 0xb0
    Form::Unknown, // 0xb1
    Form::Unknown, // 0xb2
    Form::Unknown, // 0xb3
    Form::Immediate(Width::W32, Operation::Move), // 0xb4
    Form::BranchImmediate(Width::W64, Condition::AtMost), // 0xb5
    Form::BranchImmediate(Width::W32, Condition::AtMost), // 0xb6
    Form::Immediate(Width::W64, Operation::Move), // 0xb7
    Form::Unknown, // 0xb8
    Form::Unknown, // 0xb9
    Form::Unknown, // 0xba
    Form::Unknown, // 0xbb
    Form::MoveRegister(Width::W32), // 0xbc
    Form::BranchRegister(Width::W64, Condition::AtMost), // 0xbd
    Form::BranchRegister(Width::W32, Condition::AtMost), // 0xbe
    Form::MoveRegister(Width::W64), // 0xbf
    Form::Unknown, // 0xc0
    Form::Unknown, // 0xc1
    Form::Unknown, // 0xc2
    Form::LeftOut, // 0xc3
    Form::Immediate(Width::W32, Operation::ArithmeticShiftRight), // 0xc4
    Form::BranchImmediate(Width::W64, Condition::SignedBelow), // 0xc5
    Form::BranchImmediate(Width::W32, Condition::SignedBelow), // 0xc6
    Form::Immediate(Width::W64, Operation::ArithmeticShiftRight), // 0xc7
    Form::Unknown, // 0xc8
    Form::Unknown, // 0xc9
    Form::Unknown, // 0xca
    Form::Unknown, // 0xcb
    Form::Register(Width::W32, Operation::ArithmeticShiftRight), // 0xcc
    Form::BranchRegister(Width::W64, Condition::SignedBelow), // 0xcd
    Form::BranchRegister(Width::W32, Condition::SignedBelow), // 0xce
    Form::Register(Width::W64, Operation::ArithmeticShiftRight), // 0xcf
    Form::Unknown, // 0xd0
    Form::Unknown, // 0xd1
    Form::Unknown, // 0xd2
    Form::Unknown, // 0xd3
    Form::Swap(ByteOrder::Little), // 0xd4
    Form::BranchImmediate(Width::W64, Condition::SignedAtMost), // 0xd5
    Form::BranchImmediate(Width::W32, Condition::SignedAtMost), // 0xd6
    Form::Swap(ByteOrder::Reversed), // 0xd7
    Form::Unknown, // 0xd8
    Form::Unknown, // 0xd9
    Form::Unknown, // 0xda
    Form::LeftOut, // 0xdb
    Form::Swap(ByteOrder::Big), // 0xdc
    Form::BranchRegister(Width::W64, Condition::SignedAtMost), // 0xdd
    Form::BranchRegister(Width::W32, Condition::SignedAtMost), // 0xde
    Form::Unknown, // 0xdf
    Form::Unknown, // 0xe0
    Form::Unknown, // 0xe1
    Form::Unknown, // 0xe2
    Form::Unknown, // 0xe3
    Form::Unknown, // 0xe4
    Form::Unknown, // 0xe5
    Form::Unknown, // 0xe6
    Form::Unknown, // 0xe7
    Form::Unknown, // 0xe8
    Form::Unknown, // 0xe9
    Form::Unknown, // 0xea
    Form::Unknown, // 0xeb
    Form::Unknown, // 0xec
    Form::Unknown, // 0xed
    Form::Unknown, // 0xee
    Form::Unknown, // 0xef
    Form::Unknown, // 0xf0
    Form::Unknown, // 0xf1
    Form::Unknown, // 0xf2
    Form::Unknown, // 0xf3
    Form::Unknown, // 0xf4
    Form::Unknown, // 0xf5
    Form::Unknown, // 0xf6
    Form::Unknown, // 0xf7
    Form::Unknown, // 0xf8
    Form::Unknown, // 0xf9
    Form::Unknown, // 0xfa
    Form::Unknown, // 0xfb
    Form::Unknown, // 0xfc
    Form::Unknown, // 0xfd
    Form::Unknown, // 0xfe
    Form::Unknown, // 0xff
];

/// Returns the kind of instruction that this opcode selects.
#[inline(always)]
pub fn form_at(opcode: u8) -> &'static Form
    ensures form { result.now ≡ form_of opcode }
    ensures opcode { IsOpcode result.now opcode }
{
    &FORMS[opcode as usize]
}
