//! Reads relocations, and finds the first one that changes a function's code, and the first call of another function.
ghost use Rattle.std.specs.Prelude.{◌≡◌, ◌<◌, ◌≤◌, ◌+◌, ◌*◌, ◌/◌, ◌^◌, length};
ghost use Rattle.object.specs.First.{first_some};
ghost use Rattle.object.specs.Relocation.{named_at, relocation_fault, relocations_fault, is_call, call_fault};

use crate::fault::ObjectFault;
use crate::number::{byte_at, double_at, word_at};
use crate::section::SectionHeader;
use crate::symbol::Symbol;

/// A relocation: a place in a section that is to be changed, and the symbol that it refers to (Elf64_Rel, Elf64_Rela).
#[derive(Clone, Copy)]
pub struct Relocation {
    /// The byte index of the place in its section (r_offset).
    pub place: u64,
    /// The index of the symbol (the upper half of r_info).
    pub symbol: u32,
}

impl Relocation {
    ghost use Rattle.std.specs.Prelude.{◌≡◌, ◌<◌, ◌≤◌, ◌+◌, ◌*◌, ◌^◌};
    ghost use Rattle.object.specs.Relocation.{relocation_size, relocation_at, is_within};

    /// Returns the number of bytes of each relocation in a section: 16 or 24.
    pub fn size(section: SectionHeader) -> usize
        ensures { result ≡ relocation_size section }
    {
        if section.kind == 9 { 16 } else { 24 }
    }

    /// Returns the relocation with this index. Fields past the end of `relocations` are zero. `size` is the number of
    /// bytes of each relocation.
    pub fn read(relocations: &[u8], size: usize, index: usize) -> Relocation
        requires { size * index + 16 < 2 ^ 64 }
        ensures { result ≡ relocation_at size index relocations.now }
    {
        let place = size * index;
        Relocation {
            place: double_at(relocations, place),
            symbol: word_at(relocations, place + 12),
        }
    }

    /// Returns whether the relocation changes the code of `function`. It must be a relocation of the function's
    /// section.
    fn is_in(self, function: Symbol) -> bool
        ensures { result ≡ is_within self function }
    {
        function.value <= self.place && self.place - function.value < function.size
    }
}

/// Returns the fault of the 8-byte unit with this index in the entry's code, which refers to `symbol`: `Leaves` if the
/// symbol is in a section of code of the object, and otherwise `Names`.
fn fault_of(table: &[u8], symbol: Symbol, unit: usize) -> ObjectFault
    ensures { result ≡ named_at table.now symbol unit }
{
    if symbol.home(table).holds_code() {
        ObjectFault::Leaves(unit)
    } else {
        ObjectFault::Names(unit)
    }
}

/// Returns the fault of the relocation with this index if it changes the code of `function`, and otherwise `None`.
/// `size` is the number of bytes of each relocation.
fn fault_at(
    table: &[u8],
    symbols: &[u8],
    function: Symbol,
    size: usize,
    relocations: &[u8],
    index: usize,
) -> Option<ObjectFault>
    requires { size * index + 16 < 2 ^ 64 }
    ensures { result ≡ relocation_fault table.now symbols.now function size relocations.now index }
{
    let relocation = Relocation::read(relocations, size, index);
    if relocation.is_in(function) {
        let symbol = Symbol::read(symbols, relocation.symbol as usize);
        let unit = (relocation.place - function.value) / 8;
        Some(fault_of(table, symbol, unit as usize))
    } else {
        None
    }
}

/// Returns the fault of the first relocation in `relocations` that changes the code of `function`, or `None` if there
/// is no such relocation. `size` is the number of bytes of each relocation.
fn first_fault(
    table: &[u8],
    symbols: &[u8],
    function: Symbol,
    size: usize,
    relocations: &[u8],
) -> Option<ObjectFault>
    requires { 16 ≤ size }
    ensures { result ≡ first_some (relocation_fault table.now symbols.now function size relocations.now)
        (length relocations.now / size) }
{
    for index in 0..relocations.len() / size {
        match fault_at(table, symbols, function, size, relocations, index) {
            Some(fault) => return Some(fault),
            None => {}
        }
    }
    None
}

/// Returns the fault of the first relocation in the section at `index` that changes the code of `function`, or `None`
/// if there is no such relocation. `table` is the section header table.
fn section_fault(
    object: &[u8],
    table: &[u8],
    symbols: &[u8],
    function: Symbol,
    index: usize,
) -> Option<ObjectFault>
    requires { index < 2 ^ 32 }
    ensures { result ≡ relocations_fault object.now table.now symbols.now function index }
{
    let section = SectionHeader::read(table, index);
    if section.holds_relocations() && section.info == u32::from(function.section) {
        first_fault(
            table,
            symbols,
            function,
            Relocation::size(section),
            section.bytes(object),
        )
    } else {
        None
    }
}

/// Returns the fault of the first relocation that changes the code of `function`, or `None` if there is none. The
/// `count` sections of `table` are searched in ascending order. `symbols` are the bytes of the symbol table.
pub fn first_named(
    object: &[u8],
    table: &[u8],
    count: usize,
    symbols: &[u8],
    function: Symbol,
) -> Option<ObjectFault>
    requires { count < 2 ^ 32 }
    ensures { result ≡ first_some (relocations_fault object.now table.now symbols.now function) count }
{
    for index in 0..count {
        match section_fault(object, table, symbols, function, index) {
            Some(fault) => return Some(fault),
            None => {}
        }
    }
    None
}

/// Returns whether the 8-byte unit with this index calls a function of the same object.
fn calls(code: &[u8], unit: usize) -> bool
    requires { 8 * unit + 8 < 2 ^ 64 }
    ensures { result ≡ is_call code.now unit }
{
    byte_at(code, 8 * unit) == 0x85 && byte_at(code, 8 * unit + 1) / 16 == 1
}

/// Returns the fault `Leaves` if the 8-byte unit with this index calls a function of the same object, and otherwise
/// `None`.
fn fault_of_call(code: &[u8], unit: usize) -> Option<ObjectFault>
    requires { 8 * unit + 8 < 2 ^ 64 }
    ensures { result ≡ call_fault code.now unit }
{
    if calls(code, unit) {
        Some(ObjectFault::Leaves(unit))
    } else {
        None
    }
}

/// Returns the fault of the first 8-byte unit that calls a function of the same object, or `None` if there is no such
/// unit.
pub fn first_call(code: &[u8]) -> Option<ObjectFault>
    ensures { result ≡ first_some (call_fault code.now) (length code.now / 8) }
{
    for unit in 0..code.len() / 8 {
        match fault_of_call(code, unit) {
            Some(fault) => return Some(fault),
            None => {}
        }
    }
    None
}
