//! Reads the symbols of an ELF object, and finds its symbol table.
ghost use Rattle.std.specs.Prelude.{◌≡◌, ◌<◌, ◌≤◌, ◌+◌, ◌*◌, ◌^◌, drop, IfSome};
ghost use Rattle.object.specs.First.{first_some};
ghost use Rattle.object.specs.Symbol.{symbols_here, symbols_section, begins_with_name};

use crate::number::{byte_at, double_at, half_at, word_at};
use crate::section::SectionHeader;

/// The fields of a symbol that are needed here (Elf64_Sym).
#[derive(Clone, Copy)]
pub struct Symbol {
    /// The byte index of the symbol's name in the string table (st_name).
    pub name: u32,
    /// The binding (upper four bits) and the type (lower four bits) of the symbol (st_info).
    pub info: u8,
    /// The index of the section that contains what the symbol names (st_shndx).
    pub section: u16,
    /// The byte index in the section of what the symbol names (st_value).
    pub value: u64,
    /// The number of bytes of what the symbol names (st_size).
    pub size: u64,
}

impl Symbol {
    ghost use Rattle.std.specs.Prelude.{◌≡◌, ◌<◌, ◌+◌, ◌*◌, ◌^◌};
    ghost use Rattle.object.specs.Symbol.{symbol_at, is_function, is_global, asked, fits};
    ghost use Rattle.object.specs.Section.{section_at};

    /// Returns the symbol with this index in the symbol table. Fields past the end of `symbols` are zero.
    pub fn read(symbols: &[u8], index: usize) -> Symbol
        requires { 24 * index + 24 < 2 ^ 64 }
        ensures { result ≡ symbol_at index symbols.now }
    {
        let place = 24 * index;
        Symbol {
            name: word_at(symbols, place),
            info: byte_at(symbols, place + 4),
            section: half_at(symbols, place + 6),
            value: double_at(symbols, place + 8),
            size: double_at(symbols, place + 16),
        }
    }

    /// Returns the header of the symbol's section, from the section header table `table`.
    pub fn home(self, table: &[u8]) -> SectionHeader
        ensures { result ≡ section_at self.section table.now }
    {
        SectionHeader::read(table, usize::from(self.section))
    }

    /// Returns whether the symbol is a function in a section of executable code.
    pub fn is_code(self, table: &[u8]) -> bool
        ensures { result ≡ is_function table.now self }
    {
        self.info % 16 == 2 && self.home(table).holds_code()
    }

    /// Returns whether the symbol is global or weak, so that other objects see it.
    pub fn is_seen(self) -> bool
        ensures { result ≡ is_global self }
    {
        self.info / 16 == 1 || self.info / 16 == 2
    }

    /// Returns whether the symbol has the given name in the string table `strings`. If no name is given, returns
    /// whether the symbol is global or weak.
    pub fn answers(self, strings: &[u8], name: Option<&[u8]>) -> bool
        ensures { result ≡ fits strings.now self (asked name.entry) }
    {
        match name {
            None => self.is_seen(),
            Some(name) => begins(rest(strings, self.name as usize), name),
        }
    }
}

/// Returns the bytes from index `place` on, or no bytes if `place` is past the end.
fn rest(bytes: &[u8], place: usize) -> &[u8]
    ensures { result.now ≡ drop place bytes.now }
{
    if place <= bytes.len() {
        &bytes[place..]
    } else {
        &[]
    }
}

/// Returns whether `bytes` begins with `name` and then a zero.
fn begins(bytes: &[u8], name: &[u8]) -> bool
    ensures { result ≡ begins_with_name bytes.now name.now }
{
    let length = name.len();
    length < bytes.len() && &bytes[..length] == name && bytes[length] == 0
}

/// Returns the index of the first of `count` sections that is a symbol table, or `count` if there is none. `table` is
/// the section header table.
pub fn find_symbols(table: &[u8], count: usize) -> usize
    requires { count < 2 ^ 16 }
    ensures section { result ≡ symbols_section table.now count }
    ensures bound { result ≤ count }
{
    match first_symbols(table, count) {
        Some(index) => index,
        None => count,
    }
}

/// Returns `index` if the section with this index is a symbol table, and otherwise `None`.
fn symbols_at(table: &[u8], index: usize) -> Option<usize>
    requires { index < 2 ^ 32 }
    ensures here { result ≡ symbols_here table.now index }
    ensures same { IfSome result (λ found. found ≡ index) }
{
    if SectionHeader::read(table, index).kind == 2 {
        Some(index)
    } else {
        None
    }
}

/// Returns the index of the first of `count` sections that is a symbol table, or `None` if there is none. `table` is
/// the section header table.
fn first_symbols(table: &[u8], count: usize) -> Option<usize>
    requires { count < 2 ^ 16 }
    ensures first { result ≡ first_some (symbols_here table.now) count }
    ensures bound { IfSome result (λ found. found < count) }
{
    for index in 0..count {
        match symbols_at(table, index) {
            Some(found) => return Some(found),
            None => {}
        }
    }
    None
}
