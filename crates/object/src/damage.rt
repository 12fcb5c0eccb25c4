//! Checks an ELF object for damage: a section that is not within the file, a function that is not within its section,
//! or a relocation of a symbol that does not exist.
ghost use Rattle.std.specs.Prelude.{◌≡◌, ◌<◌, ◌≤◌, ◌+◌, ◌*◌, ◌/◌, ◌^◌, length};
ghost use Rattle.object.specs.First.{first_some};
ghost use Rattle.object.specs.Damage.{is_section_whole, section_damage, is_symbol_whole, symbol_damage, relocation_damage, relocations_damage, tables_damage};

use crate::fault::Damage;
use crate::relocation::Relocation;
use crate::section::SectionHeader;
use crate::symbol::Symbol;

/// Returns whether the section has no bytes in the file, or its bytes are within the file.
fn has_section(object: &[u8], section: SectionHeader) -> bool
    ensures { result ≡ is_section_whole object.now section }
{
    let length = object.len() as u64;
    section.has_no_bytes() || (section.size <= length && section.start <= length - section.size)
}

/// Returns the damage of the section with this index in the section header table `table`, or `None` if the section's
/// bytes are within the file or it has none there.
fn of_section(object: &[u8], table: &[u8], index: usize) -> Option<Damage>
    requires { index < 2 ^ 32 }
    ensures { result ≡ section_damage object.now table.now index }
{
    if has_section(object, SectionHeader::read(table, index)) {
        None
    } else {
        Some(Damage::Section(index))
    }
}

/// Returns the damage of the first of `count` sections whose bytes are not within the file, or `None` if there is no
/// such section. `table` is the section header table.
fn first_section(object: &[u8], table: &[u8], count: usize) -> Option<Damage>
    requires { count < 2 ^ 32 }
    ensures { result ≡ first_some (section_damage object.now table.now) count }
{
    for index in 0..count {
        match of_section(object, table, index) {
            Some(damage) => return Some(damage),
            None => {}
        }
    }
    None
}

/// Returns whether a function's name begins within the string table `strings`, and its code is within its section.
/// `table` is the section header table.
fn has_symbol(table: &[u8], strings: &[u8], symbol: Symbol) -> bool
    ensures { result ≡ is_symbol_whole table.now strings.now symbol }
{
    let room = symbol.home(table).size;
    (symbol.name as usize) < strings.len()
        && symbol.size <= room
        && symbol.value <= room - symbol.size
}

/// Returns the damage of the symbol with this index in the symbol table `symbols`. Returns `None` unless the symbol is
/// a function whose name is not within `strings`, or whose code is not within its section.
fn of_symbol(table: &[u8], symbols: &[u8], strings: &[u8], index: usize) -> Option<Damage>
    requires { 24 * index + 24 < 2 ^ 64 }
    ensures { result ≡ symbol_damage table.now symbols.now strings.now index }
{
    let symbol = Symbol::read(symbols, index);
    if symbol.is_code(table) && !has_symbol(table, strings, symbol) {
        Some(Damage::Symbol(index))
    } else {
        None
    }
}

/// Returns the damage of the first function in the symbol table `symbols` whose name is not within `strings`, or whose
/// code is not within its section. Returns `None` if there is no such function.
fn first_symbol(table: &[u8], symbols: &[u8], strings: &[u8]) -> Option<Damage>
    ensures { result ≡ first_some (symbol_damage table.now symbols.now strings.now) (length symbols.now / 24) }
{
    for index in 0..symbols.len() / 24 {
        match of_symbol(table, symbols, strings, index) {
            Some(damage) => return Some(damage),
            None => {}
        }
    }
    None
}

/// Returns the damage of the relocation with this index if its symbol does not exist, and otherwise `None`. `section`
/// is the index of the section with `relocations`, `symbols` the number of symbols, and `size` the number of bytes of
/// each relocation.
fn of_relocation(
    section: usize,
    symbols: usize,
    size: usize,
    relocations: &[u8],
    index: usize,
) -> Option<Damage>
    requires { size * index + 16 < 2 ^ 64 }
    ensures { result ≡ relocation_damage section symbols size relocations.now index }
{
    if (Relocation::read(relocations, size, index).symbol as usize) < symbols {
        None
    } else {
        Some(Damage::Relocations(section))
    }
}

/// Returns the damage of the first relocation in `relocations` whose symbol does not exist, or `None` if there is no
/// such relocation. `section` is the index of the section with `relocations`, `symbols` the number of symbols, and
/// `size` the number of bytes of each relocation.
fn first_relocation(
    section: usize,
    symbols: usize,
    size: usize,
    relocations: &[u8],
) -> Option<Damage>
    requires { 16 ≤ size }
    ensures { result ≡ first_some (relocation_damage section symbols size relocations.now)
        (length relocations.now / size) }
{
    for index in 0..relocations.len() / size {
        match of_relocation(section, symbols, size, relocations, index) {
            Some(damage) => return Some(damage),
            None => {}
        }
    }
    None
}

/// Returns the damage of the section with this index if it contains relocations, and otherwise `None`. Its relocations
/// are damaged if they do not use the symbol table, which is section `home`, or if the symbol of one does not exist.
/// `symbols` is the number of symbols.
fn of_relocations(
    object: &[u8],
    table: &[u8],
    home: usize,
    symbols: usize,
    index: usize,
) -> Option<Damage>
    requires { index < 2 ^ 32 }
    ensures { result ≡ relocations_damage object.now table.now home symbols index }
{
    let section = SectionHeader::read(table, index);
    if !section.holds_relocations() {
        return None;
    }
    if section.link as usize != home {
        return Some(Damage::Relocations(index));
    }
    first_relocation(
        index,
        symbols,
        Relocation::size(section),
        section.bytes(object),
    )
}

/// Returns the damage of the first of `count` sections whose relocations are damaged, or `None` if there is no such
/// section. `home` is the index of the symbol table's section, and `symbols` the number of symbols.
fn first_relocations(
    object: &[u8],
    table: &[u8],
    count: usize,
    home: usize,
    symbols: usize,
) -> Option<Damage>
    requires { count < 2 ^ 32 }
    ensures { result ≡ first_some (relocations_damage object.now table.now home symbols) count }
{
    for index in 0..count {
        match of_relocations(object, table, home, symbols, index) {
            Some(damage) => return Some(damage),
            None => {}
        }
    }
    None
}

/// Returns the first damage of an object, or `None` if it has none. The sections are checked first, then the functions,
/// then the relocations. `table` has the headers of the `count` sections, and `home` is the index of the symbol table's
/// section.
pub fn first_damage(
    object: &[u8],
    table: &[u8],
    count: usize,
    home: usize,
    symbols: &[u8],
    strings: &[u8],
) -> Option<Damage>
    requires { count < 2 ^ 32 }
    ensures { result ≡ tables_damage object.now table.now count home symbols.now strings.now }
{
    match first_section(object, table, count) {
        Some(damage) => return Some(damage),
        None => {}
    }
    match first_symbol(table, symbols, strings) {
        Some(damage) => return Some(damage),
        None => {}
    }
    first_relocations(object, table, count, home, symbols.len() / 24)
}
