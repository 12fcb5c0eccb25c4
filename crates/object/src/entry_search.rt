//! Finds the entry function of an object, and its code.
ghost use Rattle.std.specs.Prelude.{◌≡◌, ◌<◌, ◌≤◌, ◌+◌, ◌*◌, ◌/◌, ◌^◌, length, Ok, Err, IfSome, IfOk, MatchResult};
ghost use Rattle.object.specs.First.{first_some};
ghost use Rattle.object.specs.Section.{section_table};
ghost use Rattle.object.specs.Symbol.{asked, entry_here};
ghost use Rattle.object.specs.Entry.{object_fault, entry_from, chosen, code_in, function_fault, symbols_in, strings_in, function_of, entry_of, found_in, parts_of};

use crate::damage::first_damage;
use crate::fault::{Damage, ObjectFault};
use crate::number::window;
use crate::relocation::{first_call, first_named};
use crate::section::{SectionHeader, count_sections, has_table, is_for_bpf, read_table};
use crate::symbol::{Symbol, find_symbols};

/// Returns the symbol table's bytes. `home` is the index of its section, and `table` the section header table.
fn symbols_of<'a>(object: &'a [u8], table: &[u8], home: usize) -> &'a [u8]
    requires { home < 2 ^ 32 }
    ensures { result.now ≡ symbols_in object.now table.now home }
{
    SectionHeader::read(table, home).bytes(object)
}

/// Returns the string table with the symbols' names. `home` is the index of the symbol table's section, and `table` the
/// section header table.
fn strings_of<'a>(object: &'a [u8], table: &[u8], home: usize) -> &'a [u8]
    requires { home < 2 ^ 32 }
    ensures { result.now ≡ strings_in object.now table.now home }
{
    let link = SectionHeader::read(table, home).link as usize;
    SectionHeader::read(table, link).bytes(object)
}

/// Returns the first fault of an object that does not depend on the entry function: it is not an object for BPF, or it
/// is damaged. Returns `None` if there is no such fault.
fn fault_of(object: &[u8]) -> Option<ObjectFault>
    ensures { result ≡ object_fault object.now }
{
    if !is_for_bpf(object) {
        return Some(ObjectFault::NoObject);
    }
    if !has_table(object) {
        return Some(ObjectFault::Damaged(Damage::Sections));
    }
    let table = read_table(object);
    let count = count_sections(object);
    let home = find_symbols(table, count);
    let symbols = symbols_of(object, table, home);
    let strings = strings_of(object, table, home);
    match first_damage(object, table, count, home, symbols, strings) {
        Some(damage) => Some(ObjectFault::Damaged(damage)),
        None => None,
    }
}

/// Returns `index` if the symbol with this index can be the entry, and otherwise `None`. It can if it is a function
/// with this name or, if no name is given, a global function, and `index` is at least `least`.
fn entry_at(
    table: &[u8],
    symbols: &[u8],
    strings: &[u8],
    name: Option<&[u8]>,
    least: usize,
    index: usize,
) -> Option<usize>
    requires { 24 * index + 24 < 2 ^ 64 }
    ensures here { result ≡ entry_here table.now symbols.now strings.now (asked name.entry) least index }
    ensures same { IfSome result (λ found. found ≡ index) }
{
    let symbol = Symbol::read(symbols, index);
    if least <= index && symbol.is_code(table) && symbol.answers(strings, name) {
        Some(index)
    } else {
        None
    }
}

/// Returns the index, at least `least`, of the first function with this name or, if no name is given, of the first
/// global function. Returns `None` if there is no such function.
fn first_entry(
    table: &[u8],
    symbols: &[u8],
    strings: &[u8],
    name: Option<&[u8]>,
    least: usize,
) -> Option<usize>
    ensures first { result ≡ entry_from table.now symbols.now strings.now (asked name.entry) least }
    ensures bound { IfSome result (λ index. index < length symbols.now / 24) }
{
    for index in 0..symbols.len() / 24 {
        match entry_at(table, symbols, strings, name, least, index) {
            Some(found) => return Some(found),
            None => {}
        }
    }
    None
}

/// Returns the index of the only function with this name or, if no name is given, of the only global function.
///
/// # Errors
///
/// `NoFunction` if there is no such function, and `Several` if there are several.
fn choose(
    table: &[u8],
    symbols: &[u8],
    strings: &[u8],
    name: Option<&[u8]>,
) -> Result<usize, ObjectFault>
    ensures chosen { result ≡ chosen table.now symbols.now strings.now (asked name.entry) }
    ensures bound { IfOk result (λ index. index < length symbols.now / 24) }
{
    let Some(index) = first_entry(table, symbols, strings, name, 0) else {
        return Err(ObjectFault::NoFunction);
    };
    match first_entry(table, symbols, strings, name, index + 1) {
        None => Ok(index),
        Some(_) => Err(ObjectFault::Several),
    }
}

/// Returns the bytecode of a function, or no bytes if it is not within its section.
fn code_of<'a>(object: &'a [u8], table: &[u8], function: Symbol) -> &'a [u8]
    ensures { result.now ≡ code_in object.now table.now function }
{
    window(
        function.home(table).bytes(object),
        function.value,
        function.size,
    )
}

/// Returns the first fault of a function's code, or `None` if it has none. The faults are a relocation that changes the
/// code, and a call of another function.
fn fault_in(
    object: &[u8],
    table: &[u8],
    count: usize,
    symbols: &[u8],
    function: Symbol,
) -> Option<ObjectFault>
    requires { count < 2 ^ 32 }
    ensures { result ≡ function_fault object.now table.now count symbols.now function }
{
    match first_named(object, table, count, symbols, function) {
        Some(fault) => return Some(fault),
        None => {}
    }
    first_call(code_of(object, table, function))
}

/// Returns the entry function of an object that is whole and for BPF. Fails if there is no such function or several, or
/// if its code has a fault.
fn find_entry(object: &[u8], name: Option<&[u8]>) -> Result<Symbol, ObjectFault>
    ensures { result ≡ found_in object.now (parts_of object.now) (asked name.entry) }
{
    let table = read_table(object);
    let count = count_sections(object);
    let home = find_symbols(table, count);
    let symbols = symbols_of(object, table, home);
    let strings = strings_of(object, table, home);
    let index = choose(table, symbols, strings, name)?;
    let function = Symbol::read(symbols, index);
    match fault_in(object, table, count, symbols, function) {
        None => Ok(function),
        Some(fault) => Err(fault),
    }
}

/// Returns the entry function of an object: the function with this name or, if no name is given, the only global
/// function.
///
/// # Errors
///
/// The first fault: the file is not an object for BPF, it is damaged, there is no such function or several, a
/// relocation changes the function's code, or the function calls another function of the object.
pub fn function(object: &[u8], name: Option<&[u8]>) -> Result<Symbol, ObjectFault>
    ensures { result ≡ function_of object.now (asked name.entry) }
{
    match fault_of(object) {
        Some(fault) => Err(fault),
        None => find_entry(object, name),
    }
}

/// Returns the bytecode of the entry function. The entry is the function with this name or, if no name is given, the
/// only global function.
///
/// # Errors
///
/// The first fault, as [`function`] reports it.
pub fn entry<'a>(object: &'a [u8], name: Option<&[u8]>) -> Result<&'a [u8], ObjectFault>
    ensures { MatchResult result (λ code. entry_of object.now (asked name.entry) ≡ Ok code.now)
        (λ fault. entry_of object.now (asked name.entry) ≡ Err fault) }
{
    let function = function(object, name)?;
    Ok(code_of(object, read_table(object), function))
}
