//! Finds the sections of an object that contain its line number information.
ghost use Rattle.std.specs.Prelude.{◌≡◌, ◌<◌, ◌≤◌, ◌^◌, codes, length, IfSome};
ghost use Rattle.object.specs.First.{first_some};
ghost use Rattle.object.specs.Section.{section_at, section_count, section_table};
ghost use Rattle.object.specs.Tables.{bytes_of, line_strings_in, lines_in, lines_section, named_here, origins_in, relocates_here, relocations_of, section_named, section_names, short, strings_in, symbols_in};
ghost use Rattle.object.specs.Sources.{IsSource, origins_of};

use crate::leb128::string_at;
use crate::number::{half_at, word_at};
use crate::relocation::Relocation;
use crate::section::{SectionHeader, count_sections, read_table};
use crate::source::LineSections;
use crate::symbol::find_symbols;

/// The greatest number of bytes of a section of line number information. A longer section counts as missing.
const MOST: usize = 65_536;

/// Returns the bytes of a section, or no bytes if there are more than 65,536.
fn short(bytes: &[u8]) -> &[u8]
    ensures short { result.now ≡ short bytes.now }
    ensures bound { length result.now ≤ 65536 }
{
    if bytes.len() <= MOST { bytes } else { &[] }
}

/// Returns the bytes of the section with this index, or no bytes if there are more than 65,536.
fn bytes_of(object: &[u8], index: usize) -> &[u8]
    requires { index < 2 ^ 32 }
    ensures read { result.now ≡ bytes_of object.now index }
    ensures bound { length result.now ≤ 65536 }
{
    short(SectionHeader::read(read_table(object), index).bytes(object))
}

/// Returns the bytes of the string table that has the sections' names.
fn section_names(object: &[u8]) -> &[u8]
    ensures { result.now ≡ section_names object.now }
{
    let index = usize::from(half_at(object, 62));
    SectionHeader::read(read_table(object), index).bytes(object)
}

/// Returns `index` if the section at this index is named `name`, and otherwise `None`. `names` is the string table with
/// the sections' names.
fn named_here(table: &[u8], names: &[u8], name: &[u8], index: usize) -> Option<usize>
    requires { index < 2 ^ 32 }
    ensures here { result ≡ named_here table.now names.now name.now index }
    ensures same { IfSome result (λ found. found ≡ index) }
{
    let place = word_at(table, 64 * index) as usize;
    if string_at(names, place) == name {
        Some(index)
    } else {
        None
    }
}

/// Returns the index of the first of `count` sections whose name is `name`, or `None` if there is none. `table` is the
/// section header table, and `names` is the string table with the sections' names.
fn first_named(table: &[u8], count: usize, names: &[u8], name: &[u8]) -> Option<usize>
    requires { count < 2 ^ 16 }
    ensures first { result ≡ first_some (named_here table.now names.now name.now) count }
    ensures bound { IfSome result (λ found. found < 2 ^ 16) }
{
    for index in 0..count {
        match named_here(table, names, name, index) {
            Some(found) => return Some(found),
            None => {}
        }
    }
    None
}

/// Returns the index of the object's first section with this name, or 0 if there is none.
fn section_named(object: &[u8], name: &[u8]) -> usize
    ensures section { result ≡ section_named object.now name.now }
    ensures bound { result < 2 ^ 16 }
{
    let table = read_table(object);
    match first_named(table, count_sections(object), section_names(object), name) {
        Some(index) => index,
        None => 0,
    }
}

/// Returns `index` if the section with this index contains relocations of the section `home`, and otherwise `None`.
fn relocates_here(table: &[u8], home: usize, index: usize) -> Option<usize>
    requires { index < 2 ^ 32 }
    ensures here { result ≡ relocates_here table.now home index }
    ensures same { IfSome result (λ found. found ≡ index) }
{
    let section = SectionHeader::read(table, index);
    if section.holds_relocations() && section.info as usize == home {
        Some(index)
    } else {
        None
    }
}

/// Returns the index of the first of `count` sections that contains relocations of the section `home`, or `None` if
/// there is none. `table` is the section header table.
fn first_relocating(table: &[u8], count: usize, home: usize) -> Option<usize>
    requires { count < 2 ^ 16 }
    ensures first { result ≡ first_some (relocates_here table.now home) count }
    ensures bound { IfSome result (λ found. found < 2 ^ 16) }
{
    for index in 0..count {
        match relocates_here(table, home, index) {
            Some(found) => return Some(found),
            None => {}
        }
    }
    None
}

/// Returns the index of the object's first section that contains relocations of the section `home`, or 0 if there is
/// none.
fn relocations_of(object: &[u8], home: usize) -> usize
    ensures section { result ≡ relocations_of object.now home }
    ensures bound { result < 2 ^ 16 }
{
    match first_relocating(read_table(object), count_sections(object), home) {
        Some(index) => index,
        None => 0,
    }
}

/// Returns the index of the section .debug_line, or 0 if there is no such section.
fn lines_section(object: &[u8]) -> usize
    ensures section { result ≡ lines_section object.now }
    ensures bound { result < 2 ^ 16 }
{
    section_named(object, b".debug_line")
}

/// Returns the bytes of the section .debug_line, or no bytes if it has more than 65,536. If there is no such section,
/// returns those of section 0, which has none in a valid object.
pub fn lines_in(object: &[u8]) -> &[u8]
    ensures read { result.now ≡ lines_in object.now }
    ensures bound { length result.now ≤ 65536 }
{
    bytes_of(object, lines_section(object))
}

/// Returns the bytes of the section .debug_line_str, or no bytes if it has more than 65,536. If there is no such
/// section, returns those of section 0, which has none in a valid object.
pub fn line_strings_in(object: &[u8]) -> &[u8]
    ensures { result.now ≡ line_strings_in object.now }
{
    bytes_of(object, section_named(object, b".debug_line_str"))
}

/// Returns the bytes of the section .debug_str, or no bytes if it has more than 65,536. If there is no such section,
/// returns those of section 0, which has none in a valid object.
pub fn strings_in(object: &[u8]) -> &[u8]
    ensures { result.now ≡ strings_in object.now }
{
    bytes_of(object, section_named(object, b".debug_str"))
}

/// Returns the bytes of the object's first symbol table, or no bytes if it has none.
fn symbols_in(object: &[u8]) -> &[u8]
    ensures { result.now ≡ symbols_in object.now }
{
    let table = read_table(object);
    let home = find_symbols(table, count_sections(object));
    SectionHeader::read(table, home).bytes(object)
}

/// Returns the line number program in `bytes`, with the symbols and relocations of `object` that its addresses need.
/// `section` is the index of the section with the function whose lines are wanted.
pub fn source_in<'a>(object: &'a [u8], bytes: &'a [u8], section: u16) -> LineSections<'a>
    ensures whole { IsSource result }
    ensures bytes { result.bytes.now ≡ bytes.now }
    ensures origins { origins_of result ≡ origins_in object.now bytes.now section }
{
    let index = relocations_of(object, lines_section(object));
    let size = Relocation::size(SectionHeader::read(read_table(object), index));
    LineSections {
        bytes,
        symbols: symbols_in(object),
        section,
        size,
        relocations: bytes_of(object, index),
    }
}
