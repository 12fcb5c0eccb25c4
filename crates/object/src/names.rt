//! Finds the name of a source file by its number in line number information (DWARF 5 and 4).
ghost use Rattle.std.specs.Prelude.{◌≡◌, ◌<◌, ◌≤◌, ◌+◌, ◌-◌, length, false, true, IfSome, MatchOption};
ghost use Rattle.std.specs.List.{list_all};
ghost use Rattle.object.specs.First.{first_some};
ghost use Rattle.object.specs.Names.{directories_end, empty_here, file_formats, files_at, files_behind, is_plain, is_visible, name_at, name_by, path_among, path_behind, path_in_five, path_in_four, path_of, path_of_entry};

use crate::entries::{EntryTable, Path, behind_entries, entries_at, path_in};
use crate::header::Header;
use crate::leb128::string_at;
use crate::number::{byte_at, word_at};

/// The formats of version 4's files, written as in version 5: the path (DW_FORM_string), and the directory, time and
/// size (DW_FORM_udata).
const FILE_FORMATS: [u8; 8] = [1, 8, 2, 15, 3, 15, 4, 15];

/// Returns where the path is in the entry at the byte index `place`, or `None` if the entry has none. `files` is the
/// header of the table of files.
fn path_of_entry(bytes: &[u8], files: EntryTable, place: usize) -> Option<Path>
    requires few { length bytes.now ≤ 65536 }
    requires inside { place ≤ length bytes.now }
    ensures { result ≡ path_of_entry bytes.now files place }
{
    path_in(bytes, files.formats, files.from, bytes, place)
}

/// Returns where the path of the file with this number is, in version 5. `files` is the header of the table of files.
/// Returns `None` if the table does not have the file or its path.
fn path_among(bytes: &[u8], file: u64, files: EntryTable) -> Option<Path>
    requires few { length bytes.now ≤ 65536 }
    requires inside { files.first ≤ length bytes.now }
    ensures { result ≡ path_among bytes.now file files }
{
    if file >= files.count {
        return None;
    }
    let place = behind_entries(file, bytes, files.formats, files.from, bytes, files.first)?;
    path_of_entry(bytes, files, place)
}

/// Reads the header of the table of files, which follows the table of directories. Returns `None` if the directories or
/// that header are not complete.
fn files_behind(bytes: &[u8], directories: EntryTable) -> Option<EntryTable>
    requires few { length bytes.now ≤ 65536 }
    requires inside { directories.first ≤ length bytes.now }
    ensures read { result ≡ files_behind bytes.now directories }
    ensures within { IfSome result (λ entries. entries.first ≤ length bytes.now) }
{
    let EntryTable {
        formats,
        from,
        count,
        first,
    } = directories;
    let place = behind_entries(count, bytes, formats, from, bytes, first)?;
    entries_at(bytes, place)
}

/// Reads the header of the table of files in version 5. `tables` is the byte index of the table of directories, which
/// precedes it. Returns `None` if the directories or that header are not complete.
fn files_at(bytes: &[u8], tables: usize) -> Option<EntryTable>
    requires few { length bytes.now ≤ 65536 }
    requires inside { tables ≤ length bytes.now }
    ensures read { result ≡ files_at tables bytes.now }
    ensures within { IfSome result (λ entries. entries.first ≤ length bytes.now) }
{
    let directories = entries_at(bytes, tables)?;
    files_behind(bytes, directories)
}

/// Returns where the path of the file with this number is, in version 5. `tables` is the byte index of the table of
/// directories, which precedes the table of files. Returns `None` if there is no such path.
fn path_in_five(bytes: &[u8], tables: usize, file: u64) -> Option<Path>
    requires few { length bytes.now ≤ 65536 }
    requires inside { tables ≤ length bytes.now }
    ensures { result ≡ path_in_five tables bytes.now file }
{
    let files = files_at(bytes, tables)?;
    path_among(bytes, file, files)
}

/// Returns the byte index `tables` + `n` if an empty string begins there, and otherwise `None`. The strings end with a
/// zero each, and the first begins at index `tables`.
fn empty_here(bytes: &[u8], tables: usize, n: usize) -> Option<usize>
    requires few { length bytes.now ≤ 65536 }
    requires inside { tables + n < length bytes.now }
    ensures here { result ≡ empty_here tables bytes.now n }
    ensures within { IfSome result (λ place. place < length bytes.now) }
{
    let place = tables + n;
    if byte_at(bytes, place) == 0 && (n == 0 || byte_at(bytes, place - 1) == 0) {
        Some(place)
    } else {
        None
    }
}

/// Returns the byte index of the empty string that ends the directories of version 4, or `None` if there is none. The
/// directories begin at index `tables`.
fn directories_end(bytes: &[u8], tables: usize) -> Option<usize>
    requires few { length bytes.now ≤ 65536 }
    requires inside { tables ≤ length bytes.now }
    ensures first { result ≡ directories_end tables bytes.now }
    ensures within { IfSome result (λ place. place < length bytes.now) }
{
    for n in 0..bytes.len() - tables {
        match empty_here(bytes, tables, n) {
            Some(place) => return Some(place),
            None => {}
        }
    }
    None
}

/// Returns where the path of the file after the first `before` files is, in version 4, or `None` if there is no such
/// file. The list of files begins after the byte index `end`.
fn path_behind(bytes: &[u8], before: u64, end: usize) -> Option<Path>
    requires few { length bytes.now ≤ 65536 }
    requires inside { end < length bytes.now }
    ensures { result ≡ path_behind bytes.now before end }
{
    let place = behind_entries(before, &FILE_FORMATS, 4, 0, bytes, end + 1)?;
    path_in(&FILE_FORMATS, 4, 0, bytes, place)
}

/// Returns where the path of the file with this number is, in version 4. The first file has number 1. `tables` is the
/// byte index of the list of directories, which precedes the list of files. Returns `None` if there is no such path.
fn path_in_four(bytes: &[u8], tables: usize, file: u64) -> Option<Path>
    requires few { length bytes.now ≤ 65536 }
    requires inside { tables ≤ length bytes.now }
    ensures { result ≡ path_in_four tables bytes.now file }
{
    if file == 0 || file > bytes.len() as u64 {
        return None;
    }
    let end = directories_end(bytes, tables)?;
    path_behind(bytes, file - 1, end)
}

/// Returns where the path of the file with this number is, in the header's version of DWARF, or `None` if there is no
/// such path.
fn path_of(header: Header, bytes: &[u8], file: u64) -> Option<Path>
    requires few { length bytes.now ≤ 65536 }
    requires inside { header.tables ≤ length bytes.now }
    ensures { result ≡ path_of header bytes.now file }
{
    if header.version == 5 {
        path_in_five(bytes, header.tables, file)
    } else {
        path_in_four(bytes, header.tables, file)
    }
}

/// Returns the path's bytes, or no bytes if the path's form is not supported. The path is in `bytes` (.debug_line), or
/// refers to `line_strings` (.debug_line_str) or to `strings` (.debug_str).
fn name_at<'a>(bytes: &'a [u8], line_strings: &'a [u8], strings: &'a [u8], path: Path) -> &'a [u8]
    ensures { result.now ≡ name_at bytes.now line_strings.now strings.now path }
{
    if path.form == 0x08 {
        string_at(bytes, path.place)
    } else if path.form == 0x1f {
        string_at(line_strings, word_at(bytes, path.place) as usize)
    } else if path.form == 0x0e {
        string_at(strings, word_at(bytes, path.place) as usize)
    } else {
        &[]
    }
}

/// Returns the path of the file with this number, or no bytes if it is not found. The path is in `bytes` (.debug_line),
/// or refers to `line_strings` (.debug_line_str) or to `strings` (.debug_str).
pub fn name_of<'a>(
    header: Header,
    bytes: &'a [u8],
    line_strings: &'a [u8],
    strings: &'a [u8],
    file: u64,
) -> &'a [u8]
    requires few { length bytes.now ≤ 65536 }
    requires inside { header.tables ≤ length bytes.now }
    ensures { result.now ≡ name_by bytes.now line_strings.now strings.now (path_of header bytes.now file) }
{
    match path_of(header, bytes, file) {
        Some(path) => name_at(bytes, line_strings, strings, path),
        None => &[],
    }
}

/// Returns whether a byte is a visible ASCII character or a space.
fn is_visible(byte: u8) -> bool
    ensures { result ≡ is_visible byte }
{
    32 <= byte && byte < 127
}

/// Returns whether all bytes of a name are visible ASCII characters or spaces.
fn are_visible(name: &[u8]) -> bool
    ensures { result ≡ list_all is_visible name.now }
{
    name.iter().all(|byte| is_visible(*byte))
}

/// Returns whether a name can be printed on a line: it consists of 1 to 255 visible ASCII characters or spaces.
fn is_plain(name: &[u8]) -> bool
    ensures { result ≡ is_plain name.now }
{
    !name.is_empty() && name.len() <= 255 && are_visible(name)
}

/// Returns a name as text, or `None` if it cannot be printed on a line: it must consist of 1 to 255 visible ASCII
/// characters or spaces.
pub fn plain(name: &[u8]) -> Option<&str>
    ensures { MatchOption result (is_plain name.now ≡ false) (λ text. (is_plain name.now ≡ true)
        × (text.now ≡ name.now)) }
{
    if !is_plain(name) {
        return None;
    }
    match str::from_utf8(name) {
        Ok(text) => Some(text),
        Err(_) => unreachable!(),
    }
}
