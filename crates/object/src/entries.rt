//! Reads the tables of directories and files in line number information of DWARF 5. A table has formats, which say what
//! values an entry consists of, and then entries.
ghost use Rattle.std.specs.Prelude.{◌≡◌, ◌≤◌, ◌+◌, length, IfSome};
ghost use Rattle.object.specs.Entries.{size_of, within, behind_block, behind_number, behind_varying, behind_value, format_behind, format_at, behind_formats, behind_entry, path_in, behind_entries, entries_by, entries_behind, entries_at};

use crate::leb128::{Read, string_at, unsigned_at};
use crate::number::byte_at;

/// The format of one value in the entries of a table.
#[derive(Clone, Copy)]
pub struct Format {
    /// What the value is. 1 means the path (DW_LNCT_path).
    pub content: u64,
    /// How the value is encoded (DW_FORM_..).
    pub form: u64,
    /// The byte index after the format.
    pub next: usize,
}

/// The header of a table of directories or files.
#[derive(Clone, Copy)]
pub struct EntryTable {
    /// The number of formats, which is the number of values of each entry.
    pub formats: u8,
    /// The byte index of the first format.
    pub from: usize,
    /// The number of entries.
    pub count: u64,
    /// The byte index of the first entry.
    pub first: usize,
}

/// Where the path of a file is, and how it is encoded.
#[derive(Clone, Copy)]
pub struct Path {
    /// How the path is encoded (DW_FORM_..).
    pub form: u64,
    /// The byte index of the path.
    pub place: usize,
}

/// Returns the number of bytes of a value in this form (DW_FORM_..), or 0 if the form has no fixed size or is not
/// supported.
fn size_of(form: u64) -> usize
    ensures size { result ≡ size_of form }
    ensures bound { result ≤ 16 }
{
    if form == 0x0b {
        1
    } else if form == 0x05 {
        2
    } else if form == 0x06 || form == 0x0e || form == 0x1f {
        4
    } else if form == 0x07 {
        8
    } else if form == 0x1e {
        16
    } else {
        0
    }
}

/// Returns `place` + `size`, or `None` if that is greater than the length of `bytes`.
fn within(bytes: &[u8], place: usize, size: u64) -> Option<usize>
    requires { place ≤ length bytes.now }
    ensures read { result ≡ within bytes.now (place + size) }
    ensures within { IfSome result (λ next. next ≤ length bytes.now) }
{
    if size <= (bytes.len() - place) as u64 {
        Some(place + size as usize)
    } else {
        None
    }
}

/// Returns the byte index after the block at index `place`. A block is a number of bytes in LEB128, and then that
/// number of bytes. Returns `None` if the block does not end within `bytes`.
fn behind_block(bytes: &[u8], place: usize) -> Option<usize>
    ensures read { result ≡ behind_block place bytes.now }
    ensures within { IfSome result (λ next. next ≤ length bytes.now) }
{
    let size = unsigned_at(bytes, place)?;
    within(bytes, size.next, size.value)
}

/// Returns the byte index after the LEB128 number at index `place`, or `None` if there is no number of at most 10
/// bytes.
fn behind_number(bytes: &[u8], place: usize) -> Option<usize>
    ensures read { result ≡ behind_number place bytes.now }
    ensures within { IfSome result (λ next. next ≤ length bytes.now) }
{
    let number = unsigned_at(bytes, place)?;
    Some(number.next)
}

/// Returns the byte index after the value at index `place`, if its form is a string, a LEB128 number or a block.
/// Returns `None` for another form, or if the value does not end within `bytes`.
fn behind_varying(bytes: &[u8], form: u64, place: usize) -> Option<usize>
    requires few { length bytes.now ≤ 65536 }
    requires inside { place ≤ length bytes.now }
    ensures read { result ≡ behind_varying form place bytes.now }
    ensures within { IfSome result (λ next. next ≤ length bytes.now) }
{
    if form == 0x08 {
        within(bytes, place, string_at(bytes, place).len() as u64 + 1)
    } else if form == 0x0f {
        behind_number(bytes, place)
    } else if form == 0x09 {
        behind_block(bytes, place)
    } else {
        None
    }
}

/// Returns the byte index after the value at index `place`, which has this form (DW_FORM_..). Returns `None` if the
/// form is not supported, or the value does not end within `bytes`.
fn behind_value(bytes: &[u8], form: u64, place: usize) -> Option<usize>
    requires few { length bytes.now ≤ 65536 }
    requires inside { place ≤ length bytes.now }
    ensures read { result ≡ behind_value form place bytes.now }
    ensures within { IfSome result (λ next. next ≤ length bytes.now) }
{
    let size = size_of(form);
    if size > 0 {
        within(bytes, place, size as u64)
    } else {
        behind_varying(bytes, form, place)
    }
}

/// Reads the format at the byte index `place` of `formats`, or returns `None` if there is no complete format.
fn format_at(formats: &[u8], place: usize) -> Option<Format>
    ensures { result ≡ format_at place formats.now }
{
    let content = unsigned_at(formats, place)?;
    format_behind(formats, content)
}

/// Reads the second number of a format, its form, and returns the format. `content` is the format's first number.
/// Returns `None` if there is no second number.
fn format_behind(formats: &[u8], content: Read) -> Option<Format>
    ensures { result ≡ format_behind formats.now content }
{
    let form = unsigned_at(formats, content.next)?;
    Some(Format {
        content: content.value,
        form: form.value,
        next: form.next,
    })
}

/// Returns the byte index after the `count` formats that begin at index `place`, or `None` if they are not complete.
#[tactic(auto, using(crate::proofs::EntryLemmas::formats_none, crate::proofs::EntryLemmas::formats_some))]
fn behind_formats(formats: &[u8], count: u8, place: usize) -> Option<usize>
    ensures { result ≡ behind_formats count place formats.now }
{
    if count == 0 {
        return Some(place);
    }
    match format_at(formats, place) {
        Some(format) => behind_formats(formats, count - 1, format.next),
        None => None,
    }
}

/// Returns the byte index after the entry at index `place` of `bytes`, or `None` if the entry does not end within
/// `bytes`. The entry has `count` values, whose formats begin at index `from` of `formats`.
#[tactic(auto, using(crate::proofs::EntryLemmas::entry_none, crate::proofs::EntryLemmas::entry_some))]
fn behind_entry(formats: &[u8], count: u8, from: usize, bytes: &[u8], place: usize) -> Option<usize>
    requires few { length bytes.now ≤ 65536 }
    requires inside { place ≤ length bytes.now }
    ensures read { result ≡ behind_entry count formats.now from bytes.now place }
    ensures within { IfSome result (λ next. next ≤ length bytes.now) }
{
    if count == 0 {
        return Some(place);
    }
    match format_at(formats, from) {
        Some(format) => match behind_value(bytes, format.form, place) {
            Some(next) => behind_entry(formats, count - 1, format.next, bytes, next),
            None => None,
        },
        None => None,
    }
}

/// Returns where the path of the entry at index `place` of `bytes` is, or `None` if the entry has no path. The entry
/// has `count` values, whose formats begin at index `from` of `formats`.
#[tactic(auto, using(crate::proofs::EntryLemmas::path_none, crate::proofs::EntryLemmas::path_some))]
pub fn path_in(formats: &[u8], count: u8, from: usize, bytes: &[u8], place: usize) -> Option<Path>
    requires few { length bytes.now ≤ 65536 }
    requires inside { place ≤ length bytes.now }
    ensures { result ≡ path_in count formats.now from bytes.now place }
{
    if count == 0 {
        return None;
    }
    match format_at(formats, from) {
        Some(format) => {
            if format.content == 1 {
                return Some(Path {
                    form: format.form,
                    place,
                });
            }
            match behind_value(bytes, format.form, place) {
                Some(next) => path_in(formats, count - 1, format.next, bytes, next),
                None => None,
            }
        }
        None => None,
    }
}

/// Returns the byte index after `entries` entries, the first of which begins at index `place` of `bytes`. Returns
/// `None` if they do not end within `bytes`. Each entry has `count` values, whose formats begin at index `from` of
/// `formats`.
#[tactic(auto, using(crate::proofs::EntryLemmas::entries_none))]
pub fn behind_entries(
    entries: u64,
    formats: &[u8],
    count: u8,
    from: usize,
    bytes: &[u8],
    place: usize,
) -> Option<usize>
    requires few { length bytes.now ≤ 65536 }
    requires inside { place ≤ length bytes.now }
    ensures read { result ≡ behind_entries entries count formats.now from bytes.now place }
    ensures within { IfSome result (λ next. next ≤ length bytes.now) }
{
    let mut next = place;
    for done in 0..entries {
        let _ = done;
        match behind_entry(formats, count, from, bytes, next) {
            Some(behind) => next = behind,
            None => return None,
        }
    }
    Some(next)
}

/// Returns the header of a table with `count` entries and `formats` formats, or `None` if there are more entries than
/// bytes. The formats begin at index `from`.
fn entries_by(bytes: &[u8], formats: u8, from: usize, count: Read) -> Option<EntryTable>
    requires { count.next ≤ length bytes.now }
    ensures read { result ≡ entries_by formats from bytes.now count }
    ensures few { IfSome result (λ entries. entries.count ≤ length bytes.now) }
    ensures within { IfSome result (λ entries. entries.first ≤ length bytes.now) }
{
    if count.value > bytes.len() as u64 {
        return None;
    }
    Some(EntryTable {
        formats,
        from,
        count: count.value,
        first: count.next,
    })
}

/// Reads the number of entries at the byte index `next`, where the formats end, and returns the header of the table.
/// Returns `None` if there is no number, or if there are more entries than bytes.
fn entries_behind(bytes: &[u8], formats: u8, from: usize, next: usize) -> Option<EntryTable>
    ensures read { result ≡ entries_behind formats from bytes.now next }
    ensures few { IfSome result (λ entries. entries.count ≤ length bytes.now) }
    ensures within { IfSome result (λ entries. entries.first ≤ length bytes.now) }
{
    let count = unsigned_at(bytes, next)?;
    entries_by(bytes, formats, from, count)
}

/// Reads the header of the table at the byte index `place`. Returns `None` if its formats or its number of entries are
/// not complete, or if there are more entries than bytes.
pub fn entries_at(bytes: &[u8], place: usize) -> Option<EntryTable>
    requires few { length bytes.now ≤ 65536 }
    requires inside { place ≤ length bytes.now }
    ensures read { result ≡ entries_at place bytes.now }
    ensures few { IfSome result (λ entries. entries.count ≤ length bytes.now) }
    ensures within { IfSome result (λ entries. entries.first ≤ length bytes.now) }
{
    let formats = byte_at(bytes, place);
    let next = behind_formats(bytes, formats, place + 1)?;
    entries_behind(bytes, formats, place + 1, next)
}
