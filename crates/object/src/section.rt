//! Reads the header and the sections of an ELF object.
ghost use Rattle.std.specs.Prelude.{◌≡◌, ◌<◌, ◌^◌};
ghost use Rattle.object.specs.Section.{is_bpf_object, section_count, section_table, is_table_whole};

use crate::number::{byte_at, double_at, half_at, window, word_at};

/// Returns whether the file is a 64-bit little-endian relocatable ELF object for BPF (Elf64_Ehdr).
pub fn is_for_bpf(object: &[u8]) -> bool
    ensures { result ≡ is_bpf_object object.now }
{
    word_at(object, 0) == 0x464c_457f
        && byte_at(object, 4) == 2
        && byte_at(object, 5) == 1
        && half_at(object, 16) == 1
        && half_at(object, 18) == 247
}

/// Returns the number of sections that the object's header states (e_shnum).
pub fn count_sections(object: &[u8]) -> usize
    ensures count { result ≡ section_count object.now }
    ensures bound { result < 2 ^ 16 }
{
    usize::from(half_at(object, 60))
}

/// Returns the section header table, or no bytes if it is not within the file.
pub fn read_table(object: &[u8]) -> &[u8]
    ensures { result.now ≡ section_table object.now }
{
    window(
        object,
        double_at(object, 40),
        64 * u64::from(half_at(object, 60)),
    )
}

/// Returns whether the object's header and the section header table are within the file, and a section header has 64
/// bytes.
pub fn has_table(object: &[u8]) -> bool
    ensures { result ≡ is_table_whole object.now }
{
    object.len() >= 64
        && half_at(object, 58) == 64
        && read_table(object).len() == 64 * count_sections(object)
}

/// The fields of a section header that are needed here (Elf64_Shdr).
#[derive(Clone, Copy)]
pub struct SectionHeader {
    /// The type of the section (sh_type).
    pub kind: u32,
    /// The flags of the section (sh_flags).
    pub flags: u64,
    /// The byte index in the file at which the section begins (sh_offset).
    pub start: u64,
    /// The size of the section in bytes (sh_size).
    pub size: u64,
    /// The index of another section (sh_link): in a symbol table, the section with the names of the symbols; in a table
    /// of relocations, the symbol table.
    pub link: u32,
    /// In a table of relocations, the index of the section that they change (sh_info).
    pub info: u32,
}

impl SectionHeader {
    ghost use Rattle.std.specs.Prelude.{◌≡◌, ◌<◌, ◌^◌};
    ghost use Rattle.object.specs.Section.{section_at, section_bytes, has_no_bytes, is_code, is_relocations};

    /// Returns the header of the section with this index in the section header table. Fields past the end of `table`
    /// are zero.
    pub fn read(table: &[u8], index: usize) -> SectionHeader
        requires { index < 2 ^ 32 }
        ensures { result ≡ section_at index table.now }
    {
        let place = 64 * index;
        SectionHeader {
            kind: word_at(table, place + 4),
            flags: double_at(table, place + 8),
            start: double_at(table, place + 24),
            size: double_at(table, place + 32),
            link: word_at(table, place + 40),
            info: word_at(table, place + 44),
        }
    }

    /// Returns whether the section has no bytes in the file (SHT_NULL, SHT_NOBITS).
    pub fn has_no_bytes(self) -> bool
        ensures { result ≡ has_no_bytes self }
    {
        self.kind == 0 || self.kind == 8
    }

    /// Returns the bytes of the section, or no bytes if it has none in the file or they are not within the file.
    #[tactic(auto, unfolding(crate::specs::Section::section_bytes))]
    pub fn bytes(self, object: &[u8]) -> &[u8]
        ensures { result.now ≡ section_bytes object.now self }
    {
        if self.has_no_bytes() {
            return &[];
        }
        window(object, self.start, self.size)
    }

    /// Returns whether the section has executable code.
    pub fn holds_code(self) -> bool
        ensures { result ≡ is_code self }
    {
        self.kind == 1 && self.flags / 4 % 2 == 1
    }

    /// Returns whether the section has relocations.
    pub fn holds_relocations(self) -> bool
        ensures { result ≡ is_relocations self }
    {
        self.kind == 9 || self.kind == 4
    }
}
