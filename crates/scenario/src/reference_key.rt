//! The keys by which a traitor's table names a file.
ghost use Rattle.std.specs.Prelude.{◌≡◌};
ghost use Rattle.scenario.specs.ReferenceNames.{is_same, key_of, place_of, reference_of};

/// The kind of file that a traitor's table names.
#[derive(Clone, Copy, PartialEq, Eq)]
pub enum ReferenceKey {
    /// A file with assembly.
    Assembly,
    /// A file with bytecode.
    Bytecode,
    /// An ELF object file. The code of one of its functions is the program.
    Object,
}

impl ReferenceKey {
    /// Returns the key with the name of a file of this kind: `asm_file`, `code_file` or `elf`.
    pub fn reference(self) -> &'static str
        ensures { result.now ≡ reference_of self }
    {
        match self {
            ReferenceKey::Assembly => "asm_file",
            ReferenceKey::Bytecode => "code_file",
            ReferenceKey::Object => "elf",
        }
    }

    /// Returns the key with the program itself, `asm` or `code`, which replaces the key with the name of a file of this
    /// kind.
    pub fn place(self) -> &'static str
        ensures { result.now ≡ place_of self }
    {
        match self {
            ReferenceKey::Assembly => "asm",
            ReferenceKey::Bytecode | ReferenceKey::Object => "code",
        }
    }

    /// Returns the kind of file that the key `text` names, which is `asm_file`, `code_file` or `elf`. Returns `None`
    /// for any other key.
    pub(crate) fn of(text: &str) -> Option<ReferenceKey>
        ensures { result ≡ key_of text.now }
    {
        if text == "asm_file" {
            return Some(ReferenceKey::Assembly);
        }
        if text == "code_file" {
            return Some(ReferenceKey::Bytecode);
        }
        if text == "elf" {
            return Some(ReferenceKey::Object);
        }
        None
    }

    /// Returns whether this kind of file is the same as `other`.
    pub(crate) fn is_same(self, other: ReferenceKey) -> bool
        ensures { result ≡ is_same self other }
    {
        match self {
            ReferenceKey::Assembly => matches!(other, ReferenceKey::Assembly),
            ReferenceKey::Bytecode => matches!(other, ReferenceKey::Bytecode),
            ReferenceKey::Object => matches!(other, ReferenceKey::Object),
        }
    }
}
