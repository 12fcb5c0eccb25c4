//! Reads the files that a scenario names, such as the programs of its traitors, and reports a file that cannot be used.
ghost use Rattle.std.specs.Prelude.{◌≡◌, Ok, Err, IfErr, IfOk, IfSome, MatchResult, string_bytes};
ghost use Rattle.std.specs.IoError.{error_kind};
ghost use Rattle.object.specs.Entry.{entry_of};
ghost use Rattle.object.specs.Symbol.{asked};
ghost use Rattle.scenario.specs.declared.reference_key.ReferenceKey.TheVariants.{Assembly, Object};
ghost use Rattle.streams.specs.Names.{shown};
ghost use Rattle.cli_tasks.specs.Taken.{IsBeside, IsFile, IsNamed, IsUnread, IsUntakenIn, IsUntakenOf, fault_lines, fault_told, most_bytes, refused_lines, refused_told};
ghost use Rattle.cli_tasks.specs.declared.named_files.FileProblem.TheVariants.{Memory};

use crate::folder::Folder;
use object::{ObjectFault, entry, sentence};
use scenario::{LoadedFile, Reference, ReferenceKey};
use std::alloc::{AllocError, Global};
use std::io::{self, ErrorKind};
use streams::FileName;

/// Why a file that a scenario names cannot be used.
#[derive(Drop)]
pub enum FileProblem {
    /// The file could not be read, or its content is at fault.
    Told {
        /// The lines of the report. They name the fault and the key of the scenario, such as `traitor[0].code_file`,
        /// under which the file is named. For an ELF object they explain the fault too.
        lines: String,
        /// The kind of the error if the file could not be read, and `None` if its content is at fault.
        kind: Option<ErrorKind>,
    },
    /// Memory ran out.
    Memory,
}

impl From<AllocError> for FileProblem {
    ghost from_gives = { λ _ untaken. untaken ≡ Memory };

    fn from(_error: AllocError) -> FileProblem {
        FileProblem::Memory
    }
}

/// Returns the most bytes that a file under this key may have: 32,768 for bytecode, as for the longest program, 262,144
/// for assembly, and 1,048,576 for an ELF object.
fn most_bytes(key: ReferenceKey) -> usize
    ensures { result ≡ most_bytes key }
{
    match key {
        ReferenceKey::Assembly => 262_144,
        ReferenceKey::Bytecode => 32_768,
        ReferenceKey::Object => 1_048_576,
    }
}

/// Reads a file that the scenario names from the folder. The key under which it is named says whether it is assembly,
/// bytecode or an ELF object. Fails with a report if the file cannot be read, is too long or is at fault.
pub(crate) fn beside<D: Folder>(
    alloc: Global,
    folder: &D,
    named: &Reference,
) -> Result<LoadedFile, FileProblem>
    ensures file { IfOk result (IsBeside (D.bytes folder.now) named.now) }
    ensures untaken { IfErr result (IsUntakenOf (D.bytes folder.now) (D.fails folder.now) named.now) }
{
    let bytes = match folder.read(alloc, named.name.as_str(), most_bytes(named.key)) {
        Ok(bytes) => bytes,
        Err(error) => return Err(unread(alloc, &error, named)?),
    };
    match named.key {
        ReferenceKey::Assembly => assembly(alloc, named, bytes),
        ReferenceKey::Bytecode => Ok(LoadedFile::bytecode(
            alloc,
            named.name.clone()?,
            bytes.as_slice(),
        )?),
        ReferenceKey::Object => object(alloc, named, bytes.as_slice()),
    }
}

/// Returns a named file of assembly with these bytes. Fails with a report if the bytes are not UTF-8 text.
fn assembly(alloc: Global, named: &Reference, bytes: Vec<u8>) -> Result<LoadedFile, FileProblem>
    requires { named.now.key ≡ Assembly }
    ensures file { IfOk result (IsFile named.now bytes.items) }
    ensures untaken { IfErr result (IsUntakenIn named.now bytes.items) }
{
    let name = named.name.clone()?;
    match String::from_utf8(bytes) {
        Ok(text) => Ok(LoadedFile::assembly(name, text)),
        Err(_) => Err(FileProblem::Told {
            lines: told(alloc, "text", named)?,
            kind: None,
        }),
    }
}

/// Returns a named ELF object with these bytes and the code of the function that the scenario names. Without such a
/// name the object must have only one function. Fails with a report if there is no such code.
fn object(alloc: Global, named: &Reference, bytes: &[u8]) -> Result<LoadedFile, FileProblem>
    requires { named.now.key ≡ Object }
    ensures file { IfOk result (IsFile named.now bytes.now) }
    ensures untaken { IfErr result (IsUntakenIn named.now bytes.now) }
{
    let name = named.name.clone()?;
    let function = named.function.as_deref();
    match code_in(bytes, function) {
        Ok(code) => Ok(LoadedFile::object(alloc, name, function, code)?),
        Err(fault) => Err(FileProblem::Told {
            lines: refused(alloc, fault, named)?,
            kind: None,
        }),
    }
}

/// Returns the code of the function named `function` in an ELF object or, without a name, the code of its only global
/// function. Fails with the object's fault if there is no such code.
fn code_in<'a>(object: &'a [u8], function: Option<&str>) -> Result<&'a [u8], ObjectFault>
    ensures { MatchResult result (λ code. entry_of object.now (asked function.entry) ≡ Ok code.now)
        (λ fault. entry_of object.now (asked function.entry) ≡ Err fault) }
{
    match function {
        None => entry(object, None),
        Some(name) => entry(object, Some(name.as_bytes())),
    }
}

/// Returns why a named file cannot be used after `error` occurred while it was read: `Memory` if memory ran out, and a
/// report otherwise.
fn unread(alloc: Global, error: &io::Error, named: &Reference) -> Result<FileProblem, AllocError>
    ensures { IfOk result (IsUnread named.now (error_kind error.now)) }
{
    match error.kind() {
        ErrorKind::OutOfMemory => Ok(FileProblem::Memory),
        kind => Ok(FileProblem::Told {
            lines: told(alloc, "read", named)?,
            kind: Some(kind),
        }),
    }
}

/// Returns the name of a file as it is printed: on one line, with control characters escaped.
fn shown(alloc: Global, name: &str) -> Result<String, AllocError>
    ensures { IfOk result (λ text. IfSome (shown name.now) (λ own. string_bytes text ≡ own)) }
{
    format!(in alloc; "{}", FileName(name))
}

/// Returns the report on a named file that could not be read (`fault` is `read`) or is not UTF-8 (`fault` is `text`).
fn told(alloc: Global, fault: &str, named: &Reference) -> Result<String, AllocError>
    ensures { IfOk result (λ text. IsNamed named.now (fault_told named.now fault.now) (string_bytes text)) }
{
    let name = shown(alloc, named.name.as_str())?;
    fault_lines(alloc, fault, name.as_str(), named.index, named.key)
}

/// Returns the report on a named ELF object that has no code for the function.
fn refused(alloc: Global, fault: ObjectFault, named: &Reference) -> Result<String, AllocError>
    ensures { IfOk result (λ text. IsNamed named.now (refused_told named.now fault) (string_bytes text)) }
{
    let name = shown(alloc, named.name.as_str())?;
    refused_lines(alloc, fault, name.as_str(), named.index, named.key)
}

/// Returns two lines about a named file: `fault read NAME` or `fault text NAME`, and then the key `traitor[index].key`
/// under which the scenario names it. `name` is the file's name as it is printed.
fn fault_lines(
    alloc: Global,
    fault: &str,
    name: &str,
    index: usize,
    key: ReferenceKey,
) -> Result<String, AllocError>
    ensures { IfOk result (λ text. string_bytes text ≡ fault_lines index key fault.now name.now) }
{
    let key = key.reference();
    format!(in alloc; "fault {fault} {name}\nit is named by traitor[{index}].{key}")
}

/// Returns three lines about a named ELF object: the code of its fault, a sentence that explains the fault, and the key
/// `traitor[index].key` under which the scenario names the object. `name` is the file's name as it is printed.
fn refused_lines(
    alloc: Global,
    fault: ObjectFault,
    name: &str,
    index: usize,
    key: ReferenceKey,
) -> Result<String, AllocError>
    ensures { IfOk result (λ text. string_bytes text ≡ refused_lines index key fault name.now) }
{
    let key = key.reference();
    let sentence = sentence(fault);
    format!(in alloc; "refused {fault}\n{sentence}\n{name} is named by traitor[{index}].{key}")
}
