//! The files that a scenario names, after they were read.
ghost use Rattle.std.specs.Prelude.{◌≡◌, ◌∷◌, [], IfOk, None, option_map, string_bytes};
ghost use Rattle.hex.specs.Hex.{encode_lower};
ghost use Rattle.scenario.specs.ReferenceNames.{are_same, text_named};
ghost use Rattle.scenario.specs.declared.reference_key.ReferenceKey.TheVariants.{Assembly, Bytecode, Object};

use crate::reference::copied;
use crate::reference_key::ReferenceKey;
use std::alloc::{AllocError, Global};
use std::marker::Model;

/// A file that a scenario names, after it was read. It has the key and the name by which a table refers to it, and the
/// text that replaces this reference. For an object file, it can also have the name of a function.
#[derive(Drop)]
pub struct LoadedFile {
    key: ReferenceKey,
    name: String,
    function: Option<String>,
    text: String,
}

impl Model for LoadedFile {
    ghost use Rattle.std.specs.Prelude.{option_map, string_bytes};
    ghost use Rattle.scenario.specs.ReferenceNames.{File};

    ghost Value = { File };

    ghost view = { λ f. record {
      key = f.key;
      name = string_bytes f.name;
      function = option_map string_bytes f.function;
      text = string_bytes f.text;
    } };
}

impl LoadedFile {
    /// Returns an assembly file with this name and this text.
    pub fn assembly(name: String, text: String) -> LoadedFile
        ensures { result ≡ record {
          key = Assembly;
          name = string_bytes name;
          function = None;
          text = string_bytes text;
        } }
    {
        LoadedFile {
            key: ReferenceKey::Assembly,
            name,
            function: None,
            text,
        }
    }

    /// Returns a bytecode file with this name and these bytes. In the scenario, the bytes in hex will replace its name.
    ///
    /// # Errors
    ///
    /// Fails with `AllocError` if an allocation fails.
    pub fn bytecode(alloc: Global, name: String, bytes: &[u8]) -> Result<LoadedFile, AllocError>
        ensures { IfOk result (λ f. f ≡ record {
          key = Bytecode;
          name = string_bytes name;
          function = None;
          text = encode_lower bytes.now;
        }) }
    {
        let text = hex::encode(alloc, bytes)?;
        Ok(LoadedFile {
            key: ReferenceKey::Bytecode,
            name,
            function: None,
            text,
        })
    }

    /// Returns an object file with this name. `code` is the code of `function`, or of the only global function if this
    /// is `None`. In the scenario, the code in hex will replace the file's name.
    ///
    /// # Errors
    ///
    /// Fails with `AllocError` if an allocation fails.
    pub fn object(
        alloc: Global,
        name: String,
        function: Option<&str>,
        code: &[u8],
    ) -> Result<LoadedFile, AllocError>
        ensures { IfOk result (λ f. f ≡ record {
          key = Object;
          name = string_bytes name;
          function = option_map (λ f. f.now) function.entry;
          text = encode_lower code.now;
        }) }
    {
        let text = hex::encode(alloc, code)?;
        Ok(LoadedFile {
            key: ReferenceKey::Object,
            name,
            function: copied(alloc, function)?,
            text,
        })
    }

    /// Returns the text that replaces the name of this file. Returns `None` if this key, name and function refer to
    /// another file.
    fn text_if(&self, key: ReferenceKey, name: &str, function: Option<&str>) -> Option<&str>
        ensures { option_map (λ t. t.now) result
            ≡ text_named (self.now ∷ []) key name.now (option_map (λ f. f.now) function.entry) }
    {
        if self.key.is_same(key)
            && self.name.as_str() == name
            && are_same(self.function.as_deref(), function)
        {
            return Some(self.text.as_str());
        }
        None
    }
}

/// Returns whether two names of functions are the same, or both `None`.
pub(crate) fn are_same(own: Option<&str>, other: Option<&str>) -> bool
    ensures { result ≡ are_same (option_map (λ f. f.now) own.entry) (option_map (λ f. f.now) other.entry) }
{
    match (own, other) {
        (None, None) => true,
        (Some(own), Some(other)) => own == other,
        (None, Some(_)) | (Some(_), None) => false,
    }
}

/// Returns the text that replaces the name of a file. It comes from the first file with this key, name and function,
/// and is `None` if there is no such file.
pub(crate) fn text_named<'a>(
    files: &'a [LoadedFile],
    key: ReferenceKey,
    name: &str,
    function: Option<&str>,
) -> Option<&'a str>
    ensures { option_map (λ t. t.now) result
        ≡ text_named files.now key name.now (option_map (λ f. f.now) function.entry) }
{
    for file in files {
        if let Some(text) = file.text_if(key, name, function) {
            return Some(text);
        }
    }
    None
}
