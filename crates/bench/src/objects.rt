//! Prints what the object reader finds in ELF objects. checks/objects compares it with the output of its model.

use anyhow::{Result, bail};
use std::fs;
use std::rt::Files;

/// Prints the code of an object's only global function, and of its functions with the given names, in hexadecimal.
/// After each function comes a line for each unit whose place in the source is known. If a function cannot be read,
/// its first fault is printed instead of its code.
///
/// The words are the object's file and the names of functions, or `--each` and the file of a list. Each line of this
/// list is an object in hexadecimal and the names of functions, separated by blanks. data/several.o is compiled by
/// clang from the second program of checks/objects.
pub fn answer<R: Print + Files + AllocGlobal>(rt: &R, words: &[String]) -> Result<()> {
    match words {
        [word, list] if word.as_str() == "--each" => {
            let text = fs::read_to_string(rt, list.as_str())?;
            for line in text.as_str().lines() {
                tell_line(rt, line)?;
            }
            Ok(())
        }
        [file, names @ ..] => {
            let object = fs::read(rt, file.as_str())?;
            tell(rt, "", object.as_slice(), None)?;
            for name in names {
                tell_named(rt, object.as_slice(), name.as_str())?;
            }
            Ok(())
        }
        [] => bail!("the words name no object"),
    }
}

/// Prints what the object reader finds in one line of a list: an object in hexadecimal, and names of its functions.
fn tell_line<R: Print + AllocGlobal>(rt: &R, line: &str) -> Result<()> {
    let mut words = line.split(' ');
    let Some(digits) = words.next() else {
        return Ok(());
    };
    let object = hex::decode(rt.alloc(), digits.as_bytes())?;
    tell(rt, "", object.as_slice(), None)?;
    for name in words {
        tell_named(rt, object.as_slice(), name)?;
    }
    Ok(())
}

/// Prints what the object reader finds in the object's function `name`.
fn tell_named<R: Print + AllocGlobal>(rt: &R, object: &[u8], name: &str) -> Result<()> {
    tell(rt, name, object, Some(name.as_bytes()))
}

/// Prints a function's name and its code in hexadecimal, or why it cannot be read, and then the known places of its
/// units in the source.
fn tell<R: Print + AllocGlobal>(
    rt: &R,
    name: &str,
    object: &[u8],
    entry: Option<&[u8]>,
) -> Result<()> {
    match object::entry(object, entry) {
        Ok(code) => {
            let code = hex::encode(rt.alloc(), code)?;
            println!(rt; "{name}: {code}")?;
        }
        Err(fault) => println!(rt; "{name}: refused {fault}")?,
    }
    let places = object::entry_places(rt.alloc(), object, entry)?;
    for (unit, place) in places.iter().enumerate() {
        if !place.is_empty() {
            println!(rt; " {unit} {place}")?;
        }
    }
    Ok(())
}
