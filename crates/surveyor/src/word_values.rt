//! Looks up the values of options that `clap` has parsed.
ghost use Rattle.std.specs.Prelude.{◌≡◌, if◌then◌else◌, None, map, option_map, unwrap_or};
ghost use Rattle.std.specs.List.{list_any};
ghost use Rattle.clap.specs.Words.{found_of, rows_of};
ghost use Rattle.surveyor.specs.Flags.{given, has, is_given};
ghost use Rattle.surveyor.specs.Meant.{names_in, value};

use clap::ArgMatches;
use clap::parser::ValueSource;

/// Returns the value of an option, or `true` for a switch. Returns `None` if it is not given on the command line.
pub fn given<'a>(found: &ArgMatches<'a>, name: &str) -> Option<&'a str>
    ensures { option_map (λ t. t.now) result ≡ given name.now (rows_of (found_of found.now)) }
{
    by_words(found.value_source(name), found.get_str(name))
}

/// Returns the value of an option if it was given on the command line, and `None` if it is a default.
fn by_words<'a>(source: Option<ValueSource>, text: Option<&'a str>) -> Option<&'a str>
    ensures { option_map (λ t. t.now) result ≡ (if is_given source then option_map (λ t. t.now) text.entry else None) }
{
    match source? {
        ValueSource::CommandLine => text,
        ValueSource::DefaultValue => None,
    }
}

/// Checks whether an option or a switch is given on the command line.
pub fn has(found: &ArgMatches, name: &str) -> bool
    ensures { result ≡ has name.now (rows_of (found_of found.now)) }
{
    given(found, name).is_some()
}

/// Checks whether at least one of these options and switches is given on the command line.
pub fn has_any(found: &ArgMatches, names: &[&str]) -> bool
    ensures { result ≡ list_any (λ name. has name.now (rows_of (found_of found.now))) names.now }
{
    names.iter().any(|name| has(found, name))
}

/// Returns the value of an option, or `without` if the option is not given.
pub fn value<'a>(found: &ArgMatches<'a>, name: &str, without: &'a str) -> &'a str
    ensures { result.now ≡ value name.now without.entry.now (rows_of (found_of found.now)) }
{
    match given(found, name) {
        Some(word) => word,
        None => without,
    }
}

/// Returns the names of the files given to `--sum`, or `None` if `--sum` is not given.
pub fn names<'m, 'a>(found: &'m ArgMatches<'a>) -> Option<&'m [&'a str]>
    ensures { option_map (λ names. map (λ name. name.now) names.now) result ≡ names_in (rows_of (found_of found.now)) }
{
    found.get_strs("sum")
}
