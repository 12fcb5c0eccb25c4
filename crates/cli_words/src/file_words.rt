//! Splits words that name several files into one request for each file, which the switch `--verdicts` allows.
ghost use Rattle.std.specs.Prelude.{◌≡◌, ◌∷◌, IfOk, List, [], codes, false, map, option_map};
ghost use Rattle.std.specs.List.{list_any};
ghost use Rattle.std.specs.Str.{bytes_eq};
ghost use Rattle.cli_words.specs.Asked.{words_of};
ghost use Rattle.cli_words.specs.Several.{are_several, is_flag, is_option, judging, onto, pairs, parted, parted_of, request_of, requests_of, singles};
ghost use Rattle.cli_words.specs.Subcommand.{flag_of, usage_of};
ghost use Rattle.cli_words.specs.Usage.{Text};

use crate::subcommand::{Flag, Subcommand};
use crate::subcommands::{AUDIT, CHECK, PLAY};
use std::alloc::{AllocError, Global};

/// The words after the name of a subcommand: those that apply to each file, and the names of the files.
#[derive(Drop)]
struct Parts<'a> {
    kept: Vec<&'a str>,
    files: Vec<&'a str>,
}

/// Splits the words of the command line into requests. A request has the subcommand's name, the words of the flags,
/// `--`, and the file or files. If `check`, `play` or `audit` has the switch `--verdicts`, there is one request for
/// each file, and for `audit` one for each scenario with its chronicle.
///
/// For other words, the words themselves are the only request. This is also so if there are no files, or if `audit` has
/// an odd number of files.
///
/// # Errors
///
/// Fails with `AllocError` if there is not enough memory.
pub fn each<'a>(alloc: Global, words: &[&'a str]) -> Result<Vec<Vec<&'a str>>, AllocError>
    ensures { IfOk result (λ requests. map (λ request. words_of request.items) requests.items
        ≡ requests_of (words_of words.now)) }
{
    let Some((name, rest)) = words.split_first() else {
        return alone(alloc, words);
    };
    let Some(subcommand) = judging(name) else {
        return alone(alloc, words);
    };
    let parts = parted(alloc, subcommand.flags, rest)?;
    let number = subcommand.places.len();
    if !parts.are_several(number) {
        return alone(alloc, words);
    }
    if number == 2 {
        parts.pairs(alloc, *name)
    } else {
        parts.singles(alloc, *name)
    }
}

/// Returns the subcommand with this name if it has the switch `--verdicts`, which `check`, `play` and `audit` have, and
/// otherwise `None`.
fn judging(name: &str) -> Option<Subcommand<'static>>
    ensures { option_map usage_of result ≡ judging name.now }
{
    match name {
        "check" => Some(CHECK),
        "play" => Some(PLAY),
        "audit" => Some(AUDIT),
        _ => None,
    }
}

/// Returns one request, which has all of these words.
fn alone<'a>(alloc: Global, words: &[&'a str]) -> Result<Vec<Vec<&'a str>>, AllocError>
    ensures { IfOk result (λ requests. map (λ request. words_of request.items) requests.items
        ≡ words_of words.now ∷ []) }
{
    let mut request = Vec::new(alloc);
    request.extend_from_slice(words)?;
    let mut requests = Vec::new(alloc);
    requests.push(request)?;
    Ok(requests)
}

/// Checks whether a word begins with a hyphen and is longer than that.
fn is_flag(word: &str) -> bool
    ensures { result ≡ is_flag word.now }
{
    word.as_bytes().starts_with(b"-") && word != "-"
}

/// Checks whether the word is this flag with two hyphens, as in `--of`, and the flag takes the next word as its value.
fn is_option(flag: &Flag, word: &str) -> bool
    ensures { result ≡ is_option word.now (flag_of flag.now) }
{
    match (flag, word.as_bytes().strip_prefix(b"--")) {
        (Flag::Option { name, .. }, Some(own)) => own == name.as_bytes(),
        _ => false,
    }
}

/// Checks whether the word is one of these flags and takes the next word as its value.
fn wants_value(flags: &[Flag], word: &str) -> bool
    ensures { result ≡ list_any (λ flag. is_option word.now (flag_of flag)) flags.now }
{
    flags.iter().any(|flag| is_option(flag, word))
}

/// Splits the words after the name of a subcommand with these flags into those that apply to each file, and the names
/// of the files.
fn parted<'a>(alloc: Global, flags: &[Flag], words: &[&'a str]) -> Result<Parts<'a>, AllocError>
    ensures { IfOk result (λ parts. parted_of parts ≡ parted (map flag_of flags.now) false (words_of words.now)) }
{
    let mut parts = Parts {
        kept: Vec::new(alloc),
        files: Vec::new(alloc),
    };
    let mut is_value = false;
    for index in 0..words.len() {
        let word = words[index];
        if !is_value && word == "--" {
            parts.files.extend_from_slice(&words[index + 1..])?;
            return Ok(parts);
        }
        is_value = parts.take(flags, is_value, word)?;
    }
    Ok(parts)
}

impl<'a> Parts<'a> {
    /// Adds one more word: the value of an option if `is_value` is true, and otherwise a flag or the name of a file,
    /// but not `--`. Returns whether the next word is the value of an option.
    fn take(&mut self, flags: &[Flag], is_value: bool, word: &'a str) -> Result<bool, AllocError>
        requires { is_value ≡ false → bytes_eq word.now (codes "--") ≡ false }
        ensures { IfOk result (λ next. (rest : List Text) →
            onto (parted_of self.new) (parted (map flag_of flags.now) next rest)
            ≡ onto (parted_of self.old) (parted (map flag_of flags.now) is_value (word.now ∷ rest))) }
    {
        if is_value {
            self.kept.push(word)?;
            return Ok(false);
        }
        if is_flag(word) {
            self.kept.push(word)?;
            return Ok(wants_value(flags, word));
        }
        self.files.push(word)?;
        Ok(false)
    }

    /// Checks whether one of the words is the switch `--verdicts`.
    fn have_switch(&self) -> bool
        ensures { result ≡ list_any (λ word. bytes_eq word.now (codes "--verdicts")) self.now.kept.items }
    {
        self.kept.iter().any(|word| *word == "--verdicts")
    }

    /// Checks whether the words make several requests: they have the switch `--verdicts`, and at least one file. If a
    /// request needs two files, `number` is 2, and the number of files must be even.
    #[tactic(auto, using(crate::proofs::SeveralLemmas::any_word, crate::proofs::SeveralLemmas::as_many))]
    fn are_several(&self, number: usize) -> bool
        ensures { result ≡ are_several number (parted_of self.now) }
    {
        let files = self.files.len();
        self.have_switch() && files != 0 && (number != 2 || files % 2 == 0)
    }

    /// Returns the words of a request for these files, with the words that apply to each file.
    fn request(
        &self,
        alloc: Global,
        name: &'a str,
        files: &[&'a str],
    ) -> Result<Vec<&'a str>, AllocError>
        ensures { IfOk result (λ request. words_of request.items
            ≡ request_of name.now (parted_of self.now).kept (words_of files.now)) }
    {
        let mut request = Vec::new(alloc);
        request.push(name)?;
        request.extend_from_slice(self.kept.as_slice())?;
        request.push("--")?;
        request.extend_from_slice(files)?;
        Ok(request)
    }

    /// Returns the words of a request for each file.
    fn singles(&self, alloc: Global, name: &'a str) -> Result<Vec<Vec<&'a str>>, AllocError>
        ensures { IfOk result (λ requests. map (λ request. words_of request.items) requests.items
            ≡ map (request_of name.now (parted_of self.now).kept) (singles (parted_of self.now).files)) }
    {
        let mut requests = Vec::new(alloc);
        for file in &self.files {
            requests.push(self.request(alloc, name, &[*file])?)?;
        }
        Ok(requests)
    }

    /// Returns the words of a request for each pair of files, a scenario and its chronicle.
    fn pairs(&self, alloc: Global, name: &'a str) -> Result<Vec<Vec<&'a str>>, AllocError>
        ensures { IfOk result (λ requests. map (λ request. words_of request.items) requests.items
            ≡ map (request_of name.now (parted_of self.now).kept) (pairs (parted_of self.now).files)) }
    {
        let mut requests = Vec::new(alloc);
        let mut rest = self.files.as_slice();
        while let [scenario, chronicle, behind @ ..] = rest {
            requests.push(self.request(alloc, name, &[*scenario, *chronicle])?)?;
            rest = behind;
        }
        Ok(requests)
    }
}
