//! Prints the message of `clap` about a wrong command line.
use streams::{Escaped, Kept};

/// Prints on standard error why `clap` rejects the command line. Control characters in the message are escaped, except
/// line feeds. If memory runs out, prints only `out of memory`.
pub fn print_mistake(rt: &HostRuntime, refusal: &clap::Error) {
    let Ok(text) = format!(in rt.alloc(); "{refusal}") else {
        let _ = rt.eprintln("out of memory");
        return;
    };
    let _ = rt.eprint(Escaped {
        text: text.as_str(),
        kept: Kept::LineFeed,
    });
}
