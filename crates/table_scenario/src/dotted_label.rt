//! Writes labels.
ghost use Rattle.std.specs.Prelude.{◌≡◌, ◌∷◌, IfOk, string_bytes};
ghost use Rattle.book.specs.Explained.{dotted};

use label::Label;
use std::alloc::{AllocError, Global};

/// Returns a label as text: the numbers of its generals joined by dots, such as `0.2.3`.
pub(crate) fn dotted(alloc: Global, label: &Label) -> Result<String, AllocError>
    ensures { IfOk result (λ text. string_bytes text ≡ dotted label.now) }
{
    match label.generals() {
        [] => Ok(String::new(alloc)),
        [first, rest @ ..] => joined(alloc, *first, rest),
    }
}

/// Returns the label of `first` and then the generals `rest` as text, such as `0.2.3`.
fn joined(alloc: Global, first: u8, rest: &[u8]) -> Result<String, AllocError>
    ensures { IfOk result (λ text. string_bytes text ≡ dotted (first ∷ rest.now)) }
{
    let mut text = format!(in alloc; "{first}")?;
    for general in rest {
        let next = format!(in alloc; ".{general}")?;
        text.push_str(next.as_str())?;
    }
    Ok(text)
}
