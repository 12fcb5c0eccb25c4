//! The verdict on a signed campaign, and what the algorithm promised.
ghost use Rattle.std.specs.Prelude.{◌≡◌, ◌++◌, string_bytes, OnOk};
ghost use Rattle.show_page.specs.SignedAccount.{verdict_part};

use crate::verdict::{bound_told, put_verdict_told};
use show_chains::bound_words;
use std::alloc::AllocError;
use world::Verdict;

/// Appends the verdict on a signed campaign: its outcome, and what the algorithm promises (TOPLAS 1982, Theorem 2).
pub(crate) fn put_verdict(out: &mut String, verdict: Verdict) -> Result<(), AllocError>
    ensures { OnOk result (string_bytes out.new ≡ string_bytes out.old ++ verdict_part verdict) }
{
    put_verdict_told(out, verdict, bound_told(verdict.bound, bound_words(false)))
}
