//! Defines why there is no message table that breaks a rule, for the numbers of a campaign.
use book::TableError;
use std::alloc::AllocError;
use std::error::Error;
use std::fmt;

/// Why there is no message table that breaks a rule.
#[derive(Clone, Copy, Debug, PartialEq, Eq, Drop)]
pub enum RefutationError {
    /// No message table can have these numbers, or memory ran out.
    Table(TableError),
    /// There are more than 3m generals, who tolerate m traitors, so no message table breaks the rule.
    Enough,
}

impl From<TableError> for RefutationError {
    ghost use Rattle.std.specs.Prelude.{◌≡◌};
    ghost use Rattle.bounds.specs.declared.refusal.RefutationError.TheVariants.{Table};

    ghost from_gives = { λ error e. e ≡ Table error };

    fn from(error: TableError) -> RefutationError {
        RefutationError::Table(error)
    }
}

impl From<AllocError> for RefutationError {
    ghost use Rattle.std.specs.Prelude.{◌≡◌};
    ghost use Rattle.bounds.specs.Refutation.{no_memory};

    ghost from_gives = { λ _ e. e ≡ no_memory };

    fn from(_error: AllocError) -> RefutationError {
        RefutationError::Table(TableError::Memory)
    }
}
