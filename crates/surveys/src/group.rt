//! Groups of campaigns that have the same number of generals, bound and number of traitors.
use crate::sums::Sums;

/// The counts of the outcomes of the campaigns with this number of generals, this bound and this number of traitors.
#[derive(Clone, Copy)]
pub struct Group {
    pub generals: u8,
    pub bound: u8,
    pub traitors: u8,
    pub sums: Sums,
    /// In how many of these campaigns the loyal lieutenants do not decide alike or do not obey a loyal commander.
    pub failed: u64,
}
