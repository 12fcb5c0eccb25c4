//! Defines the entries of an outbox in a signed campaign. An entry signs a new order, or passes on a chain that the
//! general holds.
ghost use Rattle.std.specs.Prelude.{◌≡◌, ◌≤◌, ◌↔◌, [], length, IfOk, IsTrue};
ghost use Rattle.label.specs.Relay.{IsShape};
ghost use Rattle.semantics.specs.Relay.{signed};
ghost use Rattle.semantics.specs.Entries.{is_sendable, is_entered, entered};
ghost use Rattle.outbox.specs.Contents.{kind_of};

use crate::mask::has_bit;
use arrayvec::ArrayVec;
use label::Shape;
use semantics::Entry;
use std::alloc::{AllocError, Global};
use std::marker::Model;

/// The contents of an outbox in a signed campaign: the signers of each chain that the general holds, and his entries of
/// the round, at most 8.
#[derive(Drop)]
pub(crate) struct Signing {
    /// The set of the signers of each chain that the general holds. Bit g is set if general g has signed.
    held: Vec<u16>,
    entries: ArrayVec<Entry, 8>,
}

impl Model for Signing {
    ghost use Rattle.outbox.specs.Contents.{Signing as Signed};

    ghost Value = { Signed };

    ghost view = { λ s. record { held = s.held.items; entries = s.entries.items } };
}

impl Signing {
    /// Returns a signed outbox without entries. Each number of `held` has the signers of one chain that the general
    /// holds: bit `g` is for general `g`. Fails with `AllocError` if it runs out of memory.
    pub fn new(alloc: Global, held: &[u16]) -> Result<Signing, AllocError>
        ensures { IfOk result (λ signing. signing ≡ record { held = held.now; entries = [] }) }
    {
        Ok(Signing {
            held: copied_signers(alloc, held)?,
            entries: ArrayVec::new(),
        })
    }

    /// Returns the entries in the order in which they were added.
    pub fn entries(&self) -> &[Entry]
        ensures same { result.now ≡ self.now.entries }
        ensures few { length self.now.entries ≤ 8 }
    {
        self.entries.as_slice()
    }

    /// Adds an entry if the general may sign its chain and there are fewer than 8 entries. Returns whether it was
    /// added.
    pub fn enter(&mut self, shape: Shape, entry: Entry) -> bool
        requires { IsShape shape }
        ensures held { self.new.held ≡ self.old.held }
        ensures entries { self.new.entries ≡ entered (signed shape self.old.held) self.old.entries entry }
        ensures taken { result ≡ is_entered (signed shape self.old.held) self.old.entries entry }
    {
        if !self.may_send(shape, entry) || self.entries.len() >= 8 {
            return false;
        }
        self.entries.push(entry);
        true
    }

    /// Returns whether the general may sign the entry's chain. Only the commander may sign a new order. Any general may
    /// sign a chain that he holds and has not signed yet.
    fn may_send(&self, shape: Shape, entry: Entry) -> bool
        requires { IsShape shape }
        ensures { result ≡ is_sendable (signed shape self.now.held) entry }
    {
        match entry {
            Entry::Sign { .. } => shape.general == shape.commander,
            Entry::Pass { held, .. } => match self.held.get(usize::from(held)) {
                None => false,
                Some(signers) => !has_bit(*signers, shape.general),
            },
        }
    }

    /// Returns a copy. Fails with `AllocError` if it runs out of memory.
    fn copy(&self, alloc: Global) -> Result<Signing, AllocError>
        ensures { IfOk result (λ signing. signing ≡ self.now) }
    {
        Ok(Signing {
            held: copied_signers(alloc, self.held.as_slice())?,
            entries: copied_entries(self.entries.as_slice()),
        })
    }

    /// Returns whether both have the same signers of each chain and the same entries.
    fn same(&self, other: &Signing) -> bool
        ensures { IsTrue result ↔ (self.now ≡ other.now) }
    {
        same_signers(self.held.as_slice(), other.held.as_slice())
            && same_entries(self.entries.as_slice(), other.entries.as_slice())
    }
}

/// Returns a copy of the contents, or `None` if there are none. Fails with `AllocError` if it runs out of memory.
pub(crate) fn copied_signing(
    alloc: Global,
    signing: &Option<Signing>,
) -> Result<Option<Signing>, AllocError>
    ensures { IfOk result (λ copy. copy ≡ signing.now) }
{
    match signing {
        None => Ok(None),
        Some(signing) => Ok(Some(signing.copy(alloc)?)),
    }
}

/// Returns whether both are `None`, or both have the same signers of each chain and the same entries.
pub(crate) fn same_signing(one: &Option<Signing>, other: &Option<Signing>) -> bool
    ensures { IsTrue result ↔ (one.now ≡ other.now) }
{
    match (one, other) {
        (None, None) => true,
        (Some(one), Some(other)) => one.same(other),
        _ => false,
    }
}

/// Returns whether both signing states are absent, or both are present and have the same signers of each held chain.
pub(crate) fn same_held(one: &Option<Signing>, other: &Option<Signing>) -> bool
    ensures { IsTrue result ↔ (kind_of one.now ≡ kind_of other.now) }
{
    match (one, other) {
        (None, None) => true,
        (Some(one), Some(other)) => same_signers(one.held.as_slice(), other.held.as_slice()),
        _ => false,
    }
}

/// Returns whether two lists of signer sets are equal.
fn same_signers(signers: &[u16], others: &[u16]) -> bool
    ensures { IsTrue result ↔ (signers.now ≡ others.now) }
{
    signers == others
}

/// Returns whether two lists of entries are equal.
fn same_entries(entries: &[Entry], others: &[Entry]) -> bool
    ensures { IsTrue result ↔ (entries.now ≡ others.now) }
{
    if entries.len() != others.len() {
        return false;
    }
    for place in 0..entries.len() {
        if !same_entry(entries[place], others[place]) {
            return false;
        }
    }
    true
}

/// Returns whether two entries are equal.
fn same_entry(entry: Entry, other: Entry) -> bool
    ensures { IsTrue result ↔ (entry ≡ other) }
{
    match (entry, other) {
        (
            Entry::Sign { order, receivers },
            Entry::Sign {
                order: signed,
                receivers: named,
            },
        ) => order == signed && receivers == named,
        (
            Entry::Pass { held, receivers },
            Entry::Pass {
                held: passed,
                receivers: named,
            },
        ) => held == passed && receivers == named,
        _ => false,
    }
}

/// Returns a copy of a list of signer sets. Fails with `AllocError` if it runs out of memory.
fn copied_signers(alloc: Global, signers: &[u16]) -> Result<Vec<u16>, AllocError>
    ensures { IfOk result (λ copy. copy.items ≡ signers.now) }
{
    let mut copy = Vec::with_capacity(alloc, signers.len())?;
    for mask in signers {
        copy.push(*mask)?;
    }
    Ok(copy)
}

/// Returns a copy of a list of at most 8 entries.
fn copied_entries(entries: &[Entry]) -> ArrayVec<Entry, 8>
    requires { length entries.now ≤ 8 }
    ensures { result.items ≡ entries.now }
{
    let mut copy = ArrayVec::new();
    for entry in entries {
        copy.push(*entry);
    }
    copy
}
