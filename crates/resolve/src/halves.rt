//! Resolves many trees in parallel (fork and join): computes what the lieutenant of each tree decides.
ghost use Rattle.std.specs.Prelude.{IfOk};
ghost use Rattle.std.specs.List.{AllZip};
ghost use Rattle.resolve.specs.Decided.{Decides};

use crate::level::resolve_by_levels;
use combine::Combine;
use std::alloc::{AllocError, Global};
use std::thread;
use std::thread::Threads;
use tree::Tree;

/// Returns the decision of each tree's lieutenant. The trees are resolved one after another.
fn in_turn<C: Combine + Sync, R: Threads + Sync>(
    rt: &R,
    alloc: Global,
    trees: &[Tree],
    rule: &C,
) -> Result<Vec<u32>, AllocError>
    ensures { IfOk result (λ v. AllZip (Decides (C.combined rule.now)) trees.now v.items) }
{
    let mut decisions = Vec::with_capacity(alloc, trees.len())?;
    for tree in trees {
        decisions.push(resolve_by_levels(rt, alloc, tree, rule)?)?;
    }
    Ok(decisions)
}

/// Returns the decision of each tree's lieutenant by this rule, in the order of the trees. A decision is the one that
/// `resolve` returns for the tree.
///
/// The first and the second half of the trees are resolved in parallel, by fork and join. If no thread can be
/// started, the caller resolves both halves. Within a tree the labels of a level are combined in parallel. Several
/// threads may call the rule at the same time.
///
/// # Errors
///
/// Fails with `AllocError` if there is no memory for the decisions or for a level of them.
pub fn resolve_all<C: Combine + Sync, R: Threads + Sync>(
    rt: &R,
    alloc: Global,
    trees: &[Tree],
    rule: &C,
) -> Result<Vec<u32>, AllocError>
    ensures { IfOk result (λ v. AllZip (Decides (C.combined rule.now)) trees.now v.items) }
{
    let (front, back) = trees.split_at(trees.len() / 2);
    let (first, second) = thread::join(
        rt,
        || -> Result<Vec<u32>, AllocError>
            ensures { IfOk result (λ v. AllZip (Decides (C.combined rule.entry.now)) front.entry.now v.items) }
        { in_turn(rt, alloc, front, rule) },
        || -> Result<Vec<u32>, AllocError>
            ensures { IfOk result (λ v. AllZip (Decides (C.combined rule.entry.now)) back.entry.now v.items) }
        { in_turn(rt, alloc, back, rule) },
    );
    let mut all = first?;
    let mut rest = second?;
    all.append(&mut rest)?;
    Ok(all)
}
