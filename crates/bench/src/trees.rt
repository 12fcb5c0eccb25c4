//! Times the ranking of labels, and the resolution of one tree and of twelve.

use crate::task::{Workload, report_task};
use crate::timing::nanoseconds;
use anyhow::{Result, bail};
use combine::Rule;
use label::{Label, Space, rank, unrank};
use resolve::{resolve, resolve_all};
use std::alloc::{AllocError, Global};
use std::rt::Clock;
use std::sync::Wait;
use std::thread::Threads;
use std::time::Instant;
use tree::Tree;

/// The labels that are ranked: labels among thirteen generals with commander 0 that general 12 is not on.
const SPACE: Space = Space {
    generals: 13,
    commander: 0,
    general: 12,
};

/// Returns all 7,920 labels of five generals in `SPACE`.
fn labels(alloc: Global) -> Result<Vec<Label>, AllocError> {
    let mut labels = Vec::new(alloc);
    for place in 0..7920 {
        if let Ok(label) = unrank(SPACE, 5, place) {
            labels.push(label)?;
        }
    }
    Ok(labels)
}

/// Returns the trees of twelve lieutenants. For each label they have a pseudorandom order, 0 or 1.
fn trees(alloc: Global) -> Result<Vec<Tree>, AllocError> {
    let mut trees = Vec::new(alloc);
    let mut state = 1;
    for general in 1..13 {
        trees.push(filled(Tree::new(alloc, 13, 4, 0, general)?, &mut state))?;
    }
    Ok(trees)
}

/// Fills a tree with a pseudorandom order, 0 or 1, for each label. `state` is the state of a linear congruential
/// generator.
fn filled(mut tree: Tree, state: &mut u64) -> Tree {
    let space = tree.space();
    for size in 1..6 {
        for place in 0..7920 {
            if let Ok(label) = unrank(space, size, place) {
                *state = state
                    .wrapping_mul(6364136223846793005)
                    .wrapping_add(1442695040888963407);
                tree.fill(&label, Some((*state >> 63) as u32));
            }
        }
    }
    tree
}

/// Returns how long it takes to rank all these labels, in nanoseconds. The ranks are added to `sum`.
pub fn rank_all<C: Clock>(clock: &C, labels: &[Label], sum: &mut u64) -> Result<u64> {
    let start = Instant::now(clock)?;
    for label in labels {
        *sum = sum.wrapping_add(rank(SPACE, label).map_or(0, u64::from));
    }
    nanoseconds(clock, start)
}

/// Returns how long it takes to resolve one tree, in nanoseconds. It is the tree at index `nth % trees.len()`. The
/// decision is added to `sum`.
pub fn resolve_one<C: Clock>(
    clock: &C,
    trees: &[Tree],
    rule: &Rule,
    nth: usize,
    sum: &mut u64,
) -> Result<u64> {
    let Some(tree) = trees.get(nth % trees.len().max(1)) else {
        bail!("a tree is wanted");
    };
    let start = Instant::now(clock)?;
    *sum = sum.wrapping_add(u64::from(resolve(tree, rule)));
    nanoseconds(clock, start)
}

/// Returns how long it takes to resolve all these trees one after another, in nanoseconds. The decisions are added to
/// `sum`.
pub fn resolve_in_turn<C: Clock>(clock: &C, trees: &[Tree], sum: &mut u64) -> Result<u64> {
    let start = Instant::now(clock)?;
    for tree in trees {
        *sum = sum.wrapping_add(u64::from(resolve(tree, &Rule::Majority)));
    }
    nanoseconds(clock, start)
}

/// Returns how long it takes to resolve all these trees in parallel, in nanoseconds.
pub fn resolve_at_once<R: Clock + Threads + Sync + AllocGlobal>(
    rt: &R,
    trees: &[Tree],
) -> Result<u64> {
    let start = Instant::now(rt)?;
    let _decisions = resolve_all(rt, rt.alloc(), trees, &Rule::Majority)?;
    nanoseconds(rt, start)
}

/// Times the ranking of labels and the resolution of trees. Each call is timed by itself, and successive calls of
/// `resolve` get different trees.
pub fn report_trees<R: Print + Eprint + Clock + Threads + Wait + Sync + AllocGlobal>(
    rt: &R,
) -> Result<()> {
    let labels = labels(rt.alloc())?;
    let ranks = Workload::Ranks(labels.as_slice());
    report_task(rt, "rank, labels of five generals: 7920 labels", &ranks)?;
    let trees = trees(rt.alloc())?;
    report_resolution(rt, trees.as_slice())
}

/// Times the resolution of one tree by each rule, and the resolution of all trees in turn and in parallel.
fn report_resolution<R: Print + Eprint + Clock + Threads + Wait + Sync + AllocGlobal>(
    rt: &R,
    trees: &[Tree],
) -> Result<()> {
    let what = "resolve, one tree, Majority: 9032 values";
    report_task(rt, what, &Workload::Tree(trees, Rule::Majority))?;
    let what = "resolve, one tree, Median: 9032 values";
    report_task(rt, what, &Workload::Tree(trees, Rule::Median))?;
    report_task(
        rt,
        "resolve, tree by tree: 12 trees",
        &Workload::Turns(trees),
    )?;
    report_task(rt, "resolve_all: 12 trees", &Workload::Halves(trees))
}
