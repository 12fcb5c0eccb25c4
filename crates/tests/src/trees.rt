//! Tests of a lieutenant's tree: the sizes of its levels, the order of its labels, and decisions that are computed in
//! parallel.
ghost use Rattle.std.specs.Prelude.{◌≡◌};
ghost use Rattle.combine.specs.Rule.{majority};
ghost use Rattle.combine.specs.Laws.{majority_is_rule};

use combine::{Combine, Majority};
use label::{Label, Space, unrank};
use resolve::resolve_all;
use std::alloc::{AllocError, Global};
use std::hint::spin_loop;
use std::sync::atomic::{AtomicU32, Ordering};
use std::thread::Threads;
use tree::Tree;

/// The labels of thirteen generals with commander 0 that do not contain general 12.
const WIDE: Space = Space {
    generals: 13,
    commander: 0,
    general: 12,
};

/// Checks whether a tree has `values` orders for the labels of `size` generals.
fn has_level(tree: &Tree, size: u8, values: usize) -> bool {
    0 < size && size - 1 <= tree.bound() && tree.level(size).len() == values
}

/// Checks that the tree of a lieutenant among thirteen generals has 1, 11, 110, 990 and 7,920 orders for the labels of
/// 1 to 5 generals.
fn have_sizes(alloc: Global) -> bool {
    match Tree::new(alloc, 13, 4, 0, 12) {
        Ok(tree) => {
            has_level(&tree, 1, 1)
                && has_level(&tree, 2, 11)
                && has_level(&tree, 3, 110)
                && has_level(&tree, 4, 990)
                && has_level(&tree, 5, 7920)
        }
        Err(_) => false,
    }
}

#[test]
fn levels_of_thirteen_generals(rt: HostRuntime) {
    assert!(rt; have_sizes(rt.alloc()));
}

/// Checks whether the label of four generals with this rank is `parent`, which has three generals, followed by one
/// more.
fn is_child(parent: &Label, rank: u32) -> bool {
    match unrank(WIDE, 4, rank) {
        Ok(child) => child.len() == 4 && child.generals().starts_with(parent.generals()),
        Err(_) => false,
    }
}

/// Checks that the labels of four generals with ranks 981 to 989 begin with the last label of three generals, and that
/// the one with rank 980 does not.
fn stand_together() -> bool {
    let Ok(parent) = unrank(WIDE, 3, 109) else {
        return false;
    };
    for rank in 980..990 {
        if is_child(&parent, rank) != (rank > 980) {
            return false;
        }
    }
    true
}

#[test]
fn children_stand_together(rt: HostRuntime) {
    assert!(rt; stand_together());
    assert!(rt; unrank(WIDE, 4, 990).is_err());
}

/// The majority rule with a check that it is called in parallel: its first call waits until a second call has begun.
#[derive(Drop)]
struct Meeting<'a> {
    /// The number of calls that have begun.
    begun: &'a AtomicU32,
    /// How many calls waited although no second call began.
    missed: &'a AtomicU32,
}

/// How often the first call checks whether a second call has begun, before it gives up.
const TURNS: u32 = 100_000_000;

impl Combine for Meeting<'_> {
    ghost combined = { λ _. majority };

    fn combine(&self, orders: &[u32]) -> u32 {
        if self.begun.fetch_add(1, Ordering::SeqCst) == 0 && !is_joined(self.begun) {
            self.missed.fetch_add(1, Ordering::SeqCst);
        }
        Majority.combine(orders)
    }

    ghost most_decide = { λ _. majority_is_rule };
}

/// Waits until a second call of the rule has begun. Returns whether it has, or `false` after `TURNS` checks.
fn is_joined(begun: &AtomicU32) -> bool {
    for _ in 0..TURNS {
        if begun.load(Ordering::SeqCst) > 1 {
            return true;
        }
        spin_loop();
    }
    false
}

/// Builds the trees of lieutenants 1 and 2 among four generals. Commander 0 sent both the order 5, and lieutenant 3
/// relayed it to them.
fn told_five(alloc: Global) -> Result<Vec<Tree>, AllocError> {
    let mut trees = Vec::new(alloc);
    for general in 1..3 {
        let mut tree = Tree::new(alloc, 4, 1, 0, general)?;
        tree.fill(&Label::of(0), Some(5));
        tree.fill(&Label::of(0).with(3), Some(5));
        trees.push(tree)?;
    }
    Ok(trees)
}

/// Checks whether both lieutenants with these trees decide on the order 5.
fn decide_for_five<R: Threads + Sync>(
    rt: &R,
    alloc: Global,
    trees: &[Tree],
    rule: &Meeting<'_>,
) -> bool {
    match resolve_all(rt, alloc, trees, rule) {
        Ok(decisions) => decisions.as_slice() == [5, 5].as_slice(),
        Err(_) => false,
    }
}

/// Checks whether the decisions from these two trees are computed in parallel: whether the rule is called twice, and
/// its first call does not wait in vain.
fn are_resolved_at_once<R: Threads + Sync>(rt: &R, alloc: Global, trees: &[Tree]) -> bool {
    let begun = AtomicU32::new(0);
    let missed = AtomicU32::new(0);
    let rule = Meeting {
        begun: &begun,
        missed: &missed,
    };
    decide_for_five(rt, alloc, trees, &rule)
        && begun.load(Ordering::SeqCst) == 2
        && missed.load(Ordering::SeqCst) == 0
}

/// Checks whether the decisions of two lieutenants are computed in parallel.
fn halves_meet<R: Threads + Sync>(rt: &R, alloc: Global) -> bool {
    match told_five(alloc) {
        Ok(trees) => are_resolved_at_once(rt, alloc, trees.as_slice()),
        Err(_) => false,
    }
}

#[test]
fn halves_are_worked_on_at_once(rt: HostRuntime) {
    assert!(rt; halves_meet(&rt, rt.alloc()));
}
