//! Makes calls that resolve the trees of all lieutenants.
use crate::hostile_calls::campaign::SampleCampaign;
use crate::hostile_calls::marks::{back, ready};
use crate::hostile_calls::outcome::{CallAnswer, CallOutcome, compared};
use anyhow::Result;
use combine::Rule;
use label::unrank;
use resolve::resolve_all;
use std::alloc::{AllocError, Global};
use std::thread::Threads;
use tree::Tree;

/// Calls `resolve_all` twice on the trees of a campaign's lieutenants, and compares the results.
pub fn resolves<R: Print + Threads + Sync + AllocGlobal>(
    rt: &R,
    campaign: SampleCampaign,
) -> Result<CallOutcome> {
    let rule = rule_of(campaign);
    let trees = trees(rt.alloc(), campaign)?;
    ready(rt);
    let first = resolve_all(rt, rt.alloc(), trees.as_slice(), &rule);
    back(rt);
    let again = resolve_all(rt, rt.alloc(), trees.as_slice(), &rule);
    resolved(rt.alloc(), first, again)
}

/// Returns the decision rule of a sample campaign.
fn rule_of(campaign: SampleCampaign) -> Rule {
    match campaign {
        SampleCampaign::Four | SampleCampaign::Seven => Rule::Majority,
        SampleCampaign::Copying => Rule::Median,
    }
}

/// Compares the results of two calls of `resolve_all`, and returns the outcome.
fn resolved(
    alloc: Global,
    first: Result<Vec<u32>, AllocError>,
    again: Result<Vec<u32>, AllocError>,
) -> Result<CallOutcome> {
    let first = decided(alloc, first)?;
    compared(first, decided(alloc, again)?)
}

/// Returns the answer of `resolve_all`: the decisions, each as four bytes, or that memory ran out.
fn decided(alloc: Global, answer: Result<Vec<u32>, AllocError>) -> Result<CallAnswer, AllocError> {
    let Ok(decisions) = answer else {
        return Ok(CallAnswer::Memory);
    };
    let mut bytes = Vec::new(alloc);
    for decision in &decisions {
        bytes.extend_from_slice(&decision.to_le_bytes())?;
    }
    Ok(CallAnswer::Bytes(bytes))
}

/// Returns trees for a campaign's lieutenants: of four generals for `Four`, and otherwise of seven. The commander is
/// 0, and each entry is an order from 0 to 2.
fn trees(alloc: Global, campaign: SampleCampaign) -> Result<Vec<Tree>, AllocError> {
    match campaign {
        SampleCampaign::Four => trees_of_four(alloc),
        SampleCampaign::Seven | SampleCampaign::Copying => trees_of_seven(alloc),
    }
}

/// Returns filled trees for the lieutenants of four generals with commander 0.
fn trees_of_four(alloc: Global) -> Result<Vec<Tree>, AllocError> {
    let mut trees = Vec::new(alloc);
    for general in 1..4 {
        trees.push(filled(Tree::new(alloc, 4, 1, 0, general)?))?;
    }
    Ok(trees)
}

/// Returns filled trees for the lieutenants of seven generals with commander 0.
fn trees_of_seven(alloc: Global) -> Result<Vec<Tree>, AllocError> {
    let mut trees = Vec::new(alloc);
    for general in 1..7 {
        trees.push(filled(Tree::new(alloc, 7, 2, 0, general)?))?;
    }
    Ok(trees)
}

/// Fills a tree with a pseudorandom order from 0 to 2 for each label.
fn filled(mut tree: Tree) -> Tree {
    let space = tree.space();
    let mut order = u32::from(space.general);
    for size in 1..4 {
        for place in 0..20 {
            let Ok(label) = unrank(space, size, place) else {
                break;
            };
            order = order.wrapping_mul(5).wrapping_add(3);
            tree.fill(&label, Some((order >> 3) % 3));
        }
    }
    tree
}
