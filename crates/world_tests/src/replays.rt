//! Tests replays, in which the generals make their accesses in a given order. A replay must have the same text as the
//! campaign played by a schedule, even if the order names generals who make no access. The crate `rows` tests the texts
//! of campaigns played by schedules.

use crate::scenarios::{are_told_alike, played, replayed};
use crate::texts::{
    COLLUDING, FOUR, FOUR_AND_THREE_STEPS, FOUR_BY_MAJORITY, FOUR_BY_MEDIAN, LYING, NUMBERING,
    SEVEN, SEVEN_AND_THREE_STEPS, SEVEN_AND_TWO_STEPS, SILENT_TO_ONE, SWAYING, THREE_BY_MAJORITY,
    THREE_BY_MEDIAN, TWO_FACED, TWO_LOYAL,
};
use std::alloc::Global;

/// A campaign's keys and traitors, the generals who make its accesses in each round, in order, and a schedule with the
/// same result.
type Row = (
    &'static str,
    &'static str,
    &'static [&'static [u8]],
    &'static str,
);

/// Campaigns with orders of accesses, and schedules that lead to the same chronicles.
const REPLAYED: &[Row] = &[
    (FOUR, SWAYING, &[&[3, 3, 12], &[0], &[3]], ""),
    (FOUR_AND_THREE_STEPS, SWAYING, &[], ""),
    (TWO_LOYAL, "", &[], ""),
    (FOUR_BY_MEDIAN, NUMBERING, &[], ""),
    (FOUR_BY_MAJORITY, TWO_FACED, &[&[0], &[0]], ""),
    (FOUR_BY_MAJORITY, SILENT_TO_ONE, &[&[0], &[0]], ""),
    (FOUR_BY_MAJORITY, NUMBERING, &[&[0], &[0]], ""),
    (FOUR_BY_MEDIAN, NUMBERING, &[&[0], &[0]], ""),
    (THREE_BY_MAJORITY, LYING, &[], ""),
    (THREE_BY_MEDIAN, LYING, &[], ""),
    (SEVEN, COLLUDING, &[], ""),
    (SEVEN, COLLUDING, &[&[4]], "4*15"),
    (SEVEN, COLLUDING, &[&[4], &[1, 4, 12]], "4*15\n4*15"),
    (SEVEN_AND_THREE_STEPS, COLLUDING, &[], ""),
    (SEVEN_AND_TWO_STEPS, COLLUDING, &[], ""),
];

/// Returns whether a campaign's replay has the same text as the campaign played by the schedule of the row.
fn is_told_alike(alloc: Global, row: &Row) -> bool {
    let (keys, traitors, names, schedule) = *row;
    let Some(scheduled) = played(alloc, keys, traitors, schedule) else {
        return false;
    };
    let Some(by_names) = replayed(alloc, keys, traitors, names) else {
        return false;
    };
    are_told_alike(alloc, &scheduled, &by_names)
}

#[test]
fn replays_are_told_as_by_schedules(rt: HostRuntime) {
    let alloc = rt.alloc();
    for (place, row) in REPLAYED.iter().enumerate() {
        assert!(rt; is_told_alike(alloc, row), "row {place}");
    }
}
