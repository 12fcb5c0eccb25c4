//! Tests of message tables, and of the lieutenants' decisions.

use book::{TableError, TableFault, decision, decisions, read_table};
use std::alloc::Global;

/// Checks whether the lieutenants of a message table decide on these orders, in ascending order of the lieutenants.
fn decides(alloc: Global, text: &str, orders: &[u32]) -> bool {
    match read_table(alloc, text) {
        Ok(table) => decisions(&table).as_slice() == orders,
        Err(_) => false,
    }
}

/// Checks whether a message table is rejected with this fault at this line, counted from 1.
fn refuses(alloc: Global, text: &str, fault: TableFault, line: u64) -> bool {
    match read_table(alloc, text) {
        Ok(_) => false,
        Err(error) => error == TableError::At(fault, line),
    }
}

/// Message tables of four generals with a commander who is a traitor, and the orders on which the lieutenants decide.
/// In the first he orders two of three lieutenants to attack, in the second he sends nothing to the last one, and in
/// the third he sends each a different order.
const TRAITORS: &[(&str, &[u32])] = &[
    (
        "generals 4 bound 1 commander 0\ntell 0 1 1\ntell 0 2 0\ntell 0 3 1\ntell 0.1 2 1\ntell 0.1 3 1\n\
         tell 0.2 1 0\ntell 0.2 3 0\ntell 0.3 1 1\ntell 0.3 2 1\n",
        &[1, 1, 1],
    ),
    (
        "generals 4 bound 1 commander 0\ntell 0 1 1\ntell 0 2 0\ntell 0.1 2 1\ntell 0.1 3 1\ntell 0.2 1 0\n\
         tell 0.2 3 0\ntell 0.3 1 0\ntell 0.3 2 0",
        &[0, 0, 0],
    ),
    (
        "generals 4 bound 1 commander 0\ntell 0 1 1\ntell 0 2 2\ntell 0 3 3\ntell 0.1 2 1\ntell 0.1 3 1\n\
         tell 0.2 1 2\ntell 0.2 3 2\ntell 0.3 1 3\ntell 0.3 2 3\n",
        &[0, 0, 0],
    ),
];

#[test]
fn one_traitor(rt: HostRuntime) {
    let alloc = rt.alloc();
    for (row, &(text, orders)) in TRAITORS.iter().enumerate() {
        assert!(rt; decides(alloc, text, orders), "row {row}");
    }
}

/// A message table of three generals. Lieutenant 2 relays a different order to general 1 than the one that he received.
const THREE: &str =
    "generals 3 bound 1 commander 0\ntell 0 1 1\ntell 0 2 1\ntell 0.1 2 1\ntell 0.2 1 0\n";

/// Checks whether general 1 decides on 0, which is RETREAT, by the table `THREE`.
fn retreats(alloc: Global) -> bool {
    match read_table(alloc, THREE) {
        Ok(table) => { table.generals() == 3 && table.commander() == 0 && decision(&table, 1) == 0 }
        Err(_) => false,
    }
}

#[test]
fn too_few_generals(rt: HostRuntime) {
    assert!(rt; retreats(rt.alloc()));
}

/// Message tables without some of the messages, and the orders on which the lieutenants decide.
const MISSING: &[(&str, &[u32])] = &[
    ("generals 2 bound 0 commander 0\ntell 0 1 7\n", &[7]),
    (
        "generals 4 bound 2 commander 0\ntell 0 1 1\ntell 0 2 1\ntell 0 3 1\ntell 0.2 1 1\ntell 0.2.3 1 1\n",
        &[1, 0, 0],
    ),
    (
        "generals 4 bound 2 commander 0\ntell 0 1 1\ntell 0 2 1\ntell 0 3 1\ntell 0.2 1 1\n",
        &[0, 0, 0],
    ),
];

#[test]
fn messages_missing(rt: HostRuntime) {
    let alloc = rt.alloc();
    for (row, &(text, orders)) in MISSING.iter().enumerate() {
        assert!(rt; decides(alloc, text, orders), "row {row}");
    }
}

/// Message tables that are rejected, each with its fault and the line of the fault.
const REFUSED: &[(&str, TableFault, u64)] = &[
    ("generals 3 bound 2 commander 0", TableFault::Range, 1),
    // The receiver is on the label.
    (
        "generals 4 bound 1 commander 0\ntell 0.1 1 5\n",
        TableFault::Place,
        2,
    ),
    (
        "generals 4 bound 1 commander 0\ntell 0 1 1\ntell 0 1 1\n",
        TableFault::Twice,
        3,
    ),
    // The order is 2^32, which is too large.
    (
        "generals 4 bound 1 commander 0\ntell 0 1 4294967296\n",
        TableFault::Line,
        2,
    ),
    ("", TableFault::Line, 1),
];

/// Checks whether an error is displayed as the text `expected`.
fn is_printed(alloc: Global, error: TableError, expected: &str) -> bool {
    match error.to_string(alloc) {
        Ok(text) => text.as_str() == expected,
        Err(_) => false,
    }
}

#[test]
fn faults(rt: HostRuntime) {
    let alloc = rt.alloc();
    for (row, &(text, fault, line)) in REFUSED.iter().enumerate() {
        assert!(rt; refuses(alloc, text, fault, line), "row {row}");
    }
    assert!(rt; is_printed(alloc, TableError::At(TableFault::Place, 2), "B3 line 2"));
}
