//! Runs over two tables with keys whose texts are cut off.

use crate::device_cases::KEYS;
use crate::devices::ORDERS;
use crate::running::{Order, run_in};
use csvw_engine::Stop;
use csvw_triples_core::Mode;
use std::alloc::Global;
use std::process::Abort;

/// The texts of the first table and of the second: numbers alone, and numbers in quotes.
const TEXTS: [[&str; 2]; 2] = [
    ["ref\n9\n1\n2\n\n", "k\n1\n01\n2\n"],
    ["\"ref\"\r\n\"9\"\r\n\"1\"\r\n", "\"k\"\r\n\"1\"\r\n01\r\n"],
];

/// Returns whether a run over two texts is Ok, or stops in a row.
fn ends_in_text(alloc: Global, first: &str, second: &str, order: Order) -> bool {
    match run_in(alloc, KEYS, &[first, second], Mode::Minimal, order) {
        Ok(ran) => matches!(
            ran.stop,
            None | Some(Stop::Rows {
                table: _,
                row: _,
                stop: _
            }) | Some(Stop::Table {
                table: _,
                row: _,
                stop: _
            })
        ),
        Err(_) => false,
    }
}

/// Returns whether that is so for each cut of the second text.
fn each_ends_in_text(alloc: Global, first: &str, second: &str, order: Order) -> bool {
    for (at, _) in second.char_indices() {
        let Some(front) = second.get(..at) else {
            return false;
        };
        if !ends_in_text(alloc, first, front, order) {
            return false;
        }
    }
    ends_in_text(alloc, first, second, order)
}

/// Returns whether that is so for each cut of both texts.
fn each_pair_ends_in_text(alloc: Global, first: &str, second: &str, order: Order) -> bool {
    for (at, _) in first.char_indices() {
        let Some(front) = first.get(..at) else {
            return false;
        };
        if !each_ends_in_text(alloc, front, second, order) {
            return false;
        }
    }
    each_ends_in_text(alloc, first, second, order)
}

#[test]
fn texts_that_are_cut_off_end_in_their_rows(rt: HostRuntime) {
    let alloc = rt.alloc();
    for [first, second] in TEXTS {
        for order in ORDERS {
            assert!(rt;
                each_pair_ends_in_text(alloc, first, second, order),
                "{first:?}"
            );
        }
    }
}
