// Tables: what opens, and each refusal at its place.
use crate::evidence::told;
use reader::{Step, Table};
use std::alloc::{AllocError, Global};
use std::test::Fail;

// Two states; input 1, output 2; a step under each, and one internal step; state 1 is an error.
const GOOD: &[u8] =
    b"\x02\x00\x01\x00\x02\x00\x02\x00\x02\x00\x01\x01\x02\x00\x02\x00\x02\x02\x03\x00\x03\x00\x00\x01\x01\x03\x00\x03\x00\x01\x02\x00\x03\x00\x03\x00\x01\x00\x00\x01\x00\x04\x00\x01\x00\x00\x05\x00";

// Where the records of the good table begin.
const STARTS: [u32; 8] = [0, 6, 12, 18, 25, 32, 39, 44];

// Whether the bytes open, or the number and the place of their refusal.
fn verdict(bytes: &[u8]) -> Result<(), (u8, u32)> {
    Table::resting()
        .open(bytes)
        .map_err(|fault| told(fault.into()))
}

#[test]
fn a_good_table_opens(rt: HostRuntime) {
    let mut table = Table::resting();
    assert!(rt; table.open(GOOD).is_ok());
    let row = table.row();
    assert_eq!(rt; (row.states, row.start, row.count), (2, 0, 3));
    let ways = [1, 2, 3].map(|action| row.way(action).number());
    assert_eq!(rt; ways, [1, 2, 0]);
    for (from, action, to) in [(0, 1, 1), (1, 2, 0), (1, 0, 0)] {
        assert!(rt; row.has_step(Step { from, action, to }));
    }
    assert_eq!(rt; (row.is_error(0), row.is_error(1)), (false, true));
}

#[test]
fn a_refusal_leaves_the_table(rt: HostRuntime) {
    let mut table = Table::resting();
    assert!(rt; table.open(GOOD).is_ok());
    assert!(rt; table.open(b"\x02\x00\x01\x00\x01\x00").is_err());
    let row = table.row();
    assert_eq!(rt; (row.states, row.count, row.is_error(1)), (2, 3, true));
}

#[test]
fn a_resting_table_rests(rt: HostRuntime) {
    let table = Table::resting();
    let row = table.row();
    assert_eq!(rt; (row.states, row.start, row.count), (1, 0, 0));
}

// A cut anywhere is refused where the record begins that is cut.
#[test]
fn cuts(rt: HostRuntime) {
    for n in 0..GOOD.len() {
        let start = STARTS.into_iter().rev().find(|s| *s as usize <= n);
        assert_eq!(rt; verdict(&GOOD[..n]), Err((1, start.unwrap_or(0))));
    }
    assert_eq!(rt; verdict(GOOD), Ok(()));
}

// Bytes with the number and the place of their refusal, or with `Ok` where they open.
const CASES: [(&[u8], Result<(), (u8, u32)>); 27] = [
    // a record that may not stand there
    (b"\x00\x00\x05\x00", Err((2, 0))),
    (
        b"\x02\x00\x01\x00\x02\x00\x02\x00\x01\x00\x02\x00",
        Err((2, 6)),
    ),
    (b"\x02\x00\x01\x00\x02\x00\x01\x00\x06\x00\x00", Err((2, 6))),
    (
        b"\x02\x00\x01\x00\x02\x00\x03\x00\x03\x00\x00\x00\x01\x02\x00\x02\x00\x01\x01",
        Err((2, 13)),
    ),
    (
        b"\x02\x00\x01\x00\x02\x00\x01\x00\x04\x00\x01\x03\x00\x03\x00\x00\x00\x01",
        Err((2, 11)),
    ),
    // a body that is too long or too short
    (b"\x01\x00\x01\x00\x02", Err((3, 0))),
    (
        b"\x02\x00\x01\x00\x02\x00\x03\x00\x02\x00\x01\x01\x00",
        Err((3, 6)),
    ),
    (
        b"\x02\x00\x01\x00\x02\x00\x02\x00\x03\x00\x00\x00",
        Err((3, 6)),
    ),
    (b"\x02\x00\x01\x00\x02\x00\x00\x00\x04\x00", Err((3, 6))),
    (b"\x02\x00\x01\x00\x02\x00\x01\x00\x05\x00\x00", Err((3, 6))),
    // a head with no state, with a start that is none, with 64 states and with 65
    (b"\x02\x00\x01\x00\x00\x00\x00\x00\x05\x00", Err((4, 0))),
    (b"\x02\x00\x01\x00\x02\x02\x00\x00\x05\x00", Err((4, 0))),
    (b"\x02\x00\x01\x00\x40\x3f\x00\x00\x05\x00", Ok(())),
    (b"\x02\x00\x01\x00\x41\x00\x00\x00\x05\x00", Err((4, 0))),
    // action 0, action 33, action 32, and a way that is none
    (
        b"\x02\x00\x01\x00\x02\x00\x02\x00\x02\x00\x00\x01",
        Err((4, 6)),
    ),
    (
        b"\x02\x00\x01\x00\x02\x00\x02\x00\x02\x00\x21\x01",
        Err((4, 6)),
    ),
    (
        b"\x02\x00\x01\x00\x02\x00\x02\x00\x02\x00\x20\x02\x00\x00\x05\x00",
        Ok(()),
    ),
    (
        b"\x02\x00\x01\x00\x02\x00\x02\x00\x02\x00\x01\x03",
        Err((4, 6)),
    ),
    // a step under an action that is not declared, from no state, to no state, and an error that is no state
    (
        b"\x02\x00\x01\x00\x02\x00\x03\x00\x03\x00\x00\x01\x01",
        Err((4, 6)),
    ),
    (
        b"\x02\x00\x01\x00\x02\x00\x03\x00\x03\x00\x02\x00\x01",
        Err((4, 6)),
    ),
    (
        b"\x02\x00\x01\x00\x02\x00\x03\x00\x03\x00\x01\x00\x02",
        Err((4, 6)),
    ),
    (b"\x02\x00\x01\x00\x02\x00\x01\x00\x04\x00\x02", Err((4, 6))),
    // an action with the other way, a step and an error for a second time
    (
        b"\x02\x00\x01\x00\x02\x00\x02\x00\x02\x00\x01\x01\x02\x00\x02\x00\x01\x02",
        Err((5, 12)),
    ),
    (
        b"\x02\x00\x01\x00\x02\x00\x03\x00\x03\x00\x00\x00\x01\x03\x00\x03\x00\x00\x00\x01",
        Err((5, 13)),
    ),
    (
        b"\x02\x00\x01\x00\x02\x00\x01\x00\x04\x00\x01\x01\x00\x04\x00\x01",
        Err((5, 11)),
    ),
    // bytes behind the end
    (
        b"\x02\x00\x01\x00\x02\x00\x00\x00\x05\x00\x07",
        Err((7, 10)),
    ),
    (
        b"\x02\x00\x01\x00\x02\x00\x00\x00\x05\x00\x00\x00\x05\x00",
        Err((7, 10)),
    ),
];

#[test]
fn each_refusal_at_its_place(rt: HostRuntime) {
    for (bytes, expected) in CASES {
        assert_eq!(rt; verdict(bytes), expected);
    }
}

// The first n steps of a table with 64 states, in the order of their ends.
fn many_steps(heap: Global, n: u16) -> Result<Vec<u8>, AllocError> {
    let mut bytes = Vec::new(heap);
    bytes.extend_from_slice(b"\x02\x00\x01\x00\x40\x00")?;
    for k in 0..n {
        let from = (k / 64 % 64) as u8;
        let to = (k % 64) as u8;
        bytes.extend_from_slice(&[3, 0, 3, 0, from, 0, to])?;
    }
    bytes.extend_from_slice(b"\x00\x00\x05\x00")?;
    Ok(bytes)
}

#[test]
fn steps_256_and_257(rt: HostRuntime) -> Result<(), Fail> {
    assert_eq!(rt; verdict(many_steps(rt.alloc(), 256)?.as_slice()), Ok(()));
    assert_eq!(rt;
        verdict(many_steps(rt.alloc(), 257)?.as_slice()),
        Err((6, 6 + 256 * 7))
    );
    Ok(())
}
