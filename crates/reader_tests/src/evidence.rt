// Evidence: what is read, and each refusal at its place.
ghost use Rattle.std.specs.Prelude.{◌≡◌};
ghost use Rattle.reader.specs.EvidenceFault.{number, place};

use reader::{Ending, EvidenceFault, Move, Pair, read_pairs, read_run};
use std::alloc::{AllocError, Global};
use std::test::Fail;

// The number and the place of a refusal.
pub fn told(fault: EvidenceFault) -> (u8, u32)
    ensures { result ≡ (number fault, place fault) }
{
    (fault.number(), fault.place())
}

// How many pairs are read.
fn pairs_verdict(bytes: &[u8]) -> Result<usize, (u8, u32)> {
    read_pairs(bytes).map(|pairs| pairs.len()).map_err(told)
}

// How many moves are read.
fn run_verdict(bytes: &[u8]) -> Result<usize, (u8, u32)> {
    read_run(bytes).map(|run| run.moves.len()).map_err(told)
}

#[test]
fn narrow_and_wide_pairs(rt: HostRuntime) -> Result<(), Fail> {
    let bytes =
        b"\x04\x00\x10\x00\x34\x12\x02\x01\x0a\x00\x11\x00\x01\x00\x01\x02\x03\x04\x05\x06\x07\x80";
    let Ok(pairs) = read_pairs(bytes) else {
        return Err(Fail::new("two pairs"));
    };
    assert_eq!(rt;
        pairs.as_slice(),
        [
            Pair {
                state: 0x1234,
                set: 0x0102,
            },
            Pair {
                state: 1,
                set: 0x8007_0605_0403_0201,
            },
        ]
        .as_slice()
    );
    Ok(())
}

// Bytes with the number and the place of their refusal as pairs.
const NO_PAIRS: [(&[u8], u8, u32); 5] = [
    // a head and a body that are cut
    (b"\x04\x00\x10", 1, 0),
    (
        b"\x04\x00\x10\x00\x00\x00\x01\x00\x04\x00\x10\x00\x00\x00\x01",
        1,
        8,
    ),
    // another kind
    (
        b"\x04\x00\x10\x00\x00\x00\x01\x00\x04\x00\x12\x00\x00\x00\x01\x00",
        2,
        8,
    ),
    // a wide pair as short as a narrow one, and a narrow pair as long as a wide one
    (b"\x04\x00\x11\x00\x00\x00\x01\x00", 3, 0),
    (
        b"\x0a\x00\x10\x00\x00\x00\x01\x02\x03\x04\x05\x06\x07\x80",
        3,
        0,
    ),
];

#[test]
fn refused_pairs(rt: HostRuntime) {
    assert_eq!(rt; pairs_verdict(b""), Ok(0));
    for (bytes, number, place) in NO_PAIRS {
        assert_eq!(rt; pairs_verdict(bytes), Err((number, place)));
    }
}

// A head, and then the same part n times.
fn repeated(heap: Global, head: &[u8], part: &[u8], n: u16) -> Result<Vec<u8>, AllocError> {
    let mut bytes = Vec::new(heap);
    bytes.extend_from_slice(head)?;
    for _ in 0..n {
        bytes.extend_from_slice(part)?;
    }
    Ok(bytes)
}

// The same pair n times.
fn many_pairs(heap: Global, n: u16) -> Result<Vec<u8>, AllocError> {
    repeated(heap, b"", b"\x04\x00\x10\x00\x00\x00\x01\x00", n)
}

#[test]
fn pairs_4096_and_4097(rt: HostRuntime) -> Result<(), Fail> {
    let mut bytes = many_pairs(rt.alloc(), 4096)?;
    assert_eq!(rt; pairs_verdict(bytes.as_slice()), Ok(4096));
    bytes.push(0)?;
    assert_eq!(rt; pairs_verdict(bytes.as_slice()), Err((14, 4096)));
    assert_eq!(rt;
        pairs_verdict(many_pairs(rt.alloc(), 4097)?.as_slice()),
        Err((14, 4096))
    );
    Ok(())
}

#[test]
fn runs_and_endings(rt: HostRuntime) -> Result<(), Fail> {
    let Ok(run) = read_run(b"\x08\x00\x12\x00\x03\x05\x01\x02\x01\x00\x03\x00") else {
        return Err(Fail::new("two moves"));
    };
    assert_eq!(rt; run.ending, Ending::Unaccepted(5));
    assert_eq!(rt;
        run.moves.as_slice(),
        [
            Move {
                action: 1,
                state: 0x0102,
            },
            Move {
                action: 0,
                state: 3,
            },
        ]
        .as_slice()
    );
    assert_eq!(rt; run_verdict(b"\x02\x00\x12\x00\x01\x00"), Ok(0));
    assert_eq!(rt; run_verdict(b"\x02\x00\x12\x00\x02\x00"), Ok(0));
    Ok(())
}

// Bytes with the number and the place of their refusal as a run.
const NO_RUN: [(&[u8], u8, u32); 10] = [
    // nothing, and a body that is cut
    (b"", 1, 0),
    (b"\x05\x00\x12\x00\x01\x00\x01\x00", 1, 0),
    // another kind
    (b"\x02\x00\x11\x00\x01\x00", 2, 0),
    // no input, and a move that is not whole
    (b"\x01\x00\x12\x00\x01", 3, 0),
    (b"\x04\x00\x12\x00\x01\x00\x01\x00", 3, 0),
    // endings 0 and 4, and an input at endings that have none
    (b"\x02\x00\x12\x00\x00\x00", 4, 0),
    (b"\x02\x00\x12\x00\x04\x00", 4, 0),
    (b"\x02\x00\x12\x00\x01\x01", 4, 0),
    (b"\x02\x00\x12\x00\x02\x01", 4, 0),
    // a byte behind the run
    (b"\x05\x00\x12\x00\x01\x00\x01\x00\x00\x00", 7, 9),
];

#[test]
fn refused_runs(rt: HostRuntime) {
    for (bytes, number, place) in NO_RUN {
        assert_eq!(rt; run_verdict(bytes), Err((number, place)));
    }
}

// A run of n moves.
fn many_moves(heap: Global, n: u16) -> Result<Vec<u8>, AllocError> {
    let [low, high, ..] = (u32::from(n) * 3 + 2).to_le_bytes();
    repeated(heap, &[low, high, 0x12, 0, 1, 0], &[0; 3], n)
}

#[test]
fn moves_4096_and_4097(rt: HostRuntime) -> Result<(), Fail> {
    assert_eq!(rt;
        run_verdict(many_moves(rt.alloc(), 4096)?.as_slice()),
        Ok(4096)
    );
    assert_eq!(rt;
        run_verdict(many_moves(rt.alloc(), 4097)?.as_slice()),
        Err((24, 4097))
    );
    Ok(())
}
