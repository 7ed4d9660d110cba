// The pairs of a certificate.
ghost use Rattle.std.specs.Prelude.{◌≡◌, ◌≤◌, List, length, Ok, MatchResult};
ghost use Rattle.reader.specs.Evidence.{PairsLaid, PairsBreak};
ghost use Rattle.reader.specs.Number.{little as little_of};
ghost use Rattle.reader.specs.Pairs.{pair_of, pair_sized, pairs_in, outcome};

use crate::evidence::EvidenceFault;
use crate::fault::Fault;
use crate::kind::Kind;
use crate::listing::Listing;
use crate::placed::Placed;
use crate::unread::Unread;

// A pair: a state of the new station, and a set of states of the old one, where bit q stands for state q.
#[derive(Clone, Copy, PartialEq, Eq, Debug)]
pub struct Pair {
    pub state: u16,
    pub set: u64,
}

// The pairs that some bytes list, at most 4,096, or the first fault. It succeeds exactly on the bytes whose
// records tell pairs, and a fault points at the first record that tells none.
pub fn read_pairs(bytes: &[u8]) -> Result<Listing<Pair>, EvidenceFault>
    ensures outcome { outcome result ≡ pairs_in bytes.now }
    ensures told { MatchResult result (λ l. PairsLaid bytes.now l.items) (λ f. PairsBreak bytes.now f) }
    ensures reads { (ps : List Pair) → PairsLaid bytes.now ps → outcome result ≡ Ok ps }
{
    let mut pairs = Listing::new(Pair { state: 0, set: 0 });
    let mut unread = Unread::of(bytes);
    while !unread.rest.is_empty() {
        if pairs.is_full() {
            return Err(EvidenceFault::Pairs);
        }
        let placed = unread.read_record()?;
        let pair = read_pair(&placed)?;
        pairs.push(pair).unwrap();
    }
    Ok(pairs)
}

// The pair that a record tells.
fn read_pair(placed: &Placed<'_>) -> Result<Pair, Fault>
    ensures { result ≡ pair_of placed.now.at placed.now.«record».kind placed.now.«record».body.now }
{
    match placed.kind()? {
        Kind::NarrowPair => read_sized::<4>(placed),
        Kind::WidePair => read_sized::<10>(placed),
        _ => Err(Fault::Kind(placed.at)),
    }
}

// The pair of a body of N bytes: two tell the state, and the others the set. They are read where they lie; from a copy it
// took up to twice as long.
fn read_sized<const N: usize>(placed: &Placed<'_>) -> Result<Pair, Fault>
    requires wide { 2 ≤ N }
    requires narrow { N ≤ 10 }
    ensures { result ≡ pair_sized N placed.now.at placed.now.«record».body.now }
{
    placed.fields::<N>()?;
    let (state, set) = placed.record.body.split_at(2);
    Ok(Pair {
        state: u16::from_le_bytes([state[0], state[1]]),
        set: little(set),
    })
}

// The number that some bytes spell, the lowest byte first. Behind the highest stand zeros, which add nothing.
fn little(bytes: &[u8]) -> u64
    requires { length bytes.now ≤ 8 }
    ensures { result ≡ little_of bytes.now }
{
    let mut all = [0; 8];
    all[..bytes.len()].copy_from_slice(bytes);
    u64::from_le_bytes(all)
}
