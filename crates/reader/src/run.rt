// The run that shows what a station does.
ghost use Rattle.std.specs.Prelude.{◌≡◌, ◌*◌, ◌<◌, ◌≤◌, List, length, Ok, MatchResult};
ghost use Rattle.std.specs.Option.{option_map};
ghost use Rattle.reader.specs.Evidence.{RunLaid, RunBreaks};
ghost use Rattle.reader.specs.Run.{ending_of, moves_in, moved, embodied, run_in, outcome};

use crate::evidence::EvidenceFault;
use crate::fault::Fault;
use crate::kind::Kind;
use crate::listing::Listing;
use crate::placed::Placed;
use crate::unread::Unread;

// A move: an action, 0 for an internal one, and the state that it leads to.
#[derive(Clone, Copy, PartialEq, Eq, Debug)]
pub struct Move {
    pub action: u8,
    pub state: u16,
}

// What the end of a run is to show.
#[derive(Clone, Copy, PartialEq, Eq, Debug)]
pub enum Ending {
    // Its word is a flooded trace.
    Flooded,
    // Its word is an error trace, since the last state is an error.
    Error,
    // Its word and this input are an error trace, since the last state has no step for the input.
    Unaccepted(u8),
}

// A run: moves, of which there are at most 4,096, and what their end shows.
#[derive(Drop)]
pub struct Run {
    pub ending: Ending,
    pub moves: Listing<Move>,
}

// The run that some bytes tell, or the first fault. It succeeds exactly on the bytes that are one record of a run,
// and a fault names what keeps them from being one.
pub fn read_run(bytes: &[u8]) -> Result<Run, EvidenceFault>
    ensures outcome { outcome result ≡ run_in bytes.now }
    ensures told { MatchResult result (λ run. RunLaid bytes.now run.ending run.moves.items) (λ f. RunBreaks bytes.now f) }
    ensures reads { (e : Ending) (ms : List Move) → RunLaid bytes.now e ms → outcome result ≡ Ok (e, ms) }
{
    let mut unread = Unread::of(bytes);
    let placed = unread.read_record()?;
    let Kind::Run = placed.kind()? else {
        return Err(Fault::Kind(0).into());
    };
    read_body(&placed, unread.rest)
}

// The run of a record, behind which some bytes follow.
fn read_body(placed: &Placed<'_>, behind: &[u8]) -> Result<Run, EvidenceFault>
    ensures { outcome result ≡ embodied placed.now.«record».body.now behind.now }
{
    let [ending, input, moves @ ..] = placed.record.body else {
        return Err(Fault::Length(0).into());
    };
    read_parts(*ending, *input, moves, behind)
}

// The run of an ending, an input and the bytes of the moves.
fn read_parts(ending: u8, input: u8, moves: &[u8], behind: &[u8]) -> Result<Run, EvidenceFault>
    requires { length moves.now < 65536 }
    ensures { outcome result ≡ moved ending input moves.now behind.now }
{
    if moves.len() % 3 != 0 {
        return Err(Fault::Length(0).into());
    }
    let count = moves.len() / 3;
    if count > 4096 {
        return Err(EvidenceFault::Moves(count as u32));
    }
    let ending = read_ending(ending, input).ok_or(Fault::Value(0))?;
    if !behind.is_empty() {
        return Err(Fault::Trailing(6 + moves.len() as u32).into());
    }
    Ok(Run {
        ending,
        moves: read_moves(moves),
    })
}

// The ending of a number; the input has to be 0 where it is not asked for. It takes both numbers, since neither alone
// tells an ending, and so a conversion would be from a pair and no plainer.
fn read_ending(ending: u8, input: u8) -> Option<Ending>
    ensures { result ≡ ending_of ending input }
{
    match (ending, input) {
        (1, 0) => Some(Ending::Flooded),
        (2, 0) => Some(Ending::Error),
        (3, _) => Some(Ending::Unaccepted(input)),
        _ => None,
    }
}

// The moves that some bytes tell.
fn read_moves(bytes: &[u8]) -> Listing<Move>
    requires { length bytes.now ≤ 3 * 4096 }
    ensures { result.items ≡ moves_in bytes.now }
{
    let mut moves = Listing::new(Move {
        action: 0,
        state: 0,
    });
    for chunk in bytes.chunks_exact(3) {
        moves
            .push(Move {
                action: chunk[0],
                state: u16::from_le_bytes([chunk[1], chunk[2]]),
            })
            .unwrap();
    }
    moves
}
