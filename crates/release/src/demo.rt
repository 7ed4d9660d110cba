// One table from its bytes to its lines, and what becomes of damaged bytes.
ghost use Rattle.std.specs.Prelude.{◌≤◌};

use crate::tables::show;
use std::alloc::{AllocError, Global};
use std::io;

// A station that takes a piece in and puts it out again, one record to a line.
const STATION: [u8; 36] = *b"\
\x02\x00\x01\x00\x02\x00\
\x02\x00\x02\x00\x01\x01\
\x02\x00\x02\x00\x02\x02\
\x03\x00\x03\x00\x00\x01\x01\
\x03\x00\x03\x00\x01\x02\x00\
\x00\x00\x05\x00";

const BYTES: &str = "\
A table is a file that tells what one part of a line can do: its states, the
actions that it takes in or puts out, its steps from state to state, and the
states that are errors. This demo follows one table from its bytes to its
printed lines, and then shows what becomes of bytes that are damaged.

1. The bytes of a station

In state 0 the station is empty, and in state 1 it holds a piece. Action 1 is
an input: a piece comes in. Action 2 is an output: the piece goes out.

A table is made of records. Each begins with the length of its body and with
its kind, in two bytes each, the lower byte first. Then its body follows. Here
are the records of the station in hexadecimal, each behind the offset of its
first byte, which is how many bytes stand before it:

";

const FIRST: &str = "
In the first record 02 00 is the length of its body, two bytes, and 01 00 is its
kind, 1, a head. Its body is 02 and 00: two states, and state 0 is the start.
";

const LINES: &str = "
2. The table

If these bytes stand in a file, 'release table FILE' prints what they say:

";

const READING: &str = "
'in 1' says that action 1 is an input, and 'step 0 1 1' that there is a step
from state 0 under action 1 to state 1.
";

const DAMAGED: &str = "
3. One byte is damaged

Now the last byte of the record at offset 25 becomes 07, so that its step leads
to state 7. The station has the states 0 and 1 only, so its table is refused:

";

const DAMAGED_MEANS: &str = "
The number 4 says that a value is outside of its range. The place 25 is the
offset at which the record with that value begins, so look for the fault there.
";

const CUT: &str = "
4. The bytes are cut short

Now the last two bytes are lost, as when the copying of a file breaks off:

";

const CUT_MEANS: &str = "
The number 1 says that the bytes end too early: the record that begins at
offset 32 is not complete. A table is taken as a whole or not at all, so nothing
of these bytes is used. 'release help' tells what the other numbers mean.
";

pub fn demo(rt: &HostRuntime) -> io::Result<()> {
    rt.print(BYTES)?;
    tell_records(rt)?;
    rt.print(FIRST)?;
    rt.print(LINES)?;
    show(rt, &STATION)?;
    rt.print(READING)?;
    rt.print(DAMAGED)?;
    show_damaged(rt)?;
    rt.print(DAMAGED_MEANS)?;
    rt.print(CUT)?;
    show(rt, &STATION[..34])?;
    rt.print(CUT_MEANS)
}

fn tell_records(rt: &HostRuntime) -> io::Result<()> {
    tell(rt, 0, 6, "head: two states, and 0 is the start")?;
    tell(rt, 6, 12, "action: 1 is an input")?;
    tell(rt, 12, 18, "action: 2 is an output")?;
    tell(rt, 18, 25, "step: from 0 under action 1 to 1")?;
    tell(rt, 25, 32, "step: from 1 under action 2 to 0")?;
    tell(rt, 32, 36, "end: nothing follows")
}

// Shows the record that stands from an offset to another, and what it says.
fn tell(rt: &HostRuntime, at: usize, end: usize, says: &str) -> io::Result<()>
    requires { (at ≤ end) × (end ≤ 36) }
{
    let bytes = hexadecimal(rt.alloc(), &STATION[at..end])?;
    println!(rt; "  at {at:>2}:  {bytes:<22} {says}")
}

// The bytes in hexadecimal, as a text of its own, since only a text is padded to a width.
fn hexadecimal(heap: Global, bytes: &[u8]) -> Result<String, AllocError> {
    let mut text = String::new(heap);
    for byte in bytes {
        write!(text, "{byte:02x} ")?;
    }
    Ok(text)
}

fn show_damaged(rt: &HostRuntime) -> io::Result<()> {
    let mut damaged = STATION;
    damaged[31] = 7;
    show(rt, &damaged)?;
    Ok(())
}
