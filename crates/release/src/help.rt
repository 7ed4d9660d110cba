// What the program can do, told to its user.
ghost use Rattle.std.specs.Prelude.{◌≡◌, true, is_err};

use std::io;

const HELP: &str = "\
release shows what table files hold.

  release table FILE..   prints each table, or why its bytes are refused
  release demo           follows one table from its bytes to its printed lines
  release help           prints this text

A table prints as these lines, its actions, steps and errors in ascending order:

  states N start S       there are N states, numbered from 0, and S is the start
  in A                   action A is an input
  out A                  action A is an output
  step FROM A TO         under action A a step leads from a state to a state;
                         action 0 is internal
  error S                state S is an error
  end                    the table is complete

Bytes that are no table print as one line, 'refused NUMBER at PLACE'. The place
is the offset, counted in bytes from 0, of the record at fault, or of what is
missing or left over. The number tells the fault:

  1  the bytes end too early
  2  a record of this kind may not stand here
  3  the record is longer or shorter than its kind asks for
  4  a value is outside of its range
  5  an action, a step or an error is told a second time
  6  there are more than 256 steps
  7  more bytes follow behind the end

A file that cannot be read prints as one line, 'FILE: cannot be read: REASON',
and the files behind it still follow. The status is 1 if a file was refused or
could not be read, or if the command was not understood, and 0 otherwise.
";

pub fn help(rt: &HostRuntime) -> io::Result<()> {
    rt.print(HELP)
}

// How to call `table`; it ends the program with status 1.
pub fn usage(rt: &HostRuntime) -> io::Result<()>
    ensures { is_err result ≡ true }
{
    println!(rt; "usage: release table FILE..")?;
    failure()
}

// Says that there is no such command; it ends the program with status 1.
pub fn unknown(rt: &HostRuntime, command: &str) -> io::Result<()>
    ensures { is_err result ≡ true }
{
    println!(rt; "unknown command: {command}")?;
    help(rt)?;
    failure()
}

// Ends the program with status 1.
pub fn failure() -> io::Result<()>
    ensures { is_err result ≡ true }
{
    Err(io::Error::from(io::ErrorKind::InvalidInput))
}
