// The tables of some files.
ghost use Rattle.std.specs.Prelude.{◌≡◌, is_ok, IfOk};
ghost use Rattle.reader.specs.Table.{opened};

use crate::help::{failure, usage};
use printing::show_table;
use std::env::Args;
use std::{fs, io};

// Shows each file; where one does not hold a table, it ends the program with status 1.
pub fn tables(rt: &HostRuntime, files: Args) -> io::Result<()> {
    if files.len() == 0 {
        return usage(rt);
    }
    let mut sound = true;
    for file in files {
        sound &= show_file(rt, file.as_str())?;
    }
    if sound { Ok(()) } else { failure() }
}

// Shows a file, and tells whether it holds a table.
fn show_file(rt: &HostRuntime, file: &str) -> io::Result<bool> {
    match fs::read(rt, file) {
        Ok(bytes) => show(rt, bytes.as_slice()),
        Err(reason) => {
            println!(rt; "{file}: cannot be read: {reason}")?;
            Ok(false)
        }
    }
}

// Shows what some bytes lay out, and tells whether it is a table.
pub fn show(rt: &HostRuntime, bytes: &[u8]) -> io::Result<bool>
    ensures { IfOk result (λ b. b ≡ is_ok (opened bytes.now)) }
{
    let shown = show_table(rt.alloc(), bytes)?;
    let sound = shown.is_ok();
    let (Ok(text) | Err(text)) = shown;
    rt.print(text)?;
    Ok(sound)
}
