// Records where they stand.
ghost use Rattle.std.specs.Prelude.{◌≡◌, ◌<◌, length};
ghost use Rattle.reader.specs.Placed.{sized, Kinded};

use crate::fault::Fault;
use crate::kind::Kind;
use crate::record::Record;

// A record with the offset at which it stands, which is the place of each of its faults. Its questions say `else` where
// they could say `map_err`, since the check finds their proofs alone so, and not with a closure.
#[derive(Clone, Copy)]
pub struct Placed<'a> {
    pub record: Record<'a>,
    pub at: u32,
    ghost short: { length «record».body.now < 65536 },
}

impl Placed<'_> {
    // Its kind, if its number is that of one.
    pub fn kind(&self) -> Result<Kind, Fault>
        ensures { Kinded self.now.«record».kind self.now.at result }
    {
        let Ok(kind) = Kind::try_from(self.record.kind) else {
            return Err(Fault::Kind(self.at));
        };
        Ok(kind)
    }

    // The bytes of its body, if there are just N of them.
    pub fn fields<const N: usize>(&self) -> Result<[u8; N], Fault>
        ensures { result ≡ sized N self.now.at self.now.«record».body.now }
    {
        let Ok(bytes) = <[u8; N]>::try_from(self.record.body) else {
            return Err(Fault::Length(self.at));
        };
        Ok(bytes)
    }
}
