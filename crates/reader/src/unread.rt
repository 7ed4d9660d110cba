// Bytes that are read record by record.
ghost use Rattle.std.specs.Prelude.{◌≡◌, ◌+◌, ◌^◌, ◌<◌, Some, None, MatchResult, IfOk};
ghost use Rattle.reader.specs.declared.fault.Fault.TheVariants.{Cut as CutAt};
ghost use Rattle.reader.specs.Record.{front, size_of};

use crate::fault::Fault;
use crate::placed::Placed;
use crate::record::split;

// The bytes that are left to read, and the offset at which they begin.
#[derive(Drop)]
pub struct Unread<'a> {
    pub rest: &'a [u8],
    pub at: u32,
}

impl<'a> Unread<'a> {
    // Nothing is read yet.
    pub fn of(bytes: &'a [u8]) -> Unread<'a>
        ensures rest { result.rest.now ≡ bytes.now }
        ensures at { result.at ≡ 0 }
    {
        Unread { rest: bytes, at: 0 }
    }

    // Reads the record in front.
    pub fn read_record(&mut self) -> Result<Placed<'a>, Fault>
        requires { self.old.at < 2 ^ 31 }
        ensures stands { MatchResult result (λ p. front self.old.rest.now ≡ Some (p.«record».kind, p.«record».body.now, self.new.rest.now)) (λ f. (front self.old.rest.now ≡ None) × (f ≡ CutAt self.old.at)) }
        ensures place { IfOk result (λ p. p.at ≡ self.old.at) }
        ensures onward { IfOk result (λ p. self.new.at ≡ self.old.at + size_of p.«record».body.now) }
    {
        let at = self.at;
        let (record, behind) = split(self.rest).ok_or(Fault::Cut(at))?;
        self.rest = behind;
        self.at = at + 4 + record.body.len() as u32;
        Ok(Placed { record, at })
    }
}
