// Why evidence is refused as it is read.
ghost use Rattle.std.specs.Prelude.{◌≡◌};
ghost use Rattle.reader.specs.EvidenceFault.{number as number_of, place as place_of};
ghost use Rattle.reader.specs.declared.evidence.EvidenceFault.TheVariants.{Record as FromRecord};

use crate::fault::Fault;

// The first fault of evidence.
#[derive(Clone, Copy, PartialEq, Eq, Debug)]
pub enum EvidenceFault {
    // A record is at fault.
    Record(Fault),
    // A byte follows the last pair that a certificate may list.
    Pairs,
    // A run has more moves than it may have: how many.
    Moves(u32),
}

impl From<Fault> for EvidenceFault {
    ghost from_gives = { λ f r. r ≡ FromRecord f };

    fn from(fault: Fault) -> EvidenceFault {
        EvidenceFault::Record(fault)
    }
}

impl EvidenceFault {
    // The fault's number. There is no trait for both kinds of fault: where code is to take either, it takes this one,
    // since a fault of a record is turned into it by `From`.
    pub fn number(&self) -> u8
        ensures { result ≡ number_of self.now }
    {
        match self {
            EvidenceFault::Record(fault) => fault.number(),
            EvidenceFault::Pairs => 14,
            EvidenceFault::Moves(_) => 24,
        }
    }

    // What the fault points at: an offset, the most pairs that are read, or the number of moves.
    pub fn place(&self) -> u32
        ensures { result ≡ place_of self.now }
    {
        match self {
            EvidenceFault::Record(fault) => fault.place(),
            EvidenceFault::Pairs => 4096,
            EvidenceFault::Moves(count) => *count,
        }
    }
}
