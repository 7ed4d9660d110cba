// Why bytes are refused, and where.
ghost use Rattle.std.specs.Prelude.{◌≡◌};
ghost use Rattle.reader.specs.Fault.{number as number_of, place as place_of};

// The first fault of some bytes, with its place: an offset in bytes.
#[derive(Clone, Copy, PartialEq, Eq, Debug)]
pub enum Fault {
    // The bytes end inside a record, or where one more record has to stand.
    Cut(u32),
    // The record's kind may not stand here.
    Kind(u32),
    // The record's body has another length than its kind asks for.
    Length(u32),
    // A value lies outside of its range.
    Value(u32),
    // An action, a step or an error is told a second time.
    Repeated(u32),
    // One step more than a table can hold.
    Overfull(u32),
    // Bytes follow where nothing may follow.
    Trailing(u32),
}

impl Fault {
    // The fault's number. It is told by a match, since variants that carry a place cannot be cast to a number.
    pub fn number(&self) -> u8
        ensures { result ≡ number_of self.now }
    {
        match self {
            Fault::Cut(_) => 1,
            Fault::Kind(_) => 2,
            Fault::Length(_) => 3,
            Fault::Value(_) => 4,
            Fault::Repeated(_) => 5,
            Fault::Overfull(_) => 6,
            Fault::Trailing(_) => 7,
        }
    }

    // The offset that the fault points at.
    pub fn place(&self) -> u32
        ensures { result ≡ place_of self.now }
    {
        match self {
            Fault::Cut(at)
            | Fault::Kind(at)
            | Fault::Length(at)
            | Fault::Value(at)
            | Fault::Repeated(at)
            | Fault::Overfull(at)
            | Fault::Trailing(at) => *at,
        }
    }
}
