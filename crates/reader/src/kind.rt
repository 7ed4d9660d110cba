// The kinds of records.
ghost use Rattle.semantics.specs.Number.{Decodes};
ghost use Rattle.reader.specs.Kind.{number as number_of};

use semantics::Unknown;

// What a record tells: a part of a table, a pair of a certificate, or a run.
#[derive(Clone, Copy, PartialEq, Eq, Debug)]
pub enum Kind {
    Head,
    Action,
    Step,
    Error,
    End,
    NarrowPair,
    WidePair,
    Run,
}

impl TryFrom<u16> for Kind {
    type Error = Unknown<u16>;

    ghost try_from_gives = { Decodes number_of };

    fn try_from(number: u16) -> Result<Self, Unknown<u16>> {
        match number {
            1 => Ok(Kind::Head),
            2 => Ok(Kind::Action),
            3 => Ok(Kind::Step),
            4 => Ok(Kind::Error),
            5 => Ok(Kind::End),
            16 => Ok(Kind::NarrowPair),
            17 => Ok(Kind::WidePair),
            18 => Ok(Kind::Run),
            _ => Err(Unknown(number)),
        }
    }
}
