// The way of an action in a system.
ghost use Rattle.std.specs.Prelude.{◌≡◌};
ghost use Rattle.semantics.specs.Number.{Decodes};
ghost use Rattle.semantics.specs.Way.{number as number_of};

use crate::unknown::Unknown;

// Whether a system takes an action in, puts it out, or does not have it. That it does not is a way too, with a number of
// its own, and so it is no `None`.
#[derive(Clone, Copy, PartialEq, Eq, Debug)]
pub enum Way {
    Absent = 0,
    Input = 1,
    Output = 2,
}

impl Way {
    // The number that stands for the way in questions and answers.
    pub fn number(&self) -> u8
        ensures { result ≡ number_of self.now }
    {
        *self as u8
    }
}

impl TryFrom<u8> for Way {
    type Error = Unknown<u8>;

    ghost try_from_gives = { Decodes number_of };

    fn try_from(number: u8) -> Result<Self, Unknown<u8>> {
        match number {
            0 => Ok(Way::Absent),
            1 => Ok(Way::Input),
            2 => Ok(Way::Output),
            _ => Err(Unknown(number)),
        }
    }
}
