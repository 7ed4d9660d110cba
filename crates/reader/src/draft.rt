// A table while its records come in.
ghost use Rattle.std.specs.Prelude.{◌≡◌, ◌≤◌};
ghost use Rattle.reader.specs.Row.{blank};
ghost use Rattle.reader.specs.Draft.{headed, acted, stepped, failed, ended, entered, staged, reached, closed};
ghost use Rattle.reader.specs.declared.stage.Stage.TheVariants.{Head as AtHead, Actions as AtActions, Steps as AtSteps, Errors as AtErrors, Closed as AtClosed};

use crate::fault::Fault;
use crate::kind::Kind;
use crate::placed::Placed;
use crate::row::{Row, Step};
use crate::stage::Stage;
use semantics::Way;

// The row that the records so far tell, and what may come next.
#[derive(Clone, Copy)]
pub struct Draft {
    pub row: Row,
    pub stage: Stage,
    ghost small: { row.states ≤ 64 },
}

impl Draft {
    pub fn new() -> Draft
        ensures row { result.row ≡ blank 1 0 }
        ensures stage { result.stage ≡ AtHead }
    {
        Draft {
            row: Row::blank(1, 0),
            stage: Stage::Head,
        }
    }

    // Whether the end has come.
    pub fn is_closed(&self) -> bool
        ensures { result ≡ closed self.now.stage }
    {
        self.stage == Stage::Closed
    }

    // Takes in a record. A match shows all that may stand where, at a glance; a table of functions would not.
    pub fn take(&mut self, placed: &Placed<'_>) -> Result<(), Fault>
        ensures { reached result self.new.row self.new.stage ≡ entered self.old.row self.old.stage placed.now.at placed.now.«record».kind placed.now.«record».body.now }
    {
        match (self.stage, placed.kind()?) {
            (Stage::Head, Kind::Head) => self.head(placed),
            (Stage::Actions, Kind::Action) => self.action(placed),
            (Stage::Actions | Stage::Steps, Kind::Step) => self.step(placed),
            (Stage::Actions | Stage::Steps | Stage::Errors, Kind::Error) => self.error(placed),
            (Stage::Actions | Stage::Steps | Stage::Errors, Kind::End) => self.end(placed),
            _ => Err(Fault::Kind(placed.at)),
        }
    }

    fn head(&mut self, placed: &Placed<'_>) -> Result<(), Fault>
        ensures { reached result self.new.row self.new.stage ≡ staged AtActions (headed placed.now.at placed.now.«record».body.now) }
    {
        let [states, start] = placed.fields::<2>()?;
        if !(1..=64).contains(&states) || start >= states {
            return Err(Fault::Value(placed.at));
        }
        *self = Draft {
            row: Row::blank(states, start),
            stage: Stage::Actions,
        };
        Ok(())
    }

    fn action(&mut self, placed: &Placed<'_>) -> Result<(), Fault>
        ensures { reached result self.new.row self.new.stage ≡ staged AtActions (acted self.old.row placed.now.at placed.now.«record».body.now) }
    {
        let [action, way] = placed.fields::<2>()?;
        // `else` and not `map_err`, for the reason that is told at `Placed`.
        let Ok(way) = Way::try_from(way) else {
            return Err(Fault::Value(placed.at));
        };
        if way == Way::Absent || !(1..=32).contains(&action) {
            return Err(Fault::Value(placed.at));
        }
        if self.row.way(action) != Way::Absent {
            return Err(Fault::Repeated(placed.at));
        }
        self.row.ways[usize::from(action) - 1] = way;
        self.stage = Stage::Actions;
        Ok(())
    }

    fn step(&mut self, placed: &Placed<'_>) -> Result<(), Fault>
        ensures { reached result self.new.row self.new.stage ≡ staged AtSteps (stepped self.old.row placed.now.at placed.now.«record».body.now) }
    {
        let [from, action, to] = placed.fields::<3>()?;
        let step = Step { from, action, to };
        if !self.row.fits(step) {
            return Err(Fault::Value(placed.at));
        }
        if self.row.has_step(step) {
            return Err(Fault::Repeated(placed.at));
        }
        let count = self.row.count;
        if count >= 256 {
            return Err(Fault::Overfull(placed.at));
        }
        self.row.steps[count] = step;
        self.row.count = count + 1;
        self.stage = Stage::Steps;
        Ok(())
    }

    fn error(&mut self, placed: &Placed<'_>) -> Result<(), Fault>
        ensures { reached result self.new.row self.new.stage ≡ staged AtErrors (failed self.old.row placed.now.at placed.now.«record».body.now) }
    {
        let [state] = placed.fields::<1>()?;
        if state >= self.row.states {
            return Err(Fault::Value(placed.at));
        }
        if self.row.is_error(state) {
            return Err(Fault::Repeated(placed.at));
        }
        self.row.errors[usize::from(state)] = true;
        self.stage = Stage::Errors;
        Ok(())
    }

    fn end(&mut self, placed: &Placed<'_>) -> Result<(), Fault>
        ensures { reached result self.new.row self.new.stage ≡ staged AtClosed (ended self.old.row placed.now.at placed.now.«record».body.now) }
    {
        let [] = placed.fields::<0>()?;
        self.stage = Stage::Closed;
        Ok(())
    }
}
