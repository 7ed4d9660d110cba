// The lines of a row and of a refusal, as values that print themselves.
ghost use Rattle.std.specs.Prelude.{◌≡◌, ◌==◌, ◌&&◌, Some};
ghost use Rattle.std.specs.List.{list_any};
ghost use Rattle.reader.specs.Row.{way_of, listed as listed_of};
ghost use Rattle.printing.specs.Text.{way_line, step_of, steps_under, steps_from, error_of, row_text, refused_text};

use crate::parts::{Each, Parts};
use reader::{Row, Step};
use semantics::Way;
use std::fmt;

// All lines of a row.
#[derive(Clone, Copy)]
pub struct RowLines<'a>(pub &'a Row);

impl fmt::Display for RowLines<'_> {
    ghost output = { λ r. Some (row_text r.0.now) };

    fn fmt<W: fmt::Write>(&self, f: &mut fmt::Formatter<W>) -> fmt::Result {
        let row = self.0;
        let states = row.states;
        let start = row.start;
        let actions = Each(33, Actions(row));
        let steps = Each(states, Steps(row));
        let errors = Each(64, Errors(row));
        writeln!(f, "states {states} start {start}")?;
        writeln!(f, "{actions}{steps}{errors}end")
    }
}

// The lines of a row's actions. Actions have the numbers 1 to 32, and 0 is internal and has no line.
#[derive(Clone, Copy)]
struct Actions<'a>(&'a Row);

impl Parts for Actions<'_> {
    type Part = ActionLine;

    ghost text = { λ a n. way_line (way_of a.0.now n) n };

    fn part(&self, action: u8) -> ActionLine {
        ActionLine {
            action,
            way: self.0.way(action),
        }
    }
}

// The line of an action; an absent action has none.
#[derive(Clone, Copy)]
struct ActionLine {
    action: u8,
    way: Way,
}

impl fmt::Display for ActionLine {
    ghost output = { λ a. Some (way_line a.way a.action) };

    fn fmt<W: fmt::Write>(&self, f: &mut fmt::Formatter<W>) -> fmt::Result {
        let action = self.action;
        match self.way {
            Way::Absent => Ok(()),
            Way::Input => writeln!(f, "in {action}"),
            Way::Output => writeln!(f, "out {action}"),
        }
    }
}

// The steps of a row, by the state that they leave.
#[derive(Clone, Copy)]
struct Steps<'a>(&'a Row);

impl<'a> Parts for Steps<'a> {
    type Part = Each<StepsFrom<'a>>;

    ghost text = { λ s n. steps_from s.0.now n };

    fn part(&self, from: u8) -> Each<StepsFrom<'a>> {
        Each(33, StepsFrom { row: self.0, from })
    }
}

// The steps from a state, by action.
#[derive(Clone, Copy)]
struct StepsFrom<'a> {
    row: &'a Row,
    from: u8,
}

impl<'a> Parts for StepsFrom<'a> {
    type Part = Each<StepsUnder<'a>>;

    ghost text = { λ s n. steps_under s.row.now s.from n };

    // Where no step leaves the state under the action, no state is asked for: most tables tell few of the steps that they
    // could.
    fn part(&self, action: u8) -> Each<StepsUnder<'a>> {
        let StepsFrom { row, from } = *self;
        let ends = if leaves(row, from, action) {
            row.states
        } else {
            0
        };
        Each(ends, StepsUnder { row, from, action })
    }
}

// Whether the row tells a step from a state under an action.
fn leaves(row: &Row, from: u8, action: u8) -> bool
    ensures { result ≡ list_any (λ step. step.from == from && step.action == action) (listed_of row.now) }
{
    row.listed()
        .iter()
        .any(|step| step.from == from && step.action == action)
}

// The steps from a state under an action, by the state that they lead to.
#[derive(Clone, Copy)]
struct StepsUnder<'a> {
    row: &'a Row,
    from: u8,
    action: u8,
}

impl<'a> Parts for StepsUnder<'a> {
    type Part = StepLine<'a>;

    ghost text = { λ s n. step_of s.row.now s.from s.action n };

    fn part(&self, to: u8) -> StepLine<'a> {
        let StepsUnder { row, from, action } = *self;
        StepLine {
            row,
            step: Step { from, action, to },
        }
    }
}

// The line of a step, if the row tells it.
#[derive(Clone, Copy)]
struct StepLine<'a> {
    row: &'a Row,
    step: Step,
}

impl fmt::Display for StepLine<'_> {
    ghost output = { λ s. Some (step_of s.row.now s.step.from s.step.action s.step.to) };

    fn fmt<W: fmt::Write>(&self, f: &mut fmt::Formatter<W>) -> fmt::Result {
        let Step { from, action, to } = self.step;
        if self.row.has_step(self.step) {
            writeln!(f, "step {from} {action} {to}")?;
        }
        Ok(())
    }
}

// The errors of a row, of which each is a line.
#[derive(Clone, Copy)]
struct Errors<'a>(&'a Row);

impl<'a> Parts for Errors<'a> {
    type Part = ErrorLine<'a>;

    ghost text = { λ e n. error_of e.0.now n };

    fn part(&self, state: u8) -> ErrorLine<'a> {
        ErrorLine { row: self.0, state }
    }
}

// The line of an error, if the row tells it.
#[derive(Clone, Copy)]
struct ErrorLine<'a> {
    row: &'a Row,
    state: u8,
}

impl fmt::Display for ErrorLine<'_> {
    ghost output = { λ e. Some (error_of e.row.now e.state) };

    fn fmt<W: fmt::Write>(&self, f: &mut fmt::Formatter<W>) -> fmt::Result {
        let state = self.state;
        if self.row.is_error(state) {
            writeln!(f, "error {state}")?;
        }
        Ok(())
    }
}

// The line of a refusal.
#[derive(Clone, Copy)]
pub struct Refused {
    pub number: u8,
    pub place: u32,
}

impl fmt::Display for Refused {
    ghost output = { λ r. Some (refused_text r.number r.place) };

    fn fmt<W: fmt::Write>(&self, f: &mut fmt::Formatter<W>) -> fmt::Result {
        let Refused { number, place } = *self;
        writeln!(f, "refused {number} at {place}")
    }
}
