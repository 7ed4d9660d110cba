// The content of a table laid down plainly, with no promise about it.
ghost use Rattle.std.specs.Prelude.{◌≡◌};
ghost use Rattle.reader.specs.Row.{blank as blank_of, way_of, error_at, usable, fitting, told, listed as listed_of};

use semantics::Way;

// A step from a state to a state under an action, where action 0 is internal.
#[derive(Clone, Copy, PartialEq, Eq, Debug)]
pub struct Step {
    pub from: u8,
    pub action: u8,
    pub to: u8,
}

// A row: how many states there are, the start, the way of the actions 1 to 32, the first `count` places of
// `steps`, and for each state whether it is an error. The arrays have fixed lengths, since reading takes no memory
// from the heap, and the count stands beside them and is no listing's, since a row is what anybody writes down: it
// may be wrong.
#[derive(Clone, Copy)]
pub struct Row {
    pub states: u8,
    pub start: u8,
    pub ways: [Way; 32],
    pub count: usize,
    pub steps: [Step; 256],
    pub errors: [bool; 64],
}

impl Row {
    // Some states and a start, and nothing else.
    pub fn blank(states: u8, start: u8) -> Row
        ensures { result ≡ blank_of states start }
    {
        Row {
            states,
            start,
            ways: [Way::Absent; 32],
            count: 0,
            steps: [Step {
                from: 0,
                action: 0,
                to: 0,
            }; 256],
            errors: [false; 64],
        }
    }

    // The way of an action, absent for numbers that are none.
    pub fn way(&self, action: u8) -> Way
        ensures { result ≡ way_of self.now action }
    {
        match action {
            1..=32 => self.ways[usize::from(action) - 1],
            _ => Way::Absent,
        }
    }

    // Whether a state is an error.
    pub fn is_error(&self, state: u8) -> bool
        ensures { result ≡ error_at self.now state }
    {
        self.errors.get(usize::from(state)) == Some(&true)
    }

    // Whether an action may stand in a step: 0, or one that has a way.
    fn is_usable(&self, action: u8) -> bool
        ensures { result ≡ usable self.now action }
    {
        action == 0 || self.way(action) != Way::Absent
    }

    // Whether a step goes from a state to a state, under a usable action.
    pub fn fits(&self, step: Step) -> bool
        ensures { result ≡ fitting self.now step }
    {
        step.from < self.states && step.to < self.states && self.is_usable(step.action)
    }

    // The steps that the row tells.
    pub fn listed(&self) -> &[Step]
        ensures { result.now ≡ listed_of self.now }
    {
        &self.steps[..self.count.min(256)]
    }

    // Whether a step is told.
    pub fn has_step(&self, step: Step) -> bool
        ensures { result ≡ told step (listed_of self.now) }
    {
        self.listed().contains(&step)
    }
}
