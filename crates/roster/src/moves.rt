// The steps of a row as sets of states, one for each action and state.
ghost use Rattle.std.specs.Prelude.{◌≡◌, ℕ, false, ◌&&◌, ◌||◌};
ghost use Rattle.reader.specs.Row.{same_step};
ghost use Rattle.roster.specs.Moves.{in_chart, holds, Charted};

use crate::mask::{is_in, with};
use reader::{Row, Step};

// For each of the actions 0 to 32 and each of 64 states, the set of states to which a step leads. They stand in one
// plain array of 33 x 64 places, which is the layout that the project asks of charts, with no heap.
#[derive(Clone, Copy)]
pub struct Moves {
    sets: [u64; 2112],
}

impl Moves {
    // No step.
    fn none() -> Moves
        ensures { (p x q : ℕ) → holds result.sets p x q ≡ false }
    {
        Moves { sets: [0u64; 2112] }
    }

    // Takes in a step.
    fn put(&mut self, step: Step)
        ensures { (p x q : ℕ) → holds self.new.sets p x q ≡ (holds self.old.sets p x q || (in_chart p x q && same_step step (record { from = p; action = x; to = q }))) }
    {
        if step.from < 64 && step.action < 33 && step.to < 64 {
            let place = usize::from(step.action) * 64 + usize::from(step.from);
            self.sets[place] = with(self.sets[place], u32::from(step.to));
        }
    }

    // Whether there is a step.
    #[tactic(auto, unfolding(crate::specs::Moves::holds))]
    pub fn has(&self, from: u32, action: u32, to: u32) -> bool
        ensures { result ≡ holds self.now.sets from action to }
    {
        from < 64
            && action < 33
            && to < 64
            && is_in(self.sets[action as usize * 64 + from as usize], to)
    }

    // The steps that a row tells.
    pub fn of(row: &Row) -> Moves
        ensures { Charted row.now result.sets }
    {
        let mut moves = Moves::none();
        for step in row.listed() {
            moves.put(*step);
        }
        moves
    }
}
