// Stations by number, and the questions that they answer.
ghost use Rattle.std.specs.Prelude.{◌≡◌};
ghost use Rattle.roster.specs.Meaning.{Meaning, Lawful, system_at, is_there};

use semantics::Way;

// A roster answers questions about station numbers. Each answer is fixed by what the roster means, for every number
// whatever, and no question changes anything. An absent station, and a state or an action that a station does not
// have, is answered by 0, no or none.
pub trait Roster {
    ghost meaning: { Self → Meaning };

    // How many numbers there are: stations stand at numbers below it.
    fn size(&self) -> u32
        ensures { result ≡ (meaning self.now).size };

    // Whether a station is there.
    fn is_there(&self, station: u32) -> bool
        ensures { result ≡ is_there (meaning self.now) station };

    // How many states it has.
    fn states(&self, station: u32) -> u32
        ensures { result ≡ (system_at (meaning self.now) station).states };

    // The state in which it starts.
    fn start(&self, station: u32) -> u32
        ensures { result ≡ (system_at (meaning self.now) station).start };

    // The way of an action.
    fn way(&self, station: u32, action: u32) -> Way
        ensures { result ≡ (system_at (meaning self.now) station).way action };

    // Whether a state is an error.
    fn is_error(&self, station: u32, state: u32) -> bool
        ensures { result ≡ (system_at (meaning self.now) station).error state };

    // Whether a step leads from a state under an action to a state; action 0 is internal.
    fn has_step(&self, station: u32, from: u32, action: u32, to: u32) -> bool
        ensures { result ≡ (system_at (meaning self.now) station).step from action to };

    // The two stations whose coupling it is, if it names them.
    fn parts(&self, station: u32) -> Option<(u32, u32)>
        ensures { result ≡ (meaning self.now).parts station };

    ghost keeps: { (r : Self) → Lawful (meaning r) };
}
