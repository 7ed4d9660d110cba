// Texts that are made of numbered parts.
ghost use Rattle.std.specs.Prelude.{◌≡◌, ℕ, List, Some};
ghost use Rattle.printing.specs.Text.{each};

use std::fmt;

// Things that make a part of a text for each number.
pub trait Parts {
    type Part: fmt::Display + Drop;

    // The text of the part with a number.
    ghost text: { Self → ℕ → List ℕ };

    // The part with a number, which prints as its text.
    fn part(&self, number: u8) -> Self::Part
        ensures { Self.Part.output result ≡ Some (text self.now number) };
}

// The first parts, as many as the number says, one behind the other.
#[derive(Clone, Copy)]
pub struct Each<P>(pub u8, pub P);

impl<P: Parts> fmt::Display for Each<P> {
    ghost output = { λ e. Some (each e.0 (P.text e.1)) };

    #[tactic(auto, unfolding(crate::specs::Text::each))]
    fn fmt<W: fmt::Write>(&self, f: &mut fmt::Formatter<W>) -> fmt::Result {
        for number in 0..self.0 {
            self.1.part(number).fmt(f)?;
        }
        Ok(())
    }
}
