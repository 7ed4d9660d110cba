// Sets of numbers below 64, one bit for each.
ghost use Rattle.std.specs.Prelude.{◌≡◌, ℕ, ◌<◌, ◌||◌, ◌==◌};
ghost use Rattle.roster.specs.Bits.{bit};

// Whether a number is in a set.
pub fn is_in(set: u64, number: u32) -> bool
    requires { number < 64 }
    ensures { result ≡ bit set number }
{
    set >> number & 1 == 1
}

// A set, and a number more.
pub fn with(set: u64, number: u32) -> u64
    requires { number < 64 }
    ensures { (q : ℕ) → bit result q ≡ (bit set q || number == q) }
{
    set | 1u64 << number
}
