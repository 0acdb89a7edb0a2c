// The numbers that the job is made from.
ghost use Rattle.std.specs.Prelude.{◌≡◌, ◌<◌};
ghost use Rattle.px_generated.specs.Draws.{drawn, next_number};

use std::marker::Model;

/// The next number is this times the last one, and `INCREMENT` more, modulo `MODULUS`: the example of `rand` in the C
/// standard (ISO C17, 7.22.2.2), with 31 bits kept.
const MULTIPLIER: u64 = 1_103_515_245;

const INCREMENT: u64 = 12_345;

const MODULUS: u64 = 2_147_483_648;

/// A draw leaves out the low 16 bits, which repeat soon.
const LOW_BITS: u32 = 65_536;

/// A row of numbers from a first one on, seen as the number that the last draw made.
#[derive(Clone, Copy, Debug)]
pub struct Draws {
    number: u32,
}

impl Model for Draws {
    ghost use Rattle.std.specs.Prelude.{ℕ};

    ghost Value = { ℕ };

    ghost view = { λ d. d.number };

    ghost inverse = { λ n. record { number = n } };
}

impl Draws {
    /// The row that begins behind `seed`.
    pub fn new(seed: u32) -> Draws
        ensures { result ≡ seed }
    {
        Draws { number: seed }
    }

    /// Goes to the next number, and gives one below `limit` that it stands for.
    pub fn draw(&mut self, limit: u32) -> u32
        requires { 0 < limit }
        ensures next { self.new ≡ next_number self.old }
        ensures drawn { result ≡ drawn limit self.new }
        ensures below { result < limit }
    {
        self.number = next_number(self.number);
        self.number / LOW_BITS % limit
    }
}

/// The number behind one.
pub(crate) fn next_number(number: u32) -> u32
    ensures { result ≡ next_number number }
{
    ((MULTIPLIER * u64::from(number) + INCREMENT) % MODULUS) as u32
}
