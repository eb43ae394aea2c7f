//! The numbers that are drawn for the bench.
ghost use Rattle.std.specs.Prelude.{◌≡◌, ◌/◌, ◌^◌};
ghost use Rattle.prefsql_bench.specs.Draws.{first_state, next_state};

const FIRST_STATE: u64 = 42;

const MULTIPLIER: u64 = 6_364_136_223_846_793_005;

const INCREMENT: u64 = 1_442_695_040_888_963_407;

/// Numbers drawn one after the other, the same at each run: a linear congruential generator with
/// the multiplier and the increment of Knuth's MMIX.
#[derive(Drop)]
pub(crate) struct Draws {
    pub(crate) state: u64,
}

impl Draws {
    /// Nothing is drawn yet.
    pub(crate) fn new() -> Draws
        ensures { result.state ≡ first_state }
    {
        Draws { state: FIRST_STATE }
    }

    /// The next number: the upper bits of the next state.
    pub(crate) fn draw(&mut self) -> u64
        ensures state { self.new.state ≡ next_state self.old.state }
        ensures drawn { result ≡ self.new.state / 2 ^ 33 }
    {
        self.state = self.state.wrapping_mul(MULTIPLIER).wrapping_add(INCREMENT);
        self.state >> 33
    }
}
