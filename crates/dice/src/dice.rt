ghost use Rattle.std.specs.Prelude.{◌≡◌, ◌<◌, ◌%◌};
ghost use Rattle.dice.specs.Draws.{drawn, next};

/// Dice of a seed: the high halves of a linear congruential generator's states, with the multiplier and the
/// increment of Knuth's MMIX.
#[derive(Drop)]
pub struct Dice {
    state: u64,
}

impl Dice {
    /// The dice of a seed.
    pub fn new(seed: u64) -> Dice
        ensures { result.state ≡ seed }
    {
        Dice { state: seed }
    }

    /// A number of 32 bits.
    pub fn roll(&mut self) -> u32
        ensures drawn { result ≡ drawn self.new.state }
        ensures next { self.new.state ≡ next self.old.state }
    {
        self.state = self
            .state
            .wrapping_mul(6_364_136_223_846_793_005)
            .wrapping_add(1_442_695_040_888_963_407);
        (self.state >> 32) as u32
    }

    /// A number below `count`, and 0 where that is 0.
    pub fn below(&mut self, count: usize) -> usize
        ensures below { 0 < count → result < count }
        ensures drawn { 0 < count → result ≡ drawn self.new.state % count }
        ensures none { count ≡ 0 → result ≡ 0 }
        ensures next { self.new.state ≡ next self.old.state }
    {
        let number = self.roll() as usize;
        if count == 0 { 0 } else { number % count }
    }
}
