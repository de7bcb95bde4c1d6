ghost use Rattle.std.specs.Prelude.{◌≡◌, ◌+◌, ◌-◌, ◌^◌, min, nat_eq};
ghost use Rattle.std.specs.List.{list_any};

/// The numbers of the calls that are to fail, from 1, and how many calls there were.
#[derive(Debug, Drop)]
pub struct FailingCalls {
    numbers: Vec<u64>,
    calls: u64,
}

impl FailingCalls {
    /// These numbers, before the first call.
    pub fn new(numbers: Vec<u64>) -> FailingCalls
        ensures { result ≡ record { numbers = numbers; calls = 0 } }
    {
        FailingCalls { numbers, calls: 0 }
    }

    /// Counts a call, and answers whether it is to fail.
    pub fn next_fails(&mut self) -> bool
        ensures counts { self.new ≡ record self.old { calls = min (self.old.calls + 1) (2 ^ 64 - 1) } }
        ensures fails { result ≡ list_any (λ n. nat_eq n self.new.calls) self.old.numbers.items }
    {
        self.calls = self.calls.saturating_add(1);
        self.numbers.contains(&self.calls)
    }
}
