ghost use Rattle.std.specs.Prelude.{◌≡◌, ◌+◌, ◌<◌};

use crate::Steps;
use std::marker::Brand;
use std::sync::ledger::{Blank, Ledger};

/// Counts a step for each number that it adds.
fn sum_of_three<L: Ledger>(xs: [u8; 3], steps: &mut Steps<L>) -> u32
    ensures { steps.new ≡ steps.old + 3 }
{
    let mut sum = 0;
    steps.tick();
    sum += u32::from(xs[0]);
    steps.tick();
    sum += u32::from(xs[1]);
    steps.tick();
    sum + u32::from(xs[2])
}

/// The sum, with a counter of its own.
fn counted_sum<L: Ledger>(blank: Blank, xs: [u8; 3]) -> u32
    requires name { blank.name ≡ L.name }
    requires parts { blank.parts ≡ L.parts }
    requires some { 0 < blank.parts }
{
    let mut steps: Steps<L> = Steps::new(blank);
    sum_of_three(xs, &mut steps)
}

#[test]
fn counter_takes_no_bytes(rt: HostRuntime) {
    assert_eq!(rt; size_of::<Steps<Brand>>(), 0);
}

#[test]
fn counting_leaves_the_answer_as_it_is(rt: HostRuntime) {
    assert_eq!(rt; counted_sum::<Brand>(Blank::new(1), [1, 2, 255]), 258);
}
