use crate::Dice;

#[test]
fn dice_of_a_seed_show_the_same_numbers(rt: HostRuntime) {
    let mut dice = Dice::new(0);
    // The high half of the increment, which is the first state after 0.
    assert_eq!(rt; dice.roll(), 335_903_614);
    let mut one = Dice::new(2026);
    let mut other = Dice::new(2026);
    for _roll in 0..100usize {
        assert_eq!(rt; one.roll(), other.roll());
    }
}

#[test]
fn every_number_below_the_count_is_met(rt: HostRuntime) {
    let mut dice = Dice::new(7);
    let mut met = [false; 6];
    for _roll in 0..200usize {
        let number = dice.below(6);
        assert!(rt; number < 6);
        met[number] = true;
    }
    assert!(rt; met.iter().all(|m| *m));
    assert_eq!(rt; dice.below(1), 0);
    assert_eq!(rt; dice.below(0), 0);
}
