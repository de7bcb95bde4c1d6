use crate::generate;
use crate::generator::turn;
use std::test::Fail;

#[test]
fn the_first_states_of_the_seed_0(rt: HostRuntime) {
    let states = [
        0x1405_7b7e_f767_814f,
        0x1a08_ee11_84ba_6d32,
        0x9af6_7822_2e72_8119,
    ];
    let mut state = 0;
    for wanted in states {
        state = turn(state);
        assert_eq!(rt; state, wanted);
    }
}

#[test]
fn a_seed_makes_the_same_points_in_each_run(rt: HostRuntime) -> Result<(), Fail> {
    // Made by another program, by the recurrence.
    let rows = [
        (
            0,
            [
                (82_007, 106_638, 9_917, 0x82_22e7),
                (420_705, 402_260, 9_189, 15_953_165),
            ],
        ),
        (
            1,
            [
                (443_766, 534_152, 10_622, 1_675_785),
                (401_461, 834_087, 8_200, 1_994_275),
            ],
        ),
        (
            u64::MAX,
            [
                (768_824, 727_701, 9_212, 15_381_444),
                (439_950, 1_019_010, 10_177, 13_134_839),
            ],
        ),
    ];
    for (seed, wanted) in rows {
        let points = generate(rt.alloc(), seed, 2)?;
        assert_eq!(rt; points.len(), 2);
        for (point, (x, y, z, rgb)) in points.iter().zip(wanted) {
            assert_eq!(rt;
                (point.x, point.y, point.z, point.rgb),
                (x, y, z, rgb),
                "at {seed}"
            );
        }
    }
    Ok(())
}

#[test]
fn no_points_are_a_cloud(rt: HostRuntime) -> Result<(), Fail> {
    let points = generate(rt.alloc(), 7, 0)?;
    assert_eq!(rt; points.len(), 0);
    Ok(())
}
