use crate::{Span, fit_cube};
use cube_math::{Cube, Point};

fn at(x: i32, y: i32, z: i32) -> Point {
    Point {
        x,
        y,
        z,
        rgb: 0xffffff,
    }
}

fn fits(points: &[Point], ox: i32, oy: i32, oz: i32, bits: u32) -> bool {
    match fit_cube(points) {
        Ok(cube) => Some(cube) == Cube::new(ox, oy, oz, bits),
        Err(_) => false,
    }
}

#[test]
fn no_point_and_one_point_fit_seven_bits(rt: HostRuntime) {
    assert!(rt; fits(&[], 0, 0, 0, 7));
    assert!(rt; fits(&[at(9, -9, 90)], 9, -9, 90, 7));
    // The cube ends by 2^31.
    assert!(rt; fits(&[at(-2147483648, 0, 0)], -2147483648, 0, 0, 7));
    assert!(rt; fits(&[at(2147483647, 0, 0)], 2147483520, 0, 0, 7));
}

#[test]
fn bits_rise_where_a_span_reaches_a_power_of_two(rt: HostRuntime) {
    for (far, bits) in [
        (127, 7),
        (128, 8),
        (255, 8),
        (256, 9),
        (1048575, 20),
        (1048576, 21),
        (1073741823, 30),
    ] {
        assert!(rt;
            fits(&[at(far, 3, 4), at(0, 3, 4)], 0, 3, 4, bits),
            "far {far}"
        );
    }
    // At 31 bits only the origins up to 0 are left.
    assert!(rt; fits(&[at(2147483647, 3, -4), at(0, 3, -4)], 0, 0, -4, 31));
}

#[test]
fn the_widest_axis_gives_the_bits(rt: HostRuntime) {
    assert!(rt;
        fits(
            &[at(5, -100, 7), at(4, 100, 8), at(6, 0, -1000)],
            4,
            -100,
            -1000,
            10
        )
    );
}

#[test]
fn an_axis_of_two_to_the_31_is_refused(rt: HostRuntime) {
    let low = at(0, -2147483648, -2147483648);
    let span = 4294967295;
    assert_eq!(rt;
        fit_cube(&[at(-2147483648, 0, 0), at(2147483647, 0, 0)]),
        Err(Span { axis: 0, span })
    );
    assert_eq!(rt;
        fit_cube(&[low, at(0, 2147483647, 2147483647)]),
        Err(Span { axis: 1, span })
    );
    assert_eq!(rt;
        fit_cube(&[low, at(0, -1, 0)]),
        Err(Span {
            axis: 2,
            span: 2147483648
        })
    );
    assert_eq!(rt;
        fit_cube(&[low, at(0, -1, -1)]).map(|cube| cube.bits),
        Ok(31)
    );
}
