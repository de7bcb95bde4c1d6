use crate::{XyzFault, read_xyz};
use cube_math::Point;
use std::test::Fail;

fn white(x: i32, y: i32, z: i32) -> Point {
    Point::new(x, y, z, 255, 255, 255)
}

#[test]
fn rounds_down_and_drops_carriage_returns(rt: HostRuntime) -> Result<(), Fail> {
    let points = read_xyz(rt.alloc(), b"-0.0005 0 0\r\n1,2,3,255,0,10\r\n", 3)?;
    let coloured = Point::new(1000, 2000, 3000, 255, 0, 10);
    assert_eq!(rt; points.as_slice(), [white(-1, 0, 0), coloured].as_slice());
    Ok(())
}

#[test]
fn reads_each_kind_of_line(rt: HostRuntime) -> Result<(), Fail> {
    let text = b"# x y z\n\n +1\t,-2, 3.\n// i\n4 5 6 7.5\n7 8 9 10 1 2\n1 1 1 99999999999 0 0 7";
    let points = read_xyz(rt.alloc(), text, 0)?;
    let wanted = [
        white(1, -2, 3),
        white(4, 5, 6),
        Point::new(7, 8, 9, 10, 1, 2),
        Point::new(1, 1, 1, 0, 0, 7),
    ];
    assert_eq!(rt; points.as_slice(), wanted.as_slice());
    Ok(())
}

#[test]
fn tells_the_first_fault(rt: HostRuntime) -> Result<(), Fail> {
    let number = XyzFault::Number { line: 1, field: 1 };
    let cases = [
        (b"1 2 3 4 5".as_slice(), XyzFault::Fields { line: 1, n: 5 }),
        (b"1 2".as_slice(), XyzFault::Fields { line: 1, n: 2 }),
        (
            b"x 2 3 4 5 6 7 8".as_slice(),
            XyzFault::Fields { line: 1, n: 8 },
        ),
        (
            b"# a\n1e3 0 0".as_slice(),
            XyzFault::Number { line: 2, field: 1 },
        ),
        (
            b"0 0 0 -".as_slice(),
            XyzFault::Number { line: 1, field: 4 },
        ),
        (
            b"\n7 8 9 10 1e 2".as_slice(),
            XyzFault::Number { line: 2, field: 5 },
        ),
        (
            b"0 2147484 0".as_slice(),
            XyzFault::Range { line: 1, field: 2 },
        ),
        (
            b"-2147483.6485 0 0".as_slice(),
            XyzFault::Range { line: 1, field: 1 },
        ),
        (
            b"0 0 0 256 0 0".as_slice(),
            XyzFault::Range { line: 1, field: 4 },
        ),
        (b"- 0 0".as_slice(), number),
        (b". 0 0".as_slice(), number),
        (b"1..2 0 0".as_slice(), number),
        (b"\x00 0 0".as_slice(), number),
        (b"\xff 0 0".as_slice(), number),
    ];
    for (text, fault) in cases {
        assert_eq!(rt; read_xyz(rt.alloc(), text, 3).err(), Some(fault));
    }
    Ok(())
}

#[test]
fn reads_the_ends_of_the_range(rt: HostRuntime) -> Result<(), Fail> {
    let cases = [
        (b"+.5 0 0".as_slice(), 3, white(500, 0, 0)),
        (b"-2147483.648 0 0".as_slice(), 3, white(-2147483648, 0, 0)),
        (b"2.1474836479 0 0".as_slice(), 9, white(2147483647, 0, 0)),
    ];
    for (text, decimals, point) in cases {
        let points = read_xyz(rt.alloc(), text, decimals)?;
        assert_eq!(rt; points.as_slice(), [point].as_slice());
    }
    for text in [b"".as_slice(), b"\r".as_slice(), b"\n".as_slice()] {
        assert!(rt; read_xyz(rt.alloc(), text, 3)?.is_empty());
    }
    Ok(())
}

#[test]
fn reads_any_number_of_digits(rt: HostRuntime) -> Result<(), Fail> {
    let mut zeros = vec![in rt.alloc(); b'0'; 10000]?;
    zeros.extend_from_slice(b" 0 0")?;
    let points = read_xyz(rt.alloc(), zeros.as_slice(), 3)?;
    assert_eq!(rt; points.as_slice(), [white(0, 0, 0)].as_slice());
    let mut nines = vec![in rt.alloc(); b'9'; 10000]?;
    nines.extend_from_slice(b" 0 0")?;
    let fault = XyzFault::Range { line: 1, field: 1 };
    assert_eq!(rt;
        read_xyz(rt.alloc(), nines.as_slice(), 3).err(),
        Some(fault)
    );
    Ok(())
}
