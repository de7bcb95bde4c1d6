use crate::{LasFault, RgbByte, read_las};
use cube_math::Point;
use std::alloc::{AllocError, Global};
use std::test::Fail;

/// Bytes, with the place in the file where they stand.
type Part<'a> = (usize, &'a [u8]);

/// Version 1.2 with two points of format 2, in 283 bytes: (5, 6, 7) in the colour words ff00, 8000
/// and 0100, and (-1, 0, 2147483647) in three words 00ff.
const VERSION_1_2: [Part<'static>; 9] = [
    (0, b"LASF"),
    (24, &[1, 2]),
    (96, &[227]),
    (104, &[2, 28, 0]),
    (107, &[2]),
    (227, b"\x05\0\0\0\x06\0\0\0\x07"),
    (247, b"\x00\xff\x00\x80\x00\x01"),
    (255, b"\xff\xff\xff\xff\0\0\0\0\xff\xff\xff\x7f"),
    (275, b"\xff\0\xff\0\xff\0"),
];

/// Version 1.4 with a point of format 7, in 411 bytes. The older place of the count says 0.
const VERSION_1_4: [Part<'static>; 5] = [
    (0, b"LASF"),
    (24, &[1, 4]),
    (96, &[119, 1]),
    (104, &[7, 36, 0]),
    (247, &[1]),
];

/// A file of this length, which has the parts and between them zeros.
fn file_of(alloc: Global, len: usize, parts: &[Part<'_>]) -> Result<Vec<u8>, AllocError> {
    let mut file = vec![in alloc; 0; len]?;
    put(&mut file, parts);
    Ok(file)
}

fn put(file: &mut [u8], parts: &[Part<'_>]) {
    for (place, bytes) in parts {
        for (byte, new) in file.iter_mut().skip(*place).zip(*bytes) {
            *byte = *new;
        }
    }
}

#[test]
fn takes_the_high_or_the_low_byte(rt: HostRuntime) -> Result<(), Fail> {
    let file = file_of(rt.alloc(), 283, &VERSION_1_2)?;
    let high = read_las(rt.alloc(), file.as_slice(), RgbByte::High)?;
    let wanted = [
        Point::new(5, 6, 7, 255, 128, 1),
        Point::new(-1, 0, 2147483647, 0, 0, 0),
    ];
    assert_eq!(rt; high.points.as_slice(), wanted.as_slice());
    let low = read_las(rt.alloc(), file.as_slice(), RgbByte::Low)?;
    let wanted = [
        Point::new(5, 6, 7, 0, 0, 0),
        Point::new(-1, 0, 2147483647, 255, 255, 255),
    ];
    assert_eq!(rt; low.points.as_slice(), wanted.as_slice());
    Ok(())
}

#[test]
fn takes_the_count_of_version_1_4(rt: HostRuntime) -> Result<(), Fail> {
    let file = file_of(rt.alloc(), 411, &VERSION_1_4)?;
    let cloud = read_las(rt.alloc(), file.as_slice(), RgbByte::High)?;
    assert_eq!(rt;
        cloud.points.as_slice(),
        [Point::new(0, 0, 0, 0, 0, 0)].as_slice()
    );
    Ok(())
}

#[test]
fn gives_the_frame_without_points(rt: HostRuntime) -> Result<(), Fail> {
    let mut file = file_of(rt.alloc(), 283, &VERSION_1_2)?;
    put(&mut file, &[(107, &[0]), (130, &[9, 1]), (178, &[2, 9])]);
    let cloud = read_las(rt.alloc(), file.as_slice(), RgbByte::High)?;
    let mut frame = [0; 48];
    frame[0] = 1;
    frame[47] = 2;
    assert!(rt; cloud.points.is_empty());
    assert_eq!(rt; cloud.frame, frame);
    Ok(())
}

/// Three bytes before the points, and one behind each.
#[test]
fn gives_the_grey_of_the_intensity(rt: HostRuntime) -> Result<(), Fail> {
    let parts: [Part<'_>; 9] = [
        (0, b"LASF"),
        (24, &[1, 2]),
        (96, &[230]),
        (104, &[0, 21]),
        (107, &[2]),
        (230, &[1]),
        (242, &[7, 8]),
        (251, &[2]),
        (263, &[9, 200]),
    ];
    let file = file_of(rt.alloc(), 272, &parts)?;
    let wanted = [
        Point::new(1, 0, 0, 8, 8, 8),
        Point::new(2, 0, 0, 200, 200, 200),
    ];
    for rgb in [RgbByte::High, RgbByte::Low] {
        let cloud = read_las(rt.alloc(), file.as_slice(), rgb)?;
        assert_eq!(rt; cloud.points.as_slice(), wanted.as_slice());
    }
    Ok(())
}

#[test]
fn refuses_version_1_2(rt: HostRuntime) -> Result<(), Fail> {
    let cases: [(usize, Part<'_>, LasFault); 15] = [
        (3, (0, b"LAX"), LasFault::NotLas),
        (3, (0, b"LAS"), LasFault::HeaderShort { have: 3 }),
        (226, (0, b"LASF"), LasFault::HeaderShort { have: 226 }),
        (283, (25, &[1]), LasFault::Version { major: 1, minor: 1 }),
        (283, (104, &[4]), LasFault::Format { byte: 4 }),
        (283, (104, &[127]), LasFault::Format { byte: 127 }),
        (283, (104, &[128]), LasFault::Compressed { byte: 128 }),
        (283, (104, &[130]), LasFault::Compressed { byte: 130 }),
        (282, (104, &[130]), LasFault::Compressed { byte: 130 }),
        (
            283,
            (104, &[0, 19]),
            LasFault::Length { have: 19, need: 20 },
        ),
        (
            283,
            (96, &[226]),
            LasFault::Start {
                offset: 226,
                header: 227,
            },
        ),
        (
            283,
            (25, &[3]),
            LasFault::Start {
                offset: 227,
                header: 235,
            },
        ),
        (283, (25, &[4]), LasFault::HeaderShort { have: 283 }),
        (
            282,
            (0, b"LASF"),
            LasFault::PointsShort {
                have: 282,
                need: 283,
            },
        ),
        (
            283,
            (107, &[255, 255, 255, 255]),
            LasFault::PointsShort {
                have: 283,
                need: 120259084487,
            },
        ),
    ];
    for (len, part, fault) in cases {
        let mut file = file_of(rt.alloc(), 283, &VERSION_1_2)?;
        put(&mut file, &[part]);
        file.truncate(len);
        assert_eq!(rt;
            read_las(rt.alloc(), file.as_slice(), RgbByte::High).err(),
            Some(fault)
        );
    }
    Ok(())
}

#[test]
fn refuses_version_1_4(rt: HostRuntime) -> Result<(), Fail> {
    let mut file = file_of(rt.alloc(), 411, &VERSION_1_4)?;
    let most = [255; 8];
    put(
        &mut file,
        &[(96, &most[..4]), (105, &most[..2]), (247, &most)],
    );
    let need = 1208907372870559760056320;
    let fault = LasFault::PointsShort { have: 411, need };
    assert_eq!(rt;
        read_las(rt.alloc(), file.as_slice(), RgbByte::High).err(),
        Some(fault)
    );
    file.truncate(374);
    let fault = LasFault::HeaderShort { have: 374 };
    assert_eq!(rt;
        read_las(rt.alloc(), file.as_slice(), RgbByte::High).err(),
        Some(fault)
    );
    Ok(())
}
