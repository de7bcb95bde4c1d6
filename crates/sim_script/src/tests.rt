use crate::{ScheduleFault, read_schedule};
use std::test::Fail;

#[test]
fn words_are_actors_with_and_without_counts(rt: HostRuntime) -> Result<(), Fail> {
    let steps = read_schedule(rt.alloc(), b" 0x3\t1\r\n31x1 07\n2x0000002")?;
    assert_eq!(rt; steps.as_slice(), [0, 0, 0, 1, 31, 7, 2, 2].as_slice());
    Ok(())
}

#[test]
fn a_text_of_blanks_is_the_empty_schedule(rt: HostRuntime) -> Result<(), Fail> {
    for text in [b"".as_slice(), b" \t\r\n ".as_slice()] {
        assert!(rt; read_schedule(rt.alloc(), text)?.is_empty());
    }
    Ok(())
}

#[test]
fn the_first_bad_word_is_told(rt: HostRuntime) {
    let cases = [
        (b"0x8 1y".as_slice(), 4),
        (b"32".as_slice(), 0),
        (b" 007".as_slice(), 1),
        (b"1\n0x0 0x0".as_slice(), 2),
        (b"0x".as_slice(), 0),
        (b"0X3".as_slice(), 0),
        (b"1 x3".as_slice(), 2),
        (b"1 2x3x4".as_slice(), 2),
        (b"1\t0x12345678".as_slice(), 2),
        (b"0x1000001".as_slice(), 0),
        (b"\r\n\r\n-1".as_slice(), 4),
    ];
    for (text, at) in cases {
        assert_eq!(rt;
            read_schedule(rt.alloc(), text).err(),
            Some(ScheduleFault::Byte { at })
        );
    }
}

#[test]
fn all_words_together_have_at_most_a_million_steps(rt: HostRuntime) -> Result<(), Fail> {
    let steps = read_schedule(rt.alloc(), b"0x999999 1")?;
    assert_eq!(rt; steps.len(), 1_000_000);
    let fault = read_schedule(rt.alloc(), b"0x999999 1 2 3").err();
    assert_eq!(rt; fault, Some(ScheduleFault::Byte { at: 11 }));
    Ok(())
}
