use super::*;
use std::process::Abort;
use std::test::Fail;

/// The words of a line, parted by single spaces.
pub(super) fn words_of(alloc: Global, line: &str) -> Result<Vec<String>, AllocError> {
    let mut words = Vec::new(alloc);
    for word in line.split(' ') {
        words.push(String::from_str(alloc, word)?)?;
    }
    Ok(words)
}

fn read(alloc: Global, line: &str) -> Result<Result<Job, WordsFault>, AllocError> {
    let words = words_of(alloc, line)?;
    Ok(read_words(alloc, words.as_slice()))
}

fn expect_fault(
    rt: &impl Abort,
    alloc: Global,
    line: &str,
    want: WordsFault,
) -> Result<(), AllocError> {
    match read(alloc, line)? {
        Ok(_) => assert!(rt; false, "accepted {line}"),
        Err(fault) => assert_eq!(rt; fault, want, "at {line}"),
    }
    Ok(())
}

#[test]
fn refusals_in_their_order(rt: HostRuntime) -> Result<(), Fail> {
    let alloc = rt.alloc();
    let none = Vec::new(alloc);
    let fault = read_words(alloc, none.as_slice()).err();
    assert_eq!(rt; fault, Some(WordsFault::Command));
    let refused = [
        ("", WordsFault::Command),
        ("node --leaf=0 -x", WordsFault::Command),
        ("nodes --leaf 5 a.xyz", WordsFault::Word { at: 2 }),
        ("nodes a --focal=1 -x --", WordsFault::Word { at: 4 }),
        ("nodes a --", WordsFault::Word { at: 3 }),
        ("nodes a --=1", WordsFault::Word { at: 3 }),
        ("nodes --help a", WordsFault::Word { at: 2 }),
        ("nodes --Leaf=1 a", WordsFault::Word { at: 2 }),
        ("nodes a --le-af=1", WordsFault::Word { at: 3 }),
        ("nodes a  b", WordsFault::Word { at: 3 }),
        ("nodes", WordsFault::Options),
        ("nodes --leaf=0", WordsFault::Options),
        ("nodes --leafs=1 a", WordsFault::Options),
        ("nodes --focal=1 a", WordsFault::Options),
        ("nodes --leaf=1 a --leaf=1", WordsFault::Options),
        ("replay a", WordsFault::Options),
        ("demo a", WordsFault::Options),
        ("live", WordsFault::Options),
        ("live --generate=0,1 a", WordsFault::Options),
    ];
    for (line, want) in refused {
        expect_fault(&rt, alloc, line, want)?;
    }
    let pixels = WordsFault::Pixels { n: 104_923_136 };
    let line = "live --viewers=16 --frames=100 --size=256,256 a.xyz";
    expect_fault(&rt, alloc, line, pixels)?;
    let first = WordsFault::Value {
        name: OptionName::Size,
    };
    let line = "live --dot=0 --viewers=16 --frames=100 --size=4096,4097 a.xyz";
    expect_fault(&rt, alloc, line, first)?;
    Ok(())
}

#[test]
fn values_at_their_edges(rt: HostRuntime) -> Result<(), Fail> {
    let alloc = rt.alloc();
    let accepted = [
        "nodes --cube=-2147483648,-0,2147483520,7 a",
        "nodes --cube=0,0,0,31 a",
        "nodes --leaf=50000 --nodes=200000 --points=10000000 --batch=50000 a",
        "nodes --leaf=1 --nodes=0000000001 --points=1 --batch=1 --decimals=0 a",
        "replay --chunks=1 --schedule=s a",
        "replay --chunks=1000000 --schedule=s=- a",
        "bounds --decimals=9 --rgb=low a=b",
        "nodes --rgb=high --voxels=no a",
        "image --pos=-2147483648,2147483647,-0 a",
        "image --rows=-1024,1024,0,0,0,0,0,0,-0 --focal=1 --near=1 a",
        "image --focal=65536 --near=1000000000 --threshold=65536 --dot=64 a",
        "image --size=1,4096 --threshold=1 --dot=1 a",
        "live --loaders=1 --viewers=1 --frames=1 a",
        "live --loaders=16 --viewers=16 --frames=100 --size=1,1 a",
        "live --generate=18446744073709551615,1",
        "live --generate=00000000000000000000,10000000",
        "demo --seed=18446744073709551615 --count=1",
        "demo --seed=0 --count=10000000",
    ];
    for line in accepted {
        let fault = read(alloc, line)?.err();
        assert_eq!(rt; fault, None, "at {line}");
    }
    Ok(())
}

#[test]
fn values_past_their_edges(rt: HostRuntime) -> Result<(), Fail> {
    let alloc = rt.alloc();
    let refused = [
        ("nodes --cube=0,0,0,6 a", OptionName::Cube),
        ("nodes --cube=0,0,0,-7 a", OptionName::Cube),
        ("nodes --cube=0,0,0,32 a", OptionName::Cube),
        ("nodes --cube=0,2147483521,0,7 a", OptionName::Cube),
        ("nodes --cube=2147483648,0,0,7 a", OptionName::Cube),
        ("nodes --cube=0,0,0 a", OptionName::Cube),
        ("nodes --cube=0,0,0,7,0 a", OptionName::Cube),
        ("nodes --leaf= a", OptionName::Leaf),
        ("nodes --leaf=0 a", OptionName::Leaf),
        ("nodes --leaf=50001 a", OptionName::Leaf),
        ("nodes --leaf=+1 a", OptionName::Leaf),
        ("nodes --leaf=1x a", OptionName::Leaf),
        ("nodes --leaf=1,1 a", OptionName::Leaf),
        ("nodes --leaf=00000000001 a", OptionName::Leaf),
        ("nodes --nodes=0 a", OptionName::Nodes),
        ("nodes --nodes=200001 a", OptionName::Nodes),
        ("nodes --points=10000001 a", OptionName::Points),
        ("live --chunks=1000001 a", OptionName::Chunks),
        ("nodes --batch=50001 a", OptionName::Batch),
        ("nodes --decimals=10 a", OptionName::Decimals),
        ("nodes --decimals=-0 a", OptionName::Decimals),
        ("nodes --rgb=Low a", OptionName::Rgb),
        ("nodes --voxels= a", OptionName::Voxels),
        ("image --pos=0,0,2147483648 a", OptionName::Pos),
        ("image --pos=0,0, a", OptionName::Pos),
        ("image --pos=0,--1,0 a", OptionName::Pos),
        ("image --rows=0,0,0,0,0,0,0,0 a", OptionName::Rows),
        ("image --rows=0,0,0,0,0,0,0,0,1025 a", OptionName::Rows),
        ("image --focal=65537 a", OptionName::Focal),
        ("image --near=1000000001 a", OptionName::Near),
        ("image --size=0,1 a", OptionName::Size),
        ("image --size=1 a", OptionName::Size),
        ("image --threshold=65537 a", OptionName::Threshold),
        ("image --dot=65 a", OptionName::Dot),
        ("live --loaders=17 a", OptionName::Loaders),
        ("live --viewers=17 a", OptionName::Viewers),
        ("live --frames=101 a", OptionName::Frames),
        ("replay --schedule= a", OptionName::Schedule),
        (
            "live --generate=18446744073709551616,1",
            OptionName::Generate,
        ),
        (
            "live --generate=000000000000000000000,1",
            OptionName::Generate,
        ),
        ("live --generate=0,0", OptionName::Generate),
        ("live --generate=0,10000001", OptionName::Generate),
        ("demo --seed=-0", OptionName::Seed),
        ("demo --count=0", OptionName::Count),
        ("nodes --decimals=a --leaf=b c", OptionName::Leaf),
    ];
    for (line, name) in refused {
        expect_fault(&rt, alloc, line, WordsFault::Value { name })?;
    }
    Ok(())
}
