use crate::runs::{THREE, run, run_in, sound};
use simlod_app::Status;
use std::test::Fail;

#[test]
fn words_that_are_no_job_are_refused_in_order(rt: HostRuntime) -> Result<(), Fail> {
    let rows = [
        ("", "simlod: usage: command\n"),
        ("list p.xyz", "simlod: usage: command\n"),
        ("nodes", "simlod: usage: options\n"),
        ("nodes --leaf 5 p.xyz", "simlod: usage: word 2\n"),
        ("nodes --leaf=0 p.xyz", "simlod: usage: value of --leaf\n"),
        ("nodes --focal=1 p.xyz", "simlod: usage: options\n"),
        ("demo p.xyz", "simlod: usage: options\n"),
        (
            "demo --seed=18446744073709551616",
            "simlod: usage: value of --seed\n",
        ),
        (
            "nodes --cube=0,0,0,32 p.xyz",
            "simlod: usage: value of --cube\n",
        ),
        (
            "live --viewers=16 --frames=100 --size=256,256 p.xyz",
            "simlod: usage: 104923136 pixels exceed 50000000\n",
        ),
    ];
    for (line, said) in rows {
        run(rt.alloc(), line, &[("p.xyz", "0 0 0\n")])?.expect_refusal(&rt, Status::Usage, said);
    }
    Ok(())
}

#[test]
fn jobs_that_are_not_run_here_are_refused(rt: HostRuntime) -> Result<(), Fail> {
    let rows = [
        ("live p.xyz", "simlod: usage: command\n"),
        ("replay --schedule=s p.xyz", "simlod: usage: command\n"),
    ];
    for (line, said) in rows {
        run(rt.alloc(), line, &[("p.xyz", "0 0 0\n")])?.expect_refusal(&rt, Status::Usage, said);
    }
    Ok(())
}

#[test]
fn a_bad_line_is_named_with_its_field(rt: HostRuntime) -> Result<(), Fail> {
    let rows = [
        ("1 2 3 4 5\n", "simlod: p.xyz: line 1: 5 fields\n"),
        (
            "# a\n1e3 0 0\n",
            "simlod: p.xyz: line 2 field 1: not a number\n",
        ),
        (
            "0 2147484 0\n",
            "simlod: p.xyz: line 1 field 2: out of range\n",
        ),
        (
            "0 0 0 256 0 0\n",
            "simlod: p.xyz: line 1 field 4: out of range\n",
        ),
    ];
    for (text, said) in rows {
        let outcome = run(rt.alloc(), "nodes p.xyz", &[("p.xyz", text)])?;
        outcome.expect_refusal(&rt, Status::BadInput, said);
    }
    Ok(())
}

#[test]
fn a_missing_file_is_named(rt: HostRuntime) -> Result<(), Fail> {
    let alloc = rt.alloc();
    let line = "nodes p.xyz three.xyz";
    let outcome = run(alloc, line, &[("p.xyz", "0 0 0\n")])?;
    outcome.expect_refusal(&rt, Status::NoFile, "simlod: no file three.xyz\n");
    Ok(())
}

#[test]
fn a_point_outside_the_given_cube_names_its_batch(rt: HostRuntime) -> Result<(), Fail> {
    let alloc = rt.alloc();
    let line = "nodes --decimals=0 --cube=0,0,0,7 p.xyz";
    let said = "simlod: limit: batch 0 outside 0\n";
    run(alloc, line, &[("p.xyz", "128 0 0\n")])?.expect_refusal(&rt, Status::Limit, said);
    let line = "nodes --decimals=0 --cube=0,0,0,7 --batch=2 p.xyz p.xyz";
    let said = "simlod: limit: batch 1 outside 0\n";
    let outcome = run(alloc, line, &[("p.xyz", "0 0 0\n1 0 0\n-1 0 0\n")])?;
    outcome.expect_refusal(&rt, Status::Limit, said);
    let files = [
        ("a.xyz", "0 0 0\n1 0 0\n2 0 0\n"),
        ("b.xyz", "3 0 0\n0 128 0\n"),
    ];
    let line = "nodes --decimals=0 --cube=0,0,0,7 --batch=2 a.xyz b.xyz";
    let said = "simlod: limit: batch 2 outside 1\n";
    run(alloc, line, &files)?.expect_refusal(&rt, Status::Limit, said);
    Ok(())
}

#[test]
fn points_too_far_apart_have_no_cube(rt: HostRuntime) -> Result<(), Fail> {
    let text = "-2147483648 0 0\n2147483647 0 0\n";
    let said = "simlod: limit: axis x spans 4294967295\n";
    let outcome = run(rt.alloc(), "nodes --decimals=0 p.xyz", &[("p.xyz", text)])?;
    outcome.expect_refusal(&rt, Status::Limit, said);
    Ok(())
}

const FILES: &[(&str, &str)] = &[("three.xyz", THREE)];

const LINE: &str = "nodes --decimals=0 --leaf=2 three.xyz";

#[test]
fn a_failing_output_keeps_a_first_part(rt: HostRuntime) -> Result<(), Fail> {
    let alloc = rt.alloc();
    let mut outside = sound(alloc);
    outside.piece = 10;
    outside.out.push(2)?;
    let outcome = run_in(alloc, LINE, FILES, outside)?;
    assert_eq!(rt; outcome.status, Status::OutputFault);
    assert_eq!(rt; outcome.out.bytes(), "cube 0 0 0".as_bytes());
    assert_eq!(rt; outcome.errors.bytes(), "simlod: output fault\n".as_bytes());
    Ok(())
}

#[test]
fn an_output_that_fails_at_any_byte_keeps_those_before(rt: HostRuntime) -> Result<(), Fail> {
    let alloc = rt.alloc();
    let listing = "cube 0 0 0 7\nr leaf 0\nnodes 1 points 0\n".as_bytes();
    assert_eq!(rt; listing.len(), 39);
    for call in 1..40usize {
        let mut outside = sound(alloc);
        outside.piece = 1;
        outside.out.push(call as u64)?;
        let outcome = run_in(alloc, "nodes empty.xyz", &[("empty.xyz", "")], outside)?;
        assert_eq!(rt; outcome.status, Status::OutputFault, "at {call}");
        assert_eq!(rt; outcome.out.bytes(), &listing[..call - 1], "at {call}");
        assert_eq!(rt; outcome.errors.bytes(), "simlod: output fault\n".as_bytes());
    }
    Ok(())
}

#[test]
fn every_failing_call_names_its_file(rt: HostRuntime) -> Result<(), Fail> {
    let alloc = rt.alloc();
    let files = [("a.xyz", "0 0 0\n"), ("b.xyz", "1 0 0\n")];
    // Each file is opened, read, and read again at its end.
    let first = "simlod: read fault in a.xyz\n";
    let second = "simlod: read fault in b.xyz\n";
    for line in ["nodes a.xyz b.xyz", "bounds a.xyz b.xyz"] {
        for call in 1..7u64 {
            let said = if call < 4 { first } else { second };
            let mut outside = sound(alloc);
            outside.inputs.push(call)?;
            let outcome = run_in(alloc, line, &files, outside)?;
            assert_eq!(rt; outcome.status, Status::ReadFault, "call {call} of {line}");
            outcome.expect_refusal(&rt, Status::ReadFault, said);
        }
        let mut outside = sound(alloc);
        outside.inputs.push(7)?;
        let outcome = run_in(alloc, line, &files, outside)?;
        assert_eq!(rt; outcome.status, Status::Ok, "after the last call of {line}");
    }
    Ok(())
}

#[test]
fn a_failing_error_stream_changes_no_status(rt: HostRuntime) -> Result<(), Fail> {
    let alloc = rt.alloc();
    for (line, status) in [
        ("nodes", Status::Usage),
        ("nodes four.xyz", Status::NoFile),
        ("nodes --decimals=0 --cube=0,0,0,7 three.xyz", Status::Limit),
        (
            "nodes --decimals=0 --leaf=2 three.xyz three.xyz",
            Status::Ok,
        ),
    ] {
        let mut outside = sound(alloc);
        outside.errors.push(1)?;
        let outcome = run_in(alloc, line, FILES, outside)?;
        assert_eq!(rt; outcome.status, status, "at {line}");
        assert_eq!(rt; outcome.errors.bytes().len(), 0);
    }
    Ok(())
}
