ghost use Rattle.run_report.specs.Faults.{HasAxis};

use super::*;
use crate::name::Name;
use cube_math::RefusedRow;
use std::process::Abort;
use std::test::Fail;

fn expect_line(rt: &impl Abort, alloc: Global, fault: &Fault, want: &str) -> Result<(), AllocError>
    requires { HasAxis fault.now }
{
    let line = fault_line(alloc, fault)?;
    assert_eq!(rt; line.as_slice(), want.as_bytes(), "for {want}");
    Ok(())
}

fn refused(cause: Cause) -> Fault
    ensures { HasAxis result }
{
    Fault::Batch {
        row: RefusedRow { input: 7, cause },
    }
}

#[test]
fn lines_that_name_no_file(rt: HostRuntime) -> Result<(), Fail> {
    let alloc = rt.alloc();
    let fault = Fault::Output;
    expect_line(&rt, alloc, &fault, "simlod: output fault\n")?;
    assert_eq!(rt; output_fault_line(), b"simlod: output fault\n".as_slice());
    let fault = Fault::Command;
    expect_line(&rt, alloc, &fault, "simlod: usage: command\n")?;
    let fault = Fault::Word { at: 2 };
    expect_line(&rt, alloc, &fault, "simlod: usage: word 2\n")?;
    let fault = Fault::Options;
    expect_line(&rt, alloc, &fault, "simlod: usage: options\n")?;
    let name = Name::new(alloc, "leaf")?;
    let fault = Fault::Value { name };
    expect_line(&rt, alloc, &fault, "simlod: usage: value of --leaf\n")?;
    let fault = Fault::Pixels { n: 104_923_136 };
    let want = "simlod: usage: 104923136 pixels exceed 50000000\n";
    expect_line(&rt, alloc, &fault, want)?;
    let fault = Fault::Axis {
        axis: 0,
        span: 4_294_967_295,
    };
    expect_line(
        &rt,
        alloc,
        &fault,
        "simlod: limit: axis x spans 4294967295\n",
    )?;
    let fault = Fault::Axis { axis: 2, span: 7 };
    expect_line(&rt, alloc, &fault, "simlod: limit: axis z spans 7\n")?;
    let fault = Fault::Batches;
    expect_line(&rt, alloc, &fault, "simlod: limit: batches\n")?;
    let fault = Fault::Memory;
    expect_line(&rt, alloc, &fault, "simlod: out of memory\n")?;
    assert_eq!(rt; out_of_memory_line(), b"simlod: out of memory\n".as_slice());
    Ok(())
}

/// Asserts the line of a batch that is refused for this cause.
fn expect_refused(
    rt: &impl Abort,
    alloc: Global,
    cause: Cause,
    want: &str,
) -> Result<(), AllocError> {
    expect_line(rt, alloc, &refused(cause), want)
}

#[test]
fn lines_of_refused_batches(rt: HostRuntime) -> Result<(), Fail> {
    let rows = [
        (
            Cause::Outside { at: 0 },
            "simlod: limit: batch 7 outside 0\n",
        ),
        (
            Cause::Points {
                at: 1,
                admitted: 20,
                n: 300,
                most: 310,
            },
            "simlod: limit: batch 7 points 1 20 300 310\n",
        ),
        (
            Cause::Chunks {
                at: 2,
                need: 30,
                free: 10,
                held: 5,
            },
            "simlod: limit: batch 7 chunks 2 30 10 5\n",
        ),
        (
            Cause::Nodes {
                at: 1,
                need: 9,
                most: 8,
            },
            "simlod: limit: batch 7 nodes 1 9 8\n",
        ),
    ];
    for (cause, want) in rows {
        expect_refused(&rt, rt.alloc(), cause, want)?;
    }
    Ok(())
}

#[test]
fn lines_that_name_a_text_file(rt: HostRuntime) -> Result<(), Fail> {
    let alloc = rt.alloc();
    let name = Name::new(alloc, "three.xyz")?;
    let fault = Fault::NoFile { name };
    expect_line(&rt, alloc, &fault, "simlod: no file three.xyz\n")?;
    let name = Name::new(alloc, "three.xyz")?;
    let fault = Fault::ReadFault { name };
    expect_line(&rt, alloc, &fault, "simlod: read fault in three.xyz\n")?;
    let name = Name::new(alloc, "a")?;
    let fault = Fault::Fields {
        name,
        line: 1,
        n: 5,
    };
    expect_line(&rt, alloc, &fault, "simlod: a: line 1: 5 fields\n")?;
    let name = Name::new(alloc, "a")?;
    let fault = Fault::Number {
        name,
        line: 2,
        field: 1,
    };
    expect_line(
        &rt,
        alloc,
        &fault,
        "simlod: a: line 2 field 1: not a number\n",
    )?;
    let name = Name::new(alloc, "a")?;
    let fault = Fault::Range {
        name,
        line: 3,
        field: 4,
    };
    expect_line(
        &rt,
        alloc,
        &fault,
        "simlod: a: line 3 field 4: out of range\n",
    )?;
    let name = Name::new(alloc, "s")?;
    let fault = Fault::Schedule { name, at: 4 };
    expect_line(&rt, alloc, &fault, "simlod: s: schedule byte 4\n")?;
    let name = Name::new(alloc, "a")?;
    let fault = Fault::TooLong { name };
    let want = "simlod: limit: a is longer than 1000000000 bytes\n";
    expect_line(&rt, alloc, &fault, want)?;
    Ok(())
}

#[test]
fn lines_that_name_a_las_file(rt: HostRuntime) -> Result<(), Fail> {
    let alloc = rt.alloc();
    let name = Name::new(alloc, "a.las")?;
    let fault = Fault::NotLas { name };
    expect_line(&rt, alloc, &fault, "simlod: a.las: not a LAS file\n")?;
    let name = Name::new(alloc, "a.las")?;
    let fault = Fault::HeaderShort { name, have: 3 };
    expect_line(&rt, alloc, &fault, "simlod: a.las: header ends at 3\n")?;
    let name = Name::new(alloc, "a.las")?;
    let fault = Fault::Version {
        name,
        major: 1,
        minor: 5,
    };
    expect_line(&rt, alloc, &fault, "simlod: a.las: version 1.5\n")?;
    let name = Name::new(alloc, "a.las")?;
    let fault = Fault::Compressed { name, byte: 130 };
    let want = "simlod: a.las: compressed points, format 130\n";
    expect_line(&rt, alloc, &fault, want)?;
    let name = Name::new(alloc, "a.las")?;
    let fault = Fault::Format { name, byte: 9 };
    expect_line(&rt, alloc, &fault, "simlod: a.las: point format 9\n")?;
    let name = Name::new(alloc, "a.las")?;
    let fault = Fault::Length {
        name,
        have: 19,
        need: 20,
    };
    expect_line(
        &rt,
        alloc,
        &fault,
        "simlod: a.las: record length 19, need 20\n",
    )?;
    let name = Name::new(alloc, "a.las")?;
    let fault = Fault::Start {
        name,
        offset: 226,
        header: 227,
    };
    let want = "simlod: a.las: points start at 226, header 227\n";
    expect_line(&rt, alloc, &fault, want)?;
    let name = Name::new(alloc, "a.las")?;
    let fault = Fault::PointsShort {
        name,
        have: 282,
        need: 283,
    };
    expect_line(&rt, alloc, &fault, "simlod: a.las: 282 bytes, need 283\n")?;
    let name = Name::new(alloc, "b.las")?;
    let first = Name::new(alloc, "a.las")?;
    let fault = Fault::Frames { name, first };
    let want = "simlod: b.las: scales or offsets differ from a.las\n";
    expect_line(&rt, alloc, &fault, want)?;
    Ok(())
}
