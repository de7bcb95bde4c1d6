use crate::runs::{THREE, run};
use simlod_app::Status;
use std::test::Fail;

#[test]
fn the_first_batch_past_a_limit_is_named(rt: HostRuntime) -> Result<(), Fail> {
    let rows = [
        ("--nodes=8", "simlod: limit: batch 0 nodes 0 9 8\n"),
        ("--points=2", "simlod: limit: batch 0 points 0 0 3 2\n"),
        (
            "--batch=1 --points=2",
            "simlod: limit: batch 2 points 2 2 1 2\n",
        ),
        (
            "--batch=1 --nodes=8",
            "simlod: limit: batch 2 nodes 2 9 8\n",
        ),
    ];
    for (limits, said) in rows {
        for command in ["nodes", "image"] {
            let alloc = rt.alloc();
            let line = format!(in alloc; "{command} --decimals=0 --leaf=2 {limits} a.xyz")?;
            let outcome = run(alloc, line.as_str(), &[("a.xyz", THREE)])?;
            outcome.expect_refusal(&rt, Status::Limit, said);
        }
    }
    Ok(())
}

#[test]
fn as_many_as_a_limit_allows_are_admitted(rt: HostRuntime) -> Result<(), Fail> {
    let alloc = rt.alloc();
    let listing =
        b"cube 0 0 0 8\nr inner 3 2\nr0 leaf 2\nr1 leaf 1\nr2 leaf 0\nr3 leaf 0\nr4 leaf 0\nr5 leaf 0\nr6 leaf 0\nr7 leaf 0\nnodes 9 points 3\n";
    for limits in ["--nodes=9", "--points=3", "--batch=1 --points=3 --nodes=9"] {
        let line = format!(in alloc; "nodes --decimals=0 --leaf=2 {limits} a.xyz")?;
        run(alloc, line.as_str(), &[("a.xyz", THREE)])?.expect_output(&rt, listing);
    }
    Ok(())
}

#[test]
fn of_one_batch_outside_comes_first_then_points_then_nodes(rt: HostRuntime) -> Result<(), Fail> {
    let alloc = rt.alloc();
    let far = [("a.xyz", "0 0 0\n1 0 0\n256 0 0\n")];
    let line = "nodes --decimals=0 --leaf=2 --cube=0,0,0,8 --points=2 --nodes=8 a.xyz";
    let outcome = run(alloc, line, &far)?;
    outcome.expect_refusal(&rt, Status::Limit, "simlod: limit: batch 0 outside 2\n");
    let said = "simlod: limit: batch 0 points 0 0 3 2\n";
    run(alloc, line, &[("a.xyz", THREE)])?.expect_refusal(&rt, Status::Limit, said);
    Ok(())
}

#[test]
fn an_earlier_batch_comes_before_every_later_one(rt: HostRuntime) -> Result<(), Fail> {
    let alloc = rt.alloc();
    let text = "0 0 0\n1 0 0\n2 0 0\n3 0 0\n4 0 0\n256 0 0\n";
    let files = [("a.xyz", text)];
    let line = "nodes --decimals=0 --leaf=2 --cube=0,0,0,8 --batch=1 --points=4 --nodes=8 a.xyz";
    let outcome = run(alloc, line, &files)?;
    outcome.expect_refusal(&rt, Status::Limit, "simlod: limit: batch 2 nodes 2 9 8\n");
    let line = "nodes --decimals=0 --leaf=2 --cube=0,0,0,8 --batch=1 --points=4 a.xyz";
    let outcome = run(alloc, line, &files)?;
    outcome.expect_refusal(
        &rt,
        Status::Limit,
        "simlod: limit: batch 4 points 4 4 1 4\n",
    );
    let line = "nodes --decimals=0 --leaf=2 --cube=0,0,0,8 --batch=1 a.xyz";
    let outcome = run(alloc, line, &files)?;
    outcome.expect_refusal(&rt, Status::Limit, "simlod: limit: batch 5 outside 0\n");
    Ok(())
}

#[test]
fn batches_of_several_files_are_numbered_on(rt: HostRuntime) -> Result<(), Fail> {
    let files = [
        ("a.xyz", "0 0 0\n1 0 0\n2 0 0\n"),
        ("b.xyz", ""),
        ("c.xyz", "3 0 0\n4 0 0\n"),
    ];
    let line = "nodes --decimals=0 --batch=2 --points=4 a.xyz b.xyz c.xyz";
    let said = "simlod: limit: batch 2 points 2 3 2 4\n";
    run(rt.alloc(), line, &files)?.expect_refusal(&rt, Status::Limit, said);
    Ok(())
}
