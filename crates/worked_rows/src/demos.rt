use crate::runs::{run, run_in, sound};
use simlod_app::Status;
use std::test::Fail;

#[test]
fn a_demo_tells_what_the_octree_of_its_points_has(rt: HostRuntime) -> Result<(), Fail> {
    let rows = [
        (
            "demo --seed=0 --count=1",
            "points 1\nbatches 1\ncube 82007 106638 9917 7\nnodes 1 inner 0 leaf 1\nvoxels 0\nsum 0\n",
        ),
        (
            "demo --seed=0 --count=2 --batch=1 --leaf=1",
            "points 2\nbatches 2\ncube 82007 106638 9189 19\nnodes 9 inner 1 leaf 8\nvoxels 2\nsum 24491078\n",
        ),
    ];
    for (line, text) in rows {
        run(rt.alloc(), line, &[])?.expect_output(&rt, text.as_bytes());
    }
    Ok(())
}

#[test]
fn a_demo_has_the_same_bytes_in_each_run(rt: HostRuntime) -> Result<(), Fail> {
    let line = "demo --count=1000 --batch=300 --leaf=300";
    let text =
        "points 1000\nbatches 4\ncube 809 175 12 20\nnodes 9 inner 1 leaf 8\nvoxels 990\nsum 8529893621\n";
    for _run in 0..2 {
        run(rt.alloc(), line, &[])?.expect_output(&rt, text.as_bytes());
    }
    Ok(())
}

#[test]
fn a_demo_names_its_first_refused_batch(rt: HostRuntime) -> Result<(), Fail> {
    let said = "simlod: limit: batch 1 points 1 3 3 5\n";
    let outcome = run(rt.alloc(), "demo --count=10 --points=5 --batch=3", &[])?;
    outcome.expect_refusal(&rt, Status::Limit, said);
    Ok(())
}

#[test]
fn a_demo_whose_output_fails_at_any_write_keeps_those_before(rt: HostRuntime) -> Result<(), Fail> {
    let alloc = rt.alloc();
    let text =
        b"points 1\nbatches 1\ncube 82007 106638 9917 7\nnodes 1 inner 0 leaf 1\nvoxels 0\nsum 0\n";
    assert_eq!(rt; text.len(), 82);
    // Twenty bytes a write are five writes.
    for call in 1..6usize {
        let mut outside = sound(alloc);
        outside.piece = 20;
        outside.out.push(call as u64)?;
        let outcome = run_in(alloc, "demo --seed=0 --count=1", &[], outside)?;
        assert_eq!(rt; outcome.status, Status::OutputFault, "at {call}");
        assert_eq!(rt; outcome.out.bytes(), &text[..20 * (call - 1)], "at {call}");
        assert_eq!(rt; outcome.errors.bytes(), "simlod: output fault\n".as_bytes());
    }
    Ok(())
}
