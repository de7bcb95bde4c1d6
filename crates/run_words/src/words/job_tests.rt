use super::tests::words_of;
use super::*;
use cube_math::Cube;
use std::process::Abort;
use std::test::Fail;

fn read(rt: &impl Abort, alloc: Global, line: &str) -> Result<Job, AllocError> {
    let words = words_of(alloc, line)?;
    Ok(read_words(alloc, words.as_slice()).expect(rt, "a job"))
}

#[test]
fn absent_options_have_defaults(rt: HostRuntime) -> Result<(), Fail> {
    let job = read(&rt, rt.alloc(), "nodes a.xyz")?;
    assert_eq!(rt; job.command, CommandName::Nodes);
    assert_eq!(rt; job.cube, None);
    let limits = [job.leaf, job.nodes, job.points, job.batch, job.decimals];
    assert_eq!(rt; limits, [50_000, 20_000, 10_000_000, 50_000, 3]);
    assert_eq!(rt; job.chunks, None);
    assert!(rt; !job.low && !job.voxels);
    assert_eq!(rt; job.pos, [0; 3]);
    assert_eq!(rt; job.rows, [1024, 0, 0, 0, 1024, 0, 0, 0, 1024]);
    assert_eq!(rt; job.size, (256, 256));
    let camera = [job.focal, job.near, job.threshold, job.dot];
    assert_eq!(rt; camera, [256, 1, 128, 1]);
    let actors = [job.loaders, job.viewers, job.frames];
    assert_eq!(rt; actors, [2, 1, 2]);
    assert!(rt; job.schedule.is_none() && job.generate.is_none());
    assert_eq!(rt; (job.seed, job.count), (1, 400_000));
    Ok(())
}

#[test]
fn options_set_their_fields(rt: HostRuntime) -> Result<(), Fail> {
    let line =
        "replay b.xyz --cube=-1,2,3,8 --leaf=1 --nodes=2 --points=3 --chunks=4 --batch=5 --decimals=6 --rgb=low --pos=1,-2,3 --rows=1,2,3,4,5,6,7,8,-9 --focal=7 --near=8 --size=9,10 --threshold=11 --dot=12 --loaders=13 --viewers=14 a.xyz --frames=15 --schedule=s b.xyz";
    let job = read(&rt, rt.alloc(), line)?;
    assert_eq!(rt; job.command, CommandName::Replay);
    assert_eq!(rt; job.cube, Cube::new(-1, 2, 3, 8));
    assert_eq!(rt; job.files.len(), 3);
    assert_eq!(rt; job.files[0].as_str(), "b.xyz");
    assert_eq!(rt; job.files[1].as_str(), "a.xyz");
    let limits = [job.leaf, job.nodes, job.points, job.batch, job.decimals];
    assert_eq!(rt; limits, [1, 2, 3, 5, 6]);
    assert_eq!(rt; job.chunks, Some(4));
    assert!(rt; job.low && !job.voxels);
    assert_eq!(rt; job.pos, [1, -2, 3]);
    assert_eq!(rt; job.rows, [1, 2, 3, 4, 5, 6, 7, 8, -9]);
    assert_eq!(rt; job.size, (9, 10));
    let camera = [job.focal, job.near, job.threshold, job.dot];
    assert_eq!(rt; camera, [7, 8, 11, 12]);
    let actors = [job.loaders, job.viewers, job.frames];
    assert_eq!(rt; actors, [13, 14, 15]);
    let schedule = job.schedule.as_ref().map(|name| name.as_str());
    assert_eq!(rt; schedule, Some("s"));

    let job = read(&rt, rt.alloc(), "live --generate=17,4")?;
    assert_eq!(rt; job.generate, Some((17, 4)));
    assert!(rt; job.files.is_empty());
    let job = read(&rt, rt.alloc(), "demo --count=6 --seed=5")?;
    assert_eq!(rt; (job.seed, job.count), (5, 6));
    let job = read(&rt, rt.alloc(), "nodes --voxels=yes --rgb=high a")?;
    assert!(rt; job.voxels && !job.low);
    Ok(())
}
