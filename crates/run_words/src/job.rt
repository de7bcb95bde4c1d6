use crate::command::CommandName;
use cube_math::Cube;
use std::marker::Model;

/// What a run is to do: the command, its files in order, and for each option the value that was given or
/// its default. An option without a default that was not given is None.
#[derive(Debug, Drop)]
pub struct Job {
    pub command: CommandName,
    pub files: Vec<String>,
    /// None: the least cube round all points of the job.
    pub cube: Option<Cube>,
    /// The most points of a leaf, 1 to 50,000.
    pub leaf: u32,
    /// The most nodes of the octree, 1 to 200,000.
    pub nodes: u32,
    /// The most points that are admitted, 1 to 10,000,000.
    pub points: u32,
    /// The chunks, 1 to 1,000,000. None: as many as the cube, the nodes and the points ask for.
    pub chunks: Option<u32>,
    /// The most points of a batch, 1 to 50,000.
    pub batch: u32,
    /// The decimals of a text's coordinates that are kept, 0 to 9.
    pub decimals: u32,
    /// Whether the low bytes of 16-bit colours are taken and not the high ones.
    pub low: bool,
    /// Whether voxels are listed.
    pub voxels: bool,
    /// Where the camera stands.
    pub pos: [i32; 3],
    /// The camera's directions right, down and forward, each number -1,024 to 1,024, in 1/1024.
    pub rows: [i32; 9],
    /// The focal length, 1 to 65,536.
    pub focal: u32,
    /// The least depth that is drawn, 1 to 1,000,000,000.
    pub near: u32,
    /// Width and height in pixels, each 1 to 4,096.
    pub size: (u32, u32),
    /// The pixels from which a node is refined, 1 to 65,536.
    pub threshold: u32,
    /// The side of a point's square in pixels, 1 to 64.
    pub dot: u32,
    /// 1 to 16.
    pub loaders: u32,
    /// 1 to 16.
    pub viewers: u32,
    /// The frames of each viewer, 1 to 100.
    pub frames: u32,
    /// The schedule's file.
    pub schedule: Option<String>,
    /// The seed and the number of points, 1 to 10,000,000, to generate in place of files.
    pub generate: Option<(u64, u32)>,
    /// The seed of a demonstration.
    pub seed: u64,
    /// The points of a demonstration, 1 to 10,000,000.
    pub count: u32,
}

impl Model for Job {
    ghost use Rattle.std.specs.Prelude.{map, option_map, string_bytes};
    ghost use Rattle.run_words.specs.Values.{JobValue};

    ghost Value = { JobValue };

    ghost view = { λ j. record {
      command = j.command;
      files = map string_bytes j.files.items;
      cube = j.cube;
      leaf = j.leaf;
      nodes = j.nodes;
      points = j.points;
      chunks = j.chunks;
      batch = j.batch;
      decimals = j.decimals;
      low = j.low;
      voxels = j.voxels;
      pos = j.pos;
      rows = j.rows;
      focal = j.focal;
      near = j.near;
      size = j.size;
      threshold = j.threshold;
      dot = j.dot;
      loaders = j.loaders;
      viewers = j.viewers;
      frames = j.frames;
      schedule = option_map string_bytes j.schedule;
      generate = j.generate;
      seed = j.seed;
      count = j.count;
    } };
}
