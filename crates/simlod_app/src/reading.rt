ghost use Rattle.std.specs.Prelude.{◌≡◌, ◌≤◌, IfOk, IfErr, Option, Some, None, map, option_map, string_bytes, vec_items};
ghost use Rattle.cloud_io.specs.Counts.{Rose};
ghost use Rattle.cloud_io.specs.Files.{Opened, OpenedFile};
ghost use Rattle.las_points.specs.Fields.{frame};
ghost use Rattle.las_points.specs.Reading.{las};
ghost use Rattle.run_report.specs.Faults.{HasAxis};
ghost use Rattle.simlod_app.specs.Dues.{Gives, GivesOver};
ghost use Rattle.simlod_app.specs.Outcomes.{IsReached};
ghost use Rattle.simlod_app.specs.Reads.{AreOpened, AreReadFor, IsOpened, IsReadFor, OfFile, OfFiles};
ghost use Rattle.simlod_app.specs.Runs.{ends_as, is_las, rgb_byte, points_in, or_las_fault, or_xyz_fault, clouds_of, framed_in, beside_frame, frame_step, reading_of};
ghost use Rattle.xyz_points.specs.Reading.{xyz};

use crate::faults;
use cloud_io::{Inputs, read_all};
use cube_math::Point;
use las_points::{LasCloud, RgbByte, read_las};
use run_report::Fault;
use run_words::Job;
use std::alloc::Global;
use xyz_points::read_xyz;

/// The most bytes of a file.
const MOST_BYTES: u64 = 1_000_000_000;

/// How files are read: with so many decimals of a text's coordinates, and with the low bytes of a LAS
/// file's colours or the high ones.
#[derive(Clone, Copy)]
pub struct Reading {
    pub decimals: u32,
    pub low: bool,
}

/// How a job reads its files.
pub fn reading_of(job: &Job) -> Reading
    ensures { result ≡ reading_of job.now }
{
    Reading {
        decimals: job.decimals,
        low: job.low,
    }
}

/// The points of a file and, if it is a LAS file, its scales and offsets.
#[derive(Drop)]
struct FileCloud {
    points: Vec<Point>,
    frame: Option<[u8; 48]>,
}

/// The name of the first LAS file, and its scales and offsets.
#[derive(Clone, Copy)]
struct FirstLas<'a> {
    name: &'a str,
    frame: [u8; 48],
}

/// The points of each file, in the order of the files. The first file that is refused ends the reading.
pub fn read_clouds<I: Inputs>(
    alloc: Global,
    inputs: &mut I,
    names: &[String],
    how: Reading,
) -> Result<Vec<Vec<Point>>, Fault>
    requires { how.decimals ≤ 9 }
    ensures kept { I.files inputs.new ≡ I.files inputs.old }
    ensures axis { IfErr result HasAxis }
    ensures gives { (opened : Opened) × AreOpened (I.files inputs.old) (map string_bytes names.now) (I.opened inputs.old) (I.opened inputs.new) opened
        × AreReadFor result (map string_bytes names.now) opened
        × OfFiles (I.files inputs.old) (map string_bytes names.now) opened (λ files.
        GivesOver (λ name. IsReached how files name × Rose (I.faults inputs.old) (I.faults inputs.new))
        (Rose (I.missing inputs.old) (I.missing inputs.new))
        (λ clouds. map vec_items clouds.items) result (clouds_of how files)) }
{
    let mut clouds = Vec::new(alloc);
    let mut first = None;
    for name in names {
        let cloud = read_cloud(alloc, inputs, name.as_str(), how)?;
        first = with_frame(alloc, first, name.as_str(), cloud.frame)?;
        let Ok(()) = clouds.push(cloud.points) else {
            return Err(Fault::Memory);
        };
    }
    Ok(clouds)
}

/// The first LAS file, once a file of this name was read behind others. Another LAS file needs the
/// scales and offsets of the first.
fn with_frame<'a>(
    alloc: Global,
    first: Option<FirstLas<'a>>,
    name: &'a str,
    frame: Option<[u8; 48]>,
) -> Result<Option<FirstLas<'a>>, Fault>
    ensures axis { IfErr result HasAxis }
    ensures gives { Gives (λ o. option_map (λ f. (f.name.now, f.frame)) o) result (frame_step (option_map (λ f. (f.name.now, f.frame)) first.entry) name.now frame) }
{
    let Some(frame) = frame else {
        return Ok(first);
    };
    match first {
        None => Ok(Some(FirstLas { name, frame })),
        Some(known) => {
            if frame != known.frame {
                return Err(faults::frames_fault(alloc, name, known.name));
            }
            Ok(Some(known))
        }
    }
}

/// The points of a file. Its bytes are let go before the answer.
fn read_cloud<I: Inputs>(
    alloc: Global,
    inputs: &mut I,
    name: &str,
    how: Reading,
) -> Result<FileCloud, Fault>
    requires { how.decimals ≤ 9 }
    ensures kept { I.files inputs.new ≡ I.files inputs.old }
    ensures later { (I.faults inputs.old ≤ I.faults inputs.new) × (I.missing inputs.old ≤ I.missing inputs.new) }
    ensures axis { IfErr result HasAxis }
    ensures gives { (file : Option OpenedFile) × IsOpened (I.files inputs.old) name.now (I.opened inputs.old) (I.opened inputs.new) file
        × IsReadFor result file
        × OfFile (I.files inputs.old) name.now file (λ content.
        GivesOver (λ failed. (failed ≡ name.now) × Rose (I.faults inputs.old) (I.faults inputs.new))
        (Rose (I.missing inputs.old) (I.missing inputs.new))
        (λ c. (c.points.items, c.frame)) result (framed_in how name.now content)) }
{
    let bytes = match read_all(alloc, inputs, name, MOST_BYTES) {
        Ok(bytes) => bytes,
        Err(fault) => return Err(faults::read_fault(alloc, name, fault)),
    };
    parse(alloc, name, bytes.as_slice(), how)
}

/// The points in the bytes of a file, which its name says how to read.
fn parse(alloc: Global, name: &str, bytes: &[u8], how: Reading) -> Result<FileCloud, Fault>
    requires { how.decimals ≤ 9 }
    ensures axis { IfErr result HasAxis }
    ensures gives { Gives (λ c. (c.points.items, c.frame)) result (beside_frame (name.now, Some bytes.now) (points_in how name.now bytes.now)) }
{
    if is_las(name) {
        parse_las(alloc, name, bytes, how.low)
    } else {
        parse_xyz(alloc, name, bytes, how.decimals)
    }
}

/// The points in the bytes of a LAS file.
fn parse_las(alloc: Global, name: &str, bytes: &[u8], low: bool) -> Result<FileCloud, Fault>
    ensures axis { IfErr result HasAxis }
    ensures points { Gives (λ c. c.points.items) result (or_las_fault name.now (las (rgb_byte low) bytes.now)) }
    ensures frame { IfOk result (λ c. c.frame ≡ Some (frame bytes.now)) }
{
    match read_las(alloc, bytes, rgb_byte(low)) {
        Ok(cloud) => {
            let LasCloud { points, frame } = cloud;
            Ok(FileCloud {
                points,
                frame: Some(frame),
            })
        }
        Err(fault) => Err(faults::las_fault(alloc, name, fault)),
    }
}

/// The points in the bytes of a text.
fn parse_xyz(alloc: Global, name: &str, bytes: &[u8], decimals: u32) -> Result<FileCloud, Fault>
    requires { decimals ≤ 9 }
    ensures axis { IfErr result HasAxis }
    ensures points { Gives (λ c. c.points.items) result (or_xyz_fault name.now (xyz decimals bytes.now)) }
    ensures frame { IfOk result (λ c. c.frame ≡ None) }
{
    match read_xyz(alloc, bytes, decimals) {
        Ok(points) => Ok(FileCloud {
            points,
            frame: None,
        }),
        Err(fault) => Err(faults::xyz_fault(alloc, name, fault)),
    }
}

/// The byte of a colour that is taken.
fn rgb_byte(low: bool) -> RgbByte
    ensures { result ≡ rgb_byte low }
{
    if low { RgbByte::Low } else { RgbByte::High }
}

/// Whether a file of this name is read as LAS: it ends in `.las` or `.laz`, in capitals or not.
fn is_las(name: &str) -> bool
    ensures { result ≡ is_las name.now }
{
    ends_as(name, b".las") || ends_as(name, b".laz")
}

/// Whether the last four bytes of a name are these, in capitals or not.
fn ends_as(name: &str, end: &[u8; 4]) -> bool
    ensures { result ≡ ends_as end.now name.now }
{
    let bytes = name.as_bytes();
    bytes[bytes.len().saturating_sub(4)..].eq_ignore_ascii_case(end)
}
