ghost use Rattle.std.specs.Prelude.{◌≡◌, ◌-◌, ◌-ℤ◌, ◌^◌, [], ◌∷◌, IsTrue, IfOk, None, true, pos, map, option_map, string_bytes, codes};
ghost use Rattle.std.specs.Option.{option_map_or};
ghost use Rattle.clap_words.specs.Words.{is_name};
ghost use Rattle.run_words.specs.Numbers.{natural, whole, pieces, piece};
ghost use Rattle.run_words.specs.Forms.{is_coordinate, are_numbers, is_seed_and_count};
ghost use Rattle.clap_words.specs.Words.{value_of, files_of};
ghost use Rattle.run_words.specs.Screens.{has_form, first_unfit};
ghost use Rattle.run_words.specs.Values.{number_or, numbers_or, is_chosen, cube_of, pair_of, job_of, HasRanges};
ghost use Rattle.run_words.specs.declared.form.Form.TheVariants.{Number, Numbers, CubePlace, Seed, SeedAndCount};

use crate::command::CommandName;
use crate::form::cube;
use crate::job::Job;
use crate::number::{natural, piece, seed, whole};
use clap_words::Given;
use cube_math::Cube;
use std::alloc::{AllocError, Global};

/// The job of a command and of words that suit it and whose values fit.
pub(crate) fn job_of(
    alloc: Global,
    command: CommandName,
    given: &Given<'_>,
) -> Result<Job, AllocError>
    requires { first_unfit (map string_bytes given.now.words.now) ≡ None }
    ensures value { IfOk result (λ job. job ≡ job_of command (map string_bytes given.now.words.now)) }
    ensures ranges { IfOk result (λ job. HasRanges job) }
{
    Ok(Job {
        command,
        files: given.files(alloc)?,
        cube: cube_of(given),
        leaf: number_or(50_000, "leaf", given),
        nodes: number_or(20_000, "nodes", given),
        points: number_or(10_000_000, "points", given),
        chunks: chunks_of(given),
        batch: number_or(50_000, "batch", given),
        decimals: number_or(3, "decimals", given),
        low: is_chosen("low", "rgb", given),
        voxels: is_chosen("yes", "voxels", given),
        pos: pos_of(given),
        rows: rows_of(given),
        focal: number_or(256, "focal", given),
        near: number_or(1, "near", given),
        size: size_of(given),
        threshold: number_or(128, "threshold", given),
        dot: number_or(1, "dot", given),
        loaders: number_or(2, "loaders", given),
        viewers: number_or(1, "viewers", given),
        frames: number_or(2, "frames", given),
        schedule: schedule_of(alloc, given)?,
        generate: generate_of(given),
        seed: seed_of(given),
        count: number_or(400_000, "count", given),
    })
}

/// The number of an option, or its default.
fn number_or(default: u32, name: &str, given: &Given<'_>) -> u32
    requires name { is_name name.now ≡ true }
    requires form { IsTrue (has_form (Number (pos 0) (pos (2 ^ 31 - 1))) name.now (map string_bytes given.now.words.now)) }
    ensures { result ≡ number_or default name.now (map string_bytes given.now.words.now) }
{
    match given.value(name) {
        Some(text) => natural(text),
        None => default,
    }
}

/// The number of chunks, if it was given.
fn chunks_of(given: &Given<'_>) -> Option<u32>
    requires { IsTrue (has_form (Number (pos 0) (pos (2 ^ 31 - 1))) (codes "chunks") (map string_bytes given.now.words.now)) }
    ensures { result ≡ option_map natural (value_of (codes "chunks") (map string_bytes given.now.words.now)) }
{
    match given.value("chunks") {
        Some(text) => Some(natural(text)),
        None => None,
    }
}

/// The cube, if it was given.
fn cube_of(given: &Given<'_>) -> Option<Cube>
    requires { IsTrue (has_form CubePlace (codes "cube") (map string_bytes given.now.words.now)) }
    ensures { result ≡ option_map cube_of (value_of (codes "cube") (map string_bytes given.now.words.now)) }
{
    match given.value("cube") {
        Some(text) => cube(text),
        None => None,
    }
}

/// Whether an option has this value.
fn is_chosen(choice: &str, name: &str, given: &Given<'_>) -> bool
    requires { is_name name.now ≡ true }
    ensures { result ≡ is_chosen choice.now name.now (map string_bytes given.now.words.now) }
{
    match given.value(name) {
        Some(text) => text == choice,
        None => false,
    }
}

/// Where the camera stands.
fn pos_of(given: &Given<'_>) -> [i32; 3]
    requires { IsTrue (has_form (Numbers 3 (pos 0 -ℤ pos (2 ^ 31)) (pos (2 ^ 31 - 1))) (codes "pos") (map string_bytes given.now.words.now)) }
    ensures { result ≡ numbers_or (pos 0 ∷ pos 0 ∷ pos 0 ∷ []) (codes "pos") (map string_bytes given.now.words.now) }
{
    match given.value("pos") {
        Some(text) => three(text),
        None => [0, 0, 0],
    }
}

/// The numbers of a value with three.
fn three(text: &str) -> [i32; 3]
    requires { IsTrue (are_numbers 3 (pos 0 -ℤ pos (2 ^ 31)) (pos (2 ^ 31 - 1)) text.now) }
    ensures { result ≡ map whole (pieces text.now) }
{
    [whole_at(text, 0), whole_at(text, 1), whole_at(text, 2)]
}

/// The camera's three directions.
fn rows_of(given: &Given<'_>) -> [i32; 9]
    requires { IsTrue (has_form (Numbers 9 (pos 0 -ℤ pos 1024) (pos 1024)) (codes "rows") (map string_bytes given.now.words.now)) }
    ensures { result ≡ numbers_or (pos 1024 ∷ pos 0 ∷ pos 0 ∷ pos 0 ∷ pos 1024 ∷ pos 0 ∷ pos 0 ∷ pos 0 ∷ pos 1024 ∷ []) (codes "rows") (map string_bytes given.now.words.now) }
{
    match given.value("rows") {
        Some(text) => nine(text),
        None => [1024, 0, 0, 0, 1024, 0, 0, 0, 1024],
    }
}

/// The numbers of a value with nine.
fn nine(text: &str) -> [i32; 9]
    requires { IsTrue (are_numbers 9 (pos 0 -ℤ pos 1024) (pos 1024) text.now) }
    ensures { result ≡ map whole (pieces text.now) }
{
    [
        whole_at(text, 0),
        whole_at(text, 1),
        whole_at(text, 2),
        whole_at(text, 3),
        whole_at(text, 4),
        whole_at(text, 5),
        whole_at(text, 6),
        whole_at(text, 7),
        whole_at(text, 8),
    ]
}

/// The width and height of a frame.
fn size_of(given: &Given<'_>) -> (u32, u32)
    requires { IsTrue (has_form (Numbers 2 (pos 1) (pos 4096)) (codes "size") (map string_bytes given.now.words.now)) }
    ensures { result ≡ option_map_or pair_of (value_of (codes "size") (map string_bytes given.now.words.now)) (256, 256) }
{
    match given.value("size") {
        Some(text) => (natural(piece(text, 0)), natural(piece(text, 1))),
        None => (256, 256),
    }
}

/// The schedule's file, if it was given.
fn schedule_of(alloc: Global, given: &Given<'_>) -> Result<Option<String>, AllocError>
    ensures { IfOk result (λ name. option_map string_bytes name ≡ value_of (codes "schedule") (map string_bytes given.now.words.now)) }
{
    match given.value("schedule") {
        Some(text) => Ok(Some(String::from_str(alloc, text)?)),
        None => Ok(None),
    }
}

/// The seed and the number of points to generate, if they were given.
fn generate_of(given: &Given<'_>) -> Option<(u64, u32)>
    requires { IsTrue (has_form (SeedAndCount (pos 10000000)) (codes "generate") (map string_bytes given.now.words.now)) }
    ensures { result ≡ option_map pair_of (value_of (codes "generate") (map string_bytes given.now.words.now)) }
{
    match given.value("generate") {
        Some(text) => Some(seed_and_count(text)),
        None => None,
    }
}

/// The numbers of a value with a seed and a count.
fn seed_and_count(text: &str) -> (u64, u32)
    requires { IsTrue (is_seed_and_count (pos 10000000) text.now) }
    ensures { result ≡ pair_of text.now }
{
    (seed(piece(text, 0)).unwrap(), natural(piece(text, 1)))
}

/// The seed of a demonstration.
fn seed_of(given: &Given<'_>) -> u64
    requires { IsTrue (has_form Seed (codes "seed") (map string_bytes given.now.words.now)) }
    ensures { result ≡ number_or 1 (codes "seed") (map string_bytes given.now.words.now) }
{
    match given.value("seed") {
        Some(text) => seed(text).unwrap(),
        None => 1,
    }
}

/// The whole number at a place between commas.
fn whole_at(text: &str, place: usize) -> i32
    requires { IsTrue (is_coordinate (piece text.now place)) }
    ensures { result ≡ whole (piece text.now place) }
{
    whole(piece(text, place), i32::MIN, i32::MAX).unwrap()
}
