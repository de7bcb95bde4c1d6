//! Workers in threads of their own.
ghost use Rattle.std.specs.Prelude.{◌≡◌, ℕ, ◌+◌, ◌*◌, All, IfOk, OnOk, vec_len};
ghost use Rattle.list_filers.specs.Filers.{shared_name};
ghost use Rattle.chunk_lists.specs.Knives.{lists_of};
ghost use Rattle.worked_lists.specs.Layouts.{HasRoomFor, IsLaidOut, even_grants};

use crate::grants::{admit_even, even_grants};
use crate::worker::Worker;
use chunk_lists::{Knife, Lists};
use dice::Dice;
use list_words::Grant;
use std::alloc::{AllocError, Global};
use std::thread;
use std::thread::Threads;

/// A crew of workers.
#[derive(Clone, Copy, Debug)]
pub struct Crew {
    /// In how many lists they file.
    pub lists: u32,
    /// How many places each has in each list.
    pub places: u32,
    /// How many there are.
    pub workers: u32,
    /// The first item.
    pub first: u32,
    /// How many items each files, where it has places for them.
    pub share: u32,
    /// The seed of their dice.
    pub seed: u64,
}

/// Makes the workers of a crew. It refuses only for want of memory.
pub fn hire(alloc: Global, knife: &mut Knife, crew: Crew) -> Result<Vec<Worker>, AllocError>
    requires laid_out { (chunks : ℕ) × IsLaidOut (lists_of knife.old) crew.lists chunks 0 0 × HasRoomFor crew.lists chunks (crew.workers * crew.places) crew.workers }
    ensures laid_out { OnOk result ((chunks : ℕ) → IsLaidOut (lists_of knife.old) crew.lists chunks 0 0 → IsLaidOut (lists_of knife.new) crew.lists chunks (crew.workers * crew.places) crew.workers) }
    ensures name { OnOk result ((lists_of knife.new).name ≡ (lists_of knife.old).name) }
    ensures names { IfOk result (λ workers. All (λ w. w.name ≡ (lists_of knife.old).name) workers.items) }
    ensures count { IfOk result (λ workers. vec_len workers ≡ crew.workers) }
{
    let grants = even_grants(alloc, crew.lists, crew.places)?;
    let mut workers = Vec::new(alloc);
    for number in 0..crew.workers {
        let worker = hire_one(alloc, knife, grants.as_slice(), crew, number)?;
        workers.push(worker)?;
    }
    Ok(workers)
}

/// Makes the worker of this number.
fn hire_one(
    alloc: Global,
    knife: &mut Knife,
    grants: &[Grant],
    crew: Crew,
    number: u32,
) -> Result<Worker, AllocError>
    requires grants { grants.now ≡ even_grants crew.lists crew.places }
    requires laid_out { (chunks granted seats : ℕ) × IsLaidOut (lists_of knife.old) crew.lists chunks granted seats × HasRoomFor crew.lists chunks (granted + crew.places) (seats + 1) }
    ensures laid_out { OnOk result ((chunks granted seats : ℕ) → IsLaidOut (lists_of knife.old) crew.lists chunks granted seats → IsLaidOut (lists_of knife.new) crew.lists chunks (granted + crew.places) (seats + 1)) }
    ensures name { OnOk result ((lists_of knife.new).name ≡ (lists_of knife.old).name) }
    ensures worker { IfOk result (λ w. w.name ≡ (lists_of knife.old).name) }
{
    let filer = admit_even(knife, grants, crew.lists, crew.places)?;
    let left = vec![in alloc; crew.places; crew.lists as usize]?;
    let dice = Dice::new(crew.seed.wrapping_add(u64::from(number)));
    let first = crew.first.saturating_add(number.saturating_mul(crew.share));
    let end = first.saturating_add(crew.share);
    Ok(Worker::new(filer, left, dice, first, end))
}

/// Has each worker file its items in a thread of its own, and gives the workers back, in their order.
pub fn file_at_once<R: Threads + Sync>(
    rt: &R,
    lists: &Lists,
    workers: Vec<Worker>,
) -> Result<Vec<Worker>, AllocError>
    requires { All (λ w. w.name ≡ shared_name lists.now) workers.items }
    ensures names { IfOk result (λ back. All (λ w. w.name ≡ shared_name lists.now) back.items) }
    ensures count { IfOk result (λ back. vec_len back ≡ vec_len workers) }
{
    thread::map_vec(
        rt,
        workers,
        &|worker: Worker|
            requires { worker.name ≡ shared_name lists.now }
            ensures { result.name ≡ shared_name lists.entry.now }
        { worker.work(lists) },
    )
}
