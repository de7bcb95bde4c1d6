ghost use Rattle.std.specs.Prelude.{◌↔◌, IsTrue, length, map};
ghost use Rattle.least_runs.specs.Runs.{IsJoinDue};

use crate::least_run::LeastRun;
use std::sync::Arc;

/// How many entries more than the first run those behind it may not have.
const SHORT: u128 = 1024;
/// How many runs a node may not have.
const RUNS: usize = 64;

/// Whether a node with these runs should join them: where those behind the first have at least 1,024 entries more than
/// it, or there are 64. So a node has at most about twice as many entries as voxels, and an entry is seldom moved.
pub fn is_join_due(runs: &[Arc<LeastRun>]) -> bool
    ensures { IsTrue result ↔ IsJoinDue (map (λ run. length run.value) runs.now) }
{
    let Some((first, behind)) = runs.split_first() else {
        return false;
    };
    if behind.len() + 1 >= RUNS {
        return true;
    }
    // How many entries more may come.
    let mut room = first.nears().len() as u128 + SHORT;
    for run in behind {
        let entries = run.nears().len() as u128;
        if entries >= room {
            return true;
        }
        room -= entries;
    }
    false
}
