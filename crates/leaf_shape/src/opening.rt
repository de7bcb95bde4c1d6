ghost use Rattle.std.specs.Prelude.{◌≡◌, ℕ, ◌*◌, ◌≤◌, ◌<◌, ◌^◌, IfOk, length, take};
ghost use Rattle.leaf_shape.specs.Openings.{AreShared, blocks, paths_of};

use cube_math::Path;
use std::alloc::{AllocError, Global};

/// A path for which a list is opened next, and how many of its first octants the path before it has too.
#[derive(Clone, Copy, Debug)]
pub(crate) struct Opening {
    pub(crate) path: Path,
    pub(crate) shared: u32,
}

/// The paths as openings, in the same order.
pub(crate) fn openings(alloc: Global, paths: &[Path]) -> Result<Vec<Opening>, AllocError>
    ensures paths { IfOk result (λ openings. paths_of openings.items ≡ paths.now) }
    ensures shared { IfOk result (λ openings. AreShared openings.items) }
{
    let mut openings = Vec::with_capacity(alloc, paths.len())?;
    let mut before = Path::root();
    for path in paths {
        openings.push(Opening {
            path: *path,
            shared: shared_octants(&before, path),
        })?;
        before = *path;
    }
    Ok(openings)
}

/// How many nodes at most the openings give children.
pub(crate) fn count_blocks(openings: &[Opening]) -> u64
    requires { length openings.now < 2 ^ 32 }
    ensures value { result ≡ blocks openings.now }
    ensures few { result ≤ 24 * length openings.now }
{
    let mut blocks = 0;
    for opening in openings {
        let steps = u64::from(opening.path.len());
        blocks += steps.saturating_sub(u64::from(opening.shared));
    }
    blocks
}

/// How many octants two paths have in common from the first one on.
fn shared_octants(path: &Path, other: &Path) -> u32
    ensures { take result path.now ≡ take result other.now }
{
    let steps = path.len().min(other.len());
    for step in 0..steps {
        if path.octant(step) != other.octant(step) {
            return step;
        }
    }
    steps
}
