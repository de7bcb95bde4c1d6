ghost use Rattle.std.specs.Prelude.{◌≡◌, IfOk, IfErr};
ghost use Rattle.octree_reader.specs.Heads.{HasHead, head_cube, head_leaf};
ghost use Rattle.octree_reader.specs.Opening.{IsFaultOf};

use crate::fault::FileFault;
use crate::fields::{i32_at, u32_at};
use cube_math::Cube;
use octree_file::SIGNATURE;

/// How many bytes stand before the nodes.
pub const HEAD: usize = 22;

/// The greatest leaf limit.
const MOST: u32 = 50000;

/// The cube and the leaf limit at the beginning of the bytes.
pub fn read_head(bytes: &[u8]) -> Result<(Cube, u32), FileFault>
    ensures head { IfOk result (λ head. HasHead bytes.now × (head.0 ≡ head_cube bytes.now) × (head.1 ≡ head_leaf bytes.now)) }
    ensures fault { IfErr result (λ fault. IsFaultOf bytes.now fault) }
{
    if !bytes.starts_with(&SIGNATURE) {
        return Err(FileFault::Magic);
    }
    if bytes.len() < HEAD {
        return Err(FileFault::Head);
    }
    let bits = u32::from(bytes[17]);
    let Some(cube) = Cube::new(i32_at(bytes, 5), i32_at(bytes, 9), i32_at(bytes, 13), bits) else {
        return Err(FileFault::Head);
    };
    let leaf = u32_at(bytes, 18);
    if leaf < 1 || leaf > MOST {
        return Err(FileFault::Head);
    }
    Ok((cube, leaf))
}
