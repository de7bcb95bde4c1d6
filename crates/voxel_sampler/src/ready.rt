ghost use Rattle.std.specs.Prelude.{◌≡◌, ◌<◌, ◌^◌, [], ◌∷◌, ◌++◌, IfOk, OnOk, nat_lt, if◌then◌else◌};
ghost use Rattle.voxel_sampler.specs.Nears.{near_key, voxel_of};

use crate::near::Near;
use octree_model::Voxel;
use std::alloc::{AllocError, Global};
use std::marker::Model;

/// A batch that is ready to be merged, with all the memory that merging needs.
#[derive(Drop)]
pub struct Ready {
    /// The least keys as they will be.
    pub(crate) nears: Vec<Near>,
    /// The voxels of the run.
    pub(crate) run: Vec<Voxel>,
}

impl Model for Ready {
    ghost use Rattle.voxel_sampler.specs.Ready.{ReadyValue};

    ghost Value = { ReadyValue };

    ghost view = { λ r. record { nears = r.nears.items; run = r.run.items } };
}

impl Ready {
    /// Nothing yet, with room for so many keys and so many voxels.
    pub(crate) fn with_room(alloc: Global, nears: usize, run: usize) -> Result<Ready, AllocError>
        ensures { IfOk result (λ ready. ready ≡ record { nears = []; run = [] }) }
    {
        Ok(Ready {
            nears: Vec::with_capacity(alloc, nears)?,
            run: Vec::with_capacity(alloc, run)?,
        })
    }

    /// Appends a key that stays as it is.
    pub(crate) fn keep(&mut self, near: Near) -> Result<(), AllocError>
        ensures kept { OnOk result (self.new ≡ record self.old { nears = self.old.nears ++ near ∷ [] }) }
        ensures small { near.rgb < 2 ^ 24 }
    {
        let _ = near.rgb;
        self.nears.push(near)?;
        Ok(())
    }

    /// Appends a key that is new or less than before, and its voxel to the run.
    pub(crate) fn change(&mut self, near: Near) -> Result<(), AllocError>
        ensures changed { OnOk result (self.new ≡ record { nears = self.old.nears ++ near ∷ []; run = self.old.run ++ voxel_of near ∷ [] }) }
        ensures small { near.rgb < 2 ^ 24 }
    {
        let _ = near.rgb;
        self.run.push(near.voxel())?;
        self.nears.push(near)?;
        Ok(())
    }

    /// Appends the lesser key of a cell: the old one, or the new one where that is less.
    pub(crate) fn replace(&mut self, old: Near, new: Near) -> Result<(), AllocError>
        ensures lesser { OnOk result (self.new ≡ (if nat_lt (near_key new) (near_key old)
            then record { nears = self.old.nears ++ new ∷ []; run = self.old.run ++ voxel_of new ∷ [] }
            else record self.old { nears = self.old.nears ++ old ∷ [] })) }
        ensures small { (old.rgb < 2 ^ 24) × (new.rgb < 2 ^ 24) }
    {
        if new.is_below(&old) {
            self.change(new)
        } else {
            self.keep(old)
        }
    }
}
