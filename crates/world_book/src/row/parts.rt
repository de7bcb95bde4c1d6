ghost use Rattle.std.specs.Prelude.{◌*◌, ◌<◌, length, IsTrue};

use super::{Row, SLOTS};

/// What the calls of a row ask, as tests that are made when they run.
impl Row {
    pub fn has_room(&self) -> bool
        ensures { IsTrue result → self.now.used < 256 * length self.now.owned }
    {
        self.used / SLOTS < self.owned.len() as u64
    }
}
