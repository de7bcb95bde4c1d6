ghost use Rattle.std.specs.Prelude.{◌≡◌};

use crate::list_row::ListRow;
use list_words::Phase;

impl ListRow {
    pub fn phase(&self) -> Phase
        ensures { result ≡ self.now.phase }
    {
        self.phase
    }

    /// For how many more chunks of the claimed chain there is room.
    pub fn claimed_room(&self) -> u32
        ensures { result ≡ self.now.claimed_room }
    {
        self.claimed_room
    }

    /// For how many more chunks of the owned chain there is room.
    pub fn owned_room(&self) -> u32
        ensures { result ≡ self.now.owned_room }
    {
        self.owned_room
    }
}
