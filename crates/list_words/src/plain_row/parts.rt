ghost use Rattle.std.specs.Prelude.{◌≡◌};

use crate::plain_row::PlainRow;

impl PlainRow {
    /// How many claimed slots were granted.
    pub fn granted(&self) -> u32
        ensures { result ≡ self.now.granted }
    {
        self.granted
    }

    /// For how many more chunks of the claimed chain there is room.
    pub fn claimed_room(&self) -> u32
        ensures { result ≡ self.now.claimed_room }
    {
        self.claimed_room
    }

    /// For how many more chunks of the owned chain there is room.
    pub fn owned_room(&self) -> u32
        ensures { result ≡ self.now.owned_room }
    {
        self.owned_room
    }
}
