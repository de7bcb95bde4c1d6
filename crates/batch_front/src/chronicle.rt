//! What stands for a record.
ghost use Rattle.std.specs.Prelude.{◌≡◌};

/// A value that stands for a record, and has a site that stays.
pub trait Chronicle: Drop {
    /// Plain data that stays the same in every turn. No value of it is made.
    type Site;

    ghost use Rattle.std.specs.Prelude.{◌≡◌, length};
    ghost use Rattle.record_model.specs.Records.{Record, journal};

    ghost record: { Self → Record };

    ghost site: { Self → Self.Site };

    /// The number of publications in the record.
    fn published(&self) -> u32
        ensures { result ≡ length (journal («record» self.now)) };
}
