//! Laws of versions.
ghost use Rattle.std.specs.Prelude.{◌≡◌, ℕ, List, [], ◌∷◌, ◌++◌};
ghost use Rattle.cube_math.specs.Points.{PointValue};
ghost use Rattle.record_model.specs.Records.{Record};
ghost use Rattle.cube_math.specs.declared.config.Config.{Config};
ghost use Rattle.record_model.specs.declared.event.Event.TheVariants.{Admission, Look, Publication};
ghost use Rattle.version_rows.specs.Journals.{IsVersionOf, up_to_publication};
ghost use Rattle.version_rows.specs.Versions.{ChainsValue, Leaf, VersionValue};

/// A law: where nothing was done yet, the root is a leaf without points, whatever its chains are, and there are no batches.
pub fn opening_version_is_of_no_events()
    ensures { (config : Config) (chains : ChainsValue)
        → IsVersionOf config [] record { cube = config.cube; nodes = record { path = []; cube = config.cube; count = 0; admitted = 0; role = Leaf chains } ∷ []; batches = [] } }
{}

/// A law: a version is that of the record behind an admission or a look too, and behind a publication it is not: only a
/// publication makes another version.
pub fn versions_last_until_a_publication()
    ensures admission { (config : Config) (events : Record) (v : VersionValue) (input loader : ℕ) (points : List PointValue)
        → IsVersionOf config events v → IsVersionOf config (events ++ (Admission input points, loader) ∷ []) v }
    ensures look { (config : Config) (events : Record) (v : VersionValue) (pass : ℕ)
        → IsVersionOf config events v → IsVersionOf config (events ++ (Look, pass) ∷ []) v }
    ensures publication { (config : Config) (events : Record) (v : VersionValue) (input loader : ℕ) (points : List PointValue)
        → IsVersionOf config events v → IsVersionOf config (events ++ (Publication input points, loader) ∷ []) v → ⊥ }
{}

/// A law: how many points count as admitted in a node is fixed by a publication, and stays through admissions and looks.
pub fn publications_fix_what_was_admitted()
    ensures publication { (events : Record) (input loader : ℕ) (points : List PointValue) → up_to_publication (events ++ (Publication input points, loader) ∷ []) ≡ events ++ (Publication input points, loader) ∷ [] }
    ensures admission { (events : Record) (input loader : ℕ) (points : List PointValue) → up_to_publication (events ++ (Admission input points, loader) ∷ []) ≡ up_to_publication events }
    ensures look { (events : Record) (pass : ℕ) → up_to_publication (events ++ (Look, pass) ∷ []) ≡ up_to_publication events }
{}
