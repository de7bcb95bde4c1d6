//! Laws of what one event more needs.
ghost use Rattle.std.specs.Prelude.{◌≡◌, ◌≤◌, ℕ, ◌+◌, true, false, List, ◌∷◌, [], ◌++◌, sum_by};
ghost use Rattle.chunk_pool.specs.Amounts.{chunks_for, enough};
ghost use Rattle.cube_math.specs.Points.{PointValue};
ghost use Rattle.leaf_counts.specs.Overfull.{overfull};
ghost use Rattle.record_model.specs.Admissions.{admitted, admitted_points};
ghost use Rattle.record_model.specs.Records.{IsPrefix, Record, published};
ghost use Rattle.cube_math.specs.declared.config.Config.{Config};
ghost use Rattle.record_model.specs.declared.event.Event.{Event};
ghost use Rattle.record_model.specs.declared.event.Event.TheVariants.{Admission, Look, Publication};
ghost use Rattle.chunk_needs.specs.Leaves.{counts_of, is_leaf_of, leaves, number_in, split_leaves};
ghost use Rattle.chunk_needs.specs.Needs.{leaf_chunks, live, more_chunks, need, taken};
ghost use Rattle.chunk_needs.specs.Limits.{IsWithin, nodes_of};
ghost use Rattle.chunk_needs.specs.Slots.{granted, owned};

/// A law: a look needs no chunk, and changes nothing of what is live.
pub fn looks_need_nothing()
    ensures need { (config : Config) (events : Record) (pass : ℕ) → need config events (Look, pass) ≡ 0 }
    ensures live { (config : Config) (events : Record) (pass : ℕ) → live config (events ++ (Look, pass) ∷ []) ≡ live config events }
{}

/// A law: an admission needs, over the leaves, the chunks for the slots that are granted then less those for the slots
/// that were granted before; and that much more is live then.
pub fn admissions_need_slots()
    ensures need { (config : Config) (events : Record) (input loader : ℕ) (points : List PointValue)
        → need config events (Admission input points, loader) ≡ sum_by (more_chunks config events points) (leaves config events) }
    ensures live { (config : Config) (events : Record) (input loader : ℕ) (points : List PointValue)
        → live config (events ++ (Admission input points, loader) ∷ []) ≡ live config events + need config events (Admission input points, loader) }
{}

/// A law: what is live after a publication, and the chunks of the leaves that it split, are what was live before and what
/// the publication needs; a leaf that it made owns slots for all admitted points in its cube; and the leaves that it split
/// are those that its points make over-full.
pub fn publications_need_slots()
    ensures live { (config : Config) (events : Record) (input loader : ℕ) (points : List PointValue)
        → live config (events ++ (Publication input points, loader) ∷ []) + sum_by (leaf_chunks config events) (split_leaves config events (Publication input points, loader))
        ≡ live config events + need config events (Publication input points, loader) }
    ensures owns { (config : Config) (events : Record) (input loader : ℕ) (points : List PointValue) (path : List ℕ)
        → is_leaf_of config (published events) path ≡ false → is_leaf_of config (published (events ++ (Publication input points, loader) ∷ [])) path ≡ true
        → owned config (events ++ (Publication input points, loader) ∷ []) path ≡ number_in config path (admitted_points events) }
    ensures split { (config : Config) (events : Record) (input loader : ℕ) (points : List PointValue)
        → overfull config.leaf config.cube (counts_of config (published events)) points ≡ split_leaves config events (Publication input points, loader) }
{}

/// A law: 256 items have room in a chunk and 257 want two; nothing is live at first; and the first admission needs the
/// chunks for its points in the root cube.
pub fn first_admission_needs_its_points()
    ensures full { chunks_for 256 ≡ 1 }
    ensures more { chunks_for 257 ≡ 2 }
    ensures none { (config : Config) → live config [] ≡ 0 }
    ensures first { (config : Config) (input loader : ℕ) (points : List PointValue) → need config [] (Admission input points, loader) ≡ chunks_for (number_in config [] points) }
{}

/// A law: what a record ever took is the sum of what its events needed, and is never more than enough for the nodes of its
/// journal's octree and for the points that it admitted: two chunks for each node, and for each level of the octree those
/// that its points fill.
pub fn enough_chunks_never_run_out()
    ensures sum { (config : Config) (events : Record) (e : Event × ℕ) → taken config (events ++ e ∷ []) ≡ taken config events + need config events e }
    ensures most { (config : Config) (events : Record) → 7 ≤ config.cube.bits → taken config events ≤ enough config.cube.bits (admitted events) (nodes_of config (published events)) }
{}

/// A law: of the admitted points in the cube of a path, each is granted or owned there. An admission adds its points to
/// what is granted at a leaf, and to what is owned at any other path; a publication and a look change neither.
pub fn slots_are_granted_or_owned()
    ensures all { (config : Config) (events : Record) (path : List ℕ) → granted config events path + owned config events path ≡ number_in config path (admitted_points events) }
    ensures leaf { (config : Config) (events : Record) (input loader : ℕ) (points : List PointValue) (path : List ℕ) → is_leaf_of config (published events) path ≡ true
        → (granted config (events ++ (Admission input points, loader) ∷ []) path ≡ granted config events path + number_in config path points)
        × (owned config (events ++ (Admission input points, loader) ∷ []) path ≡ owned config events path) }
    ensures elsewhere { (config : Config) (events : Record) (input loader : ℕ) (points : List PointValue) (path : List ℕ) → is_leaf_of config (published events) path ≡ false
        → (granted config (events ++ (Admission input points, loader) ∷ []) path ≡ granted config events path)
        × (owned config (events ++ (Admission input points, loader) ∷ []) path ≡ owned config events path + number_in config path points) }
    ensures publication { (config : Config) (events : Record) (input loader : ℕ) (points : List PointValue) (path : List ℕ)
        → (granted config (events ++ (Publication input points, loader) ∷ []) path ≡ granted config events path)
        × (owned config (events ++ (Publication input points, loader) ∷ []) path ≡ owned config events path) }
    ensures look { (config : Config) (events : Record) (pass : ℕ) (path : List ℕ)
        → (granted config (events ++ (Look, pass) ∷ []) path ≡ granted config events path) × (owned config (events ++ (Look, pass) ∷ []) path ≡ owned config events path) }
{}

/// A law: no more chunks live than were ever taken, so that what is held besides is at most the difference.
pub fn what_lives_was_taken()
    ensures { (config : Config) (events : Record) → live config events ≤ taken config events }
{}

/// A law: with more points an octree has no fewer nodes; a record that keeps the limits keeps them at each of its beginnings,
/// and with a look more; and one of no events keeps them.
pub fn beginnings_keep_the_limits()
    ensures nodes { (config : Config) (points more : List PointValue) → nodes_of config points ≤ nodes_of config (points ++ more) }
    ensures beginning { (config : Config) (seen events : Record) → IsPrefix seen events → IsWithin config events → IsWithin config seen }
    ensures look { (config : Config) (events : Record) (pass : ℕ) → IsWithin config events → IsWithin config (events ++ (Look, pass) ∷ []) }
    ensures nothing { (config : Config) → 1 ≤ config.nodes → IsWithin config [] }
{}
