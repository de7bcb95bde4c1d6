//! Laws of worlds.
ghost use Rattle.std.specs.Prelude.{◌≡◌, ℕ, ◌⊎◌, false, List, [], slice_get, take};
ghost use Rattle.cube_math.specs.Batches.{BatchValue};
ghost use Rattle.cube_math.specs.declared.refused.Cause.{Cause};
ghost use Rattle.list_machine.specs.Facts.{IsAt};
ghost use Rattle.record_model.specs.Records.{journal};
ghost use Rattle.sim_world.specs.Answers.{IsAnswered, unanswered};
ghost use Rattle.sim_world.specs.Jobs.{JobValue, batches_of};
ghost use Rattle.sim_world.specs.Worlds.{LoaderPlace, ViewValue, World, loader, opening_world};
ghost use Rattle.sim_world.specs.Steps.{run, step};
ghost use Rattle.sim_world.specs.Stores.{IsIn, IsCurrent, IsStored, is_sweeper};
ghost use Rattle.sim_world.specs.Views.{IsShown, IsOfItsLook};

/// A law: before the first step the lists keep their rule, and the version is that of the journal, which is empty.
pub fn worlds_begin_stored()
    ensures run { (job : JobValue) → run job [] ≡ opening_world job }
    ensures stored { (job : JobValue) → IsStored job (opening_world job) }
{}

/// A law: the version stays current through each step but those of a loader between the first shut of a publication and its commit.
pub fn versions_stay_current()
    ensures { (job : JobValue) (w : World) (a : ℕ) → IsCurrent job w → is_sweeper (slice_get w.actors a) ≡ false → IsCurrent job (step job w a) }
{}

/// A law: whatever steps the actors make in whatever order, each finished frame shows the octree of a prefix of the journal, and
/// the n-th frame of a viewer shows the journal as it was at the viewer's n-th look, if before each step the lists keep their
/// rule, and the version is current while nobody holds the turn.
pub fn finished_frames_show_prefixes()
    ensures shown { (job : JobValue) (schedule : List ℕ) (i : ℕ) (x : ViewValue) → ((n : ℕ) → IsStored job (run job (take n schedule)))
        → IsAt (run job schedule).views i x → IsShown job (run job schedule) x }
    ensures look { (job : JobValue) (schedule : List ℕ) (i : ℕ) (x : ViewValue) → ((n : ℕ) → IsStored job (run job (take n schedule)))
        → IsAt (run job schedule).views i x → IsOfItsLook job (run job schedule) x }
{}

/// A law: whatever steps the actors make in whatever order, the entries and the refused rows of a loader answer its first batches, in
/// order, each once; and once its script has ended no batch of it was lost: each is in the journal, or refused.
pub fn loaders_answer_their_batches()
    ensures answered { (job : JobValue) (schedule : List ℕ) (k : ℕ) (bs : List BatchValue) (place : LoaderPlace)
        → IsAt (run job schedule).actors k (loader bs place)
        → IsAnswered job k (journal (run job schedule).events) (run job schedule).refused (unanswered place bs) }
    ensures kept { (job : JobValue) (schedule : List ℕ) (k : ℕ) (place : LoaderPlace) (b : BatchValue)
        → IsAt (run job schedule).actors k (loader [] place) → IsIn (batches_of job k) b
        → IsIn (journal (run job schedule).events) record { input = b.input; loader = k; points = b.points }
        ⊎ ((cause : Cause) × IsIn (run job schedule).refused record { input = b.input; cause = cause }) }
{}
