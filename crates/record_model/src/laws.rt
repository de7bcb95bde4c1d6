//! Laws of records that go on.
ghost use Rattle.std.specs.Prelude.{◌≡◌, ℕ, ◌+◌, length, List, [], ◌∷◌, ◌++◌};
ghost use Rattle.cube_math.specs.Points.{PointValue};
ghost use Rattle.record_model.specs.Records.{Record, IsPrefix, flat, journal, own, published};
ghost use Rattle.record_model.specs.Admissions.{admissions, admissions_from, admitted, admitted_points};
ghost use Rattle.record_model.specs.declared.event.Event.{Event};
ghost use Rattle.record_model.specs.declared.event.Event.TheVariants.{Admission, Look, Publication};

/// A law: where a record goes on, its journal does, and so do the published points; a beginning of a record has a
/// beginning of its journal.
pub fn journals_go_on()
    ensures entries { (events more : Record) → journal (events ++ more) ≡ journal events ++ journal more }
    ensures points { (events more : Record) → published (events ++ more) ≡ published events ++ published more }
    ensures prefix { (seen events : Record) → IsPrefix seen events → (rest : Record) × (journal seen ++ journal rest ≡ journal events) }
{}

/// A law: where a record goes on, its admissions do, each beside all that was published before it; a publication or a
/// look admits nothing; and as many points were admitted as there are items.
pub fn admissions_go_on()
    ensures more { (events more : Record) → admissions (events ++ more) ≡ admissions events ++ admissions_from (published events) more }
    ensures admission { (events : Record) (input loader : ℕ) (points : List PointValue)
        → admissions (events ++ (Admission input points, loader) ∷ []) ≡ admissions events ++ record { before = published events; points = points } ∷ [] }
    ensures publication { (events : Record) (input loader : ℕ) (points : List PointValue) → admissions (events ++ (Publication input points, loader) ∷ []) ≡ admissions events }
    ensures look { (events : Record) (pass : ℕ) → admissions (events ++ (Look, pass) ∷ []) ≡ admissions events }
    ensures items { (events : Record) (input loader : ℕ) (points : List PointValue) → admitted_points (events ++ (Admission input points, loader) ∷ []) ≡ admitted_points events ++ points }
    ensures count { (events : Record) → admitted events ≡ length (admitted_points events) }
{}

/// A law: an event more is one more of the pass that it is of, and changes the events of no other pass.
pub fn events_add_to_their_own()
    ensures own { (events : Record) (e : Event) (pass : ℕ) → own (events ++ (e, pass) ∷ []) pass ≡ own events pass ++ e ∷ [] }
    ensures others { (events : Record) (e : Event) (pass other : ℕ) → (pass ≡ other → ⊥) → own (events ++ (e, pass) ∷ []) other ≡ own events other }
{}
