//! Laws of publications: where each item is, from the decision to the commit.
ghost use Rattle.std.specs.Prelude.{◌≡◌, ℕ, suc, ◌+◌, ◌<◌, ◌≤◌, ◌^◌, ◌⊎◌, List, [], ◌∷◌, ◌++◌, map, IsTrue, true};
ghost use Rattle.cube_math.specs.Batches.{BatchValue};
ghost use Rattle.cube_math.specs.Cubes.{contains};
ghost use Rattle.cube_math.specs.Points.{PointValue};
ghost use Rattle.octree_model.specs.Leaves.{leaves};
ghost use Rattle.octree_model.specs.Numbers.{has};
ghost use Rattle.list_machine.specs.Facts.{IsAt};
ghost use Rattle.list_machine.specs.Machine.{State, IsSound};
ghost use Rattle.list_machine.specs.Moves.{guest_in, leaf_in, place_claimed, item_filed, link_read, seat_joined, slot_marked};
ghost use Rattle.list_machine.specs.declared.views.Fact.{Fact};
ghost use Rattle.list_machine.specs.declared.views.Guest.{Guest};
ghost use Rattle.list_machine.specs.declared.views.Leaf.{Leaf};
ghost use Rattle.list_machine.specs.declared.views.LinkWord.{LinkWord};
ghost use Rattle.list_machine.specs.declared.views.Stage.TheVariants.{Swept};
ghost use Rattle.sim_world.specs.Decisions.{published_with};
ghost use Rattle.sim_world.specs.Jobs.{JobValue};
ghost use Rattle.sim_world.specs.Publications.{next_rows, next_version, splits_due, item_at_mark};
ghost use Rattle.sim_world.specs.Stores.{Covers, IsIn, IsVersion};
ghost use Rattle.sim_world.specs.Sweeps.{IsSweeping};
ghost use Rattle.sim_world.specs.Versions.{leaf_node, list_for, published_items};
ghost use Rattle.sim_world.specs.Whereabouts.{Knows, Where};
ghost use Rattle.sim_world.specs.Worlds.{Filing, World};

/// A law: as a publication is decided, each item of the current version is known in the list of its leaf of the next version,
/// or in a list that is to be swept.
pub fn decisions_place_published_items()
    ensures { (job : JobValue) (w : World) (b : BatchValue) (seat : List Fact) (late : List ℕ) (x : ℕ) (p : PointValue)
        → IsVersion job w.version → Covers w.version w.lists.owner.facts
        → IsIn (published_items w.version) (x, p) → IsTrue (contains job.config.cube p)
        → Where w.lists.owner.facts seat (list_for (next_rows job w b) p) [] late (splits_due job w b) x }
{}

/// A law of one item at the steps of a publication: it stays where it is as the owner learns, it is found as its list is swept,
/// and it is known in its list once it was moved or placed there.
pub fn items_go_their_way()
    ensures learns { (owner more seat : List Fact) (to x : ℕ) (moves late sweeps : List ℕ) → ((f : Fact) → IsIn owner f → IsIn more f)
        → Where owner seat to moves late sweeps x → Where more seat to moves late sweeps x }
    ensures swept { (owner seat : List Fact) (to x l : ℕ) (found late sweeps : List ℕ)
        → (Knows owner l x ⊎ Knows seat l x → IsIn found x)
        → Where owner seat to [] late (l ∷ sweeps) x → Where owner seat to found late sweeps x }
    ensures moved { (owner seat : List Fact) (to x y : ℕ) (moves late sweeps : List ℕ) → (y ≡ x → Knows owner to x)
        → Where owner seat to (y ∷ moves) late sweeps x → Where owner seat to moves late sweeps x }
    ensures placed { (owner seat : List Fact) (to x y : ℕ) (late : List ℕ) → (y ≡ x → Knows owner to x)
        → Where owner seat to [] (y ∷ late) [] x → Where owner seat to [] late [] x }
{}

/// A law: a sweep begins with nothing found; its marks, and what guests claim, read and file meanwhile, keep that all items at
/// marked places are found; and once all places are marked it has found each item that the owner or a guest knows in the list.
pub fn sweeps_find_each_known_item()
    ensures begins { (s : State) (l p n : ℕ) (a : Leaf) → IsAt s.owner.book.leaves l a → a.stage ≡ Swept p n 0 → IsSweeping s l p n 0 [] }
    ensures marks { (s : State) (l p n m : ℕ) (found : List ℕ) (is : IsSweeping s l p n m found) → IsSound s → m < n + is.leaf.used
        → IsSweeping (slot_marked s l) l p n (suc m) (found ++ item_at_mark s l (leaf_in s l).stage) }
    ensures claims { (s : State) (l p n m j h : ℕ) (found : List ℕ) (v : Guest) → IsSound s → IsSweeping s l p n m found
        → IsAt s.guests j v → IsSweeping (place_claimed s j h) l p n m found }
    ensures reads { (s : State) (l p n m j h r c : ℕ) (from : LinkWord) (found : List ℕ) (v : Guest) → IsSound s → IsSweeping s l p n m found
        → IsAt s.guests j v → IsSweeping (link_read s j h from r c) l p n m found }
    ensures files { (s : State) (l p n m j h c k x : ℕ) (found : List ℕ) (v : Guest) → IsSound s → IsSweeping s l p n m found
        → IsAt s.guests j v → IsSweeping (item_filed s j h c k x) l p n m found }
    ensures owner { (s : State) (l p n m x : ℕ) (found : List ℕ) (is : IsSweeping s l p n m found) → IsSound s → n + is.leaf.used ≤ m
        → x < 2 ^ 32 → Knows s.owner.facts l x → has x found ≡ true }
    ensures guests { (s : State) (l p n m j x : ℕ) (found : List ℕ) (v : Guest) (is : IsSweeping s l p n m found) → IsSound s → n + is.leaf.used ≤ m
        → IsAt s.guests j v → x < 2 ^ 32 → Knows v.facts l x → has x found ≡ true }
{}

/// A law: the leaves of the next version are those of the octree with the batch; and where each item of it is known in its list,
/// with nothing left to do, the owner knows after the commit where all its items are.
pub fn commits_cover_the_next_version()
    ensures leaves { (job : JobValue) (w : World) (b : BatchValue) → IsVersion job w.version
        → map leaf_node (next_rows job w b) ≡ leaves job.config.leaf job.config.cube (published_with w b) }
    ensures covers { (job : JobValue) (w : World) (a : ℕ) (b : BatchValue) (f : Filing) → IsVersion job w.version → IsSound (seat_joined w.lists f.seat)
        → ((x : ℕ) (p : PointValue) → IsIn (published_items (next_version job w a b f)) (x, p)
        → Where w.lists.owner.facts (guest_in w.lists f.seat).facts (list_for (next_rows job w b) p) [] [] [] x)
        → Covers (next_version job w a b f) (seat_joined w.lists f.seat).owner.facts }
{}
