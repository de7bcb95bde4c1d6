//! Laws of filings and of free chunks.
ghost use Rattle.std.specs.Prelude.{◌≡◌, ℕ, ◌<◌, List, ◌∷◌, length};
ghost use Rattle.cube_math.specs.Batches.{BatchValue};
ghost use Rattle.list_machine.specs.Machine.{State, IsSound, Run};
ghost use Rattle.list_machine.specs.Moves.{guest_in};
ghost use Rattle.list_machine.specs.Rule.{IsFree};
ghost use Rattle.sim_world.specs.Chunks.{free_chunks, least_free};
ghost use Rattle.sim_world.specs.FilingRules.{IsFiling, GoesOnFiling};
ghost use Rattle.sim_world.specs.Filings.{task_step};
ghost use Rattle.sim_world.specs.Worlds.{Filing, Task, World};

/// A law: the step of a filing that has items left is one that its seat may make, so it keeps the rule of the lists; and behind
/// it the loader goes on with a filing that has what its next step needs.
pub fn filings_go_on()
    ensures run { (w : World) (a : ℕ) (bs : List BatchValue) (f : Filing) (t : Task) (ts : List Task) → IsSound w.lists → IsFiling w.lists.guests f
        → f.todo ≡ t ∷ ts → Run w.lists (task_step w a bs f t.item t.list ts (guest_in w.lists f.seat).claim).lists }
    ensures filing { (w : World) (a : ℕ) (bs : List BatchValue) (f : Filing) (t : Task) (ts : List Task) → IsFiling w.lists.guests f
        → f.todo ≡ t ∷ ts → GoesOnFiling w a bs (task_step w a bs f t.item t.list ts (guest_in w.lists f.seat).claim) }
{}

/// A law: where chunks are free, the one that is taken next stands in no chain, and is one of so many.
pub fn least_chunks_are_free()
    ensures free { (chunks : ℕ) (s : State) → 0 < length (free_chunks chunks s) → IsFree s.owner.book.leaves (least_free chunks s) }
    ensures below { (chunks : ℕ) (s : State) → 0 < length (free_chunks chunks s) → least_free chunks s < chunks }
{}
