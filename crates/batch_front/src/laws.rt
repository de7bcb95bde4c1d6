//! Laws of every state that the front's rule allows.
ghost use Rattle.std.specs.Prelude.{◌≡◌, ℕ, ◌⊎◌, Option, Some};
ghost use Rattle.atomic_table.specs.Table.{State};
ghost use Rattle.record_model.specs.Records.{IsPrefix};
ghost use Rattle.batch_front.specs.Turns.{At, Kept};
ghost use Rattle.batch_front.specs.Passes.{FrontValue, pass_value};
ghost use Rattle.batch_front.specs.declared.rule.View.{View};

use crate::chronicle::Chronicle;

/// A law: two passes of one front never both hold the turn. The front's table keeps the rule, `Kept`,
/// between any two steps of any threads. In it each pass has a seat of its own, and the seat's view says
/// what the pass is.
pub fn one_pass_holds_the_turn<V: Chronicle>()
    ensures { (front : FrontValue V.Site) (s : State (Option V) (View V.Site)) (j h n m t x : ℕ)
        (v u : View V.Site) → Kept V.record V.site front.site front.passes s
        → At s.views j v → At s.views h u
        → (pass_value front n v).turn ≡ Some t → (pass_value front m u).turn ≡ Some x → j ≡ h }
{}

/// A law: what one pass of a front has seen is a beginning of what another has seen, or the other way
/// round, in every state that the rule allows. So no two of them ever see records that disagree.
pub fn passes_see_one_record<V: Chronicle>()
    ensures { (front : FrontValue V.Site) (s : State (Option V) (View V.Site)) (j h n m : ℕ)
        (v u : View V.Site) → Kept V.record V.site front.site front.passes s
        → At s.views j v → At s.views h u
        → IsPrefix (pass_value front n v).seen (pass_value front m u).seen
        ⊎ IsPrefix (pass_value front m u).seen (pass_value front n v).seen }
{}
