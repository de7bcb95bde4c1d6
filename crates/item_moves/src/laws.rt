//! Laws of homes, as clauses of functions without code.
ghost use Rattle.std.specs.Prelude.{ℕ, Bool, List};
ghost use Rattle.list_machine.specs.declared.views.Grant.{Grant};
ghost use Rattle.list_words.specs.Store.{Store, admitted, one_less, one_more};
ghost use Rattle.item_moves.specs.Homes.{HasSameItems};
ghost use Rattle.item_moves.specs.Links.{AreLinked};
ghost use Rattle.item_moves.specs.Settled.{AreSettled};

/// A law: while claimed chains grow, grants are given, and filers and readers come and go, the items of lists stay the same.
pub fn items_stay_in_their_lists()
    ensures linked { (s t : Store) (grown : ℕ → ℕ) (all : ℕ) → AreLinked s t grown all → HasSameItems s t }
    ensures granted { (s : Store) (gs : List Grant) → HasSameItems s (admitted s gs) }
    ensures out { (s : Store) → HasSameItems s (one_more s) }
    ensures back { (s : Store) (birth : ℕ) → HasSameItems s (one_less s birth) }
    ensures both { (s t u : Store) → HasSameItems s t → HasSameItems t u → HasSameItems s u }
{}

/// A law: where the items of lists stay the same, what is settled stays so.
pub fn settled_items_stay_settled()
    ensures { (s t : Store) (leaf : ℕ → ℕ) (covers : ℕ → ℕ → Bool) (homes left : List ℕ) → HasSameItems s t → AreSettled s leaf covers homes left
        → AreSettled t leaf covers homes left }
{}
