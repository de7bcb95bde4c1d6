//! Laws of moves.
ghost use Rattle.std.specs.Prelude.{◌≡◌, ℕ};
ghost use Rattle.list_machine.specs.Steps.{opening};
ghost use Rattle.list_machine.specs.Machine.{State, IsSound, Run};
ghost use Rattle.list_machine.specs.Moves.{Move, HaveWordsLeft};

/// A law: each move is a run of the machine, of one step or of two. So it keeps the rule.
pub fn moves_are_runs()
    ensures run { (s t : State) → IsSound s → HaveWordsLeft s.owner.book.leaves → Move s t → Run s t }
    ensures rule { (s t : State) → IsSound s → HaveWordsLeft s.owner.book.leaves → Move s t → IsSound t }
{}

/// A law: in moves, a clearing that has chunks always has a word left to clear.
pub fn moves_leave_words()
    ensures start { (lists : ℕ) → HaveWordsLeft (opening lists).book.leaves }
    ensures kept { (s t : State) → HaveWordsLeft s.owner.book.leaves → Move s t
        → HaveWordsLeft t.owner.book.leaves }
{}
