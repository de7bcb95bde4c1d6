//! Appending to vectors that have the room.
ghost use Rattle.std.specs.Prelude.{◌≡◌, ◌+◌, ◌<◌, ◌≤◌, [], ◌∷◌, ◌++◌, length, vec_len};
ghost use Rattle.std.specs.Vec.{vec_capacity};

/// Appends a value for which there is room.
pub fn push_within<T: Drop>(values: &mut Vec<T>, value: T)
    requires { vec_len values.old < vec_capacity values.old }
    ensures items { values.new.items ≡ values.old.items ++ value ∷ [] }
    ensures len { vec_len values.new ≡ vec_len values.old + 1 }
    ensures capacity { vec_capacity values.old ≤ vec_capacity values.new }
{
    let Ok(()) = values.push(value) else {
        unreachable!()
    };
}

/// Appends values for which there is room.
pub fn append_within<T: Copy + Drop>(values: &mut Vec<T>, more: &[T])
    requires { vec_len values.old + length more.now ≤ vec_capacity values.old }
    ensures items { values.new.items ≡ values.old.items ++ more.now }
    ensures len { vec_len values.new ≡ vec_len values.old + length more.now }
    ensures capacity { vec_capacity values.old ≤ vec_capacity values.new }
{
    let Ok(()) = values.extend_from_slice(more) else {
        unreachable!()
    };
}
