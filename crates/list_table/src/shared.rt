//! The lists of a table are lists that filers share.

use crate::SharedLists;
use list_words::ListsOf;

// How many lists and chunks there are stands in the name, so that a filer can tell them by it.
impl ListsOf for SharedLists {
    ghost use Rattle.std.specs.Prelude.{◌∷◌};

    ghost name = { λ s. s.lists ∷ s.chunks ∷ s.name };

    ghost chunks = { λ s. s.chunks };
}
