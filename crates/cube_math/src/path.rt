ghost use Rattle.std.specs.Prelude.{◌≡◌, ◌<◌, ◌≤◌, ◌++◌, ◌∷◌, ◌↔◌, [], length, slice_get, Some, refl, nat_eq, IsTrue};
ghost use Rattle.std.specs.Ordering.{nat_cmp};
ghost use Rattle.std.specs.Cmp.{partial_equiv_from_equiv};
ghost use Rattle.std.specs.Cmp.Lexicographic.{pointwise, slice_cmp, nat_list_eq_equiv, nat_list_cmp_total, texts_ties, texts_po};

use std::cmp::Ordering;
use std::marker::Model;

/// The octants from the root to a node: at most 24, each 0 to 7. Contracts see the list of them. Paths are
/// ordered as lists: by their first octants that differ, and a path before those that go on from it.
#[derive(Clone, Copy, Debug)]
pub struct Path {
    octants: [u8; 24],
    len: u8,
}

impl Model for Path {
    ghost use Rattle.std.specs.Prelude.{List, ℕ};
    ghost use Rattle.std.specs.Coded.{coded_list, coded_ℕ};

    ghost Value = { List ℕ };

    ghost coded = { coded_list coded_ℕ };

    ghost use Rattle.cube_math.specs.Paths.{octants_of, path_of, IsKept, path_back};

    ghost view = { octants_of };

    ghost invariant = { IsKept };

    ghost inverse = { path_of };

    ghost inverse_ok = { path_back };
}

impl PartialEq for Path {
    ghost eq = { pointwise nat_eq };

    ghost laws = { partial_equiv_from_equiv nat_list_eq_equiv };

    /// Whether both have the same octants.
    fn eq(&self, other: &Path) -> bool
        ensures value { result ≡ pointwise nat_eq self.now other.now }
        ensures same { IsTrue result ↔ (self.now ≡ other.now) }
    {
        self.octants() == other.octants()
    }
}

impl Eq for Path {
    ghost laws = { nat_list_eq_equiv };
}

impl PartialOrd for Path {
    ghost partial_cmp = { λ a b. Some (slice_cmp nat_cmp a b) };

    ghost laws = { texts_po };

    fn partial_cmp(&self, other: &Path) -> Option<Ordering> {
        Some(self.cmp(other))
    }
}

impl Ord for Path {
    ghost cmp = { slice_cmp nat_cmp };

    ghost total = { nat_list_cmp_total };

    ghost matches_partial_cmp = { λ a b. refl };

    ghost matches_eq = { texts_ties };

    fn cmp(&self, other: &Path) -> Ordering {
        self.octants().cmp(other.octants())
    }
}

impl Path {
    /// The path of the root, which has no octant.
    pub fn root() -> Path
        ensures { result ≡ [] }
    {
        Path {
            octants: [0; 24],
            len: 0,
        }
    }

    /// How many steps it goes down, at most 24.
    pub fn len(&self) -> u32
        ensures value { result ≡ length self.now }
        ensures few { result ≤ 24 }
    {
        u32::from(self.len)
    }

    /// The octant of a step, counted from 0.
    pub fn octant(&self, i: u32) -> u8
        requires { i < length self.now }
        ensures value { slice_get self.now i ≡ Some result }
        ensures below { result < 8 }
    {
        self.octants[i as usize]
    }

    /// The path one step further, into an octant.
    pub fn child(&self, octant: u8) -> Path
        requires below { octant < 8 }
        requires room { length self.now < 24 }
        ensures { result ≡ self.now ++ octant ∷ [] }
    {
        let mut octants = self.octants;
        octants[usize::from(self.len)] = octant;
        Path {
            octants,
            len: self.len + 1,
        }
    }

    /// The octants, in order.
    fn octants(&self) -> &[u8]
        ensures { result.now ≡ self.now }
    {
        &self.octants[..usize::from(self.len)]
    }
}
