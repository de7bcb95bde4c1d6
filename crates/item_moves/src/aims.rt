ghost use Rattle.std.specs.Prelude.{◌≡◌, if◌then◌else◌, Some, None};

/// Where items belong: each in the list of the leaf in which its point lies.
pub trait Aims {
    ghost use Rattle.std.specs.Prelude.{ℕ, Bool};

    // the list of an item's leaf
    ghost leaf: { Self → ℕ → ℕ };

    // the list is or was that of a leaf in whose cube the point of the item lies, which was admitted: list, item
    ghost covers: { Self → ℕ → ℕ → Bool };

    // it covers the item, which was admitted before it was opened: list, item
    ghost guest: { Self → ℕ → ℕ → Bool };

    /// The list of an item's leaf, where the list from which the item comes covers it.
    fn aim(&self, from: u32, item: u32) -> Option<u32>
        ensures { result ≡ (if covers self.now from item then Some (leaf self.now item) else None) };

    /// Whether the list has an owned slot for the item.
    fn is_guest(&self, list: u32, item: u32) -> bool
        ensures { result ≡ guest self.now list item };
}
