ghost use Rattle.std.specs.Prelude.{◌≡◌};
ghost use Rattle.leaf_counts.specs.Growths.{grown};

use crate::counts::Counts;
use sqlite_items::Items;

/// How the counts of a node and of those below it change.
#[cycle(growth)]
#[derive(Drop)]
pub enum Growth {
    /// They stay as they are.
    Same,
    /// These come in their place.
    New(Counts),
    /// The node, which is inner, gets this count, and its children change like this. For each child a
    /// place is kept, which the child takes once it has changed, so that no memory is wanted then.
    Each(u32, Items<Growth>, Items<Counts>),
}

/// The counts after the change. It goes down to changed nodes alone, moves what stays as it is, and takes no
/// memory.
pub(crate) fn grown(counts: Counts, growth: Growth) -> Counts
    ensures { result ≡ grown growth counts }
{
    match growth {
        Growth::Same => counts,
        Growth::New(new) => new,
        Growth::Each(count, mut growths, mut places) => match counts {
            Counts::Leaf(old) => Counts::Leaf(old),
            Counts::Inner(_, mut children) => {
                let mut g = 0;
                while g < places.len() && !children.is_empty() && !growths.is_empty() {
                    places.set(g, grown(children.remove(0), growths.remove(0)));
                    g += 1;
                }
                Counts::Inner(count, places)
            }
        },
    }
}
