//! Laws of versions and books.
ghost use Rattle.std.specs.Prelude.{◌≡◌, ℕ, List, Contains, Some, map};
ghost use Rattle.cube_math.specs.Points.{PointValue};
ghost use Rattle.cube_math.specs.declared.config.Config.{Config};
ghost use Rattle.octree_model.specs.Octree.{octree};
ghost use Rattle.octree_model.specs.Outlines.{outline};
ghost use Rattle.pinned_version.specs.Books.{AreInOrder, BatchItems, point_in, point_of};
ghost use Rattle.pinned_version.specs.Pinned.{AreInPathOrder, PinnedValue, version_of};
ghost use Rattle.pinned_version.specs.Rows.{outline_node_of};
ghost use Rattle.record_model.specs.Records.{Record, published};
ghost use Rattle.version_rows.specs.Journals.{IsVersionOf};

use crate::{NodeRow, PointBook, Version};
use std::sync::Arc;

/// A law: the nodes of the version of a record are those of the octree of its journal, and they stand in path order.
pub fn versions_show_octrees()
    ensures outline { (config : Config) (events : Record) (v : PinnedValue) → IsVersionOf config events (version_of v)
        → map outline_node_of v.nodes ≡ outline (octree config.leaf config.cube (published events)) config.cube }
    ensures order { (config : Config) (events : Record) (v : PinnedValue) → IsVersionOf config events (version_of v) → AreInPathOrder v.nodes }
{}

/// A law: a book tells the point of each item of each of its batches.
pub fn books_tell_all_items()
    ensures { (book : List BatchItems) (b : BatchItems) (item : ℕ) (p : PointValue)
        → AreInOrder book → Contains book b → point_in b item ≡ Some p → point_of book item ≡ Some p }
{}

/// A law of types: threads may share versions and books, and be handed them. That is said by its bounds.
pub fn versions_go_to_threads(version: &Arc<Version>, row: &NodeRow, book: &PointBook) {
    goes_to_threads(version);
    goes_to_threads(row);
    goes_to_threads(book);
}

/// Takes what threads may share and be handed, and nothing else.
fn goes_to_threads<T: Send + Sync>(_value: &T) {}
