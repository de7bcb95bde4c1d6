//! What a store keeps of its record: a row for each event, each admitted batch once, and where each batch stands.
#![tactic(auto)]

mod book;
mod kept_batch;
mod laws;
mod row;
#[cfg(test)]
mod tests;
mod within;

pub use book::RecordBook;
pub use book::laws::{
    items_are_published_with_their_batch, published_items_have_the_published_points,
};
pub use kept_batch::KeptBatch;
pub use laws::{admissions_add_kept_batches, books_go_to_threads, kept_batches_hold_the_items};
pub use row::Standing;
