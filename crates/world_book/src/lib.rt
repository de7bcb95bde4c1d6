//! The book of a world's lists: their chains of chunks, how far each has come, and who is out.
#![tactic(auto)]

mod book;
mod row;
#[cfg(test)]
mod tests;

pub use book::Book;
pub use row::Row;
