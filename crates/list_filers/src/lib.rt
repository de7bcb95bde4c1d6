//! Filers and readers of lists that many threads share.
#![tactic(auto)]

mod cursors;
mod filers;
mod readers;
mod rooms;
#[cfg(test)]
mod tests;
mod ways;

pub use filers::Filer;
pub use readers::Reader;
pub use rooms::FilerRoom;
