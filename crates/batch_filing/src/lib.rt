//! A batch that was admitted and is being filed: each item goes to the list that was its leaf's at the admission.
#![tactic(auto)]

mod filing;
mod laws;
#[cfg(test)]
mod tests;

pub use filing::Filing;
pub use laws::{filings_answer_every_item, filings_go_to_threads};
