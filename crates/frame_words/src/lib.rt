//! Pictures that several threads draw at once: the same frame as one thread draws.
#![tactic(auto)]

mod brush;
mod canvas;
mod laws;
mod parts;
mod portions;
mod rule;
#[cfg(test)]
mod tests;
mod words;

pub use canvas::{SharedCanvas, splat_parallel};
pub use laws::a_canvas_may_go_to_another_thread;
pub use parts::Part;
