//! Laws, as clauses of calls without work.

use crate::canvas::SharedCanvas;

/// Takes what may go to another thread.
fn may_go<T: Send>(_value: &T) {}

/// A law: a canvas may go to another thread. It does nothing.
pub fn a_canvas_may_go_to_another_thread(canvas: &SharedCanvas) {
    may_go(canvas);
}
