use std::env;
use std::rt::Env;

/// What the words ask for.
#[derive(Clone, Copy, Debug)]
pub struct Task {
    /// The number of threads, and 0 for the canvas of one thread.
    pub threads: u32,
    /// The number of items.
    pub items: u32,
}

impl Task {
    /// The task of the program's words.
    pub fn read<R: Env + AllocGlobal>(rt: &R) -> Result<Task, &'static str> {
        let mut words = env::args(rt).ok().ok_or("the words are no text")?;
        let _program = words.next();
        let threads = number(words.next())?;
        let items = number(words.next())?;
        Ok(Task { threads, items })
    }
}

/// The number of a word.
fn number(word: Option<String>) -> Result<u32, &'static str> {
    let word = word.ok_or("a number is missing")?;
    word.as_str()
        .parse::<u32>()
        .ok()
        .ok_or("a word is no number")
}
