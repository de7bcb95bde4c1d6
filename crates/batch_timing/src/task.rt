use std::env;
use std::rt::Env;

/// What the words ask for.
#[derive(Drop)]
pub struct Task {
    /// Whether the points come by batches, or else at once.
    pub by_batches: bool,
    /// The leaf limit, at least 1.
    pub leaf: u32,
    /// The number of points of a batch, at least 1.
    pub batch: u32,
    /// The name of the file.
    pub name: String,
}

impl Task {
    /// The task of the program's words.
    pub fn read<R: Env + AllocGlobal>(rt: &R) -> Result<Task, &'static str> {
        let mut words = env::args(rt).ok().ok_or("the words are no text")?;
        let _program = words.next();
        let by_batches = match words.next().ok_or("which way?")?.as_str() {
            "batches" => true,
            "once" => false,
            _ => return Err("the first word is neither batches nor once"),
        };
        let leaf = number(words.next())?;
        let batch = number(words.next())?;
        let name = words.next().ok_or("which file?")?;
        Ok(Task {
            by_batches,
            leaf,
            batch,
            name,
        })
    }
}

/// The number of a word.
fn number(word: Option<String>) -> Result<u32, &'static str> {
    let word = word.ok_or("a number is missing")?;
    word.as_str()
        .parse::<u32>()
        .ok()
        .ok_or("a word is no number")
}
