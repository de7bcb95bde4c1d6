//! The words of a command line: the commands, their options, and the job that the words stand for.
#![tactic(auto)]

mod chunks;
mod command;
mod form;
mod job;
mod number;
mod option;
mod screen;
mod table;
mod value;
mod words;

pub use chunks::default_chunks;
pub use command::CommandName;
pub use job::Job;
pub use option::OptionName;
pub use screen::is_file;
pub use words::{WordsFault, read_words};
