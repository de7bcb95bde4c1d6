ghost use Rattle.std.specs.Prelude.{◌≡◌};
ghost use Rattle.run_words.specs.Commands.{is_same, command_of};

/// The six commands.
#[derive(Clone, Copy, Debug, PartialEq, Eq)]
pub enum CommandName {
    Nodes,
    Bounds,
    Image,
    Replay,
    Demo,
    Live,
}

impl CommandName {
    /// The command of this word, if there is one.
    pub(crate) fn of_word(word: &str) -> Option<CommandName>
        ensures { result ≡ command_of word.now }
    {
        match word.as_bytes() {
            b"nodes" => Some(CommandName::Nodes),
            b"bounds" => Some(CommandName::Bounds),
            b"image" => Some(CommandName::Image),
            b"replay" => Some(CommandName::Replay),
            b"demo" => Some(CommandName::Demo),
            b"live" => Some(CommandName::Live),
            _ => None,
        }
    }
}

/// Whether two commands are the same.
pub(crate) fn is_same(a: CommandName, b: CommandName) -> bool
    ensures { result ≡ is_same a b }
{
    a == b
}
