ghost use Rattle.std.specs.Prelude.{◌≡◌};
ghost use Rattle.run_words.specs.Options.{option_word};

use crate::command::CommandName;
use crate::form::Form;

/// The options, in the order in which their values are tested.
#[derive(Clone, Copy, Debug, PartialEq, Eq)]
pub enum OptionName {
    Cube,
    Leaf,
    Nodes,
    Points,
    Chunks,
    Batch,
    Decimals,
    Rgb,
    Voxels,
    Pos,
    Rows,
    Focal,
    Near,
    Size,
    Threshold,
    Dot,
    Loaders,
    Viewers,
    Frames,
    Schedule,
    Generate,
    Seed,
    Count,
}

impl OptionName {
    /// The option's name as it stands between `--` and `=`.
    pub fn word(self) -> &'static str
        ensures { result.now ≡ option_word self }
    {
        match self {
            OptionName::Cube => "cube",
            OptionName::Leaf => "leaf",
            OptionName::Nodes => "nodes",
            OptionName::Points => "points",
            OptionName::Chunks => "chunks",
            OptionName::Batch => "batch",
            OptionName::Decimals => "decimals",
            OptionName::Rgb => "rgb",
            OptionName::Voxels => "voxels",
            OptionName::Pos => "pos",
            OptionName::Rows => "rows",
            OptionName::Focal => "focal",
            OptionName::Near => "near",
            OptionName::Size => "size",
            OptionName::Threshold => "threshold",
            OptionName::Dot => "dot",
            OptionName::Loaders => "loaders",
            OptionName::Viewers => "viewers",
            OptionName::Frames => "frames",
            OptionName::Schedule => "schedule",
            OptionName::Generate => "generate",
            OptionName::Seed => "seed",
            OptionName::Count => "count",
        }
    }
}

/// What is known of an option before any word is read.
pub(crate) struct OptionRow {
    pub name: OptionName,
    pub word: &'static str,
    pub commands: &'static [CommandName],
    pub form: Form,
    pub required: bool,
}
