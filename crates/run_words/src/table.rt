ghost use Rattle.std.specs.Prelude.{◌≡◌, map};
ghost use Rattle.run_words.specs.Options.{options, row_value};

use crate::command::CommandName;
use crate::form::Form;
use crate::option::{OptionName, OptionRow};

/// All options, in the order in which their values are tested.
#[tactic(auto, unfolding(crate::specs::Options::options))]
pub(crate) fn options() -> &'static [OptionRow]
    ensures { map row_value result.now ≡ options }
{
    &OPTIONS
}

const OPTIONS: [OptionRow; 23] = [
    OptionRow {
        name: OptionName::Cube,
        word: "cube",
        commands: &[
            CommandName::Nodes,
            CommandName::Image,
            CommandName::Replay,
            CommandName::Live,
        ],
        form: Form::CubePlace,
        required: false,
    },
    OptionRow {
        name: OptionName::Leaf,
        word: "leaf",
        commands: &[
            CommandName::Nodes,
            CommandName::Image,
            CommandName::Replay,
            CommandName::Demo,
            CommandName::Live,
        ],
        form: Form::Number {
            low: 1,
            high: 50_000,
        },
        required: false,
    },
    OptionRow {
        name: OptionName::Nodes,
        word: "nodes",
        commands: &[
            CommandName::Nodes,
            CommandName::Image,
            CommandName::Replay,
            CommandName::Demo,
            CommandName::Live,
        ],
        form: Form::Number {
            low: 1,
            high: 200_000,
        },
        required: false,
    },
    OptionRow {
        name: OptionName::Points,
        word: "points",
        commands: &[
            CommandName::Nodes,
            CommandName::Image,
            CommandName::Replay,
            CommandName::Demo,
            CommandName::Live,
        ],
        form: Form::Number {
            low: 1,
            high: 10_000_000,
        },
        required: false,
    },
    OptionRow {
        name: OptionName::Chunks,
        word: "chunks",
        commands: &[CommandName::Replay, CommandName::Live],
        form: Form::Number {
            low: 1,
            high: 1_000_000,
        },
        required: false,
    },
    OptionRow {
        name: OptionName::Batch,
        word: "batch",
        commands: &[
            CommandName::Nodes,
            CommandName::Image,
            CommandName::Replay,
            CommandName::Demo,
            CommandName::Live,
        ],
        form: Form::Number {
            low: 1,
            high: 50_000,
        },
        required: false,
    },
    OptionRow {
        name: OptionName::Decimals,
        word: "decimals",
        commands: &[
            CommandName::Nodes,
            CommandName::Bounds,
            CommandName::Image,
            CommandName::Replay,
            CommandName::Live,
        ],
        form: Form::Number { low: 0, high: 9 },
        required: false,
    },
    OptionRow {
        name: OptionName::Rgb,
        word: "rgb",
        commands: &[
            CommandName::Nodes,
            CommandName::Bounds,
            CommandName::Image,
            CommandName::Replay,
            CommandName::Live,
        ],
        form: Form::HighOrLow,
        required: false,
    },
    OptionRow {
        name: OptionName::Voxels,
        word: "voxels",
        commands: &[CommandName::Nodes],
        form: Form::YesOrNo,
        required: false,
    },
    OptionRow {
        name: OptionName::Pos,
        word: "pos",
        commands: &[CommandName::Image, CommandName::Replay, CommandName::Live],
        form: Form::Numbers {
            count: 3,
            low: i32::MIN,
            high: i32::MAX,
        },
        required: false,
    },
    OptionRow {
        name: OptionName::Rows,
        word: "rows",
        commands: &[CommandName::Image, CommandName::Replay, CommandName::Live],
        form: Form::Numbers {
            count: 9,
            low: -1024,
            high: 1024,
        },
        required: false,
    },
    OptionRow {
        name: OptionName::Focal,
        word: "focal",
        commands: &[CommandName::Image, CommandName::Replay, CommandName::Live],
        form: Form::Number {
            low: 1,
            high: 65_536,
        },
        required: false,
    },
    OptionRow {
        name: OptionName::Near,
        word: "near",
        commands: &[CommandName::Image, CommandName::Replay, CommandName::Live],
        form: Form::Number {
            low: 1,
            high: 1_000_000_000,
        },
        required: false,
    },
    OptionRow {
        name: OptionName::Size,
        word: "size",
        commands: &[CommandName::Image, CommandName::Replay, CommandName::Live],
        form: Form::Numbers {
            count: 2,
            low: 1,
            high: 4096,
        },
        required: false,
    },
    OptionRow {
        name: OptionName::Threshold,
        word: "threshold",
        commands: &[CommandName::Image, CommandName::Replay, CommandName::Live],
        form: Form::Number {
            low: 1,
            high: 65_536,
        },
        required: false,
    },
    OptionRow {
        name: OptionName::Dot,
        word: "dot",
        commands: &[CommandName::Image, CommandName::Replay, CommandName::Live],
        form: Form::Number { low: 1, high: 64 },
        required: false,
    },
    OptionRow {
        name: OptionName::Loaders,
        word: "loaders",
        commands: &[CommandName::Replay, CommandName::Live],
        form: Form::Number { low: 1, high: 16 },
        required: false,
    },
    OptionRow {
        name: OptionName::Viewers,
        word: "viewers",
        commands: &[CommandName::Replay, CommandName::Live],
        form: Form::Number { low: 1, high: 16 },
        required: false,
    },
    OptionRow {
        name: OptionName::Frames,
        word: "frames",
        commands: &[CommandName::Replay, CommandName::Live],
        form: Form::Number { low: 1, high: 100 },
        required: false,
    },
    OptionRow {
        name: OptionName::Schedule,
        word: "schedule",
        commands: &[CommandName::Replay],
        form: Form::FileName,
        required: true,
    },
    OptionRow {
        name: OptionName::Generate,
        word: "generate",
        commands: &[CommandName::Live],
        form: Form::SeedAndCount { most: 10_000_000 },
        required: false,
    },
    OptionRow {
        name: OptionName::Seed,
        word: "seed",
        commands: &[CommandName::Demo],
        form: Form::Seed,
        required: false,
    },
    OptionRow {
        name: OptionName::Count,
        word: "count",
        commands: &[CommandName::Demo],
        form: Form::Number {
            low: 1,
            high: 10_000_000,
        },
        required: false,
    },
];
