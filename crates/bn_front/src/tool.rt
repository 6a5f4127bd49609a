//! The first word.
ghost use Rattle.std.specs.Prelude.{◌≡◌, map, option_map};
ghost use Rattle.std.specs.Str.{bytes_eq};
ghost use Rattle.bn_model.specs.CommandLines as flat;
ghost use Rattle.bn_front.specs.Items.{name_meant, names_of, tool_meant};

use crate::option_name::OptionName;

static RUN_OPTIONS: [OptionName; 6] = [
    OptionName::Ram,
    OptionName::Harts,
    OptionName::Steps,
    OptionName::Script,
    OptionName::Store,
    OptionName::Blind,
];

static NO_OPTIONS: [OptionName; 0] = [];

/// What the first word names.
#[derive(Clone, Copy)]
pub enum Tool {
    /// `run`
    Run,
    /// `gen`
    Gen,
}

impl Tool {
    fn is_named(self, name: &str) -> bool
        ensures { result ≡ bytes_eq (flat.tool_name (tool_meant self)) name.now }
    {
        match self {
            Tool::Run => "run" == name,
            Tool::Gen => "gen" == name,
        }
    }

    /// The options that it takes.
    pub fn options(self) -> &'static [OptionName]
        ensures { map name_meant result.now ≡ names_of self }
    {
        match self {
            Tool::Run => RUN_OPTIONS.as_slice(),
            Tool::Gen => NO_OPTIONS.as_slice(),
        }
    }
}

/// The tool of this name. None where there is none.
pub fn tool_named(name: &str) -> Option<Tool>
    ensures { option_map (λ tool. tool_meant tool) result ≡ flat.tool_of name.now }
{
    if Tool::Run.is_named(name) {
        Some(Tool::Run)
    } else if Tool::Gen.is_named(name) {
        Some(Tool::Gen)
    } else {
        None
    }
}
