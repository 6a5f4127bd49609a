//! The options.
ghost use Rattle.std.specs.Prelude.{◌≡◌};
ghost use Rattle.bn_model.specs.CommandLines as flat;
ghost use Rattle.bn_front.specs.Items.{name_meant};

/// An option of `run`.
#[derive(Clone, Copy)]
pub enum OptionName {
    Ram,
    Harts,
    Steps,
    Script,
    Store,
    Blind,
}

impl OptionName {
    /// Whether it has a value.
    pub fn takes_value(self) -> bool
        ensures { result ≡ flat.takes_value (name_meant self) }
    {
        !matches!(self, OptionName::Store)
    }

    /// How it is named, after `--`.
    pub fn text<'a>(self) -> &'a str
        ensures { result.now ≡ flat.name_text (name_meant self) }
    {
        match self {
            OptionName::Ram => "ram",
            OptionName::Harts => "harts",
            OptionName::Steps => "steps",
            OptionName::Script => "script",
            OptionName::Store => "store",
            OptionName::Blind => "blind",
        }
    }
}
