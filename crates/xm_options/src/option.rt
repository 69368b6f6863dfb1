//! An option as a command knows it.

ghost use Rattle.std.specs.Prelude.{◌≡◌};
ghost use Rattle.xm_options.specs.Names.{name_of};

/// The name of an option.
#[derive(Clone, Copy, PartialEq, Eq, Debug)]
pub enum OptionName {
    Budget,
    Parts,
    Seed,
    Size,
    Watch,
    Workers,
}

impl OptionName {
    /// The name as it stands behind the two dashes: letters a to z alone.
    pub fn text<'a>(self) -> &'a str
        ensures { result.now ≡ name_of self }
    {
        match self {
            OptionName::Budget => "budget",
            OptionName::Parts => "parts",
            OptionName::Seed => "seed",
            OptionName::Size => "size",
            OptionName::Watch => "watch",
            OptionName::Workers => "workers",
        }
    }
}

/// An option with a value: `--name n` or `--name=n`, with n from `low` to `high`. Where it is wanted, it has to be
/// given.
#[derive(Clone, Copy, PartialEq, Eq, Debug)]
pub struct LongOption {
    pub name: OptionName,
    pub low: u64,
    pub high: u64,
    pub wanted: bool,
}
