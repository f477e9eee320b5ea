//! The kinds of options: a row describes an option.

ghost use Rattle.std.specs.Prelude.{◌≡◌};
ghost use Rattle.command_words.specs.Options.{nearest_in, numbers_of};

/// An option with a number.
#[derive(Clone, Copy)]
pub struct NumberOption {
    /// What stands after `--`.
    pub name: &'static str,
    /// What help calls the number.
    pub value_name: &'static str,
    /// The least number that it may have.
    pub least: u32,
    /// The greatest number that it may have.
    pub most: u32,
    /// The digits of the number that stands for a missing one.
    pub default_text: &'static str,
    /// Whether on the command line the number of processors stands for a missing one.
    pub is_by_machine: bool,
    /// What help says of the option.
    pub help: &'static str,
}

impl NumberOption {
    /// The number of the option's range that is next to this one.
    pub fn nearest(&self, number: u64) -> u64
        ensures { result ≡ nearest_in (numbers_of self.now) number }
    {
        number.min(u64::from(self.most)).max(u64::from(self.least))
    }
}

/// An option without a value.
#[derive(Clone, Copy)]
pub struct FlagOption {
    /// What stands after `--`.
    pub name: &'static str,
    /// What help says of the option.
    pub help: &'static str,
}

/// An option with a text.
#[derive(Clone, Copy)]
pub struct TextOption {
    /// What stands after `--`.
    pub name: &'static str,
    /// What help calls the text.
    pub value_name: &'static str,
    /// What help says of the option.
    pub help: &'static str,
}

/// An option with one of several words.
#[derive(Clone, Copy)]
pub struct ChoiceOption {
    /// What stands after `--`.
    pub name: &'static str,
    /// What help calls the word.
    pub value_name: &'static str,
    /// The word where the option is missing.
    pub default: &'static str,
    /// What help says of the option.
    pub help: &'static str,
}
