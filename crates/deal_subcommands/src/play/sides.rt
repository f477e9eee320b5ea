//! The two sides by what they do in a contract.

ghost use Rattle.std.specs.Prelude.{◌≡◌, ◌↔◌, Some};
ghost use Rattle.deal_subcommands.specs.Play.Options.{side_word};

/// A side by what it does in a contract.
#[derive(Clone, Copy, Debug, PartialEq, Eq)]
pub enum ContractSide {
    /// Declarer and dummy.
    Declarer,
    /// The two others, of whom the one at declarer's left leads first.
    Defenders,
}

impl ContractSide {
    /// The side that a word of the command line names.
    pub fn of_word(word: &str) -> Option<ContractSide>
        ensures { (side : _) → (result ≡ Some side) ↔ (word.now ≡ side_word side) }
    {
        match word {
            "declarer" => Some(ContractSide::Declarer),
            "defenders" => Some(ContractSide::Defenders),
            _ => None,
        }
    }
}
