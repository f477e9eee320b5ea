//! Laws about bids and scores. Each is a function that does nothing: its contract is the law.

ghost use Rattle.par.specs.Laws.{AreInOrder, HaveNumbers, MadeContractsGain, FailingContractsLose};

/// A bid supersedes exactly the bids with lower numbers, and each number belongs to one bid.
pub fn bids_are_in_order()
    ensures order { AreInOrder }
    ensures numbers { HaveNumbers }
{}

/// Declarer's side scores points for a contract that it makes, and its opponents score points for one that fails: no
/// score is 0.
pub fn made_contracts_gain()
    ensures made { MadeContractsGain }
    ensures failing { FailingContractsLose }
{}
