//! One worker's place at the desk.

ghost use Rattle.std.specs.Prelude.{◌≡◌};

use crate::receipts::Receipt;
use crate::rule::DeskToken;

/// One worker's place at the desk. It keeps a receipt for each of its calls.
#[derive(Drop)]
pub struct Chair {
    pub(crate) number: usize,
    pub(crate) receipts: Vec<Receipt>,
    pub(crate) token: DeskToken,
}

impl Chair {
    /// The chair's number at its desk, from 0.
    pub fn number(&self) -> usize
        ensures { result ≡ self.now.number }
    {
        self.number
    }

    /// The receipts for the calls that were made from this chair, in order.
    pub fn receipts(&self) -> &[Receipt]
        ensures { result.now ≡ self.now.receipts.items }
    {
        self.receipts.as_slice()
    }
}
