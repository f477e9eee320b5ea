//! A place in a text that is read.

/// What is left of a text. Who reads on moves it.
#[derive(Drop)]
pub(crate) struct Cursor<'a> {
    pub(crate) rest: &'a [u8],
}

/// Why a form was not read. It is answered beside no rest of the text, which the cursor has: so the answer goes in
/// registers.
#[derive(Clone, Copy)]
pub(crate) enum Stop {
    /// The text begins otherwise.
    Other,
    /// Memory ran out.
    NoMemory,
}
