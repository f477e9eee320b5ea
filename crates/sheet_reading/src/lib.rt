//! What a reader of a sheet finds: the boards of the tournament, each with its deal, its table and its par.
//!
//! The reader goes by the elements of the page (`specs/Elements.antt`, `specs/SheetReading.antt`). It knows nothing of
//! the templates that the page is written by.
#![tactic(auto)]

mod markup;
mod pages;

ghost use Rattle.sheet_reading.specs.Laws.{SheetsAreRead};
ghost use Rattle.sheet_reading.specs.OneSheet.{SheetsSayOneThing};

pub use markup::markup_is_ours;
pub use pages::{
    pages_add, plain_values_stay, templates_are_plain, values_are_read, values_are_texts,
};

/// A sheet is read, element by element, as its head and one block for each board, in their order, and no other block.
/// The head has the title, the site and date, the key, and one policy, which lets a browser load nothing. A block has
/// the board's name. If the board has a deal, the block also has who deals and who is vulnerable, in words and in the
/// compass, each hand under the letter of its seat, the results and the par. Each result of a complete table is read
/// once, for its declarer and denomination. A result is at most 13 tricks.
pub fn sheets_are_read()
    ensures { SheetsAreRead }
{}

/// Two sheets of the same bytes have the same title and as many boards. The boards in one place have the same name, as
/// far as a page shows it, and the same deal, dealer, vulnerability and par. Their results are the same if all twenty
/// are known. Otherwise the same number of them is known.
pub fn sheets_say_one_thing()
    ensures { SheetsSayOneThing }
{}
