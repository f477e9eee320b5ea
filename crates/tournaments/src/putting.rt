//! The page of a book, written.

ghost use Rattle.std.specs.Prelude.{◌≡◌, ℕ, List, Ok};
ghost use Rattle.lease_book.specs.TrueHistories.{IsTrueHistory};
ghost use Rattle.pbn_deals.specs.Reading.{TextAnswers};
ghost use Rattle.tournaments.specs.Pages.{AreTables};
ghost use Rattle.tournaments.specs.WholePages.{HasTables};
ghost use Rattle.tournaments.specs.Putting.{PutsPage, form_fact, page_fact, par_tags};
ghost use Rattle.tournaments.specs.SheetPages.{IsSheet};

use crate::book_results::BookResults;
use crate::faults::{MakeFault, write_failed};
use crate::pages::{Page, PageForm, ParTags};
use crate::pars::board_pars;
use board_conditions::{first_titles, read_conditions, read_titles};
use cards::Sink;
use lease_book::Book;
use sheets::write_page;
use std::alloc::Global;
use tables::{Renews, Report, write_tables};
use whole_texts::write_whole;

/// Writes the tables of the boards of a book, with the numbers that it publishes.
fn put_tables<O: Sink>(results: &BookResults<'_>, output: &mut O) -> Result<Report, MakeFault>
    ensures { (text : List ℕ) → PutsPage (AreTables results.now.pars) text results.now.book (O.state output.old)
        (O.state output.new) result }
{
    match write_tables(results, output) {
        Ok(report) => Ok(report),
        Err(fault) => Err(write_failed(fault)),
    }
}

/// Writes a text of which the boards were read, with such tables in it.
fn put_whole<O: Sink>(
    text: &[u8],
    results: &BookResults<'_>,
    output: &mut O,
) -> Result<Report, MakeFault>
    requires boards { TextAnswers text.now (Ok results.now.book.terms.boards) }
    ensures { PutsPage (HasTables results.now.renews results.now.pars) text.now results.now.book (O.state output.old)
        (O.state output.new) result }
{
    match write_whole(text, results, output) {
        Ok(report) => Ok(report),
        Err(fault) => Err(write_failed(fault)),
    }
}

/// Writes the sheet of the boards of a book, which were read from this text. Fails if memory runs out: then the sink
/// has got nothing.
fn put_sheet<O: Sink>(
    alloc: Global,
    text: &[u8],
    results: &BookResults<'_>,
    output: &mut O,
) -> Result<Report, MakeFault>
    ensures { PutsPage (IsSheet results.now.pars) text.now results.now.book (O.state output.old) (O.state output.new)
        result }
{
    let Ok(conditions) = read_conditions(alloc, text) else {
        return Err(MakeFault::OutOfMemory);
    };
    let Ok(titles) = read_titles(alloc, text) else {
        return Err(MakeFault::OutOfMemory);
    };
    match write_page(
        output,
        results,
        first_titles(text),
        titles.as_slice(),
        conditions.as_slice(),
    ) {
        Ok(report) => Ok(report),
        Err(fault) => Err(write_failed(fault)),
    }
}

/// Writes such tables alone, in the text, or on a sheet.
fn put_form<O: Sink>(
    alloc: Global,
    text: &[u8],
    results: &BookResults<'_>,
    form: PageForm,
    output: &mut O,
) -> Result<Report, MakeFault>
    requires boards { TextAnswers text.now (Ok results.now.book.terms.boards) }
    ensures { PutsPage (form_fact form results.now.renews results.now.pars) text.now results.now.book
        (O.state output.old) (O.state output.new) result }
{
    match form {
        PageForm::Tables => put_tables(results, output),
        PageForm::Whole => put_whole(text, results, output),
        PageForm::Sheet => put_sheet(alloc, text, results, output),
    }
}

/// Whether the pars of the boards stand on a page.
fn par_tags(page: Page) -> ParTags
    ensures { result ≡ par_tags page }
{
    match page.form {
        PageForm::Sheet => ParTags::With,
        PageForm::Tables | PageForm::Whole => page.par,
    }
}

/// Writes the page that is asked for: the tables of the boards of a book, with the numbers that it publishes, alone or
/// in the text of which the boards were read, and with the boards' pars or without, or all of it on a sheet. Fails if
/// the sink fails: then it has got a beginning of the page. Fails if memory runs out: then it has got nothing.
pub fn put_page<O: Sink>(
    alloc: Global,
    text: &[u8],
    book: &Book,
    page: Page,
    output: &mut O,
) -> Result<Report, MakeFault>
    requires boards { TextAnswers text.now (Ok book.now.terms.boards) }
    requires history { IsTrueHistory book.now.terms book.now.events }
    ensures { PutsPage (page_fact page) text.now book.now (O.state output.old) (O.state output.new) result }
{
    match par_tags(page) {
        ParTags::Without => {
            let results = BookResults::new(book, Renews::Tables, &[]);
            put_form(alloc, text, &results, page.form, output)
        }
        ParTags::With => {
            let pars = board_pars(alloc, text, book)?;
            let results = BookResults::new(book, Renews::TablesAndPars, pars.as_slice());
            put_form(alloc, text, &results, page.form, output)
        }
    }
}
