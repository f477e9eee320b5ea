//! Tables that several tests ask for.

use board_subcommands::table::TableOptions;
use farm::Settings;
use tournaments::{Page, PageForm, ParTags};

/// The tables alone.
pub(crate) const TABLES: Page = Page {
    form: PageForm::Tables,
    par: ParTags::Without,
};

/// The tables alone of the boards of the input, by these settings.
pub(crate) fn tables_by(settings: Settings) -> TableOptions<'static> {
    TableOptions {
        settings,
        progress: false,
        page: TABLES,
        boards: None,
        evidence: None,
    }
}
