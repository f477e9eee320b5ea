//! Which page of tables is written.

/// Which page of a text's tables is written.
#[derive(Clone, Copy)]
pub struct Page {
    /// Where they stand.
    pub form: PageForm,
    /// Whether the pars of the boards stand before their tables. A sheet has them in any case.
    pub par: ParTags,
}

/// Whether pars are written.
#[derive(Clone, Copy)]
pub enum ParTags {
    /// They are not.
    Without,
    /// They are.
    With,
}

/// Where tables stand.
#[derive(Clone, Copy)]
pub enum PageForm {
    /// Alone.
    Tables,
    /// In the text, which is as it was otherwise.
    Whole,
    /// On a sheet to print.
    Sheet,
}
