//! Laws about pages. Each is a function that does nothing: its contract is the law.

ghost use Rattle.sheet_reading.specs.PageLaws.{PagesAdd, PlainValuesStay, TemplatesArePlain};
ghost use Rattle.sheet_reading.specs.PageLaws.{ValuesAreRead, ValuesAreTexts};

/// A value in a page is one text without a tag, and what a browser reads of it is what is to be shown.
pub fn values_are_texts()
    ensures { ValuesAreTexts }
{}

/// A value in a page is read as the UTF-8 of what is to be shown of it.
pub fn values_are_read()
    ensures { ValuesAreRead }
{}

/// A value of printing ASCII without `&`, `<` and `>` stands in a page as it is.
pub fn plain_values_stay()
    ensures { PlainValuesStay }
{}

/// The tags of a filled template are the same whatever the values are; its texts are the template's, filled.
pub fn templates_are_plain()
    ensures { TemplatesArePlain }
{}

/// The tags and the texts of a page and of what follows it are those of both.
pub fn pages_add()
    ensures { PagesAdd }
{}
