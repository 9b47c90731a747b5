//! The sections of a book that tell numbers of sessions and rows of tables.

ghost use Rattle.std.specs.Prelude.{◌≡◌};
ghost use Rattle.occ_print.specs.Books.{number_word, entry_word};

/// A section of a book that has a line for some sessions, with a number, and one for each row of some tables.
#[derive(Clone, Copy, Debug, PartialEq, Eq)]
pub enum Section {
    /// What was folded out of the log: `last S N` has the last folded number of a session, and `from NAME KEY ROW` a row of the folded state.
    Base,
    /// What the store had: `mark S N` has the closing mark of a session, and `at NAME KEY ROW` a row.
    Store,
}

/// The first word of the line of a session.
pub fn number_word(section: Section) -> &'static str
    ensures { result.now ≡ number_word section }
{
    match section {
        Section::Base => "last",
        Section::Store => "mark",
    }
}

/// The first word of the line of a row.
pub fn entry_word(section: Section) -> &'static str
    ensures { result.now ≡ entry_word section }
{
    match section {
        Section::Base => "from",
        Section::Store => "at",
    }
}
