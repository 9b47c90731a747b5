//! The laws of books. Each function computes nothing: its contract is the law, and the check proves it.

ghost use Rattle.std.specs.Prelude.{◌≡◌, ◌≤◌, ◌+◌, ◌++◌, ℕ, List, Some, length};
ghost use Rattle.occ_types.specs.declared.limits.TheConstants.{MAX_COUNTER, MAX_LOG_ROWS};
ghost use Rattle.occ_model.specs.Invariant.{Invariant};
ghost use Rattle.occ_model.specs.Content.{IsInSchema};
ghost use Rattle.occ_model.specs.World.{World, active_count};
ghost use Rattle.occ_text.specs.Headers.{Header};
ghost use Rattle.occ_text.specs.Languages.{LeadOn, start, Stopped};
ghost use Rattle.occ_text.specs.Line.{lines_text};
ghost use Rattle.occ_print.specs.Books.{Book, book_lines, book_text};
ghost use Rattle.occ_reading.specs.Places.{Place, Version, Audit, MayEnd, books};
ghost use Rattle.occ_reading.specs.WholeBooks.{BookFits, IsEnding};
ghost use Rattle.occ_reading.specs.Cores.{IsHeaderOf, IsToldBase, HasWords, book_in};

/// Lines lead from the beginning of a text to one place at most.
pub fn lines_lead_to_one_place()
    ensures { (lines : List (List ℕ)) → (place other : Place) → LeadOn books Version lines place → LeadOn books Version lines other → place ≡ other }
{}

/// The lines of a book that fits its header lead from the beginning to where it is whole, and what may stand behind them leads on
/// to where a text may end.
pub fn the_lines_of_a_book_lead_to_its_end()
    ensures whole { (book : Book) → BookFits book → LeadOn books Version (book_lines book) Audit }
    ensures ending { (lines : List (List ℕ)) → IsEnding lines → (place : Place) × LeadOn books Audit lines place × MayEnd place }
{}

/// No text of a book that fits its header is malformed, at any line.
pub fn no_text_of_a_book_is_malformed()
    ensures { (book : Book) → BookFits book → (lines : List (List ℕ)) → IsEnding lines → (number : ℕ) → Stopped books Version (start (Some (book_text book ++ lines_text lines))) number → ⊥ }
{}

/// A text is malformed at one line at most: the first that can't stand where it stands.
pub fn a_text_is_malformed_at_one_line()
    ensures { (text : List ℕ) → (number other : ℕ) → Stopped books Version (start (Some text)) number → Stopped books Version (start (Some text)) other → number ≡ other }
{}

/// The book of a core fits its header where its keys and rows have words. All other premises are what the law of a core ensures, and
/// that the header is one of the core: so its sessions, its numbers and its counts fit, and all that stands in it fits the tables, what was
/// folded out of its log too. A key or
/// a row has words where its numbers have 64 bits and its texts are UTF-8. Keys of two parts and missing ends of ranges have words in version 2 alone.
pub fn the_book_of_a_core_fits_where_it_has_words()
    ensures { (header : Header) → (world : World) → Invariant world → IsToldBase world → world.counter + active_count world ≤ MAX_COUNTER → length world.log ≤ MAX_LOG_ROWS
        → IsInSchema world → IsHeaderOf header world → HasWords header.version world → BookFits (book_in header world) }
{}
