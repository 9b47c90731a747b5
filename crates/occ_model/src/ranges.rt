//! The laws of questions, answers and a transaction's own writes.

ghost use Rattle.occ_model.specs.PageLaws.{FirstPages, LastPages, FirstWalks, LastWalks, WalksEnd};
ghost use Rattle.occ_model.specs.RangeLaws.{AsksOne, AsksRange, AnswersRange, MeetsReads, MeetsWrites, DistinctWrites, SetsOwn, SetsAll, OverlaysAnswer, UnaskedUnseen};

/// A question for one key asks for that key of its table, and for nothing else.
pub fn one_key_asks_for_itself()
    ensures { AsksOne }
{}

/// A range asks for the keys of its table from its lower end on and below its upper end, and for nothing else.
pub fn range_asks_for_its_keys()
    ensures { AsksRange }
{}

/// A range is answered exactly the rows of its keys, in the order of the keys, each once.
pub fn range_is_answered_by_its_rows()
    ensures { AnswersRange }
{}

/// Writes meet reads just where some write is of an object that some question asks for.
pub fn writes_meet_reads()
    ensures { MeetsReads }
{}

/// Writes meet writes just where some object is written by both.
pub fn writes_meet_writes()
    ensures { MeetsWrites }
{}

/// Writes are distinct just where the objects of any two of them differ.
pub fn distinct_writes_differ()
    ensures { DistinctWrites }
{}

/// Setting one write changes what is seen of its object alone; the objects keep their places, a new one goes last, and
/// none comes to be written twice.
pub fn setting_a_write()
    ensures { SetsOwn }
{}

/// Writes set one after another write no object twice, and leave the table as they would one by one.
pub fn setting_all_writes()
    ensures { SetsAll }
{}

/// What a transaction sees, its own writes over the table's answer, is what the table would answer once they were done.
pub fn own_writes_are_seen()
    ensures { OverlaysAnswer }
{}

/// A write of what a question doesn't ask for is not seen by it.
pub fn unasked_writes_are_unseen()
    ensures { UnaskedUnseen }
{}

/// A first page of a range shows its first rows, asks for one row more, and tells nothing but what it is answered; its rest
/// begins at the row that it doesn't show.
pub fn a_first_page_has_the_first_rows()
    ensures { FirstPages }
{}

/// A last page of a range shows its last rows, asks for one row more, and tells nothing but what it is answered; its rest
/// ends at the first row that it shows.
pub fn a_last_page_has_the_last_rows()
    ensures { LastPages }
{}

/// First pages, each from where the one before left off, are the range, each row once; and so they are under own writes.
pub fn first_pages_are_the_range()
    ensures { FirstWalks }
{}

/// Last pages, each up to where the one behind it began, are the range, each row once; and so they are under own writes.
pub fn last_pages_are_the_range()
    ensures { LastWalks }
{}

/// Each walk by pages comes to its end, after at most one page more than the range has rows.
pub fn walks_of_pages_end()
    ensures { WalksEnd }
{}
