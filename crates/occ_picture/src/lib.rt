//! The history that a book tells, as a picture: an SVG without a script, which any browser opens.
//!
//! A log of at most 40 rows is drawn large, for a reader without a pointer. Each session is a lane from top to bottom, and time goes down. Each transaction has a card where it entered, which tells what it read and wrote and whom it met; a bar beside it goes from its start to its end. Only one card stands at each height, so that no words overprint, however many there are and however long. Over all stands in a sentence why the first row was backed up, and below it a legend of what occurs.
//!
//! A longer log is drawn compactly: time goes to the right, in bands of 70 columns, one below another, and each row tells what it read and wrote where a pointer rests on it. A band has lanes of the sessions that did something there.
//!
//! Each entry of a row and each finish is a column of its own, in the order of the log: a book tells the counter at each entry, and so the finishes between two entries and their order. What it doesn't tell is put at the earliest moment that fits: a start right behind the finish whose number it saw, and, where the counters of a book fit no history, a finish behind its own entry and behind the finish of the number before.
//!
//! A row that is backed up for a conflict has lines to opponents that it met: rows that entered before it, whose writes meet its reads, and finished between its start and its entry; and rows that were active at its entry, also where both write one object. That a row was active is certain where it finished later or is still under way. A row that was itself backed up may have been active until then. So where no certain opponent was met, such rows that would have been met are tied by dashed lines.
//!
//! Places come from the order of the rows alone and never from a number in the book, so that no book can draw anything absurd. Time and memory grow about linearly with the book: of each row a bounded number of reads and writes is told, and a bounded number of rows before it is searched for opponents.
#![tactic(auto)]

mod bands;
mod cards;
mod compact;
mod encounters;
mod frame;
mod headings;
mod lanes;
mod large;
mod legends;
mod meetings;
mod pictures;
mod pieces;
mod places;
mod rows;
mod scales;
mod sheets;
mod stories;
mod times;
mod tracks;
mod ways;
mod words;

pub use pictures::write_picture;
