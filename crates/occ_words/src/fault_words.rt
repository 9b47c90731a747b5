//! What to do about a refusal.

use occ_types::Fault;

/// What to do about a fault that a step of a schedule was refused for.
pub fn advice(fault: Fault) -> &'static str {
    match fault {
        Fault::NoTable => "name a table of the header",
        Fault::WrongKind =>
            "write keys and cells of the kinds that the table line names: a number as it is, a text behind '",
        Fault::WrongColumns =>
            "write a cell for each column of the table, with commas between; add takes a table of one int column",
        Fault::TooLong =>
            "a text key, or a text part of one, has at most 64 bytes, and a text cell 256",
        Fault::EmptyRange => "name the lower end first; the upper end is not of the range",
        Fault::BadSchema => "have 1 to 32 tables with names of their own, each with 1 to 8 columns",
        Fault::SetFull =>
            "submit what there is: a transaction has at most 256 keys, questions or operations",
        Fault::Memory => "give the program more memory",
        Fault::QueueFull =>
            "enter what waits in the queue first, or name a larger queue in the header",
        Fault::Closed =>
            "use another session: after close nothing is begun, submitted or closed in this one",
        Fault::NumbersExhausted => "close the session: only the number of its closing mark is left",
        Fault::NoSession => "name a session from 1 on, up to the number in the line sessions",
        Fault::SessionClosed => "use another session: the closing mark of this one has entered",
        Fault::OutOfTurn =>
            "take the number that is due in the session: one was taken by forge, or it is too far ahead",
        Fault::SessionBusy => "finish or back up the row of this session that has entered",
        Fault::FutureStart => "name a start of at most the counter, which show tells",
        Fault::StartDiffers => "name the start with which the read phase of this number began",
        Fault::NothingEntered => "enter a transaction of this session first: submit, then enter",
        Fault::NotDecided => "decide the row first",
        Fault::AlreadyDecided =>
            "go on by the verdict: write and finish after commit, backup after backup",
        Fault::WritesLeft =>
            "repeat write until it answers nomore, or as often as the row has writes",
        Fault::LogFull => "fold the log by checkpoint, once its first rows are settled",
        Fault::CounterExhausted => "begin a new store: the counter has no room for more",
        Fault::RangeTooLarge => "ask for parts of the range: an answer has at most 1,024 rows",
        Fault::StoreBusy => "finish or back up the rows that are under way first",
        Fault::WrongCase => "bring the verdict on this very row",
        Fault::ReadOpen => "submit or abandon the transaction that is open in this session",
        Fault::NoReadOpen => "begin a transaction in this session first",
    }
}
