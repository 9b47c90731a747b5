//! What a word of the board says.
ghost use Rattle.std.specs.Prelude.{◌≡◌};
ghost use Rattle.occ_board.specs.Words.{HasRoom, behind, nothing, over, word_of};

use occ_model::{Cause, Verdict};

/// The last transaction of a session that is over.
#[derive(Clone, Copy, Debug, PartialEq, Eq)]
pub struct Last {
    /// Its number in the session, 0 before the first one is over.
    pub number: u64,
    /// How it ended; none before the first one is over.
    pub status: Option<Verdict>,
    /// The transaction number of the session's last commit, 0 before it.
    pub tn: u64,
}

/// What stands on the board. Contracts speak of it, and no code makes one.
pub struct Words {
    /// The transaction counter.
    pub counter: u64,
    /// The last transaction of each session that is over, by session. Contracts read it as a list of any length.
    pub sessions: [Last; 0],
}

impl Last {
    /// Nothing of a session is over.
    pub(crate) fn nothing() -> Last
        ensures { result ≡ nothing }
    {
        Last {
            number: 0,
            status: None,
            tn: 0,
        }
    }

    /// What stands after a transaction that is over, at a counter.
    pub(crate) fn over(&self, counter: u64, number: u64, status: Verdict) -> Last
        ensures { result ≡ over counter self.now number status }
    {
        let tn = match status {
            Verdict::Commit => counter,
            Verdict::BackUp(_) => self.tn,
        };
        Last {
            number,
            status: Some(status),
            tn,
        }
    }

    /// What stands of a session that goes on behind a number.
    pub(crate) fn behind(&self, number: u64) -> Last
        ensures { result ≡ behind self.now number }
    {
        Last {
            number,
            status: None,
            tn: self.tn,
        }
    }

    /// The word that says so: 32 bits of the last commit, 30 of the number, 2 of the status.
    pub fn word(&self) -> u64
        requires { HasRoom self.now }
        ensures { result ≡ word_of self.now }
    {
        let status = match self.status {
            None => 0,
            Some(Verdict::Commit) => 1,
            Some(Verdict::BackUp(Cause::Conflict)) => 2,
            Some(Verdict::BackUp(Cause::TooOld)) => 3,
        };
        self.tn * 4294967296 + self.number * 4 + status
    }

    /// What a word says.
    pub fn of_word(word: u64) -> Last
        ensures { (last : Last) → HasRoom last → word ≡ word_of last → result ≡ last }
    {
        let status = match word % 4 {
            0 => None,
            1 => Some(Verdict::Commit),
            2 => Some(Verdict::BackUp(Cause::Conflict)),
            _ => Some(Verdict::BackUp(Cause::TooOld)),
        };
        Last {
            number: word / 4 % 1073741824,
            status,
            tn: word / 4294967296,
        }
    }
}
