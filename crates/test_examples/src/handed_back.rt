//! Calls that want memory, made again with the very values that they handed back. In a schedule a key and a row are made anew.

use occ_sets::{Answer, Observation, PrivateCopy, RangeRows, ReadSet};
use occ_types::{Cell, Fault, Key, Object, Question, Row};
use std::alloc::{AllocFailed, Allocator, Global};
use std::{fmt, io};
use test_tools::{Plan, Refusing};

/// Prints how many requests for memory the calls make, each refused in a run of its own, and how many calls were made again in these
/// runs, whose answers were those of the run with ample memory.
pub(crate) fn tell_handed_back(rt: &HostRuntime) -> io::Result<()> {
    match refuse_in_turn(rt.alloc()) {
        Some((requests, again)) => println!(rt;
            "private copies and read sets: {requests} requests refused in turn, {again} calls made again"
        ),
        None => println!(rt; "private copies and read sets: another end"),
    }
}

/// Refuses each request in turn. The answer is how many there were, and how many calls were made again.
fn refuse_in_turn(paper: Global) -> Option<(u64, u64)> {
    let ample = Refusing::new(paper, Plan::Nothing);
    let (0, words) = run(&ample, paper)? else {
        return None;
    };
    let requests = ample.requests();
    let mut again = 0u64;
    for place in 0..requests {
        again = again.saturating_add(refuse(paper, place, words.as_str())?);
    }
    Some((requests, again))
}

/// How many calls were made again with the request at this place refused. None where what came of them isn't these words.
fn refuse(paper: Global, place: u64, words: &str) -> Option<u64> {
    let lent = Refusing::new(paper, Plan::Once(place));
    let (again, told) = run(&lent, paper)?;
    if told.as_str() != words || again > 1 || lent.refused() != 1 || lent.bytes_out() > 0 {
        return None;
    }
    Some(again)
}

/// How many calls were made again, and what came of all of them.
fn run<A: Allocator + Copy>(alloc: A, paper: Global) -> Option<(u64, String)> {
    let mut caller = Caller {
        alloc,
        words: String::new(paper),
        again: 0,
    };
    caller.write_all()?;
    caller.delete_first()?;
    caller.note_all()?;
    Some((caller.again, caller.words))
}

/// Makes calls, and makes each again that was refused for want of memory. What came of them stands in words that take none of it.
#[derive(Drop)]
struct Caller<A: Allocator> {
    alloc: A,
    words: String,
    again: u64,
}

impl<A: Allocator + Copy> Caller<A> {
    /// Writes to a copy, and tells what it has and sees.
    fn write_all(&mut self) -> Option<()> {
        let mut copy = PrivateCopy::new(self.alloc, 1, 0);
        self.write_to(&mut copy)?;
        let (_number, _start, writes) = copy.into_request();
        self.hear(&writes)
    }

    fn write_to(&mut self, copy: &mut PrivateCopy<A>) -> Option<()> {
        self.put(copy, "b", 1)?;
        self.delete(copy, "c")?;
        self.put(copy, "a", 2)?;
        self.put(copy, "b", 3)?;
        let given = self.one_row()?;
        self.look_at(copy, given)
    }

    /// Deletes a row, which is the first write of a copy.
    fn delete_first(&mut self) -> Option<()> {
        let mut copy = PrivateCopy::new(self.alloc, 2, 0);
        self.delete(&mut copy, "c")?;
        let (_number, _start, writes) = copy.into_request();
        self.hear(&writes)
    }

    /// Notes two questions with their answers.
    fn note_all(&mut self) -> Option<()> {
        let mut reads = ReadSet::new(self.alloc);
        let key = self.key("a")?;
        let question = Question::One(Object { table: 0, key });
        self.note(&mut reads, question, Answer::Found(None))?;
        let given = self.one_row()?;
        self.note(&mut reads, all(), given)?;
        self.hear(&reads)
    }

    /// Puts a number under a word.
    fn put(&mut self, copy: &mut PrivateCopy<A>, word: &str, number: i64) -> Option<()> {
        let key = self.key(word)?;
        let Err(refused) = copy.put(0, key, row(number)) else {
            return Some(());
        };
        self.retry(refused.fault)?;
        let (object, row) = refused.value;
        copy.put(0, object.key, row?).ok()
    }

    /// Deletes the row under a word.
    fn delete(&mut self, copy: &mut PrivateCopy<A>, word: &str) -> Option<()> {
        let key = self.key(word)?;
        let Err(refused) = copy.delete(0, key) else {
            return Some(());
        };
        self.retry(refused.fault)?;
        let (object, _none) = refused.value;
        copy.delete(0, object.key).ok()
    }

    /// Tells what a copy sees where a whole table answers this.
    fn look_at(&mut self, copy: &PrivateCopy<A>, given: Answer<A>) -> Option<()> {
        match copy.overlay(&all(), given) {
            Ok(seen) => self.hear(&seen),
            Err(refused) => {
                self.retry(refused.fault)?;
                let seen = copy.overlay(&all(), refused.value).ok()?;
                self.hear(&seen)
            }
        }
    }

    /// Notes a question and its answer.
    fn note(
        &mut self,
        reads: &mut ReadSet<A>,
        question: Question<A>,
        answer: Answer<A>,
    ) -> Option<()> {
        let Err(refused) = reads.note(question, answer) else {
            return Some(());
        };
        self.retry(refused.fault)?;
        let Observation { question, answer } = refused.value;
        reads.note(question, answer).ok()
    }

    /// The answer of a table with one row, which is shared. The rows come back where there is no memory for that.
    fn one_row(&mut self) -> Option<Answer<A>> {
        let key = self.key("c")?;
        let mut rows = Vec::new(self.alloc);
        if let Err(AllocFailed { value }) = rows.push((key, row(4))) {
            rows.push(value).ok()?;
        }
        match RangeRows::shared(rows) {
            Ok(rows) => Some(Answer::Rows(rows)),
            Err(AllocFailed { value }) => {
                self.retry(Fault::Memory)?;
                Some(Answer::Rows(RangeRows::shared(value).ok()?))
            }
        }
    }

    /// The key that is this word.
    fn key(&self, word: &str) -> Option<Key<A>> {
        match Key::text(self.alloc, word) {
            Ok(key) => Some(key),
            Err(_) => Key::text(self.alloc, word).ok(),
        }
    }

    /// Before a call is made again that was refused for this.
    fn retry(&mut self, fault: Fault) -> Option<()> {
        if fault != Fault::Memory {
            return None;
        }
        self.again = self.again.saturating_add(1);
        Some(())
    }

    /// Tells what came of calls.
    fn hear<T: fmt::Debug>(&mut self, told: &T) -> Option<()> {
        write!(&mut self.words, "{told:?}; ").ok()
    }
}

/// A row of one number, which takes no memory.
fn row<A: Allocator>(number: i64) -> Row<A> {
    Row::from_cell(Cell::Int(number))
}

/// The question for a whole table.
fn all<A: Allocator>() -> Question<A> {
    Question::Span {
        table: 0,
        lower: None,
        upper: None,
    }
}
