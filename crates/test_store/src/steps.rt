//! Steps of scenarios, and the lines that tell them.
use occ_store::Point;

/// A step of a scenario. It begins with the session, where there is one.
#[derive(Clone, Copy)]
pub(crate) enum Step {
    /// It hands in a transaction that puts 7 under the keys from the first to the last.
    Put(usize, u64, u64),
    /// It hands in a put of 7 under a key to run alone.
    Alone(usize, u64),
    /// It closes.
    Close(usize),
    /// Its lane is served once.
    Serve(usize),
    /// Its lane is served once, by a gate that stops it at this point.
    Stop(usize, Point),
    /// Its lane is served once, by a gate that takes the lock at each point.
    Look(usize),
    /// Its lane goes on with what is left.
    Resume(usize),
    /// All groups are served in threads, by a gate that stops it at its first pass of this point.
    ServeAllBut(usize, Point),
    /// All groups are served in threads, by a gate that holds each of two sessions at this point until the other has come there.
    ServeTogether(Point),
    /// Clients in threads, one for each session, and all groups in threads, do what this seed says.
    Load(u64),
    /// How its row with this number stands.
    Row(usize, u64),
    /// Whether its lane is closed.
    Lane(usize),
    /// How many decisions of its lane came by a verdict that was reached outside the lock.
    Judged(usize),
    /// Its last transaction that is over.
    Poll(usize),
    /// It begins a transaction, and reads a key.
    Read(usize, u64),
    /// It begins a transaction, and reads a page of one row: the last one, or the first.
    Page(usize, bool),
    /// Its open transaction deletes a key, and is handed in.
    Delete(usize, u64),
    /// A checkpoint.
    Fold,
    /// Whether serial replay explains the book.
    Audit,
    /// The store ends.
    End,
    /// The same without the last lane.
    EndShort,
}

impl Step {
    /// The step that a line tells, as `put 1 2 2`: a verb, numbers and at most one point.
    pub(crate) fn told(line: &str) -> Option<Step> {
        let [first, second, third, _, _, _] = numbers_in(line);
        let session = first as usize;
        match line.split(' ').next()? {
            "put" => Some(Step::Put(session, second, third)),
            "alone" => Some(Step::Alone(session, second)),
            "close" => Some(Step::Close(session)),
            "serve" => Some(Step::Serve(session)),
            "stop" => Some(Step::Stop(session, point_in(line)?)),
            "look" => Some(Step::Look(session)),
            "resume" => Some(Step::Resume(session)),
            "serve-all-but" => Some(Step::ServeAllBut(session, point_in(line)?)),
            "serve-together" => Some(Step::ServeTogether(point_in(line)?)),
            "load" => Some(Step::Load(first)),
            "row" => Some(Step::Row(session, second)),
            "lane" => Some(Step::Lane(session)),
            "judged" => Some(Step::Judged(session)),
            "poll" => Some(Step::Poll(session)),
            "read" => Some(Step::Read(session, second)),
            "first" => Some(Step::Page(session, false)),
            "last" => Some(Step::Page(session, true)),
            "delete" => Some(Step::Delete(session, second)),
            "fold" => Some(Step::Fold),
            "audit" => Some(Step::Audit),
            "end" => Some(Step::End),
            "end-short" => Some(Step::EndShort),
            _ => None,
        }
    }
}

/// The first six numbers in a line; 0 where there are fewer.
pub(crate) fn numbers_in(line: &str) -> [u64; 6] {
    let mut numbers = [0; 6];
    let mut count = 0usize;
    for word in line.split(' ') {
        if let (Ok(number), Some(place)) = (word.parse::<u64>(), numbers.get_mut(count)) {
            *place = number;
            count = count.saturating_add(1);
        }
    }
    numbers
}

// The first point that a line names.
fn point_in(line: &str) -> Option<Point> {
    for word in line.split(' ') {
        let point = point_named(word);
        if point.is_some() {
            return point;
        }
    }
    None
}

fn point_named(word: &str) -> Option<Point> {
    match word {
        "took" => Some(Point::Took),
        "entered" => Some(Point::Entered),
        "judged" => Some(Point::Judged),
        "decided" => Some(Point::Decided),
        "wrote" => Some(Point::Wrote),
        "settled" => Some(Point::Settled),
        _ => None,
    }
}

/// The word of a point.
pub(crate) fn word_of(point: Point) -> &'static str {
    match point {
        Point::Took => "took",
        Point::Entered => "entered",
        Point::Judged => "judged",
        Point::Decided => "decided",
        Point::Wrote => "wrote",
        Point::Settled => "settled",
    }
}
