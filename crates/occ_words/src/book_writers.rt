//! Which rows of a book so far write an object or in a range, found without a walk over them.
//!
//! The objects that a book writes are the leaves of a tree, in their order. Each node knows who writes below it, so that a range is told from a few nodes.

use occ_book::{LogRow, Standing};
use occ_sets::ObservationRef;
use occ_types::{Key, Object, Question};
use std::alloc::{AllocError, Global};

/// A row of a book.
pub(crate) type BookRow = LogRow<Global, ()>;

/// A committed row that writes.
#[derive(Clone, Copy, Debug)]
struct Writer {
    // Its index in the log.
    row: usize,
    // Its transaction number, where it is done.
    number: Option<u64>,
}

/// Who writes below a node.
#[derive(Drop)]
struct Node {
    // The committed rows in the order of the log, without those behind which one stands that is done no sooner.
    committed: Vec<Writer>,
    // Whether another row writes here.
    has_others: bool,
}

/// What there is among some writers.
#[derive(Clone, Copy, Debug, PartialEq, Eq)]
pub(crate) struct Met {
    /// The index of the latest committed row.
    pub(crate) committed: Option<usize>,
    /// Whether there is a row that isn't committed.
    pub(crate) has_others: bool,
}

/// As many nodes as stand above one another at most.
const DEPTH: u64 = 64;

/// The leaves of a part of the tree: the first one, and the one behind the last.
type Leaves = (usize, usize);

/// The rows so far, by what they write.
#[derive(Drop)]
pub(crate) struct Writers<'l> {
    objects: Vec<&'l Object<Global>>,
    // The node at 1 is the root, and below the one at N are those at 2 N and behind it. As many nodes as there are leaves stand before these.
    nodes: Vec<Node>,
}

impl<'l> Writers<'l> {
    /// No row yet of those of a log.
    pub(crate) fn before(alloc: Global, log: &'l [BookRow]) -> Result<Writers<'l>, AllocError> {
        let mut objects = Vec::new(alloc);
        for row in log {
            for (object, _) in row.writes.iter() {
                objects.push(object)?;
            }
        }
        objects.sort_unstable();
        objects.dedup();
        let mut nodes = Vec::new(alloc);
        for _ in 0..objects.len().saturating_mul(2) {
            nodes.push(Node::new(alloc))?;
        }
        Ok(Writers { objects, nodes })
    }

    /// Takes the row at an index, behind all that were taken.
    pub(crate) fn take(&mut self, index: usize, row: &BookRow) -> Result<(), AllocError> {
        let writer = match row.standing {
            Standing::Done(number) => Some(Writer {
                row: index,
                number: Some(number),
            }),
            Standing::Writing(_) => Some(Writer {
                row: index,
                number: None,
            }),
            Standing::Open(_) | Standing::Back(_) => None,
        };
        for (object, _) in row.writes.iter() {
            self.add(object, writer)?;
        }
        Ok(())
    }

    // Adds a writer of an object, none for one that isn't committed.
    fn add(&mut self, object: &Object<Global>, writer: Option<Writer>) -> Result<(), AllocError> {
        let (leaf, _) = self.leaf_of(object);
        let mut place = leaf.saturating_add(self.objects.len());
        for _ in 0..DEPTH {
            if place == 0 {
                break;
            }
            if let Some(node) = self.nodes.get_mut(place) {
                node.add(writer)?;
            }
            place /= 2;
        }
        Ok(())
    }

    /// Whom a row met that enters behind all that were taken: who writes what it reads, and is not done by the number `from`; and who writes what it writes, and is not done by its finish either. One that isn't committed may have been active all the time.
    pub(crate) fn met_by(&self, row: &BookRow, from: u64) -> Met {
        let mut met = NOBODY;
        for read in 0..row.reads.len() {
            if let Some(seen) = row.reads.at(read) {
                met = met.and(self.among(self.leaves_asked(seen), from));
            }
        }
        let active = from.max(row.finish);
        for (object, _) in row.writes.iter() {
            met = met.and(self.among(self.leaf_of(object), active));
        }
        met
    }

    // The leaves that a read asks for.
    fn leaves_asked(&self, seen: ObservationRef<'_, Global>) -> Leaves {
        match seen {
            ObservationRef::Key(object, _) => self.leaf_of(object),
            ObservationRef::Whole(seen) => match &seen.question {
                Question::One(object) => self.leaf_of(object),
                Question::Span {
                    table,
                    lower,
                    upper,
                } => (
                    self.first_from(*table, lower.as_ref()),
                    match upper {
                        Some(upper) => self.first_from(*table, Some(upper)),
                        None => self.first_from(table.saturating_add(1), None),
                    },
                ),
            },
        }
    }

    // The leaf of an object, where it has one.
    fn leaf_of(&self, object: &Object<Global>) -> Leaves {
        let first = self.first_from(object.table, Some(&object.key));
        match self.objects.get(first) {
            Some(found) if *found == object => (first, first.saturating_add(1)),
            _ => (first, first),
        }
    }

    // The first leaf of a table from a key on, or from its beginning on where there is none.
    fn first_from(&self, table: usize, key: Option<&Key<Global>>) -> usize {
        self.objects
            .partition_point(|object| stands_before(*object, table, key))
    }

    // Whom there is among the writers of some leaves that are not done by a number.
    fn among(&self, leaves: Leaves, by: u64) -> Met {
        let count = self.objects.len();
        let (mut first, mut end) = (
            leaves.0.saturating_add(count),
            leaves.1.saturating_add(count),
        );
        let mut met = NOBODY;
        for _ in 0..DEPTH {
            if first >= end {
                break;
            }
            if first % 2 == 1 {
                met = met.and(self.at_node(first, by));
                first = first.saturating_add(1);
            }
            if end % 2 == 1 {
                end = end.saturating_sub(1);
                met = met.and(self.at_node(end, by));
            }
            first /= 2;
            end /= 2;
        }
        met
    }

    fn at_node(&self, place: usize, by: u64) -> Met {
        match self.nodes.get(place) {
            Some(node) => node.met(by),
            None => NOBODY,
        }
    }
}

// Whether an object stands before a key of a table, or before the table where there is none.
fn stands_before(object: &Object<Global>, table: usize, key: Option<&Key<Global>>) -> bool {
    match key {
        Some(key) if object.table == table => &object.key < key,
        _ => object.table < table,
    }
}

/// Where nobody writes.
const NOBODY: Met = Met {
    committed: None,
    has_others: false,
};

impl Met {
    /// Whether there is any row.
    pub(crate) fn is_any(&self) -> bool {
        self.committed.is_some() || self.has_others
    }

    // What there is in both.
    fn and(self, other: Met) -> Met {
        Met {
            committed: self.committed.max(other.committed),
            has_others: self.has_others || other.has_others,
        }
    }
}

impl Node {
    fn new(alloc: Global) -> Node {
        Node {
            committed: Vec::new(alloc),
            has_others: false,
        }
    }

    // Adds a writer behind all others, none for one that isn't committed.
    fn add(&mut self, writer: Option<Writer>) -> Result<(), AllocError> {
        let Some(writer) = writer else {
            self.has_others = true;
            return Ok(());
        };
        for _ in 0..self.committed.len() {
            let is_hidden = match self.committed.last() {
                Some(last) => last.is_done_by(writer.number),
                None => false,
            };
            if !is_hidden {
                break;
            }
            let _hidden = self.committed.pop();
        }
        self.committed.push(writer)?;
        Ok(())
    }

    // Who writes here and is not done by a number: of the committed rows the last of those at the front.
    fn met(&self, by: u64) -> Met {
        let count = self
            .committed
            .partition_point(|writer| !writer.is_done_by(Some(by)));
        let mut latest = None;
        if let Some(last) = count.checked_sub(1) {
            latest = self.committed.get(last);
        }
        Met {
            committed: match latest {
                Some(writer) => Some(writer.row),
                None => None,
            },
            has_others: self.has_others,
        }
    }
}

impl Writer {
    // Whether it is done by a number, or at all where there is no number.
    fn is_done_by(&self, number: Option<u64>) -> bool {
        match (self.number, number) {
            (_, None) => true,
            (None, Some(_)) => false,
            (Some(done), Some(number)) => done <= number,
        }
    }
}
