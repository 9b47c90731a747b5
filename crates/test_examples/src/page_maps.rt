//! Random calls on a map in pages and on the library's tree, side by side.

use occ_pages::PageMap;
use std::alloc::{AllocError, Allocator};
use std::collections::BTreeMap;
use std::io;

/// How many calls there are of each kind of keys.
const STEPS: u64 = 100_000;

/// Prints how many answers differ on mixed keys, and on keys that mostly come in order.
pub(crate) fn tell_page_maps(rt: &HostRuntime) -> io::Result<()> {
    let mixed = differ(rt.alloc(), 3_000, false)?;
    let rising = differ(rt.alloc(), 100_000, true)?;
    println!(rt;
        "page maps: {mixed} of {STEPS} calls differ on mixed keys, {rising} on rising ones"
    )
}

/// How many answers differ; in every second 5,000 calls rows are rather taken out than put.
fn differ<A: Allocator + Copy>(alloc: A, keys: u64, rising: bool) -> Result<u64, AllocError> {
    let mut dice = Dice { state: 1 };
    let mut pair = Pair::new(alloc)?;
    for step in 0..STEPS {
        let key = if rising && dice.below(3) > 0 {
            step
        } else {
            dice.below(keys)
        };
        let shrinks = (step / 5_000) % 2 == 1;
        pair.call(&mut dice, key, step, shrinks, keys)?;
    }
    pair.compare_range(None, None);
    Ok(pair.wrong)
}

/// Numbers that look like chance and are the same in each run.
#[derive(Clone, Copy)]
struct Dice {
    state: u64,
}

impl Dice {
    /// A number below this one; 0 where there is none.
    fn below(&mut self, limit: u64) -> u64 {
        // the factor and the summand of Knuth's MMIX
        self.state = self
            .state
            .wrapping_mul(6_364_136_223_846_793_005)
            .wrapping_add(1_442_695_040_888_963_407);
        match limit {
            0 => 0,
            limit => (self.state >> 33) % limit,
        }
    }

    /// An end of a range, which may be missing.
    fn end(&mut self, keys: u64) -> Option<u64> {
        match self.below(8) {
            0 => None,
            1 => Some(u64::MAX),
            _ => Some(self.below(keys.saturating_add(10))),
        }
    }
}

/// Both maps, and how many answers differed.
#[derive(Drop)]
struct Pair<A: Allocator> {
    pages: PageMap<u64, A>,
    tree: BTreeMap<u64, u64, A>,
    wrong: u64,
}

impl<A: Allocator + Copy> Pair<A> {
    fn new(alloc: A) -> Result<Pair<A>, AllocError> {
        Ok(Pair {
            pages: PageMap::new(alloc)?,
            tree: BTreeMap::new(alloc),
            wrong: 0,
        })
    }

    fn note(&mut self, same: bool) {
        if !same {
            self.wrong = self.wrong.saturating_add(1);
        }
    }

    /// One call on both.
    fn call(
        &mut self,
        dice: &mut Dice,
        key: u64,
        row: u64,
        shrinks: bool,
        keys: u64,
    ) -> Result<(), AllocError> {
        match dice.below(4_000) {
            0 => self.compare_range(dice.end(keys), dice.end(keys)),
            1..=1_599 if !shrinks => self.insert(key, row)?,
            1..=1_999 => self.remove(key),
            2_000..=2_399 => self.replace(key, row)?,
            _ => self.get(key),
        }
        let same = self.pages.len() == self.tree.len();
        self.note(same);
        Ok(())
    }

    fn insert(&mut self, key: u64, row: u64) -> Result<(), AllocError> {
        let Ok(was) = self.pages.insert(key, row) else {
            return Err(AllocError);
        };
        let stood = self.tree.insert(key, row)?;
        self.note(was == stood);
        Ok(())
    }

    fn remove(&mut self, key: u64) {
        let same = self.pages.remove(key) == self.tree.remove(&key);
        self.note(same);
    }

    fn replace(&mut self, key: u64, row: u64) -> Result<(), AllocError> {
        let was = self.pages.replace(key, row);
        let stood = self.tree.get(&key).copied();
        self.note(was == stood);
        if stood.is_some() {
            let _stood = self.tree.insert(key, row)?;
        }
        Ok(())
    }

    fn get(&mut self, key: u64) {
        let same = self.pages.get(key) == self.tree.get(&key);
        self.note(same);
    }

    /// Compares the rows of a range, and how many they are.
    fn compare_range(&mut self, lower: Option<u64>, upper: Option<u64>) {
        let mut count = 0usize;
        let mut same = true;
        let mut range = self.pages.range(lower, upper);
        for (key, row) in &self.tree {
            if lower.unwrap_or(0) <= *key && upper.is_none_or(|upper| *key < upper) {
                same = same && range.next() == Some((*key, row));
                count = count.saturating_add(1);
            }
        }
        same = same && range.next().is_none() && count == self.pages.count(lower, upper);
        self.note(same);
    }
}
