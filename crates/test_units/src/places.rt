//! Places of keys in a table, the rows there, and ranges of them.

/// How many places a table has. Their keys come in order.
pub(crate) const PLACES: usize = 12;

/// The number in the row at each place, where there is one.
#[derive(Clone, Copy, PartialEq, Eq)]
pub(crate) struct Rows([Option<i64>; PLACES]);

/// Some places.
#[derive(Clone, Copy)]
pub(crate) struct Places([bool; PLACES]);

/// The places from the first one on and below the second.
pub(crate) type Span = (usize, usize);

/// Which part of a range is asked for.
#[derive(Clone, Copy, PartialEq, Eq)]
pub(crate) enum Part {
    All,
    First,
    Last,
}

/// A question for a range, between the places of its ends, or for a page of it.
#[derive(Clone, Copy)]
pub(crate) struct Asked {
    pub(crate) part: Part,
    pub(crate) lower: Option<usize>,
    pub(crate) upper: Option<usize>,
    pub(crate) most: usize,
}

impl Places {
    pub(crate) fn none() -> Places {
        Places([false; PLACES])
    }

    pub(crate) fn add(&mut self, place: usize) {
        if let Some(held) = self.0.get_mut(place) {
            *held = true;
        }
    }

    pub(crate) fn add_all(&mut self, (lower, upper): Span) {
        for place in lower..upper {
            self.add(place);
        }
    }

    pub(crate) fn has(&self, place: usize) -> bool {
        self.0.get(place) == Some(&true)
    }

    /// Whether both have a place.
    pub(crate) fn meets(&self, other: &Places) -> bool {
        for place in 0..PLACES {
            if self.has(place) && other.has(place) {
                return true;
            }
        }
        false
    }
}

impl Rows {
    pub(crate) fn none() -> Rows {
        Rows([None; PLACES])
    }

    pub(crate) fn at(&self, place: usize) -> Option<i64> {
        *self.0.get(place)?
    }

    pub(crate) fn set(&mut self, place: usize, row: Option<i64>) {
        if let Some(held) = self.0.get_mut(place) {
            *held = row;
        }
    }

    /// Those between two places, and no others.
    pub(crate) fn within(&self, (lower, upper): Span) -> Rows {
        let mut rows = Rows::none();
        for place in lower..upper {
            rows.set(place, self.at(place));
        }
        rows
    }

    /// How many rows there are between two places.
    fn count(&self, (lower, upper): Span) -> usize {
        let mut count = 0usize;
        for place in lower..upper {
            count = count.saturating_add(usize::from(self.at(place).is_some()));
        }
        count
    }

    /// The place of the row with so many before it there.
    fn behind(&self, (lower, upper): Span, before: usize) -> Option<usize> {
        for place in lower..upper {
            if self.at(place).is_some() && self.count((lower, place)) == before {
                return Some(place);
            }
        }
        None
    }

    /// The place of the rest of a page of these rows.
    pub(crate) fn rest(&self, asked: Asked) -> Option<usize> {
        let (span, most) = (asked.span(), asked.most.max(1));
        match asked.part {
            Part::All => None,
            Part::First => self.behind(span, most),
            Part::Last => match self.count(span).saturating_sub(most) {
                0 => None,
                before => self.behind(span, before),
            },
        }
    }

    /// The place of the next row there behind a place, and else the end.
    pub(crate) fn next(&self, place: usize, upper: usize) -> usize {
        self.behind((place.saturating_add(1), upper), 0)
            .unwrap_or(upper)
    }

    /// The place of the row before a place, where there is one, and else the beginning.
    pub(crate) fn before(&self, lower: usize, place: usize) -> usize {
        match self.count((lower, place)) {
            0 => lower,
            count => self
                .behind((lower, place), count.saturating_sub(1))
                .unwrap_or(lower),
        }
    }
}

impl Asked {
    /// The places between its ends.
    pub(crate) fn span(self) -> Span {
        (self.lower.unwrap_or(0), self.upper.unwrap_or(PLACES))
    }

    /// Those on the page's side of its rest.
    pub(crate) fn shown(self, rest: Option<usize>) -> Span {
        let (lower, upper) = self.span();
        match rest {
            None => (lower, upper),
            Some(rest) if self.part == Part::Last => (rest, upper),
            Some(rest) => (lower, rest),
        }
    }
}
