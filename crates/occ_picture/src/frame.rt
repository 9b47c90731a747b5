//! What stands around the rows of a compact picture: its style, its symbols, its legend and its lanes.

use crate::bands::Bands;
use crate::compact::{COUNTERS, Compact, PLACES};
use crate::places::{RIGHT, WIDTH};
use crate::sheets::Sheet;
use occ_book::BookView;
use std::alloc::{AllocError, Allocator};

/// Where names stand, from the left.
const NAMES: u64 = 6;

const TEXTS: &str = "<style>
text{font:10px sans-serif;fill:#333}.axis,.number{font-size:9px;text-anchor:middle}.number{text-anchor:end}.paper{fill:#fff}.lane{fill:#f3f3f3}
";

pub(crate) const COLOURS: &str =
    "path{fill:none;stroke-width:1.5}.end{stroke-width:6}.open .end,.writing .end{stroke-dasharray:6 3}.open .end{stroke-width:2}
.done{stroke:#0072b2;color:#0072b2}.conflict,.met,.perhaps{stroke:#c74f00;color:#c74f00}.tooold{stroke:#a3357a;color:#a3357a}
.writing{stroke:#007a5a;color:#007a5a}.open{stroke:#666;color:#666}.folded,.closed{stroke:#666;color:#666}
.full{fill:currentColor}.hollow{fill:#fff}.folded{fill:none;stroke-dasharray:2 2}text{stroke:none}
.met,.perhaps{stroke-width:1;opacity:.8;marker-end:url(#at)}.perhaps{stroke-dasharray:3 3}
@media(prefers-color-scheme:dark){text{fill:#ddd}.paper,.hollow{fill:#161616}.lane{fill:#222}
.done{stroke:#56b4e9;color:#56b4e9}.conflict,.met,.perhaps{stroke:#ff9248;color:#ff9248}.tooold{stroke:#e78bc4;color:#e78bc4}
.writing{stroke:#2fc79b;color:#2fc79b}.open,.folded,.closed{stroke:#aaa;color:#aaa}}
</style>
";

pub(crate) const SYMBOLS: &str = "<defs>
<path id=\"start\" d=\"M0-4V4\"/>
<circle id=\"done\" class=\"full\" r=\"4\"/>
<path id=\"conflict\" d=\"M-5-5L5 5M-5 5L5-5\" stroke-width=\"2.5\"/>
<path id=\"tooold\" class=\"hollow\" d=\"M0-6L6 5H-6Z\"/>
<path id=\"writing\" class=\"full\" d=\"M-4-6L7 0L-4 6Z\"/>
<rect id=\"open\" class=\"hollow\" x=\"-4\" y=\"-4\" width=\"8\" height=\"8\"/>
<path id=\"closed\" class=\"closed\" d=\"M0-10V10M5-10V10\"/>
<marker id=\"at\" viewBox=\"-6 -3 6 6\" markerWidth=\"6\" markerHeight=\"6\" orient=\"auto\"><path class=\"conflict\" d=\"M-6-3L0 0L-6 3\"/></marker>
</defs>
";

const LEGEND: &str = "<rect class=\"paper\" width=\"100%\" height=\"100%\"/>
<g transform=\"translate(12 20)\">
<g class=\"done\"><use href=\"#start\" x=\"0\" y=\"0\"/><path class=\"read\" d=\"M0 0H24\"/><path class=\"end\" d=\"M24 0H44\"/><use href=\"#done\" x=\"44\" y=\"0\"/><text x=\"54\" y=\"4\">committed: start, reads, entry, writes, finish</text></g>
<g class=\"conflict\"><use href=\"#start\" x=\"310\" y=\"0\"/><path class=\"read\" d=\"M310 0H334\"/><use href=\"#conflict\" x=\"334\" y=\"0\"/><text x=\"346\" y=\"4\">backed up: conflict</text></g>
<g class=\"tooold\"><use href=\"#start\" x=\"470\" y=\"0\"/><path class=\"read\" d=\"M470 0H494\"/><use href=\"#tooold\" x=\"494\" y=\"0\"/><text x=\"506\" y=\"4\">backed up: too old</text></g>
<g class=\"writing\"><path class=\"end\" d=\"M626 0H650\"/><use href=\"#writing\" x=\"650\" y=\"0\"/><text x=\"662\" y=\"4\">committed, writing</text></g>
<g class=\"open\"><path class=\"end\" d=\"M786 0H810\"/><use href=\"#open\" x=\"810\" y=\"0\"/><text x=\"822\" y=\"4\">open</text></g>
<use href=\"#closed\" x=\"876\" y=\"0\"/><text x=\"890\" y=\"4\">session closed</text>
<rect class=\"folded\" x=\"992\" y=\"-9\" width=\"44\" height=\"18\"/><text x=\"1046\" y=\"4\">folded before the log: these numbers</text>
<path class=\"met\" d=\"M0 18H44\"/><text x=\"54\" y=\"22\">met this opponent: where it finished, or was active at the entry</text>
<path class=\"perhaps\" d=\"M470 18H514\"/><text x=\"524\" y=\"22\">would have met this one, which may have been active until it was backed up</text>
<text y=\"42\">Time goes to the right, and on in the band below: each entry and each finish has a column, in the order of the log. A start stands at the finish that it saw last; when it came after that is not told.</text>
<text y=\"56\">A band has lanes of the sessions that did something there. Numbers in the lanes are those of the transactions in their sessions. A line to an opponent that ended in a band above goes to the left of its lane.</text>
</g>
";

impl<A: Allocator> Sheet<A> {
    /// Appends all that stands behind the rows: the size, the style, the symbols, the legend, and the lanes with their names.
    pub(crate) fn draw_frame<O>(
        &mut self,
        book: &BookView<'_, A, O>,
        compact: &Compact<'_, A, O>,
    ) -> Result<(), AllocError> {
        let bands = &compact.bands;
        self.draw_size(WIDTH, bands.bottom())?;
        self.put("<title>A history of ", book.log.len() as u64)?;
        self.put(" transactions in ", bands.sessions())?;
        self.say(" sessions</title>\n")?;
        self.say(TEXTS)?;
        self.say(COLOURS)?;
        self.say(SYMBOLS)?;
        self.say(LEGEND)?;
        let all = compact.drawn.lanes.sessions().len() as u64;
        self.draw_left_out(
            book.base.place() as u64,
            all.saturating_sub(bands.sessions()),
        )?;
        self.draw_axes(bands)?;
        for (band, session) in bands.lanes() {
            self.draw_lane(book, bands, *band, *session)?;
        }
        Ok(())
    }

    // Appends what a book tells of besides the log: how many rows were folded, and how many sessions have no row.
    fn draw_left_out(&mut self, place: u64, sessions: u64) -> Result<(), AllocError> {
        if place > 0 {
            self.put("<text x=\"12\" y=\"94\">folded: rows before place ", place)?;
            self.say("</text>\n")?;
        }
        if sessions > 0 {
            self.put(
                "<text x=\"260\" y=\"94\">further sessions, with no transaction in the log: ",
                sessions,
            )?;
            self.say("</text>\n")?;
        }
        Ok(())
    }

    // Appends what the numbers over each band are.
    fn draw_axes(&mut self, bands: &Bands<A>) -> Result<(), AllocError> {
        for band in 0..bands.count() {
            let top = bands.top(band);
            self.draw_words("words", b"place", (NAMES, top.saturating_add(PLACES)))?;
            self.draw_words("words", b"counter", (NAMES, top.saturating_add(COUNTERS)))?;
        }
        Ok(())
    }

    // Appends the ground of a lane and its name, what was folded of its session at the first one, and its closing mark at the last one.
    fn draw_lane<O>(
        &mut self,
        book: &BookView<'_, A, O>,
        bands: &Bands<A>,
        band: u64,
        session: usize,
    ) -> Result<(), AllocError> {
        let y = bands.y(band, session, 0);
        if bands.is_dark(band, session) {
            self.draw_ground(y)?;
        }
        self.draw_name(y, session)?;
        match book.base.last(session) {
            Some(number) if bands.is_first(session, band) => self.draw_first(y, number)?,
            _ => {}
        }
        match book.marks.get(session) {
            Some(_) if bands.is_last(session, band) => {
                self.draw_symbol("closed", (RIGHT + 16, y.saturating_add(36)))
            }
            _ => Ok(()),
        }
    }

    fn draw_ground(&mut self, y: u64) -> Result<(), AllocError> {
        self.put("<rect class=\"lane\" y=\"", y)?;
        self.say("\" width=\"100%\" height=\"54\"/>\n")
    }

    fn draw_name(&mut self, y: u64, session: usize) -> Result<(), AllocError> {
        self.put("<text x=\"6\" y=\"", y.saturating_add(13))?;
        self.put("\">session ", session as u64)?;
        self.say("</text>\n")
    }

    fn draw_first(&mut self, y: u64, number: u64) -> Result<(), AllocError> {
        self.put("<rect class=\"folded\" x=\"6\" y=\"", y.saturating_add(24))?;
        self.say("\" width=\"90\" height=\"18\"/>\n")?;
        self.put("<text x=\"10\" y=\"", y.saturating_add(37))?;
        self.put("\">1 to ", number)?;
        self.say("</text>\n")
    }
}
