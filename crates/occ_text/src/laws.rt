//! The laws of schedules. Each function computes nothing: its contract is the law, and the check proves it.

ghost use Rattle.std.specs.Prelude.{◌≡◌, ℕ, List, Some};
ghost use Rattle.occ_text.specs.Headers.{Header};
ghost use Rattle.occ_text.specs.Languages.{LeadOn, start, Stopped};
ghost use Rattle.occ_text.specs.Line.{lines_text};
ghost use Rattle.occ_text.specs.ScheduleLines.{Place, Version, Steps as StepsAt, ScheduleFits, schedule_lines, schedules};
ghost use Rattle.occ_text.specs.Steps.{Step};

/// Lines lead from the beginning of a text to one place at most, so no two schedules have the same text.
pub fn lines_lead_to_one_place()
    ensures { (lines : List (List ℕ)) → (place other : Place) → LeadOn schedules Version lines place → LeadOn schedules Version lines other → place ≡ other }
{}

/// The lines of a schedule that fits lead from the beginning to where a text may end. What lines that lead there tell is one that fits.
pub fn the_lines_of_a_schedule_lead_to_its_end()
    ensures whole { (header : Header) → (steps : List Step) → ScheduleFits header steps → LeadOn schedules Version (schedule_lines header steps) (StepsAt header steps) }
    ensures fits { (lines : List (List ℕ)) → (header : Header) → (steps : List Step) → LeadOn schedules Version lines (StepsAt header steps) → ScheduleFits header steps }
{}

/// No text of a schedule that fits is malformed, at any line.
pub fn no_text_of_a_schedule_is_malformed()
    ensures { (header : Header) → (steps : List Step) → ScheduleFits header steps → (number : ℕ) → Stopped schedules Version (start (Some (lines_text (schedule_lines header steps)))) number → ⊥ }
{}

/// A text is malformed at one line at most: the first that can't stand where it stands.
pub fn a_text_is_malformed_at_one_line()
    ensures { (text : List ℕ) → (number other : ℕ) → Stopped schedules Version (start (Some text)) number → Stopped schedules Version (start (Some text)) other → number ≡ other }
{}
