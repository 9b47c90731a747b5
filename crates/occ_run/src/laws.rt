//! The laws of workloads. Each function computes nothing: its contract is the law, and the check proves it.

ghost use Rattle.std.specs.Prelude.{◌≡◌, ℕ, List, Some};
ghost use Rattle.occ_types.specs.Schema.{Schema};
ghost use Rattle.occ_text.specs.Languages.{LeadOn, point, Stopped};
ghost use Rattle.occ_text.specs.Line.{lines_text};
ghost use Rattle.occ_run.specs.declared.workloads.Settings as code;
ghost use Rattle.occ_run.specs.TransactionLines.{Transaction};
ghost use Rattle.occ_run.specs.Workloads.{Place, Version, Transactions, WorkloadFits, workload_lines, loads};

/// Lines lead from the beginning of a text to one place at most, so no two workloads have the same text.
pub fn lines_lead_to_one_place()
    ensures { (lines : List (List ℕ)) → (place other : Place) → LeadOn loads Version lines place → LeadOn loads Version lines other → place ≡ other }
{}

/// The lines of a workload that fits lead from the beginning to where a text may end. What lines that lead there tell is one that fits.
pub fn the_lines_of_a_workload_lead_to_its_end()
    ensures whole { (settings : code.Settings) → (schema : Schema) → (transactions : List Transaction) → WorkloadFits settings schema transactions
        → LeadOn loads Version (workload_lines settings schema transactions) (Transactions settings schema transactions) }
    ensures fits { (lines : List (List ℕ)) → (settings : code.Settings) → (schema : Schema) → (transactions : List Transaction)
        → LeadOn loads Version lines (Transactions settings schema transactions) → WorkloadFits settings schema transactions }
{}

/// No text of a workload that fits is malformed, at any line.
pub fn no_text_of_a_workload_is_malformed()
    ensures { (settings : code.Settings) → (schema : Schema) → (transactions : List Transaction) → WorkloadFits settings schema transactions
        → (number : ℕ) → Stopped loads Version (point (Some (lines_text (workload_lines settings schema transactions))) 0) number → ⊥ }
{}

/// A text is malformed at one line at most: the first that can't stand where it stands.
pub fn a_text_is_malformed_at_one_line()
    ensures { (text : List ℕ) → (number other : ℕ) → Stopped loads Version (point (Some text) 0) number → Stopped loads Version (point (Some text) 0) other → number ≡ other }
{}
