// The notes of each automation as findings: unsupported.
#![tactic(auto)]

ghost use Rattle.layout.specs.Sizes.{simulation_reasons};
ghost use Rattle.std.specs.Prelude.{◌≡◌, List, ℕ, ◌≤◌, ◌<◌, ◌+◌, ◌*◌};
ghost use Rattle.lint_areas.specs.Areas.{board, pushes};
ghost use Rattle.lint_notes.specs.Notes.{note_m, note_items, RowOf, NotesAt, AllNotes};

use layout::{SimulationReasons, Table};
use lint_areas::Out;
use model_parts::Section;

// ---- where the notes of an automation stand

// Words of the first automation, from the start of the table.
const FIRST_ID: usize = layout::AUTOMATIONS + layout::ID;

const FIRST_TRIGGERS: usize = layout::AUTOMATIONS + layout::TRIGGERS;

const FIRST_CONDITIONS: usize = layout::AUTOMATIONS + layout::CONDITIONS;

const FIRST_ACTIONS: usize = layout::AUTOMATIONS + layout::ACTIONS;

const FIRST_NOTES: usize = layout::AUTOMATIONS + layout::NOTES;

// The first row of a table is the automation's: its identifier, and where its triggers, conditions, actions and notes stand.
fn put_row(s: &[u8], at: usize, source: usize, words: &mut Table)
    ensures { RowOf s.now at source words.new }
{
    let conditions = lint_walk::conditions_at(s, at);
    *words = [0u32; layout::TABLE];
    words[FIRST_ID] = lint_walk::place_at(s, at);
    words[FIRST_TRIGGERS] = engine_fields::capped(lint_walk::triggers_at(s, at));
    words[FIRST_CONDITIONS] = engine_fields::capped(conditions);
    words[FIRST_ACTIONS] = engine_fields::capped(lint_walk::predicates_end(s, conditions));
    words[FIRST_NOTES] = engine_fields::capped(lint_walk::past(s, source, 8));
}

// ---- findings

// The words of a finding about the automation of a set, with the j-th reason.
fn note_words(set: u32, line: u32, column: u32, reasons: &SimulationReasons, j: usize) -> [u32; 14]
    requires { j < simulation_reasons }
    ensures { result ≡ note_m set line column reasons.now j }
{
    let k = 5 * j;
    [
        9,
        2,
        5,
        0,
        set,
        line,
        column,
        0,
        0,
        reasons[k],
        reasons[k + 1],
        reasons[k + 2],
        reasons[k + 3],
        reasons[k + 4],
    ]
}

// A finding for each reason.
fn note_findings(
    set: u32,
    line: u32,
    column: u32,
    reasons: &SimulationReasons,
    count: usize,
    findings: &mut [u32],
    o: Out,
) -> Out
    requires { count ≤ simulation_reasons }
    ensures { (k : List ℕ) → board findings.new k result ≡ pushes (note_items set line column reasons.now count)
        (board findings.old k o) }
{
    let mut out = o;
    for j in 0..count {
        out = lint_areas::push_finding(findings, out, note_words(set, line, column, reasons, j));
    }
    out
}

// The notes of the i-th automation, which stands at a position; the row is lent.
fn rule_notes(s: &[u8], at: usize, i: usize, words: &mut Table, findings: &mut [u32], o: Out) -> Out
    requires { i < 32 }
    ensures { (k : List ℕ) → NotesAt s.now at i (board findings.old k o) (board findings.new k result) }
{
    let source = lint_walk::source_at(s, at);
    put_row(s, at, source, words);
    let mut reasons = [0u32; layout::SIMULATION_REASON_WORDS];
    let count = engine_unsupported::rule_notes(s, words, &mut reasons, 0, 0).min(
        layout::SIMULATION_REASONS,
    );
    let line = lint_walk::number_at(s, source);
    let column = lint_walk::number_at(s, lint_walk::past(s, source, 4));
    note_findings(
        lint_reach::with(0, i),
        line,
        column,
        &reasons,
        count,
        findings,
        o,
    )
}

// The notes of all automations.
pub fn notes(s: &[u8], rules: Section, findings: &mut [u32], o: Out) -> Out
    requires { rules.count ≤ 32 }
    ensures { (k : List ℕ) → AllNotes s.now rules rules.count 0 (board findings.old k o) (board findings.new k result) }
{
    let count = rules.count as usize;
    let mut words = [0u32; layout::TABLE];
    let mut out = o;
    for i in 0..count {
        let at = rules.starts[i];
        out = rule_notes(s, at, i, &mut words, findings, out);
    }
    out
}
