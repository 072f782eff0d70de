// The answer of `minimize`: the check of the events that are left, and the file with them.
#![tactic(auto)]

ghost use Rattle.std.specs.Prelude.{◌≡◌, ◌*◌, ◌≤◌, length};
ghost use Rattle.engine_entry.specs.Prepared.{prepared_of};
ghost use Rattle.checker_entry.specs.Promises.{Whole};
ghost use Rattle.reduce_result.specs.Result.{no_reduction};
ghost use Rattle.reduce_result.specs.Last.{Ready, Finished};

use checker_result::{CheckResult, Shared};
use engine_entry::Base;
use layout::{EventWords, SimulationReasons};
use model_index::Index;
use reduce::Reduced;

// `refused` is 0 or the refusal's number; then the rest is 0. `invariant` is the place of the identifier among the texts,
// the first `events` events in `words` are left, four words each, and so many bytes are `written` to the output.
#[derive(Clone, Copy)]
pub struct Minimized {
    pub refused: u32,
    pub invariant: u32,
    pub original_events: usize,
    pub attempts: u32,
    pub deletion_minimal: bool,
    pub events: usize,
    pub words: EventWords,
    pub written: usize,
    pub check: CheckResult,
}

pub fn refused(number: u32) -> Minimized
    ensures { result ≡ no_reduction number }
{
    let check = checker_result::refused(number);
    Minimized {
        refused: number,
        invariant: 0,
        original_events: 0,
        attempts: 0,
        deletion_minimal: false,
        events: 0,
        words: [0u32; layout::EVENT_WORDS],
        written: 0,
        check,
    }
}

// The check of the first n of the events that stand in four words each. `notes` holds the reasons of the notes.
pub fn check_of(
    file: &[u8],
    index: Index,
    b: Base,
    notes: &SimulationReasons,
    words: &[u32],
    n: usize,
    queue: &mut [u32],
    records: &mut [u32],
    runs: &mut [u32],
) -> CheckResult
    requires { n * 4 ≤ length words.now }
    ensures { Whole file.now index.invariants.starts index.invariants.count
        (prepared_of b.table b.cells b.count notes.now) words.now n result queue.old queue.new records.old
        records.new runs.old runs.new }
{
    let table = b.table;
    let cells = b.cells;
    let invariants = index.invariants;
    let starts = invariants.starts;
    let shared = Shared {
        cells,
        notes: b.count,
        invariants: invariants.count,
    };
    let mut reasons = *notes;
    checker_entry::check_whole(
        file,
        &table,
        &starts,
        shared,
        words,
        n,
        queue,
        records,
        runs,
        &mut reasons,
    )
}

// The check of the events that are left, and the file with them.
pub fn last_check(
    file: &[u8],
    index: Index,
    b: Base,
    notes: &SimulationReasons,
    target: u64,
    original_events: usize,
    r: Reduced,
    queue: &mut [u32],
    records: &mut [u32],
    runs: &mut [u32],
    output: &mut [u8],
) -> Minimized
    requires { Ready file.now r output.old }
    ensures { Finished file.now index (prepared_of b.table b.cells b.count notes.now)
        target original_events r result
        queue.old queue.new records.old records.new runs.old runs.new output.old output.new }
{
    let words = r.words;
    let check = check_of(file, index, b, notes, &words, r.count, queue, records, runs);
    let s = check.simulation;
    if s.refused != 0 {
        return refused(s.refused);
    }
    let span = model_rewrite::events_in(file);
    let written = model_rewrite::rewrite(file, span, &words, r.count, output);
    let invariant = bounds::place_of(target);
    let deletion_minimal = r.reached == r.count;
    Minimized {
        refused: 0,
        invariant,
        original_events,
        attempts: r.attempts,
        deletion_minimal,
        events: r.count,
        words,
        written,
        check,
    }
}
