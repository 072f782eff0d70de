// The reduction of a violating model's events: each is left out in turn, for good if the violation stays.
#![tactic(auto)]

ghost use Rattle.layout.specs.Sizes.{event_word_count};
ghost use Rattle.std.specs.Prelude.{◌≡◌, ◌*◌, ◌≤◌, ◌<◌, length};
ghost use Rattle.engine_entry.specs.Prepared.{prepared_of};
ghost use Rattle.reduce.specs.Promises.{Without, among, violates_m, GoesOn, Open, Tried, Attempted, Begun, Reduces};

use checker_result::{Judgement, Shared};
use engine_entry::Base;
use engine_inputs::Events;
use layout::{
    EventWords, IncompleteReasons, Positions, SimulationReasons, Table, VerdictReasons, Violations,
};
use model_index::Index;

// `refused` is 0, or 41 to 43 where a check was refused. The first `count` events in `words`, four words each, are left;
// so many candidates were checked, and the place reached.
#[derive(Clone, Copy)]
pub struct Reduced {
    pub refused: u32,
    pub count: usize,
    pub words: EventWords,
    pub attempts: u32,
    pub reached: usize,
}

// The first `count` events without the one at a place.
fn without(words: EventWords, count: usize, place: usize) -> Events
    requires { (place < count) × ((count ≤ 100) × (length words ≡ event_word_count)) }
    ensures { Without words count place result.words }
{
    let mut left = words;
    areas::take_out(&mut left, place * 4, 4, count * 4);
    Events { words: left }
}

// One of the first n violations, eight numbers each, is of the target.
fn named(violated: &Violations, n: usize, target: u64) -> bool
    requires { n ≤ 32 }
    ensures { result ≡ among violated.now n target }
{
    for k in 0..n {
        if violated[k * 8] == target {
            return true;
        }
    }
    false
}

// The check is a violation, of the target too.
fn violates(j: Judgement, violated: &Violations, target: u64) -> bool
    ensures { result ≡ violates_m j.status j.violations violated.now target }
{
    let status = j.status;
    if checker_result::is_violation(status) {
        let n = j.violations.min(32);
        return named(violated, n, target);
    }
    false
}

// There is an event to try, and an attempt left.
fn goes_on(r: Reduced) -> bool
    ensures { GoesOn r result }
{
    if r.refused != 0 {
        return false;
    }
    if 199 < r.attempts {
        return false;
    }
    r.reached < r.count
}

// After an attempt with the events `w`, which was refused with a number, or in which the violation stays or not.
fn tried(r: Reduced, w: Events, number: u32, stays: bool) -> Reduced
    requires { Open r }
    ensures { Tried r w.words number stays result }
{
    let words = r.words;
    let attempts = r.attempts + 1;
    if number != 0 {
        return Reduced {
            refused: number,
            count: r.count,
            words,
            attempts,
            reached: r.reached,
        };
    }
    if stays {
        let left = w.words;
        return Reduced {
            refused: 0,
            count: r.count - 1,
            words: left,
            attempts,
            reached: 0,
        };
    }
    Reduced {
        refused: 0,
        count: r.count,
        words,
        attempts,
        reached: r.reached + 1,
    }
}

// The check of the events without the one at the place reached. `notes` holds the reasons of the notes.
fn attempt(
    file: &[u8],
    table: &Table,
    starts: &Positions,
    notes: &SimulationReasons,
    shared: Shared,
    target: u64,
    r: Reduced,
    queue: &mut [u32],
    records: &mut [u32],
    runs: &mut [u32],
    reasons: &mut SimulationReasons,
    violated: &mut Violations,
    unknowns: &mut VerdictReasons,
    incompletes: &mut IncompleteReasons,
) -> Reduced
    requires { Open r }
    ensures { Attempted file.now starts.now shared.invariants
        (prepared_of table.now shared.cells shared.notes notes.now) target r result (length queue.old)
        (length records.old) (length runs.old) }
{
    let words = r.words;
    let n = r.count - 1;
    let w = without(words, r.count, r.reached);
    let left = w.words;
    let c = checker_retry::check_case(
        file,
        table,
        starts,
        notes,
        shared,
        &left,
        n,
        queue,
        records,
        runs,
        reasons,
        violated,
        unknowns,
        incompletes,
    );
    let s = c.simulation;
    let stays = violates(c, violated, target);
    tried(r, w, s.refused, stays)
}

// The first n of the events that stand in four words each, reduced; the violation of the target stays.
pub fn reduce_events(
    file: &[u8],
    index: Index,
    b: Base,
    notes: &SimulationReasons,
    target: u64,
    events: Events,
    n: usize,
    queue: &mut [u32],
    records: &mut [u32],
    runs: &mut [u32],
) -> Reduced
    requires { Begun events n }
    ensures { Reduces file.now index (prepared_of b.table b.cells b.count notes.now) target events n result
        (length queue.old) (length records.old) (length runs.old) }
{
    let table = b.table;
    let invariants = index.invariants;
    let starts = invariants.starts;
    let cells = b.cells;
    let shared = Shared {
        cells,
        notes: b.count,
        invariants: invariants.count,
    };
    let mut reasons = [0u32; layout::SIMULATION_REASON_WORDS];
    let mut violated = [0u64; layout::VIOLATIONS];
    let mut unknowns = [0u32; layout::VERDICT_REASON_WORDS];
    let mut incompletes = [0u32; layout::INCOMPLETE_REASON_WORDS];
    let words = events.words;
    let mut r = Reduced {
        refused: 0,
        count: n,
        words,
        attempts: 0,
        reached: 0,
    };
    let mut more = goes_on(r);
    while more {
        r = attempt(
            file,
            &table,
            &starts,
            notes,
            shared,
            target,
            r,
            queue,
            records,
            runs,
            &mut reasons,
            &mut violated,
            &mut unknowns,
            &mut incompletes,
        );
        more = goes_on(r);
    }
    r
}
