// The entry `check`: the verdict on a model's simulation.
#![tactic(auto)]

ghost use Rattle.std.specs.Prelude.{◌*◌, ◌≤◌, length};
ghost use Rattle.checker_result.specs.Result.{result_of};
ghost use Rattle.checker_entry.specs.Contract.{Checks};
ghost use Rattle.checker_entry.specs.Promises.{Checked, Whole, RunsAs};
ghost use Rattle.engine_entry.specs.Contract.{lent};
ghost use Rattle.engine_entry.specs.Prepared.{prepared_of};

use checker_result::{CheckResult, Judgement, Shared, Status};
use layout::{IncompleteReasons, Positions, SimulationReasons, Table, VerdictReasons, Violations};
use model_index::Index;

// ---- a check, its lists in lent arrays

// The check of a model from its own values, with the first n of the events that stand in four words each. `reasons` holds
// the reasons of the notes, and then those of the simulation.
pub fn check_events(
    file: &[u8],
    table: &Table,
    starts: &Positions,
    shared: Shared,
    events: &[u32],
    n: usize,
    queue: &mut [u32],
    records: &mut [u32],
    runs: &mut [u32],
    reasons: &mut SimulationReasons,
    violated: &mut Violations,
    unknowns: &mut VerdictReasons,
    incompletes: &mut IncompleteReasons,
) -> Judgement
    requires { n * 4 ≤ length events.now }
    ensures { Checked file.now starts.now shared.invariants
        (prepared_of table.now shared.cells shared.notes reasons.old) events.now n
        (result_of result violated.new unknowns.new incompletes.new reasons.new) queue.old queue.new records.old
        records.new runs.old runs.new }
{
    let cells = shared.cells;
    let notes = shared.notes;
    let s = engine_entry::run_events(
        file, table, cells, notes, events, n, queue, records, runs, reasons,
    );
    if s.refused != 0 {
        return Judgement {
            status: Status::Refused(s.refused),
            violations: 0,
            unknown: 0,
            incomplete: 0,
            simulation: s,
        };
    }
    checker_result::verdict(
        file,
        table,
        starts,
        shared,
        records,
        s,
        reasons,
        violated,
        unknowns,
        incompletes,
    )
}

// ---- the answer in lent arrays

// The check with the first n events, and its answer.
pub fn check_settled(
    file: &[u8],
    table: &Table,
    starts: &Positions,
    shared: Shared,
    events: &[u32],
    n: usize,
    queue: &mut [u32],
    records: &mut [u32],
    runs: &mut [u32],
    reasons: &mut SimulationReasons,
    violated: &mut Violations,
    unknowns: &mut VerdictReasons,
    incompletes: &mut IncompleteReasons,
) -> Judgement
    requires { n * 4 ≤ length events.now }
    ensures { Whole file.now starts.now shared.invariants
        (prepared_of table.now shared.cells shared.notes reasons.old) events.now n
        (result_of result violated.new unknowns.new incompletes.new reasons.new) queue.old queue.new records.old
        records.new runs.old runs.new }
{
    let j = check_events(
        file,
        table,
        starts,
        shared,
        events,
        n,
        queue,
        records,
        runs,
        reasons,
        violated,
        unknowns,
        incompletes,
    );
    checker_result::settled(j, reasons, violated, unknowns, incompletes)
}

// The check of an accepted model with its own values and events.
fn run(
    file: &[u8],
    index: Index,
    queue: &mut [u32],
    records: &mut [u32],
    runs: &mut [u32],
    reasons: &mut SimulationReasons,
    violated: &mut Violations,
    unknowns: &mut VerdictReasons,
    incompletes: &mut IncompleteReasons,
) -> Judgement
    ensures { RunsAs file.now index (result_of result violated.new unknowns.new incompletes.new reasons.new)
        (lent queue.old records.old runs.old) (lent queue.new records.new runs.new) }
{
    let b = engine_entry::prepared(file, index, reasons);
    let table = b.table;
    let cells = b.cells;
    let invariants = index.invariants;
    let starts = invariants.starts;
    let shared = Shared {
        cells,
        notes: b.count,
        invariants: invariants.count,
    };
    let v = engine_inputs::events_of(file, index);
    let events = v.words;
    let n = bounds::at_most(table[8], 100);
    check_settled(
        file,
        &table,
        &starts,
        shared,
        &events,
        n,
        queue,
        records,
        runs,
        reasons,
        violated,
        unknowns,
        incompletes,
    )
}

// `check`, with its lists and the words of the simulation's reasons in lent arrays.
pub fn check_lent(
    file: &[u8],
    queue: &mut [u32],
    records: &mut [u32],
    runs: &mut [u32],
    reasons: &mut SimulationReasons,
    violated: &mut Violations,
    unknowns: &mut VerdictReasons,
    incompletes: &mut IncompleteReasons,
) -> Judgement
    ensures { Checks file.now (result_of result violated.new unknowns.new incompletes.new reasons.new)
        (lent queue.old records.old runs.old) (lent queue.new records.new runs.new) }
{
    let x = model_validate::accept(file);
    let status = x.status;
    match status {
        model_index::Status::Refused(number) => {
            checker_result::refused_judgement(number, reasons, violated, unknowns, incompletes)
        }
        model_index::Status::Read => run(
            file,
            x.index,
            queue,
            records,
            runs,
            reasons,
            violated,
            unknowns,
            incompletes,
        ),
    }
}

// ---- the answer as one value

// The check with the first n events, as one value.
pub fn check_whole(
    file: &[u8],
    table: &Table,
    starts: &Positions,
    shared: Shared,
    events: &[u32],
    n: usize,
    queue: &mut [u32],
    records: &mut [u32],
    runs: &mut [u32],
    reasons: &mut SimulationReasons,
) -> CheckResult
    requires { n * 4 ≤ length events.now }
    ensures { Whole file.now starts.now shared.invariants
        (prepared_of table.now shared.cells shared.notes reasons.old) events.now n result queue.old queue.new
        records.old records.new runs.old runs.new }
{
    let mut violated = [0u64; layout::VIOLATIONS];
    let mut unknowns = [0u32; layout::VERDICT_REASON_WORDS];
    let mut incompletes = [0u32; layout::INCOMPLETE_REASON_WORDS];
    let j = check_settled(
        file,
        table,
        starts,
        shared,
        events,
        n,
        queue,
        records,
        runs,
        reasons,
        &mut violated,
        &mut unknowns,
        &mut incompletes,
    );
    checker_result::with_lists(j, reasons, &violated, &unknowns, &incompletes)
}

// The check of a model file, with lent areas of any size.
pub fn check(file: &[u8], queue: &mut [u32], records: &mut [u32], runs: &mut [u32]) -> CheckResult
    ensures { Checks file.now result (lent queue.old records.old runs.old)
        (lent queue.new records.new runs.new) }
{
    let mut reasons = [0u32; layout::SIMULATION_REASON_WORDS];
    let mut violated = [0u64; layout::VIOLATIONS];
    let mut unknowns = [0u32; layout::VERDICT_REASON_WORDS];
    let mut incompletes = [0u32; layout::INCOMPLETE_REASON_WORDS];
    let j = check_lent(
        file,
        queue,
        records,
        runs,
        &mut reasons,
        &mut violated,
        &mut unknowns,
        &mut incompletes,
    );
    checker_result::with_lists(j, &reasons, &violated, &unknowns, &incompletes)
}
