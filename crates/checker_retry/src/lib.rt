// The check of a case among many: first in a small part of the lent areas, which is quick to clear, and in all of them only
// if that part is too small. What isn't refused in the part is the same in all of them.
#![tactic(auto)]

ghost use Rattle.std.specs.Prelude.{◌*◌, ◌≤◌, length};
ghost use Rattle.engine_entry.specs.Prepared.{prepared_of};
ghost use Rattle.checker_result.specs.Result.{result_of};
ghost use Rattle.checker_retry.specs.Retry.{Parted, Cased};

use checker_result::{Judgement, Shared};
use layout::{IncompleteReasons, Positions, SimulationReasons, Table, VerdictReasons, Violations};

// In the part. `notes` holds the reasons of the notes.
fn check_part(
    file: &[u8],
    table: &Table,
    starts: &Positions,
    notes: &SimulationReasons,
    shared: Shared,
    events: &[u32],
    n: usize,
    queue: &mut [u32],
    records: &mut [u32],
    runs: &mut [u32],
    reasons: &mut SimulationReasons,
    violated: &mut Violations,
    unknowns: &mut VerdictReasons,
    incompletes: &mut IncompleteReasons,
) -> Judgement
    requires { n * 4 ≤ length events.now }
    ensures { Parted file.now starts.now shared.invariants
        (prepared_of table.now shared.cells shared.notes notes.now) events.now n
        (result_of result violated.new unknowns.new incompletes.new reasons.new) (length queue.old) (length records.old)
        (length runs.old) }
{
    let items = queue.len().min(640);
    let lines = records.len().min(3328);
    let rows = runs.len().min(896);
    *reasons = *notes;
    checker_entry::check_events(
        file,
        table,
        starts,
        shared,
        events,
        n,
        &mut queue[..items],
        &mut records[..lines],
        &mut runs[..rows],
        reasons,
        violated,
        unknowns,
        incompletes,
    )
}

pub fn check_case(
    file: &[u8],
    table: &Table,
    starts: &Positions,
    notes: &SimulationReasons,
    shared: Shared,
    events: &[u32],
    n: usize,
    queue: &mut [u32],
    records: &mut [u32],
    runs: &mut [u32],
    reasons: &mut SimulationReasons,
    violated: &mut Violations,
    unknowns: &mut VerdictReasons,
    incompletes: &mut IncompleteReasons,
) -> Judgement
    requires { n * 4 ≤ length events.now }
    ensures { Cased file.now starts.now shared.invariants
        (prepared_of table.now shared.cells shared.notes notes.now) events.now n
        (result_of result violated.new unknowns.new incompletes.new reasons.new) (length queue.old) (length records.old)
        (length runs.old) }
{
    let c = check_part(
        file,
        table,
        starts,
        notes,
        shared,
        events,
        n,
        queue,
        records,
        runs,
        reasons,
        violated,
        unknowns,
        incompletes,
    );
    let status = c.status;
    if checker_result::is_refused(status) {
        *reasons = *notes;
        return checker_entry::check_events(
            file,
            table,
            starts,
            shared,
            events,
            n,
            queue,
            records,
            runs,
            reasons,
            violated,
            unknowns,
            incompletes,
        );
    }
    c
}
