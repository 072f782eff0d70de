// The number of live runs beside each automation. A run that waits or is queued is live too.
// The functions that put runs into their area and take them out keep the numbers up, so that nobody has to count the runs.
#![tactic(auto)]

ghost use Rattle.std.specs.Prelude.{◌≡◌, ◌*◌, ◌-◌, ◌≤◌, ◌<◌, length};
ghost use Rattle.areas.specs.Areas.{cleared};
ghost use Rattle.runs.specs.Runs.{Pushed, Removed, Dropped};
ghost use Rattle.live_runs.specs.Live.{CountOf, Entered, Left, Emptied, Forgotten, raised, lowered};

use runs::Run;

// How many live runs the i-th automation has.
pub fn count_of(live: &[usize; 32], i: usize) -> usize
    requires { i < 32 }
    ensures { CountOf i live.now result }
{
    live[i]
}

// One more for the automation, where there were n runs: no number is larger than that of all runs.
fn raise(live: &mut [usize; 32], automation: u32, n: usize)
    requires { n < 18446744073709551615 }
    ensures { live.new ≡ raised automation n live.old }
{
    let i = automation as usize;
    if 31 < i {
        return;
    }
    live[i] = live[i].min(n) + 1;
}

fn less(n: usize) -> usize
    ensures { result ≡ n - 1 }
{
    if n == 0 {
        return 0;
    }
    n - 1
}

// One less for the automation.
fn lower(live: &mut [usize; 32], automation: u32)
    ensures { live.new ≡ lowered automation live.old }
{
    let i = automation as usize;
    if 31 < i {
        return;
    }
    live[i] = less(live[i]);
}

// A run more behind the first n, which is counted, or false where the area is full.
pub fn push(r: &mut [u32], live: &mut [usize; 32], n: usize, run: Run) -> bool
    requires { n * 28 ≤ length r.old }
    ensures { Pushed r.old n run r.new result × Entered n run live.old live.new result }
{
    if runs::push_run(r, n, run) {
        raise(live, run.automation, n);
        return true;
    }
    false
}

// The run at k out of the first n.
pub fn take(r: &mut [u32], live: &mut [usize; 32], n: usize, k: usize)
    requires { (k < n) × (n * 28 ≤ length r.old) }
    ensures { Removed r.old n k r.new × Left r.old n k live.old live.new }
{
    let automation = runs::automation_at(r, k);
    runs::take_run(r, n, k);
    lower(live, automation);
}

// The i-th automation's runs out of the first n; how many are left.
pub fn drop_of(r: &mut [u32], live: &mut [usize; 32], n: usize, i: usize) -> usize
    requires { (i < 32) × (n * 28 ≤ length r.old) }
    ensures { Dropped i r.old n r.new result × Emptied i live.old live.new }
{
    live[i] = 0;
    runs::drop_runs(r, n, i as u32)
}

// No automation has a run.
fn forget(live: &mut [usize; 32])
    ensures { Forgotten live.old live.new }
{
    for i in 0..32 {
        live[i] = 0;
    }
}

// All n runs out; behind them the area is zeros already.
pub fn drop_all(r: &mut [u32], live: &mut [usize; 32], n: usize)
    requires { n * 28 ≤ length r.old }
    ensures { (r.new ≡ cleared r.old 0 (n * 28)) × Forgotten live.old live.new }
{
    areas::clear(r, 0, n * 28);
    forget(live);
}
