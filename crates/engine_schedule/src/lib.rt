// What stands in the queue before the loop, and whether its next item is taken.
#![tactic(auto)]

ghost use Rattle.std.specs.Prelude.{◌≡◌, ◌+◌, ◌*◌, ◌≤◌, ◌<◌, length};
ghost use Rattle.engine_state.specs.Steps.{Moves, Does, goes, kept, still, FitsQ, FitsQa, by};
ghost use Rattle.engine_schedule.specs.Next.{with_turn, Seen, next_m, Why};
ghost use Rattle.engine_schedule.specs.Events.{event_m, add_event_m, add_events_m, add_expiries_m, begun_m};

use bounds::at_most;
use engine_state::{State, add, log_plain};
use layout::Table;
use queue::Work;

// ---- whether the next item is taken

#[derive(Clone, Copy)]
pub enum Next {
    Stop,
    Space,
    Take,
}

// Whether the next item is taken: not after the horizon, and not where records or items are too many.
fn next_of(x: &Table, q: &[u32], st: State) -> Next
    requires { FitsQ st q.now }
    ensures { Seen (next_m x.now) q.now st result }
{
    let Some(it) = queue::next(q, st.queue_start, st.items) else {
        return Next::Stop;
    };
    if 10000 <= st.records {
        return Next::Space;
    }
    if 20000 < st.items {
        return Next::Space;
    }
    if x[layout::HORIZON] < it.second {
        return Next::Stop;
    }
    Next::Take
}

// 4 where the loop takes the next item, or why it ends: 0 nothing left before the horizon, 1 space, 2 steps, 3 an area is
// full.
pub fn why_stop(x: &Table, q: &[u32], st: State, left: u32) -> u32
    requires { FitsQ st q.now }
    ensures { Why x.now left q.now st result }
{
    if st.overflow != 0 {
        return 3;
    }
    let n = next_of(x, q, st);
    match n {
        Next::Stop => 0,
        Next::Space => 1,
        Next::Take => {
            if left == 0 {
                return 2;
            }
            4
        }
    }
}

// An item was taken: the state at its second, and the queue behind its entry.
pub fn at_second(st: State, second: u32) -> State
    requires { (0 < st.items) × (st.queue_start < 18446744073709551615) }
    ensures { result ≡ with_turn second st }
{
    let mut s = st;
    s.now = second;
    s.items = s.items - 1;
    s.queue_start = s.queue_start + 1;
    s
}

// ---- before the loop

fn event_work(kind: u32, entity: u32, value: u32) -> Work
    ensures { result ≡ event_m kind entity value }
{
    match kind {
        0 => Work::Set { entity, value },
        1 => Work::Restart,
        _ => Work::Reload,
    }
}

// The i-th event: a second, a kind, an entity and a value.
fn add_event(events: &[u32], q: &mut [u32], st: State, i: usize) -> State
    requires { (i * 4 + 4 ≤ length events.now) × FitsQ st q.old }
    ensures { Does (add_event_m events.now i) st result (by q) kept kept still }
{
    let work = event_work(events[i * 4 + 1], events[i * 4 + 2], events[i * 4 + 3]);
    let second = events[i * 4];
    add(q, st, second, work)
}

fn add_events(events: &[u32], count: usize, q: &mut [u32], st: State) -> State
    requires { (count * 4 ≤ length events.now) × FitsQ st q.old }
    ensures { Does (add_events_m events.now count) st result (by q) kept kept still }
{
    let mut s = st;
    for i in 0..count {
        s = add_event(events, q, s, i);
    }
    s
}

fn add_expiries(x: &Table, q: &mut [u32], versions: &[u32; 32], st: State) -> State
    requires { FitsQ st q.old }
    ensures { Moves (add_expiries_m x.now) st result (by q) kept kept still kept (goes versions.now versions.now)
        kept }
{
    let n = at_most(x[layout::ENTITY_COUNT], 32);
    let mut s = st;
    for e in 0..n {
        s = engine_update::expiry(x, q, versions, s, e);
    }
    s
}

pub fn begun(
    x: &Table,
    events: &[u32],
    count: usize,
    q: &mut [u32],
    a: &mut [u32],
    versions: &[u32; 32],
    st: State,
) -> State
    requires { (count * 4 ≤ length events.now) × FitsQa st q.old a.old }
    ensures { Moves (begun_m x.now events.now count) st result (by q) (by a) kept still kept
        (goes versions.now versions.now) kept }
{
    let s1 = log_plain(a, st, records::INITIAL);
    let s2 = add_events(events, count, q, s1);
    add_expiries(x, q, versions, s2)
}
