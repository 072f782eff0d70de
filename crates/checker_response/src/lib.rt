// What a truth at a record does to an invariant's reading: why a record fails it, and the waiting of a response.
#![tactic(auto)]

ghost use Rattle.std.specs.Prelude.{◌≡◌, ◌&&◌, ◌||◌};
ghost use Rattle.checker_response.specs.Response.{
  yes_m,
  no_m,
  unknown_m,
  fails_m,
  failed_m,
  or_else_m,
  overdue_m,
  missed_m,
  kept_m,
  started_m,
  begun_m,
  waits_m,
  at_end_m,
  beyond_m,
  failure_m,
  memory_m,
  responded_m,
};

use engine_evaluate::Truth;

// Why a record fails an invariant.
#[derive(Clone, Copy)]
pub enum Failure {
    ProhibitedState,
    GuardViolated,
    ForbiddenTransition,
    DeadlineMissed(u64),
}

// What a reading keeps from record to record: the second for which a response waits, if it does (a second and `within`
// are words, so their sum fits); whether its `when` held at the last record; whether a
// predicate was unknown, the goal was unknown when its deadline had passed, a deadline lay beyond the horizon.
#[derive(Clone, Copy)]
pub struct Memory {
    pub wait: Option<u64>,
    pub held: bool,
    pub unknown: bool,
    pub unclear: bool,
    pub beyond: bool,
}

// What one record shows.
#[derive(Clone, Copy)]
pub struct Shown {
    pub failure: Option<Failure>,
    pub memory: Memory,
}

// A response's predicates at a record: `when` and the goal after it, and the goal before it.
#[derive(Clone, Copy)]
pub struct Seen {
    pub cause: Truth,
    pub goal: Truth,
    pub earlier: Truth,
    pub within: u32,
}

// ---- truths, failures

#[tactic(auto, unfolding(crate::specs::Response::yes_m))]
pub fn is_yes(t: Truth) -> bool
    ensures { result ≡ yes_m t }
{
    matches!(t, Truth::Yes)
}

#[tactic(auto, unfolding(crate::specs::Response::no_m))]
pub fn is_no(t: Truth) -> bool
    ensures { result ≡ no_m t }
{
    matches!(t, Truth::No)
}

#[tactic(auto, unfolding(crate::specs::Response::unknown_m))]
pub fn is_unknown(t: Truth) -> bool
    ensures { result ≡ unknown_m t }
{
    matches!(t, Truth::Unknown)
}

pub fn both(a: bool, b: bool) -> bool
    ensures { result ≡ (a && b) }
{
    a && b
}

pub fn either(a: bool, b: bool) -> bool
    ensures { result ≡ (a || b) }
{
    a || b
}

// The failure, if there is one and the test holds.
#[tactic(auto, unfolding(crate::specs::Response::fails_m))]
pub fn fails_if(b: bool, e: Option<Failure>) -> Option<Failure>
    ensures { result ≡ fails_m b e }
{
    if b { e } else { None }
}

#[tactic(auto, unfolding(crate::specs::Response::failed_m))]
pub fn failed(e: Option<Failure>) -> bool
    ensures { result ≡ failed_m e }
{
    e.is_some()
}

// ---- a response

// Whether the deadline, if there is one, has passed.
#[tactic(auto, unfolding(crate::specs::Response::overdue_m))]
fn overdue(now: u32, w: Option<u64>) -> bool
    ensures { result ≡ overdue_m now w }
{
    w.is_some_and(|d| d < u64::from(now))
}

// A deadline that has passed is missed if the goal did not hold before the record.
#[tactic(auto, unfolding(crate::specs::Response::missed_m, crate::specs::Response::fails_m))]
fn missed(now: u32, earlier: Truth, w: Option<u64>) -> Option<Failure>
    ensures { result ≡ missed_m now earlier w }
{
    let d = w?;
    fails_if(
        d < u64::from(now) && is_no(earlier),
        Some(Failure::DeadlineMissed(d)),
    )
}

// A deadline that has passed is dropped.
#[tactic(auto, unfolding(crate::specs::Response::kept_m))]
fn kept(now: u32, w: Option<u64>) -> Option<u64>
    ensures { result ≡ kept_m now w }
{
    if overdue(now, w) {
        return None;
    }
    w
}

#[tactic(auto, unfolding(crate::specs::Response::started_m))]
fn started(deadline: u64, w: Option<u64>) -> Option<u64>
    ensures { result ≡ started_m deadline w }
{
    w.or(Some(deadline))
}

// If `when` rises and nothing waits, a wait begins.
#[tactic(auto, unfolding(crate::specs::Response::begun_m))]
fn begun(now: u32, within: u32, cause: Truth, held: bool, w: Option<u64>) -> Option<u64>
    ensures { result ≡ begun_m now within cause held w }
{
    if held {
        return w;
    }
    if is_yes(cause) {
        return started(u64::from(now) + u64::from(within), w);
    }
    w
}

// What waits after a record. The goal ends it.
#[tactic(auto, unfolding(crate::specs::Response::waits_m))]
fn waits_after(now: u32, s: Seen, held: bool, w: Option<u64>) -> Option<u64>
    ensures { result ≡ waits_m now s held w }
{
    if is_yes(s.goal) {
        return None;
    }
    begun(now, s.within, s.cause, held, kept(now, w))
}

// At the horizon what still waits is missed, if its deadline is reached.
#[tactic(auto, unfolding(crate::specs::Response::at_end_m, crate::specs::Response::fails_m))]
fn missed_at_end(now: u32, goal: Truth, w: Option<u64>) -> Option<Failure>
    ensures { result ≡ at_end_m now goal w }
{
    let d = w?;
    fails_if(
        d <= u64::from(now) && is_no(goal),
        Some(Failure::DeadlineMissed(d)),
    )
}

#[tactic(auto, unfolding(crate::specs::Response::beyond_m))]
fn is_beyond(now: u32, w: Option<u64>) -> bool
    ensures { result ≡ beyond_m now w }
{
    w.is_some_and(|d| u64::from(now) < d)
}

#[tactic(auto, unfolding(crate::specs::Response::failure_m, crate::specs::Response::or_else_m, crate::specs::Response::failed_m))]
fn response_failure(
    s: Seen,
    now: u32,
    end: bool,
    old: Option<u64>,
    new: Option<u64>,
) -> Option<Failure>
    ensures { result ≡ failure_m s now end old new }
{
    let late = missed(now, s.earlier, old);
    if end {
        return missed_at_end(now, s.goal, new).or(late);
    }
    late
}

#[tactic(auto, unfolding(crate::specs::Response::memory_m))]
fn response_memory(s: Seen, now: u32, end: bool, m: Memory, new: Option<u64>) -> Memory
    ensures { result ≡ memory_m s now end m new }
{
    Memory {
        wait: new,
        held: is_yes(s.cause),
        unknown: m.unknown || is_unknown(s.cause) || is_unknown(s.goal),
        unclear: m.unclear || overdue(now, m.wait) && is_unknown(s.earlier),
        beyond: m.beyond || end && is_beyond(now, new),
    }
}

#[tactic(auto, unfolding(crate::specs::Response::responded_m))]
pub fn responded(s: Seen, now: u32, end: bool, m: Memory) -> Shown
    ensures { result ≡ responded_m s now end m }
{
    let new = waits_after(now, s, m.held, m.wait);
    Shown {
        failure: response_failure(s, now, end, m.wait, new),
        memory: response_memory(s, now, end, m, new),
    }
}
