// What lint asks of predicates, triggers, actions, invariants and entities, on places in the file.
#![tactic(auto)]

ghost use Rattle.std.specs.Prelude.{◌≡◌, ◌≤◌, ◌<◌, ◌+◌, ◌-◌};
ghost use Rattle.lint_walk.specs.Walks.{walk_by};
ghost use Rattle.lint_conditions.specs.Context.{section_of, names_by};
ghost use Rattle.lint_conditions.specs.Conditions.{
  clash_m,
  clashes_m,
  meets_m,
  contradictory_m,
  mismatch_m,
  mismatched_m,
  delays_m,
  guard_m,
  guarded_m,
  unguarded_m,
  sets_off_m,
  leads_m,
  opposed_m,
  tier_m,
  stale_m,
  highest_m,
  greater_m,
};

use layout::{ActionPositions, Positions};
use model_parts::{Extent, Section};

// What a test needs of a model: its declared entities, its invariants, and the places of `on`, `off` and `*`; the number of
// texts for no `*`.
#[derive(Clone, Copy)]
pub struct Names {
    pub entities: Section,
    pub invariants: Section,
    pub on: u32,
    pub off: u32,
    pub star: u32,
}

// The same of a model, and of its automations, where the positions are lent.
#[derive(Clone, Copy)]
pub struct Given {
    pub entities: Extent,
    pub invariants: Extent,
    pub rules: Extent,
    pub on: u32,
    pub off: u32,
    pub star: u32,
}

// ---- predicates

// Whether the predicate at a position wants another value of the entity x than v.
fn clash(s: &[u8], x: u32, v: u32, at: usize) -> bool
    ensures { result ≡ clash_m s.now x v at }
{
    if lint_walk::byte_at(s, at) != 0 {
        return false;
    }
    if lint_walk::place_at(s, lint_walk::past(s, at, 1)) != x {
        return false;
    }
    lint_walk::place_at(s, lint_walk::past(s, at, 3)) != v
}

// Whether one of so many predicates does.
fn clashes(s: &[u8], x: u32, v: u32, count: u32, at: usize) -> bool
    ensures { result ≡ clashes_m s.now x v count at }
{
    let mut p = at;
    for _ in 0..count {
        if clash(s, x, v, p) {
            return true;
        }
        p = lint_walk::predicate_end(s, p);
    }
    false
}

// Whether the predicate at a position clashes with one of those behind it.
fn meets(s: &[u8], behind: u32, at: usize) -> bool
    ensures { result ≡ meets_m s.now behind at }
{
    if lint_walk::byte_at(s, at) != 0 {
        return false;
    }
    let x = lint_walk::place_at(s, lint_walk::past(s, at, 1));
    let v = lint_walk::place_at(s, lint_walk::past(s, at, 3));
    clashes(s, x, v, behind, lint_walk::predicate_end(s, at))
}

// Whether two predicates behind a count want different values of one entity.
pub fn contradictory(s: &[u8], at: usize) -> bool
    ensures { result ≡ contradictory_m s.now at }
{
    let count = lint_walk::place_at(s, at);
    let mut p = lint_walk::past(s, at, 2);
    for i in 0..count {
        if meets(s, count - i - 1, p) {
            return true;
        }
        p = lint_walk::predicate_end(s, p);
    }
    false
}

// ---- triggers

// Whether the trigger at a position has a target other than the conditions at another want.
fn mismatch(s: &[u8], conditions: usize, at: usize) -> bool
    ensures { result ≡ mismatch_m s.now conditions at }
{
    if lint_walk::place_at(s, lint_walk::past(s, at, 14)) != layout::NO_PLACE {
        return false;
    }
    let to = lint_walk::place_at(s, lint_walk::past(s, at, 4));
    if to == layout::NO_PLACE {
        return false;
    }
    let x = lint_walk::place_at(s, at);
    let count = lint_walk::place_at(s, conditions);
    clashes(s, x, to, count, lint_walk::past(s, conditions, 2))
}

// Whether all triggers of the automation at a position have.
pub fn mismatched(s: &[u8], at: usize) -> bool
    ensures { result ≡ mismatched_m s.now at }
{
    let conditions = lint_walk::conditions_at(s, at);
    let triggers = lint_walk::triggers_at(s, at);
    let count = lint_walk::place_at(s, triggers);
    let mut p = lint_walk::past(s, triggers, 2);
    for _ in 0..count {
        if !mismatch(s, conditions, p) {
            return false;
        }
        p = lint_walk::past(s, p, 16);
    }
    true
}

// Whether a write of the value v to the entity x can set the trigger at a position off.
fn sets_off(s: &[u8], star: u32, x: u32, v: u32, at: usize) -> bool
    ensures { result ≡ sets_off_m s.now star x v at }
{
    if lint_walk::place_at(s, lint_walk::past(s, at, 14)) != layout::NO_PLACE {
        return false;
    }
    if lint_walk::place_at(s, at) != x {
        return false;
    }
    if v == star {
        return true;
    }
    let to = lint_walk::place_at(s, lint_walk::past(s, at, 4));
    if to == layout::NO_PLACE {
        return true;
    }
    to == v
}

// Whether it can set a trigger of the automation at a position off.
pub fn leads(s: &[u8], star: u32, x: u32, v: u32, at: usize) -> bool
    ensures { result ≡ leads_m s.now star x v at }
{
    let triggers = lint_walk::triggers_at(s, at);
    let count = lint_walk::place_at(s, triggers);
    let mut p = lint_walk::past(s, triggers, 2);
    for _ in 0..count {
        if sets_off(s, star, x, v, p) {
            return true;
        }
        p = lint_walk::past(s, p, 16);
    }
    false
}

// ---- actions

// Whether one of the first `count` actions of `list` is a delay.
pub fn delays(s: &[u8], list: &ActionPositions, count: usize) -> bool
    requires { count ≤ 512 }
    ensures { result ≡ delays_m s.now (walk_by list.now count) }
{
    for k in 0..count {
        if lint_walk::kind_at(s, list[k]) == 2 {
            return true;
        }
    }
    false
}

// Whether two writes go against each other.
pub fn opposed(star: u32, x: u32, v: u32, y: u32, u: u32) -> bool
    ensures { result ≡ opposed_m star x v y u }
{
    if x != y {
        return false;
    }
    if v != u {
        return true;
    }
    v == star
}

// ---- invariants

// Whether the invariant at a position is a guard of the entity x and the value v.
fn guard(s: &[u8], x: u32, v: u32, at: usize) -> bool
    ensures { result ≡ guard_m s.now x v at }
{
    if lint_walk::byte_at(s, at) != 1 {
        return false;
    }
    if lint_walk::place_at(s, lint_walk::past(s, at, 3)) != x {
        return false;
    }
    lint_walk::place_at(s, lint_walk::past(s, at, 5)) == v
}

fn guarded(s: &[u8], invariants: &Positions, extent: Extent, x: u32, v: u32) -> bool
    requires { extent.count ≤ 32 }
    ensures { result ≡ guarded_m s.now (section_of invariants.now extent) x v }
{
    let count = extent.count as usize;
    for k in 0..count {
        if guard(s, x, v, invariants[k]) {
            return true;
        }
    }
    false
}

// Whether a write of v to x has a value that no guard is about; a toggle has two.
pub fn unguarded(
    s: &[u8],
    entities: &Positions,
    invariants: &Positions,
    given: Given,
    x: u32,
    v: u32,
) -> bool
    requires { given.invariants.count ≤ 32 }
    ensures { result ≡ unguarded_m s.now (names_by entities.now invariants.now given) x v }
{
    if v == given.star {
        if !guarded(s, invariants, given.invariants, x, given.on) {
            return true;
        }
        return !guarded(s, invariants, given.invariants, x, given.off);
    }
    !guarded(s, invariants, given.invariants, x, v)
}

// ---- entities, from their positions

// The tier: it stands behind the name, the domain and the initial value.
pub fn tier(s: &[u8], at: usize) -> u32
    ensures { result ≡ tier_m s.now at }
{
    let domain = lint_walk::past(s, at, 2);
    let count = lint_walk::place_at(s, domain) as usize;
    lint_walk::byte_at(
        s,
        lint_walk::past(s, lint_walk::past(s, domain, 2), 2 * count + 2),
    )
}

// Whether there is a time after which the value is stale.
pub fn stale(s: &[u8], at: usize) -> bool
    ensures { result ≡ stale_m s.now at }
{
    let domain = lint_walk::past(s, at, 2);
    let count = lint_walk::place_at(s, domain) as usize;
    lint_walk::number_at(
        s,
        lint_walk::past(s, lint_walk::past(s, domain, 2), 2 * count + 3),
    ) != 4294967295
}

fn greater(a: u32, b: u32) -> u32
    ensures { result ≡ greater_m a b }
{
    if a < b {
        return b;
    }
    a
}

// The highest tier among the entities of a set.
pub fn highest(s: &[u8], entities: &Positions, extent: Extent, set: u32) -> u32
    requires { extent.count ≤ 32 }
    ensures { result ≡ highest_m s.now (section_of entities.now extent) set }
{
    let count = extent.count as usize;
    let mut best: u32 = 0;
    for k in 0..count {
        if lint_reach::has(set, k) {
            best = greater(best, tier(s, entities[k]));
        }
    }
    best
}
