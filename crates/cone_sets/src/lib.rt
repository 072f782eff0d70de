// What the cone is closed over: the declared entities that invariants name, and those that an automation reads or
// toggles, as sets of their numbers in the file.
#![tactic(auto)]

ghost use Rattle.std.specs.Prelude.{◌≡◌, ◌≤◌, ◌<◌};
ghost use Rattle.lint_walk.specs.Walks.{walk_by};
ghost use Rattle.lint_access.specs.Sets.{section_by};
ghost use Rattle.cone_sets.specs.Sets.{add_named_m, named_m, add_toggle_m, needs_m};

use layout::{ActionPositions, Positions};
use model_parts::Section;

// ---- invariants

// What the invariant at a position names.
fn add_named(s: &[u8], entities: &Positions, many: u32, set: u32, at: usize) -> u32
    requires { many ≤ 32 }
    ensures { result ≡ add_named_m s.now (section_by entities.now many) at set }
{
    let kind = lint_walk::byte_at(s, at);
    let p = lint_walk::past(s, at, 3);
    if kind == 0 {
        return lint_access::add_predicates(s, entities, many, set, p);
    }
    if kind == 1 {
        let guarded = lint_access::add_entity(s, entities, many, set, lint_walk::place_at(s, p));
        return lint_access::add_predicates(s, entities, many, guarded, lint_walk::past(s, at, 7));
    }
    if kind == 2 {
        return lint_access::add_entity(s, entities, many, set, lint_walk::place_at(s, p));
    }
    let when = lint_access::add_predicate(s, entities, many, set, p);
    lint_access::add_predicate(s, entities, many, when, lint_walk::predicate_end(s, p))
}

// What all invariants name.
pub fn named(s: &[u8], entities: &Positions, many: u32, invariants: Section) -> u32
    requires { (many ≤ 32) × (invariants.count ≤ 32) }
    ensures { result ≡ named_m s.now (section_by entities.now many) invariants }
{
    let count = invariants.count as usize;
    let mut set: u32 = 0;
    for k in 0..count {
        set = add_named(s, entities, many, set, invariants.starts[k]);
    }
    set
}

// ---- automations

// A toggle's entity.
fn add_toggle(s: &[u8], entities: &Positions, many: u32, set: u32, at: usize) -> u32
    requires { many ≤ 32 }
    ensures { result ≡ add_toggle_m s.now (section_by entities.now many) at set }
{
    if lint_walk::kind_at(s, at) == 1 {
        let place = lint_walk::place_at(s, lint_walk::past(s, at, 9));
        return lint_access::add_entity(s, entities, many, set, place);
    }
    set
}

// What the automation at a position reads or toggles; its actions are the first `count` of `list`.
pub fn needs(
    s: &[u8],
    entities: &Positions,
    many: u32,
    at: usize,
    list: &ActionPositions,
    count: usize,
) -> u32
    requires { (many ≤ 32) × (count ≤ 512) }
    ensures { result ≡ needs_m s.now (section_by entities.now many) at (walk_by list.now count) }
{
    let mut set = lint_access::reads(s, entities, many, at, list, count);
    for k in 0..count {
        set = add_toggle(s, entities, many, set, list[k]);
    }
    set
}
