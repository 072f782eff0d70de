// What an automation reads and writes: sets of declared entities, by their number in the file. The positions of the model's
// `many` entities are lent.
#![tactic(auto)]

ghost use Rattle.std.specs.Prelude.{◌≡◌, ◌≤◌, ◌<◌};
ghost use Rattle.lint_walk.specs.Walks.{walk_by};
ghost use Rattle.lint_access.specs.Sets.{
  section_by,
  add_entity_m,
  add_predicate_m,
  add_predicates_m,
  add_trigger_m,
  add_triggers_m,
  add_branches_m,
  add_reads_m,
  add_write_m,
  reads_m,
  writes_m,
};

use layout::{ActionPositions, Positions};

// ---- one entity

// The set with the entity that has this name, if it is declared.
pub fn add_entity(s: &[u8], entities: &Positions, many: u32, set: u32, place: u32) -> u32
    requires { many ≤ 32 }
    ensures { result ≡ add_entity_m s.now (section_by entities.now many) place set }
{
    let i = model_check::first_of(s, entities, many, place);
    let count = many as usize;
    if i < count {
        return lint_reach::with(set, i);
    }
    set
}

pub fn add_predicate(s: &[u8], entities: &Positions, many: u32, set: u32, at: usize) -> u32
    requires { many ≤ 32 }
    ensures { result ≡ add_predicate_m s.now (section_by entities.now many) at set }
{
    if lint_walk::byte_at(s, at) == 0 {
        let place = lint_walk::place_at(s, lint_walk::past(s, at, 1));
        return add_entity(s, entities, many, set, place);
    }
    set
}

// ---- lists

// A count, and as many predicates.
pub fn add_predicates(s: &[u8], entities: &Positions, many: u32, set: u32, at: usize) -> u32
    requires { many ≤ 32 }
    ensures { result ≡ add_predicates_m s.now (section_by entities.now many) at set }
{
    let count = lint_walk::place_at(s, at);
    let mut p = lint_walk::past(s, at, 2);
    let mut out = set;
    for _ in 0..count {
        out = add_predicate(s, entities, many, out, p);
        p = lint_walk::predicate_end(s, p);
    }
    out
}

// A trigger with a note isn't read.
fn add_trigger(s: &[u8], entities: &Positions, many: u32, set: u32, at: usize) -> u32
    requires { many ≤ 32 }
    ensures { result ≡ add_trigger_m s.now (section_by entities.now many) at set }
{
    if lint_walk::place_at(s, lint_walk::past(s, at, 14)) == layout::NO_PLACE {
        let place = lint_walk::place_at(s, at);
        return add_entity(s, entities, many, set, place);
    }
    set
}

// A count, and as many triggers.
fn add_triggers(s: &[u8], entities: &Positions, many: u32, set: u32, at: usize) -> u32
    requires { many ≤ 32 }
    ensures { result ≡ add_triggers_m s.now (section_by entities.now many) at set }
{
    let count = lint_walk::place_at(s, at);
    let mut p = lint_walk::past(s, at, 2);
    let mut out = set;
    for _ in 0..count {
        out = add_trigger(s, entities, many, out, p);
        p = lint_walk::past(s, p, 16);
    }
    out
}

// A count, and as many branches: the entities of their conditions.
fn add_branches(s: &[u8], entities: &Positions, many: u32, set: u32, at: usize) -> u32
    requires { many ≤ 32 }
    ensures { result ≡ add_branches_m s.now (section_by entities.now many) at set }
{
    let count = lint_walk::place_at(s, at);
    let mut p = lint_walk::past(s, at, 2);
    let mut out = set;
    for _ in 0..count {
        out = add_predicates(s, entities, many, out, p);
        p = lint_walk::list_end(s, lint_walk::predicates_end(s, p));
    }
    out
}

// ---- actions

// What an action reads: a condition, the conditions of a choice, a wait's entity.
fn add_reads(s: &[u8], entities: &Positions, many: u32, set: u32, at: usize) -> u32
    requires { many ≤ 32 }
    ensures { result ≡ add_reads_m s.now (section_by entities.now many) at set }
{
    let kind = lint_walk::kind_at(s, at);
    let p = lint_walk::past(s, at, 9);
    if kind == 3 {
        return add_predicate(s, entities, many, set, p);
    }
    if kind == 4 {
        return add_branches(s, entities, many, set, p);
    }
    if kind == 5 {
        return add_entity(s, entities, many, set, lint_walk::place_at(s, p));
    }
    set
}

// What an action writes: a set's or a toggle's entity.
fn add_write(s: &[u8], entities: &Positions, many: u32, set: u32, at: usize) -> u32
    requires { many ≤ 32 }
    ensures { result ≡ add_write_m s.now (section_by entities.now many) at set }
{
    if lint_walk::kind_at(s, at) < 2 {
        let place = lint_walk::place_at(s, lint_walk::past(s, at, 9));
        return add_entity(s, entities, many, set, place);
    }
    set
}

// ---- an automation, from its position; its actions are the first `count` of `list`

// The declared entities that it reads.
pub fn reads(
    s: &[u8],
    entities: &Positions,
    many: u32,
    at: usize,
    list: &ActionPositions,
    count: usize,
) -> u32
    requires { (many ≤ 32) × (count ≤ 512) }
    ensures { result ≡ reads_m s.now (section_by entities.now many) at (walk_by list.now count) }
{
    let mut set = add_triggers(s, entities, many, 0, lint_walk::triggers_at(s, at));
    for k in 0..count {
        set = add_reads(s, entities, many, set, list[k]);
    }
    add_predicates(s, entities, many, set, lint_walk::conditions_at(s, at))
}

// The entities that it writes.
pub fn writes(
    s: &[u8],
    entities: &Positions,
    many: u32,
    list: &ActionPositions,
    count: usize,
) -> u32
    requires { (many ≤ 32) × (count ≤ 512) }
    ensures { result ≡ writes_m s.now (section_by entities.now many) (walk_by list.now count) }
{
    let mut set: u32 = 0;
    for k in 0..count {
        set = add_write(s, entities, many, set, list[k]);
    }
    set
}
