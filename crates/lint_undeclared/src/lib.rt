// The undeclared names that automations read: the entities of waits whose triggers have notes. A model has at most 64.
#![tactic(auto)]

ghost use Rattle.std.specs.Prelude.{◌≡◌, ◌≤◌, ◌<◌, ◌+◌};
ghost use Rattle.lint_walk.specs.Walks.{walk_by};
ghost use Rattle.lint_conditions.specs.Context.{section_of};
ghost use Rattle.lint_undeclared.specs.Undeclared.{await_m, awaits_m, with_m, read_m, rule_m, undeclared_m};

use layout::{ActionPositions, Positions};
use model_parts::Extent;

// Whether the action at a position waits for the entity that a place names.
fn awaits_at(s: &[u8], place: u32, at: usize) -> bool
    ensures { result ≡ await_m s.now place at }
{
    if lint_walk::kind_at(s, at) != 5 {
        return false;
    }
    lint_walk::place_at(s, lint_walk::past(s, at, 9)) == place
}

// Whether one of the first `count` actions of `list` does.
fn awaits(s: &[u8], list: &ActionPositions, count: usize, place: u32) -> bool
    requires { count ≤ 512 }
    ensures { result ≡ awaits_m s.now (walk_by list.now count) place }
{
    for k in 0..count {
        if awaits_at(s, place, list[k]) {
            return true;
        }
    }
    false
}

// The first `count` of `names`, as places, and the automations that read them, by number; then zeros.
#[derive(Clone, Copy)]
pub struct Undeclared {
    pub count: usize,
    pub names: [u32; 64],
    pub readers: [u32; 64],
}

fn with_name(u: Undeclared, reader: u32, place: u32) -> Undeclared
    ensures { result ≡ with_m u reader place }
{
    let count = u.count;
    if count < 64 {
        let mut names = u.names;
        let mut readers = u.readers;
        names[count] = place;
        readers[count] = reader;
        return Undeclared {
            count: count + 1,
            names,
            readers,
        };
    }
    u
}

// With the name at a place, which the i-th automation reads, if no entity has it.
fn with_strange(
    s: &[u8],
    entities: &Positions,
    declared: Extent,
    i: u32,
    place: u32,
    u: Undeclared,
) -> Undeclared
    requires { declared.count ≤ 32 }
    ensures { result ≡ read_m s.now (section_of entities.now declared) i place u }
{
    let count = declared.count as usize;
    if model_check::first_of(s, entities, declared.count, place) < count {
        return u;
    }
    with_name(u, i, place)
}

// With the names that the i-th automation reads, of so many texts.
fn rule_names(
    s: &[u8],
    entities: &Positions,
    declared: Extent,
    rules: &Positions,
    extent: Extent,
    texts: u32,
    i: usize,
    u: Undeclared,
) -> Undeclared
    requires { (declared.count ≤ 32) × (i < 32) }
    ensures { result ≡ rule_m s.now (section_of entities.now declared) (section_of rules.now extent) texts i u }
{
    let mut list = [0usize; layout::ACTION_POSITIONS];
    let c = lint_walk::rule_walk(s, rules[i], &mut list);
    let mut v = u;
    for place in 0..texts {
        if awaits(s, &list, c.count, place) {
            v = with_strange(s, entities, declared, i as u32, place, v);
        }
    }
    v
}

// The undeclared names that each automation reads, ascending.
pub fn undeclared_names(
    s: &[u8],
    entities: &Positions,
    declared: Extent,
    rules: &Positions,
    extent: Extent,
    texts: u32,
) -> Undeclared
    requires { (declared.count ≤ 32) × (extent.count ≤ 32) }
    ensures { result ≡ undeclared_m s.now (section_of entities.now declared) (section_of rules.now extent) texts }
{
    let count = extent.count as usize;
    let mut u = Undeclared {
        count: 0,
        names: [0u32; 64],
        readers: [0u32; 64],
    };
    for i in 0..count {
        u = rule_names(s, entities, declared, rules, extent, texts, i, u);
    }
    u
}
