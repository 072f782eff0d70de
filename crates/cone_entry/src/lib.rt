// The entry `cone`: the entities and the automations of a model file on which its invariants depend.
#![tactic(auto)]

ghost use Rattle.std.specs.Prelude.{◌≡◌, ◌≤◌, ◌<◌};
ghost use Rattle.cone_entry.specs.Contract.{no_cone, Answers};
ghost use Rattle.cone_entry.specs.Promises.{Touches, Bounds, Tells};

use model_index::{Index, Status};
use model_parts::{Extent, Section};

// `refused` is 0 or the refusal's number; then the rest is 0. `entities` is the set of declared entities by their numbers
// in the file, `automations` that of automations. The first `undeclared` of `names` are the places of names that no entity
// has, ascending.
#[derive(Clone, Copy)]
pub struct ConeResult {
    pub refused: u32,
    pub entities: u32,
    pub automations: u32,
    pub undeclared: usize,
    pub names: [u32; 64],
}

fn refused(number: u32) -> ConeResult
    ensures { result ≡ no_cone number }
{
    ConeResult {
        refused: number,
        entities: 0,
        automations: 0,
        undeclared: 0,
        names: [0u32; 64],
    }
}

// What each automation writes, and what it reads or toggles.
#[derive(Clone, Copy)]
pub struct Touched {
    pub writes: [u32; 32],
    pub needs: [u32; 32],
}

fn rule_sets(s: &[u8], entities: Section, rules: Section) -> Touched
    requires { (entities.count ≤ 32) × (rules.count ≤ 32) }
    ensures { Touches s.now entities rules result }
{
    let n = rules.count as usize;
    let many = entities.count;
    let mut writes = [0u32; 32];
    let mut needs = [0u32; 32];
    for i in 0..n {
        let at = rules.starts[i];
        let mut list = [0usize; layout::ACTION_POSITIONS];
        let c = lint_walk::rule_walk(s, at, &mut list);
        let count = c.count;
        writes[i] = lint_access::writes(s, &entities.starts, many, &list, count);
        needs[i] = cone_sets::needs(s, &entities.starts, many, at, &list, count);
    }
    Touched { writes, needs }
}

// The cone of an accepted model.
fn coned(s: &[u8], index: Index) -> ConeResult
    requires { Bounds index }
    ensures { Tells s.now index result }
{
    let entities = index.entities;
    let invariants = index.invariants;
    let rules = index.rules;
    let texts = index.texts;
    let many = entities.count;
    let start = cone_sets::named(s, &entities.starts, many, invariants);
    let t = rule_sets(s, entities, rules);
    let count = rules.count as usize;
    let writes = t.writes;
    let needs = t.needs;
    let c = cone_close::close(writes, needs, start, count);
    let end = entities.end;
    let declared = Extent { count: many, end };
    let last = rules.end;
    let extent = Extent {
        count: rules.count,
        end: last,
    };
    let u = lint_undeclared::undeclared_names(
        s,
        &entities.starts,
        declared,
        &rules.starts,
        extent,
        texts.count,
    );
    let n = cone_names::names_in(u, c.automations, texts.count);
    let names = n.list;
    ConeResult {
        refused: 0,
        entities: c.entities,
        automations: c.automations,
        undeclared: n.count,
        names,
    }
}

// The cone of a model file.
pub fn cone(file: &[u8]) -> ConeResult
    ensures { Answers file.now result }
{
    let x = model_validate::accept(file);
    let status = x.status;
    match status {
        Status::Refused(number) => refused(number),
        Status::Read => coned(file, x.index),
    }
}
