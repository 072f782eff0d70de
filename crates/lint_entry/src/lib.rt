// The entry `lint`: the findings and interactions of a model file in two lent areas, and with the answer the components of
// trigger cycles, and what each automation reads and writes.
#![tactic(auto)]

ghost use Rattle.std.specs.Prelude.{◌≡◌, ◌≤◌, ◌<◌};
ghost use Rattle.lint_spec.specs.Memory.{lent};
ghost use Rattle.lint_areas.specs.Areas.{board};
ghost use Rattle.lint_conditions.specs.Context.{section_of};
ghost use Rattle.lint_entry.specs.Contract.{no_lint, Answers};
ghost use Rattle.lint_entry.specs.Promises.{given_by, first_m, read_sets, write_sets, Bounds, Inserts, Tells, AnswersAs};

use layout::Positions;
use lint_areas::Out;
use lint_collect::Linted;
use lint_conditions::Given;
use lint_reach::Components;
use model_index::{Index, Status};
use model_parts::Extent;

// `refused` is 0 or the refusal's number; then the rest is 0. As many `findings` and `interactions` stand in their areas.
// The first `components` of `cycles` are the components, as sets of automations by number. `reads` and `writes` are sets of
// declared entities, by automation. The first `undeclared` of `names` are the places of names that no entity has and that
// the automations at the same places of `readers` read.
#[derive(Clone, Copy)]
pub struct Report {
    pub refused: u32,
    pub findings: usize,
    pub interactions: usize,
    pub components: usize,
    pub cycles: [u32; 32],
    pub reads: [u32; 32],
    pub writes: [u32; 32],
    pub undeclared: usize,
    pub names: [u32; 64],
    pub readers: [u32; 64],
}

fn refused(number: u32) -> Report
    ensures { result ≡ no_lint number }
{
    Report {
        refused: number,
        findings: 0,
        interactions: 0,
        components: 0,
        cycles: [0u32; 32],
        reads: [0u32; 32],
        writes: [0u32; 32],
        undeclared: 0,
        names: [0u32; 64],
        readers: [0u32; 64],
    }
}

// ---- sets

#[derive(Clone, Copy)]
pub struct Sets {
    pub list: [u32; 32],
}

// The first n sets, then zeros.
fn first_sets(sets: [u32; 32], n: usize) -> Sets
    requires { n ≤ 32 }
    ensures { result.list ≡ first_m sets n }
{
    let mut list = [0u32; 32];
    for i in 0..n {
        list[i] = sets[i];
    }
    Sets { list }
}

// The declared entities that each automation reads, and those that it writes.
#[derive(Clone, Copy)]
pub struct Touched {
    pub reads: [u32; 32],
    pub writes: [u32; 32],
}

fn rule_sets(
    s: &[u8],
    entities: &Positions,
    declared: Extent,
    rules: &Positions,
    extent: Extent,
) -> Touched
    requires { (declared.count ≤ 32) × (extent.count ≤ 32) }
    ensures { (result.reads ≡ read_sets s.now (section_of entities.now declared) (section_of rules.now extent))
        × (result.writes ≡ write_sets s.now (section_of entities.now declared) (section_of rules.now extent)) }
{
    let n = extent.count as usize;
    let many = declared.count;
    let mut reads = [0u32; 32];
    let mut writes = [0u32; 32];
    for i in 0..n {
        let at = rules[i];
        let mut list = [0usize; layout::ACTION_POSITIONS];
        let c = lint_walk::rule_walk(s, at, &mut list);
        let count = c.count;
        reads[i] = lint_access::reads(s, entities, many, at, &list, count);
        writes[i] = lint_access::writes(s, entities, many, &list, count);
    }
    Touched { reads, writes }
}

// ---- the answer

// What the tests need of a model with so many texts, beside positions.
fn given_of(s: &[u8], entities: Extent, invariants: Extent, rules: Extent, texts: u32) -> Given
    ensures { result ≡ given_by s.now entities invariants rules texts }
{
    Given {
        entities,
        invariants,
        rules,
        on: model_order::place_of(s, b"on", texts),
        off: model_order::place_of(s, b"off", texts),
        star: model_order::place_of(s, b"*", texts),
    }
}

// The answer of a model whose entries all have their place.
fn told(s: &[u8], index: Index, out: Out, found: Components) -> Report
    requires { Bounds index × (found.count ≤ 32) }
    ensures { Tells s.now index out found result }
{
    let entities = index.entities;
    let end = entities.end;
    let declared = Extent {
        count: entities.count,
        end,
    };
    let rules = index.rules;
    let last = rules.end;
    let extent = Extent {
        count: rules.count,
        end: last,
    };
    let sets = found.sets;
    let c = first_sets(sets, found.count);
    let t = rule_sets(s, &entities.starts, declared, &rules.starts, extent);
    let u = lint_undeclared::undeclared_names(
        s,
        &entities.starts,
        declared,
        &rules.starts,
        extent,
        index.texts.count,
    );
    let cycles = c.list;
    let reads = t.reads;
    let writes = t.writes;
    let names = u.names;
    let readers = u.readers;
    Report {
        refused: 0,
        findings: out.findings,
        interactions: out.interactions,
        components: found.count,
        cycles,
        reads,
        writes,
        undeclared: u.count,
        names,
        readers,
    }
}

// All entries of an accepted model into areas of zeros: their counts or the refusal, and the components.
fn inserted(s: &[u8], index: Index, findings: &mut [u32], interactions: &mut [u32]) -> Linted
    requires { Bounds index }
    ensures { Inserts s.now index findings.old interactions.old result
        (board findings.new interactions.new result.out) }
{
    let entities = index.entities;
    let end = entities.end;
    let declared = Extent {
        count: entities.count,
        end,
    };
    let invariants = index.invariants;
    let close = invariants.end;
    let kept = Extent {
        count: invariants.count,
        end: close,
    };
    let rules = index.rules;
    let last = rules.end;
    let extent = Extent {
        count: rules.count,
        end: last,
    };
    let given = given_of(s, declared, kept, extent, index.texts.count);
    let start = Out {
        findings: 0,
        interactions: 0,
        refusal: 0,
    };
    lint_areas::clear(findings, interactions);
    let l = lint_collect::entries(
        s,
        &entities.starts,
        &invariants.starts,
        &rules.starts,
        given,
        findings,
        interactions,
        start,
    );
    let out = lint_notes::notes(s, rules, findings, l.out);
    let found = l.found;
    Linted { out, found }
}

// The lint of an accepted model.
fn linted(s: &[u8], index: Index, findings: &mut [u32], interactions: &mut [u32]) -> Report
    requires { Bounds index }
    ensures { AnswersAs s.now index result (lent findings.old interactions.old)
        (lent findings.new interactions.new) }
{
    let l = inserted(s, index, findings, interactions);
    let out = l.out;
    if out.refusal != 0 {
        lint_areas::clear(findings, interactions);
        return refused(out.refusal);
    }
    told(s, index, out, l.found)
}

// The lint of a model file, with lent areas of any size.
pub fn lint(file: &[u8], findings: &mut [u32], interactions: &mut [u32]) -> Report
    ensures { Answers file.now result (lent findings.old interactions.old) (lent findings.new interactions.new) }
{
    let x = model_validate::accept(file);
    let status = x.status;
    match status {
        Status::Refused(number) => refused(number),
        Status::Read => linted(file, x.index, findings, interactions),
    }
}
