// The reader of a model file: its index, or 30 or 31.
#![tactic(auto)]

ghost use Rattle.std.specs.Prelude.{◌≡◌, List, ℕ};
ghost use Rattle.model_spec.specs.File.{decode};
ghost use Rattle.model_parts.specs.Parts.{no_starts, section};
ghost use Rattle.model_index.specs.Index.{empty, refused_m, refusal_m, index_of, file_of, Zeros, rest_m, body_m};
ghost use Rattle.model_index.specs.Indexed.{Says};

use layout::Positions;
use model_parts::{Extent, Part, Section};

// Where the parts of a model file stand.
#[derive(Clone, Copy)]
pub struct Index {
    pub version: u32,
    pub texts: Section,
    pub title: usize,
    pub entities: Section,
    pub events: Section,
    pub invariants: Section,
    pub alphabet: Section,
    pub gaps: Section,
    pub limits: usize,
    pub rules: Section,
}

// What stands before the alphabet, but for the positions.
#[derive(Clone, Copy)]
pub struct Front {
    pub version: u32,
    pub texts: Extent,
    pub title: usize,
    pub entities: Extent,
    pub events: Extent,
    pub invariants: Extent,
}

#[derive(Clone, Copy)]
pub enum Status {
    Read,
    Refused(u32),
}

// What reading a file gives: whether it was read, and its index.
#[derive(Clone, Copy)]
pub struct File {
    pub status: Status,
    pub index: Index,
}

// What reading a file gives, but for the positions.
#[derive(Clone, Copy)]
pub struct Outline {
    pub status: Status,
    pub front: Front,
    pub alphabet: Extent,
    pub gaps: Extent,
    pub limits: usize,
    pub rules: Extent,
}

fn no_section() -> Section
    ensures { result ≡ empty }
{
    Section {
        count: 0,
        starts: [0usize; layout::POSITIONS],
        end: None,
    }
}

// A refused file has the empty index.
pub fn refused(number: u32) -> File
    ensures { result ≡ refused_m number }
{
    let x = no_section();
    let index = Index {
        version: 0,
        texts: x,
        title: 0,
        entities: x,
        events: x,
        invariants: x,
        alphabet: x,
        gaps: x,
        limits: 0,
        rules: x,
    };
    File {
        status: Status::Refused(number),
        index,
    }
}

// The outline of a refused file.
pub fn refusal(number: u32) -> Outline
    ensures { result ≡ refusal_m number }
{
    let x = Extent {
        count: 0,
        end: None,
    };
    let front = Front {
        version: 0,
        texts: x,
        title: 0,
        entities: x,
        events: x,
        invariants: x,
    };
    Outline {
        status: Status::Refused(number),
        front,
        alphabet: x,
        gaps: x,
        limits: 0,
        rules: x,
    }
}

// A section from its extent and its positions.
fn section(x: Extent, starts: &Positions) -> Section
    ensures { result ≡ section x starts.now }
{
    let end = x.end;
    Section {
        count: x.count,
        starts: *starts,
        end,
    }
}

// The file of an outline and its positions.
pub fn file_of(
    x: Outline,
    texts: &Positions,
    entities: &Positions,
    events: &Positions,
    invariants: &Positions,
    alphabet: &Positions,
    gaps: &Positions,
    rules: &Positions,
) -> File
    ensures { result ≡ file_of x texts.now entities.now events.now invariants.now alphabet.now gaps.now
        rules.now }
{
    let status = x.status;
    if let Status::Refused(number) = status {
        return refused(number);
    }
    let front = x.front;
    let index = Index {
        version: front.version,
        texts: section(front.texts, texts),
        title: front.title,
        entities: section(front.entities, entities),
        events: section(front.events, events),
        invariants: section(front.invariants, invariants),
        alphabet: section(x.alphabet, alphabet),
        gaps: section(x.gaps, gaps),
        limits: x.limits,
        rules: section(x.rules, rules),
    };
    File { status, index }
}

// What follows the invariants: the start stands where the automations end, unless the file ends there. At the end there are
// at most 64 notes, and no byte is left over.
fn rest_at(
    s: &[u8],
    front: Front,
    at: usize,
    notes: u32,
    alphabet: &mut Positions,
    gaps: &mut Positions,
    rules: &mut Positions,
) -> Outline
    requires { Zeros alphabet.old gaps.old rules.old }
    ensures { (t e v i : List ℕ) → file_of result t e v i alphabet.new gaps.new rules.new
        ≡ rest_m s.now front.texts.count (index_of front t e v i) at notes }
{
    let count = front.texts.count;
    let a = model_parts::section_into(s, count, Part::Input, at, notes, alphabet);
    let Some((p4, n4)) = a.end else {
        return refusal(30);
    };
    let b = model_parts::section_into(s, count, Part::Gap, p4, n4, gaps);
    let Some((p5, n5)) = b.end else {
        return refusal(30);
    };
    let Some((p6, n6)) = model_walk::bytes_at(s, 16, p5, n5) else {
        return refusal(30);
    };
    let d = model_parts::section_into(s, count, Part::Rule, p6, n6, rules);
    let Some((p7, n7)) = d.end else {
        return refusal(30);
    };
    let Some((p8, n8)) = model_walk::bytes_or_end_at(s, 8, p7, n7) else {
        return refusal(30);
    };
    if 64 < n8 {
        return refusal(30);
    }
    if p8 < s.len() {
        return refusal(31);
    }
    Outline {
        status: Status::Read,
        front,
        alphabet: a,
        gaps: b,
        limits: p5,
        rules: d,
    }
}

// What follows the texts.
fn body_at(
    s: &[u8],
    version: u32,
    texts: Extent,
    at: usize,
    entities: &mut Positions,
    events: &mut Positions,
    invariants: &mut Positions,
    alphabet: &mut Positions,
    gaps: &mut Positions,
    rules: &mut Positions,
) -> Outline
    requires { Zeros entities.old events.old invariants.old × Zeros alphabet.old gaps.old rules.old }
    ensures { (t : List ℕ) → file_of result t entities.new events.new invariants.new alphabet.new gaps.new rules.new
        ≡ body_m s.now version (section texts t) at }
{
    let count = texts.count;
    let Some((p0, _)) = model_walk::place_at(s, count, at, 0) else {
        return refusal(30);
    };
    let Some((p1, _)) = model_order::ascending_at(s, count, Part::Entity, false, p0) else {
        return refusal(30);
    };
    let x = model_parts::section_into(s, count, Part::Entity, p0, 0, entities);
    let y = model_parts::section_into(s, count, Part::Event, p1, 0, events);
    let Some((p2, n2)) = y.end else {
        return refusal(30);
    };
    let z = model_parts::section_into(s, count, Part::Invariant, p2, n2, invariants);
    let Some((p3, n3)) = z.end else {
        return refusal(30);
    };
    let front = Front {
        version,
        texts,
        title: at,
        entities: x,
        events: y,
        invariants: z,
    };
    rest_at(s, front, p3, n3, alphabet, gaps, rules)
}

// The outline and the positions of the model that the file decodes to, or 30 or 31. The arrays are all zeros before.
pub fn read(
    s: &[u8],
    texts: &mut Positions,
    entities: &mut Positions,
    events: &mut Positions,
    invariants: &mut Positions,
    alphabet: &mut Positions,
    gaps: &mut Positions,
    rules: &mut Positions,
) -> Outline
    requires { (texts.old ≡ no_starts) × (Zeros entities.old events.old invariants.old
        × Zeros alphabet.old gaps.old rules.old) }
    ensures { Says s.now (file_of result texts.new entities.new events.new invariants.new alphabet.new gaps.new rules.new)
        (decode s.now) }
{
    if 32768 < s.len() {
        return refusal(30);
    }
    let Some((version, start)) = model_walk::u32_at(s, 0) else {
        return refusal(30);
    };
    let Some((p, _)) = model_order::texts_at(s, start) else {
        return refusal(30);
    };
    let b = model_parts::section_into(s, 0, Part::Text, start, 0, texts);
    body_at(
        s, version, b, p, entities, events, invariants, alphabet, gaps, rules,
    )
}
