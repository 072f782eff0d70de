// Walks over the parts that stand in a section of a model file, and a section: its count, and where its parts start.
#![tactic(auto)]

ghost use Rattle.std.specs.Prelude.{◌≡◌};
ghost use Rattle.model_parts.specs.Parts.{
  text_m,
  entity_m,
  input_m,
  event_m,
  condition_m,
  invariant_m,
  rule_m,
  part_m,
  put,
  no_starts,
  section_m,
  section,
};

use layout::Positions;
use model_walk::{Piece, Walked};

// What a section is a list of. Texts don't name texts; any other part does.
#[derive(Clone, Copy)]
pub enum Part {
    Text,
    Entity,
    Event,
    Invariant,
    Input,
    Gap,
    Rule,
}

// The count of a section's parts, the positions of the first 100 of them, then zeros; and where it ends.
#[derive(Clone, Copy)]
pub struct Section {
    pub count: u32,
    pub starts: Positions,
    pub end: Walked,
}

// A section but for the positions.
#[derive(Clone, Copy)]
pub struct Extent {
    pub count: u32,
    pub end: Walked,
}

pub fn text_at(s: &[u8], at: usize, notes: u32) -> Walked
    ensures { result ≡ text_m s.now at notes }
{
    let (count, start) = model_walk::u8_at(s, at)?;
    let mut p = start;
    for _ in 0..count {
        let (b, q) = model_walk::u8_at(s, p)?;
        if b < 32 || 126 < b {
            return None;
        }
        p = q;
    }
    Some((p, notes))
}

fn entity_at(s: &[u8], texts: u32, at: usize, notes: u32) -> Walked
    ensures { result ≡ entity_m texts s.now at notes }
{
    let (p, k) = model_walk::place_at(s, texts, at, notes)?;
    let (q, l) = model_walk::pieces_at(s, texts, Piece::Place, p, k)?;
    let (t, m) = model_walk::place_at(s, texts, q, l)?;
    let (u, n) = model_walk::kind_at(s, 4, t, m)?;
    model_walk::bytes_at(s, 4, u, n)
}

fn input_at(s: &[u8], texts: u32, at: usize, notes: u32) -> Walked
    ensures { result ≡ input_m texts s.now at notes }
{
    let (k, p) = model_walk::u8_at(s, at)?;
    match k {
        0 => model_walk::two_places_at(s, texts, p, notes),
        1 | 2 => Some((p, notes)),
        _ => None,
    }
}

fn event_at(s: &[u8], texts: u32, at: usize, notes: u32) -> Walked
    ensures { result ≡ event_m texts s.now at notes }
{
    let (p, k) = model_walk::bytes_at(s, 4, at, notes)?;
    input_at(s, texts, p, k)
}

// What follows an invariant's kind and its identifier.
fn condition_at(s: &[u8], texts: u32, kind: u32, at: usize, notes: u32) -> Walked
    ensures { result ≡ condition_m texts kind s.now at notes }
{
    match kind {
        0 => model_walk::pieces_at(s, texts, Piece::Predicate, at, notes),
        1 => {
            let (p, k) = model_walk::two_places_at(s, texts, at, notes)?;
            model_walk::pieces_at(s, texts, Piece::Predicate, p, k)
        }
        2 => {
            let (q, l) = model_walk::two_places_at(s, texts, at, notes)?;
            model_walk::place_at(s, texts, q, l)
        }
        3 => {
            let (t, m) = model_walk::predicate_at(s, texts, at, notes)?;
            let (u, n) = model_walk::predicate_at(s, texts, t, m)?;
            model_walk::bytes_at(s, 4, u, n)
        }
        _ => None,
    }
}

fn invariant_at(s: &[u8], texts: u32, at: usize, notes: u32) -> Walked
    ensures { result ≡ invariant_m texts s.now at notes }
{
    let (kind, p) = model_walk::u8_at(s, at)?;
    let (q, n) = model_walk::place_at(s, texts, p, notes)?;
    condition_at(s, texts, kind, q, n)
}

fn rule_at(s: &[u8], texts: u32, at: usize, notes: u32) -> Walked
    ensures { result ≡ rule_m texts s.now at notes }
{
    let (p0, n0) = model_walk::place_at(s, texts, at, notes)?;
    let (p1, n1) = model_walk::kind_at(s, 4, p0, n0)?;
    let (p2, n2) = model_walk::bytes_at(s, 4, p1, n1)?;
    let (p3, n3) = model_walk::pieces_at(s, texts, Piece::Trigger, p2, n2)?;
    let (p4, n4) = model_walk::pieces_at(s, texts, Piece::Predicate, p3, n3)?;
    let (p5, n5) = model_walk::actions_at(s, texts, 18, p4, n4)?;
    let (p6, n6) = model_walk::bytes_at(s, 8, p5, n5)?;
    model_walk::pieces_at(s, texts, Piece::Note, p6, n6)
}

pub fn part_at(s: &[u8], texts: u32, part: Part, at: usize, notes: u32) -> Walked
    ensures { result ≡ part_m texts part s.now at notes }
{
    match part {
        Part::Text => text_at(s, at, notes),
        Part::Entity => entity_at(s, texts, at, notes),
        Part::Event => event_at(s, texts, at, notes),
        Part::Invariant => invariant_at(s, texts, at, notes),
        Part::Input => input_at(s, texts, at, notes),
        Part::Gap => model_walk::bytes_at(s, 4, at, notes),
        Part::Rule => rule_at(s, texts, at, notes),
    }
}

// The position of the i-th part, if there is room for it.
fn put(starts: &mut Positions, i: usize, at: usize)
    ensures { starts.new ≡ put i at starts.old }
{
    if i < 100 {
        starts[i] = at;
    }
}

// A section whose positions go into a lent array; that is all zeros before.
pub fn section_into(
    s: &[u8],
    texts: u32,
    part: Part,
    at: usize,
    notes: u32,
    starts: &mut Positions,
) -> Extent
    requires { starts.old ≡ no_starts }
    ensures { section result starts.new ≡ section_m (part_m texts part) s.now at notes }
{
    let Some((count, start)) = model_walk::u16_at(s, at) else {
        return Extent {
            count: 0,
            end: None,
        };
    };
    let mut p = start;
    let mut n = notes;
    for i in 0..count {
        put(starts, i as usize, p);
        let Some((q, m)) = part_at(s, texts, part, p, n) else {
            return Extent { count, end: None };
        };
        p = q;
        n = m;
    }
    Extent {
        count,
        end: Some((p, n)),
    }
}

pub fn section_at(s: &[u8], texts: u32, part: Part, at: usize, notes: u32) -> Section
    ensures { result ≡ section_m (part_m texts part) s.now at notes }
{
    let mut starts = [0usize; layout::POSITIONS];
    let x = section_into(s, texts, part, at, notes, &mut starts);
    let end = x.end;
    Section {
        count: x.count,
        starts,
        end,
    }
}
