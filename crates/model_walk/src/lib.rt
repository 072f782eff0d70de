// Walks over the parts of a model file: where a part ends, and the notes so far.
#![tactic(auto)]

ghost use Rattle.std.specs.Prelude.{◌≡◌, ◌+◌};
ghost use Rattle.model_spec.specs.File.{u8, u16, u32};
ghost use Rattle.model_walk.specs.Walk.{
  found,
  capped,
  ◌⨾◌,
  bytes_m,
  or_zeros_m,
  kind_m,
  place_m,
  place?M,
  note?M,
  note_m,
  predicate_size,
  predicate_m,
  trigger_m,
  piece_m,
  pieces_m,
  simple_m,
  choice_m,
  actions_m,
};

// A number and the position after it, where the file has one there.
pub type Num = Option<(u32, usize)>;

// The position after a part, and the notes so far: 65 stands for any number that is too large. None where the part breaks the
// file rules.
pub type Walked = Option<(usize, u32)>;

// Parts that stand in lists and hold no list.
#[derive(Clone, Copy)]
pub enum Piece {
    Place,
    Note,
    Predicate,
    Trigger,
}

// ---- leaves

pub fn u8_at(s: &[u8], at: usize) -> Num
    ensures { found result ≡ u8 s.now at }
{
    if at < s.len() {
        Some((texts::byte(s, at), at + 1))
    } else {
        None
    }
}

pub fn u16_at(s: &[u8], at: usize) -> Num
    ensures { found result ≡ u16 s.now at }
{
    if s.len() < 2 || s.len() - 2 < at {
        return None;
    }
    Some((texts::byte(s, at) + 256 * texts::byte(s, at + 1), at + 2))
}

pub fn u32_at(s: &[u8], at: usize) -> Num
    ensures { found result ≡ u32 s.now at }
{
    if s.len() < 4 || s.len() - 4 < at {
        return None;
    }
    Some((
        texts::byte(s, at)
            + 256 * texts::byte(s, at + 1)
            + 65536 * (texts::byte(s, at + 2) + 256 * texts::byte(s, at + 3)),
        at + 4,
    ))
}

pub fn bytes_at(s: &[u8], size: usize, at: usize, notes: u32) -> Walked
    ensures { result ≡ bytes_m size s.now at notes }
{
    if s.len() < size || s.len() - size < at {
        return None;
    }
    Some((at + size, notes))
}

// The bytes of a group of fields that the file may end before.
pub fn bytes_or_end_at(s: &[u8], size: usize, at: usize, notes: u32) -> Walked
    ensures { result ≡ or_zeros_m (bytes_m size) s.now at notes }
{
    if at < s.len() {
        bytes_at(s, size, at, notes)
    } else {
        Some((at, notes))
    }
}

fn more(notes: u32) -> u32
    ensures { result ≡ capped (notes + 1) }
{
    if notes < 64 { notes + 1 } else { 65 }
}

pub fn kind_at(s: &[u8], limit: u32, at: usize, notes: u32) -> Walked
    ensures { result ≡ kind_m limit s.now at notes }
{
    let (k, next) = u8_at(s, at)?;
    (k < limit).then_some((next, notes))
}

// ---- places in the texts, of which there are `texts`

pub fn place_at(s: &[u8], texts: u32, at: usize, notes: u32) -> Walked
    ensures { result ≡ place_m texts s.now at notes }
{
    let (place, next) = u16_at(s, at)?;
    (place < texts).then_some((next, notes))
}

fn optional_at(s: &[u8], texts: u32, at: usize, notes: u32) -> Walked
    ensures { result ≡ place?M texts s.now at notes }
{
    let (place, next) = u16_at(s, at)?;
    (place == layout::NO_PLACE || place < texts).then_some((next, notes))
}

fn optional_note_at(s: &[u8], texts: u32, at: usize, notes: u32) -> Walked
    ensures { result ≡ note?M texts s.now at notes }
{
    let (place, next) = u16_at(s, at)?;
    if place == layout::NO_PLACE {
        return Some((next, notes));
    }
    (place < texts).then_some((next, more(notes)))
}

fn note_at(s: &[u8], texts: u32, at: usize, notes: u32) -> Walked
    ensures { result ≡ note_m texts s.now at notes }
{
    let (next, before) = place_at(s, texts, at, notes)?;
    Some((next, more(before)))
}

pub fn two_places_at(s: &[u8], texts: u32, at: usize, notes: u32) -> Walked
    ensures { result ≡ (place_m texts ⨾ place_m texts) s.now at notes }
{
    let (p, n) = place_at(s, texts, at, notes)?;
    place_at(s, texts, p, n)
}

// ---- pieces, and lists of them

// How many bytes a predicate of this kind has, the kind itself counted.
pub fn predicate_size(kind: u32) -> u32
    ensures { result ≡ predicate_size kind }
{
    match kind {
        0 => 5,
        1 => 3,
        _ => 10,
    }
}

pub fn predicate_at(s: &[u8], texts: u32, at: usize, notes: u32) -> Walked
    ensures { result ≡ predicate_m texts s.now at notes }
{
    let (k, p) = u8_at(s, at)?;
    match k {
        0 => two_places_at(s, texts, p, notes),
        1 => note_at(s, texts, p, notes),
        2 => bytes_at(s, predicate_size(k) as usize - 1, p, notes),
        _ => None,
    }
}

fn trigger_at(s: &[u8], texts: u32, at: usize, notes: u32) -> Walked
    ensures { result ≡ trigger_m texts s.now at notes }
{
    let (p, k) = place_at(s, texts, at, notes)?;
    let (q, l) = optional_at(s, texts, p, k)?;
    let (t, m) = optional_at(s, texts, q, l)?;
    let (u, n) = bytes_at(s, 8, t, m)?;
    optional_note_at(s, texts, u, n)
}

fn piece_at(s: &[u8], texts: u32, piece: Piece, at: usize, notes: u32) -> Walked
    ensures { result ≡ piece_m texts piece s.now at notes }
{
    match piece {
        Piece::Place => place_at(s, texts, at, notes),
        Piece::Note => note_at(s, texts, at, notes),
        Piece::Predicate => predicate_at(s, texts, at, notes),
        Piece::Trigger => trigger_at(s, texts, at, notes),
    }
}

// A count, and as many pieces.
pub fn pieces_at(s: &[u8], texts: u32, piece: Piece, at: usize, notes: u32) -> Walked
    ensures { result ≡ pieces_m texts piece s.now at notes }
{
    let (count, start) = u16_at(s, at)?;
    let mut p = start;
    let mut n = notes;
    for _ in 0..count {
        let (q, m) = piece_at(s, texts, piece, p, n)?;
        p = q;
        n = m;
    }
    Some((p, n))
}

// ---- actions

// What follows the kind of an effect that holds no list.
fn simple_at(s: &[u8], texts: u32, kind: u32, at: usize, notes: u32) -> Walked
    ensures { result ≡ simple_m texts kind s.now at notes }
{
    match kind {
        0 => two_places_at(s, texts, at, notes),
        1 => place_at(s, texts, at, notes),
        2 => bytes_at(s, 4, at, notes),
        3 => predicate_at(s, texts, at, notes),
        5 => wait_at(s, texts, at, notes),
        6 => note_at(s, texts, at, notes),
        _ => None,
    }
}

fn wait_at(s: &[u8], texts: u32, at: usize, notes: u32) -> Walked
    ensures { result ≡ (trigger_m texts ⨾ bytes_m 4 ⨾ kind_m 2) s.now at notes }
{
    let (p, k) = trigger_at(s, texts, at, notes)?;
    let (q, l) = bytes_at(s, 4, p, k)?;
    kind_at(s, 2, q, l)
}

// A list of actions in which lists stand at most `left` deep, itself counted.
#[cycle(actions_at_choice_at)]
pub fn actions_at(s: &[u8], texts: u32, left: usize, at: usize, notes: u32) -> Walked
    ensures { result ≡ actions_m texts left s.now at notes }
{
    if left == 0 {
        return None;
    }
    let (count, start) = u16_at(s, at)?;
    let mut p = start;
    let mut n = notes;
    for _ in 0..count {
        let (after, kept) = bytes_at(s, 8, p, n)?;
        let (kind, next) = u8_at(s, after)?;
        let r = if kind == 4 {
            choice_at(s, texts, left - 1, next, kept)
        } else {
            simple_at(s, texts, kind, next, kept)
        };
        let (q, m) = r?;
        p = q;
        n = m;
    }
    Some((p, n))
}

// The branches of a choice and its default; its lists stand at most `left` deep.
#[cycle(actions_at_choice_at)]
pub fn choice_at(s: &[u8], texts: u32, left: usize, at: usize, notes: u32) -> Walked
    ensures { result ≡ choice_m texts (actions_m texts left) s.now at notes }
{
    let (count, start) = u16_at(s, at)?;
    let mut p = start;
    let mut n = notes;
    for _ in 0..count {
        let (next, kept) = pieces_at(s, texts, Piece::Predicate, p, n)?;
        let (q, m) = actions_at(s, texts, left, next, kept)?;
        p = q;
        n = m;
    }
    actions_at(s, texts, left, p, n)
}
