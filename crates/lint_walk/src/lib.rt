// Reading of an accepted model file by position: numbers, where parts end, and an automation's actions in the order of
// Rust's walk. The file was read before, so that what is looked for is there; past the end of the file numbers are 0.
#![tactic(auto)]

ghost use Rattle.std.specs.Prelude.{◌≡◌, ◌+◌, ◌<◌, replicate};
ghost use Rattle.lint_walk.specs.Raw.{
  byte_m,
  place_m,
  number_m,
  past,
  predicate_end,
  predicates_end,
  simple_end,
  kind_m,
  triggers_m,
  conditions_m,
  actions_m,
};
ghost use Rattle.lint_walk.specs.Walks.{
  walk_of,
  moved_cursor_m,
  noted_m,
  entered_m,
  simple_m,
  list_m,
  choice_m,
  walk_m,
  list_end,
};

use layout::ActionPositions;

// ---- numbers

pub fn byte_at(s: &[u8], at: usize) -> u32
    ensures { result ≡ byte_m s.now at }
{
    let Some((v, _)) = model_walk::u8_at(s, at) else {
        return 0;
    };
    v
}

pub fn place_at(s: &[u8], at: usize) -> u32
    ensures { result ≡ place_m s.now at }
{
    let Some((v, _)) = model_walk::u16_at(s, at) else {
        return 0;
    };
    v
}

pub fn number_at(s: &[u8], at: usize) -> u32
    ensures { result ≡ number_m s.now at }
{
    let Some((v, _)) = model_walk::u32_at(s, at) else {
        return 0;
    };
    v
}

// The position `size` bytes on, or the end of the file.
pub fn past(s: &[u8], at: usize, size: usize) -> usize
    ensures { result ≡ past s.now at size }
{
    if s.len() < size {
        return s.len();
    }
    if s.len() - size < at {
        return s.len();
    }
    at + size
}

// ---- where parts end

pub fn predicate_end(s: &[u8], at: usize) -> usize
    ensures { result ≡ predicate_end s.now at }
{
    let kind = byte_at(s, at);
    past(s, at, model_walk::predicate_size(kind) as usize)
}

// A count, and as many predicates.
pub fn predicates_end(s: &[u8], at: usize) -> usize
    ensures { result ≡ predicates_end s.now at }
{
    let count = place_at(s, at);
    let mut p = past(s, at, 2);
    for _ in 0..count {
        p = predicate_end(s, p);
    }
    p
}

// What follows the kind of an effect that holds no list.
fn simple_end(s: &[u8], kind: u32, at: usize) -> usize
    ensures { result ≡ simple_end s.now kind at }
{
    match kind {
        0 => past(s, at, 4),
        2 => past(s, at, 4),
        3 => predicate_end(s, at),
        5 => past(s, at, 21),
        _ => past(s, at, 2),
    }
}

// The kind of the action at a position.
pub fn kind_at(s: &[u8], at: usize) -> u32
    ensures { result ≡ kind_m s.now at }
{
    byte_at(s, past(s, at, 8))
}

// ---- an automation's parts, from its position

// The count of its triggers.
pub fn triggers_at(s: &[u8], at: usize) -> usize
    ensures { result ≡ triggers_m s.now at }
{
    past(s, at, 7)
}

// The count of its conditions; a trigger has 16 bytes.
pub fn conditions_at(s: &[u8], at: usize) -> usize
    ensures { result ≡ conditions_m s.now at }
{
    let p = triggers_at(s, at);
    let count = place_at(s, p) as usize;
    past(s, past(s, p, 2), 16 * count)
}

// The count of its actions.
fn actions_at(s: &[u8], at: usize) -> usize
    ensures { result ≡ actions_m s.now at }
{
    predicates_end(s, conditions_at(s, at))
}

// ---- walking

// The positions of the actions so far, the first `count` of `list`, and the position that is next: what contracts speak of.
#[derive(Clone, Copy)]
pub struct Walk {
    pub list: ActionPositions,
    pub count: usize,
    pub next: usize,
}

// How many positions are listed so far, and the position that is next: a walk without its list, which is lent.
#[derive(Clone, Copy)]
pub struct Cursor {
    pub count: usize,
    pub next: usize,
}

fn moved(c: Cursor, next: usize) -> Cursor
    ensures { result ≡ moved_cursor_m c next }
{
    Cursor {
        count: c.count,
        next: next,
    }
}

// One action more, at the position that is next.
fn noted(list: &mut ActionPositions, c: Cursor) -> Cursor
    ensures { walk_of list.new result ≡ noted_m (walk_of list.old c) }
{
    let count = c.count;
    if count < 512 {
        list[count] = c.next;
        return Cursor {
            count: count + 1,
            next: c.next,
        };
    }
    c
}

// The action that is next is a choice: its branches are next.
fn entered(s: &[u8], list: &mut ActionPositions, c: Cursor) -> Cursor
    ensures { walk_of list.new result ≡ entered_m s.now (walk_of list.old c) }
{
    moved(noted(list, c), past(s, c.next, 9))
}

// The action that is next holds no list.
fn simple_walk(s: &[u8], list: &mut ActionPositions, c: Cursor) -> Cursor
    ensures { walk_of list.new result ≡ simple_m s.now (walk_of list.old c) }
{
    let kind = kind_at(s, c.next);
    let end = simple_end(s, kind, past(s, c.next, 9));
    moved(noted(list, c), end)
}

// A list of actions in which lists stand at most `left` deep, itself counted.
#[cycle(choice_walk_list_walk)]
fn list_walk(s: &[u8], left: usize, list: &mut ActionPositions, c: Cursor) -> Cursor
    ensures { walk_of list.new result ≡ list_m left s.now (walk_of list.old c) }
{
    if left == 0 {
        return c;
    }
    let count = place_at(s, c.next);
    let mut v = moved(c, past(s, c.next, 2));
    for _ in 0..count {
        if kind_at(s, v.next) == 4 {
            let w = entered(s, list, v);
            v = choice_walk(s, left - 1, list, w);
        } else {
            v = simple_walk(s, list, v);
        }
    }
    v
}

// The branches of a choice and its default; its lists stand at most `left` deep.
#[cycle(choice_walk_list_walk)]
fn choice_walk(s: &[u8], left: usize, list: &mut ActionPositions, c: Cursor) -> Cursor
    ensures { walk_of list.new result ≡ choice_m s.now (list_m left s.now) (walk_of list.old c) }
{
    let count = place_at(s, c.next);
    let mut v = moved(c, past(s, c.next, 2));
    for _ in 0..count {
        v = list_walk(s, left, list, moved(v, predicates_end(s, v.next)));
    }
    list_walk(s, left, list, v)
}

// The actions of the automation at a position, into a list of zeros; its source is next.
pub fn rule_walk(s: &[u8], at: usize, list: &mut ActionPositions) -> Cursor
    requires { list.old ≡ replicate 512 0 }
    ensures { walk_of list.new result ≡ walk_m s.now at }
{
    let start = Cursor {
        count: 0,
        next: actions_at(s, at),
    };
    list_walk(s, 18, list, start)
}

// The position behind a list of actions.
pub fn list_end(s: &[u8], at: usize) -> usize
    ensures { result ≡ list_end s.now at }
{
    let mut list = [0usize; layout::ACTION_POSITIONS];
    let start = Cursor { count: 0, next: at };
    list_walk(s, 18, &mut list, start).next
}

// The source of the automation at a position: it stands behind the actions.
pub fn source_at(s: &[u8], at: usize) -> usize
    ensures { result ≡ (walk_m s.now at).next }
{
    list_end(s, actions_at(s, at))
}
