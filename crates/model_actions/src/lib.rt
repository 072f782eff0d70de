// Checks of actions and of lists of actions in a model file: what `validate` tests of each, in its order.
// As in `model_check`, a check that finds the file rules broken says 30.
#![tactic(auto)]

ghost use Rattle.std.specs.Prelude.{◌≡◌, ◌≤◌};
ghost use Rattle.model_check.specs.Checks.{declaration, ◌⨾◌, skip_m};
ghost use Rattle.model_actions.specs.Actions.{toggle_m, wait_m, count_m, simple_m, choice_m, actions_m};

use layout::Positions;
use model_check::{Checked, Declared};

fn toggle_check(s: &[u8], d: Declared, entities: &Positions, at: usize, n: u32) -> Checked
    requires { d.count ≤ 100 }
    ensures { result ≡ toggle_m (declaration d entities.now) s.now at n }
{
    let Some((entity, p)) = model_walk::u16_at(s, at) else {
        return Checked::Refused(30);
    };
    let a = model_check::value_check(s, d, entities, entity, d.on, p, n);
    let Checked::To(q, m) = a else {
        return a;
    };
    model_check::value_check(s, d, entities, entity, d.off, q, m)
}

fn wait_check(s: &[u8], d: Declared, entities: &Positions, at: usize, n: u32) -> Checked
    requires { d.count ≤ 100 }
    ensures { result ≡ wait_m (declaration d entities.now) s.now at n }
{
    let a = model_check::trigger_check(s, d, entities, at, n);
    let Checked::To(p, k) = a else {
        return a;
    };
    let b = model_check::day_check(s, 19, p, k);
    let Checked::To(q, l) = b else {
        return b;
    };
    model_check::skip(s, 1, q, l)
}

// What follows the kind of an effect that holds no list.
fn simple_check(
    s: &[u8],
    d: Declared,
    entities: &Positions,
    kind: u32,
    at: usize,
    n: u32,
) -> Checked
    requires { d.count ≤ 100 }
    ensures { result ≡ simple_m (declaration d entities.now) kind s.now at n }
{
    if kind == 0 {
        return model_check::pair_check(s, d, entities, at, n);
    }
    if kind == 1 {
        return toggle_check(s, d, entities, at, n);
    }
    if kind == 2 {
        return model_check::day_check(s, 18, at, n);
    }
    if kind == 3 {
        return model_check::predicate_check(s, d, entities, 0, at, n);
    }
    if kind == 5 {
        return wait_check(s, d, entities, at, n);
    }
    model_check::skip(s, 2, at, n)
}

// An action's count and its source: its kind stands at the position after them.
fn head_check(s: &[u8], at: usize, n: u32) -> Checked
    ensures { result ≡ (count_m ⨾ skip_m 8) s.now at n }
{
    if n < 512 {
        return model_check::skip(s, 8, at, n + 1);
    }
    Checked::Refused(17)
}

// A list of actions below which lists may stand `left` deep.
#[cycle(actions_check_choice_check)]
pub fn actions_check(
    s: &[u8],
    d: Declared,
    entities: &Positions,
    left: usize,
    at: usize,
    n: u32,
) -> Checked
    requires { d.count ≤ 100 }
    ensures { result ≡ actions_m (declaration d entities.now) left s.now at n }
{
    if left == 0 {
        return Checked::Refused(16);
    }
    let Some((count, start)) = model_walk::u16_at(s, at) else {
        return Checked::Refused(30);
    };
    let mut p = start;
    let mut m = n;
    for _ in 0..count {
        let y = head_check(s, p, m);
        let Checked::To(after, kept) = y else {
            return y;
        };
        let Some((kind, next)) = model_walk::u8_at(s, after) else {
            return Checked::Refused(30);
        };
        let r = if kind == 4 {
            choice_check(s, d, entities, left - 1, next, kept)
        } else {
            simple_check(s, d, entities, kind, next, kept)
        };
        let Checked::To(q, k) = r else {
            return r;
        };
        p = q;
        m = k;
    }
    Checked::To(p, m)
}

// The branches of a choice and its default: lists below which lists may stand `left - 1` deep.
#[cycle(actions_check_choice_check)]
pub fn choice_check(
    s: &[u8],
    d: Declared,
    entities: &Positions,
    left: usize,
    at: usize,
    n: u32,
) -> Checked
    requires { d.count ≤ 100 }
    ensures { result ≡ choice_m (declaration d entities.now) (actions_m (declaration d entities.now) left) s.now
        at n }
{
    let Some((count, start)) = model_walk::u16_at(s, at) else {
        return Checked::Refused(30);
    };
    let mut p = start;
    let mut m = n;
    for _ in 0..count {
        let y = model_check::predicates_check(s, d, entities, 0, p, m);
        let Checked::To(next, kept) = y else {
            return y;
        };
        let z = actions_check(s, d, entities, left, next, kept);
        let Checked::To(q, k) = z else {
            return z;
        };
        p = q;
        m = k;
    }
    actions_check(s, d, entities, left, p, m)
}
