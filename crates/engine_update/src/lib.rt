// Writes of a simulation, and what follows from them.
#![tactic(auto)]

ghost use Rattle.std.specs.Prelude.{◌<◌};
ghost use Rattle.engine_state.specs.Steps.{Moves, Does, goes, kept, still, FitsQ, FitsQa, by};
ghost use Rattle.engine_update.specs.Update.{expiry_m, changed_m, update_m};

use engine_fields::name_of;
use engine_state::{Move, Setting, State, add, after};
use layout::Table;
use queue::Work;

// The entity's value will be stale.
pub fn expiry(x: &Table, q: &mut [u32], versions: &[u32; 32], st: State, e: usize) -> State
    requires { (e < 32) × FitsQ st q.old }
    ensures { Moves (expiry_m x.now e) st result (by q) kept kept still kept (goes versions.now versions.now) kept }
{
    let ttl = engine_fields::stale_of(x, e);
    if ttl == 4294967295 {
        return st;
    }
    let version = versions[e];
    let entity = name_of(x, e);
    let second = after(after(st.now, ttl), 1);
    add(q, st, second, Work::Stale { entity, version })
}

// Word of a change goes out, if there is one.
pub fn changed(q: &mut [u32], st: State, m: Move) -> State
    requires { FitsQ st q.old }
    ensures { Does (changed_m m) st result (by q) kept kept still }
{
    if m.from == m.to {
        return st;
    }
    add(
        q,
        st,
        st.now,
        Work::Changed {
            entity: m.entity,
            from: m.from,
            to: m.to,
        },
    )
}

// A write, and what follows from it.
pub fn update(
    x: &Table,
    q: &mut [u32],
    a: &mut [u32],
    values: &mut [u32; 32],
    versions: &mut [u32; 32],
    st: State,
    w: Setting,
) -> State
    requires { FitsQa st q.old a.old }
    ensures { Moves (update_m x.now w) st result (by q) (by a) kept still (by values) (by versions) kept }
{
    let e = engine_fields::entity_of(x, w.entity);
    if 31 < e {
        return st;
    }
    let from = values[e];
    let m = Move {
        entity: w.entity,
        from,
        to: w.value,
    };
    values[e] = w.value;
    versions[e] = engine_state::more_than(versions[e]);
    let s1 = expiry(x, q, versions, st, e);
    let s2 = engine_state::log_write(a, s1, w, m);
    changed(q, s2, m)
}
