// Windows of the day: whether the window at a position of the file is open at a second of the simulation.
#![tactic(auto)]

ghost use Rattle.std.specs.Prelude.{◌≡◌, ◌<◌, ◌&&◌, ltb};
ghost use Rattle.engine_spec.specs.Truth.{marked, day_before, is_open, moment_after};
ghost use Rattle.engine_window.specs.Window.{open_m};

use engine_fields::{byte_at, four_at};
use layout::Table;

// Whether bit n of the days is set for weekday n.
fn marks(days: u32, weekday: u32) -> bool
    requires { weekday < 7 }
    ensures { result ≡ marked days weekday }
{
    (days >> weekday) % 2 == 1
}

// Whether a window is open at a second of a weekday. One that starts after its end runs past midnight.
fn is_open(days: u32, start: u32, end: u32, weekday: u32, second: u32) -> bool
    requires { weekday < 7 }
    ensures { result ≡ is_open days start end (record { weekday = weekday; second = second }) }
{
    if start < end {
        if second < start {
            return false;
        }
        if second < end {
            return marks(days, weekday);
        }
        return false;
    }
    if second < start {
        return open_from_midnight(days, end, weekday, second);
    }
    if marks(days, weekday) {
        return true;
    }
    open_from_midnight(days, end, weekday, second)
}

// Whether a window that started on the day before is open still.
fn open_from_midnight(days: u32, end: u32, weekday: u32, second: u32) -> bool
    requires { weekday < 7 }
    ensures { result ≡ (marked days (day_before weekday) && ltb second end) }
{
    if second < end {
        return marks(days, (weekday + 6) % 7);
    }
    false
}

// The weekday, so many seconds after a second of a weekday.
fn weekday_after(weekday: u32, second: u32, n: u32) -> u32
    ensures { (result ≡ (moment_after (record { weekday = weekday; second = second }) n).weekday) × (result < 7) }
{
    let days = (second as usize + n as usize) / 86400;
    ((weekday as usize + days) % 7) as u32
}

// The second of the day then.
fn second_after(weekday: u32, second: u32, n: u32) -> u32
    ensures { result ≡ (moment_after (record { weekday = weekday; second = second }) n).second }
{
    ((second as usize + n as usize) % 86400) as u32
}

// The window at a position, so many seconds after the table's start.
pub fn open_at(f: &[u8], x: &Table, n: u32, at: u32) -> bool
    ensures { result ≡ open_m f.now x.now n at }
{
    let weekday = weekday_after(x[layout::START_WEEKDAY], x[layout::START_SECOND], n);
    let second = second_after(x[layout::START_WEEKDAY], x[layout::START_SECOND], n);
    let p = at as usize;
    is_open(
        byte_at(f, p + 1),
        four_at(f, p + 2),
        four_at(f, p + 6),
        weekday,
        second,
    )
}
