// The model file with other events: the sections before them, the new events section, the later sections.
#![tactic(auto)]

ghost use Rattle.std.specs.Prelude.{◌≡◌, ◌++◌, ◌+◌, ◌*◌, ◌≤◌, ◌<◌, length, drop};
ghost use Rattle.model_spec.specs.Rewrite.{bytes2};
ghost use Rattle.model_rewrite.specs.Span.{span_m, body_m, nowhere};
ghost use Rattle.model_rewrite.specs.Written.{
  event_start,
  two_places,
  event_at,
  first_events,
  section_bytes,
  file_with,
};
ghost use Rattle.model_rewrite.specs.Written.{EventFits, EventsFit, Room, Wrote};

use model_parts::Part;

// The events section of a file: its count stands at `start`, and it ends before `end`.
#[derive(Clone, Copy)]
pub struct Span {
    pub start: usize,
    pub end: usize,
}

fn no_span() -> Span
    ensures { result ≡ nowhere }
{
    Span { start: 0, end: 0 }
}

// From the title on, for a file with this many texts.
fn events_behind(file: &[u8], texts: u32, at: usize) -> Span
    ensures { result ≡ body_m file.now texts at }
{
    let Some((p, _)) = model_walk::place_at(file, texts, at, 0) else {
        return no_span();
    };
    let entities = model_parts::section_at(file, texts, Part::Entity, p, 0);
    let Some((start, _)) = entities.end else {
        return no_span();
    };
    let events = model_parts::section_at(file, texts, Part::Event, start, 0);
    let Some((end, _)) = events.end else {
        return no_span();
    };
    Span { start, end }
}

// Where the events of a model file stand.
pub fn events_in(file: &[u8]) -> Span
    ensures { result ≡ span_m file.now }
{
    let texts = model_parts::section_at(file, 0, Part::Text, 4, 0);
    let count = texts.count;
    let Some((p, _)) = texts.end else {
        return no_span();
    };
    events_behind(file, count, p)
}

fn copy(s: &[u8], out: &mut [u8])
    requires { length s.now ≤ length out.old }
    ensures { out.new ≡ s.now ++ drop (length s.now) out.old }
{
    out[..s.len()].copy_from_slice(s);
}

// An event's second and its kind.
fn write_start(second: u32, kind: u32, out: &mut [u8])
    requires { (kind < 256) × (5 ≤ length out.old) }
    ensures { out.new ≡ event_start second kind ++ drop 5 out.old }
{
    out[0] = (second % 65536 % 256) as u8;
    out[1] = (second % 65536 / 256) as u8;
    out[2] = (second / 65536 % 256) as u8;
    out[3] = (second / 65536 / 256) as u8;
    out[4] = kind as u8;
}

// The places of an entity and of a value.
fn write_places(entity: u32, value: u32, out: &mut [u8])
    requires { (entity < 65536) × ((value < 65536) × (4 ≤ length out.old)) }
    ensures { out.new ≡ two_places entity value ++ drop 4 out.old }
{
    out[0] = (entity % 256) as u8;
    out[1] = (entity / 256) as u8;
    out[2] = (value % 256) as u8;
    out[3] = (value / 256) as u8;
}

// The k-th event. Only an event that sets has places.
fn write_event(events: &[u32], k: usize, out: &mut [u8]) -> usize
    requires { (k * 4 + 4 ≤ length events.now) × (EventFits events.now k
        × (length (event_at events.now k) ≤ length out.old)) }
    ensures { Wrote (event_at events.now k) result out.old out.new }
{
    let second = events[k * 4];
    let kind = events[k * 4 + 1];
    let entity = events[k * 4 + 2];
    let value = events[k * 4 + 3];
    write_start(second, kind, out);
    if kind != 0 {
        return 5;
    }
    write_places(entity, value, &mut out[5..]);
    9
}

// The first n events.
fn write_each(events: &[u32], n: usize, out: &mut [u8]) -> usize
    requires { EventsFit events.now n × (length (first_events events.now n) ≤ length out.old) }
    ensures { Wrote (first_events events.now n) result out.old out.new }
{
    let mut at: usize = 0;
    for k in 0..n {
        at += write_event(events, k, &mut out[at..]);
    }
    at
}

fn write_count(n: usize, out: &mut [u8])
    requires { (n < 65536) × (2 ≤ length out.old) }
    ensures { out.new ≡ bytes2 n ++ drop 2 out.old }
{
    out[0] = (n % 256) as u8;
    out[1] = (n / 256) as u8;
}

// The events section: the count of n events in two bytes, then the events.
pub fn write_events(events: &[u32], n: usize, out: &mut [u8]) -> usize
    requires { EventsFit events.now n × (length (section_bytes events.now n) ≤ length out.old) }
    ensures { Wrote (section_bytes events.now n) result out.old out.new }
{
    write_count(n, out);
    let size = write_each(events, n, &mut out[2..]);
    2 + size
}

// The file with n events in place of its own, whose section stands at `place`. The answer is the new length.
pub fn rewrite(file: &[u8], place: Span, events: &[u32], n: usize, out: &mut [u8]) -> usize
    requires { Room file.now place events.now n out.old }
    ensures { Wrote (file_with file.now place events.now n) result out.old out.new }
{
    let start = place.start;
    let end = place.end;
    copy(&file[0..start], out);
    let size = write_events(events, n, &mut out[start..]);
    let behind = start + size;
    copy(&file[end..], &mut out[behind..]);
    behind + (file.len() - end)
}
