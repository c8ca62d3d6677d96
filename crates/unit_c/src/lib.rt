// The unit's calls for C: numbers and byte slices, a slice as a pointer and a length. All have one order of parameters: the store,
// its count, the cord table, what is offered or asked, the output, the numbers answered, the tally. Each function returns 0, or the
// refusal's number of document 01; what it answers besides goes to numbers behind pointers, which a refusal leaves as they were, but for the count of
// a refused start, which is 0. Each makes one call of `unit`, or of the crate below it that answers by value, and shows the answer;
// `include/pelchunda.h` declares them.
// Kept, for C: it has no Result and no slices, so a refusal is a number, answers go behind pointers, and store, count and table come apart.

#![tactic(auto)]

ghost use Rattle.std.specs.Prelude.{◌≡◌, [], ◌∷◌, ◌++◌};
ghost use Rattle.event.specs.Answers.{answer_of, shown_number};
ghost use Rattle.store.specs.LookUp.{look_up_of};
ghost use Rattle.bundles.specs.FirstEvent.{first_of};
ghost use Rattle.takes.specs.Numbers.{placed_number, figure_list, tally_in};
ghost use Rattle.takes.specs.Takes.{start_of, take_of, bundle_of};
ghost use Rattle.tally.specs.Tallies.{take_tallied, bundle_tallied};
ghost use Rattle.reports.specs.Reports.{order_of, verdict_of, map_of, written_of};
ghost use Rattle.text.specs.Text.{text_of};
ghost use Rattle.unit_c.specs.Numbers.{
  kept,
  show_value,
  show_count,
  show_output,
  show_map,
  show_start,
  show_take,
  show_bundle,
  show_tallied,
  document_of,
  id_of,
  ids_of,
  version,
  written,
};

use event::{EVENT_BYTES, ID_BYTES};
use unit::{Held, Refusal, Tally};

// The version of these functions; the header has the same (`PELCHUNDA_VERSION_NUMBER`).
const VERSION: u32 = 20000;

// The version of the library that is linked, for a caller who compares it with the header's.
#[unsafe(no_mangle)]
pub extern "C" fn pelchunda_version() -> u32
    ensures { result ≡ version }
{
    VERSION
}

// The number that a refusal shows; 0 for an answer.
fn number<A: Copy>(answer: Result<A, Refusal>) -> u8
    ensures { result ≡ shown_number (answer_of answer) }
{
    answer.err().map_or(0, u8::from)
}

// An answer: 0 and its value, or the refusal's number, which leaves what stood there.
fn show<A: Copy>(answer: Result<A, Refusal>, value: &mut A) -> u8
    ensures number { result ≡ shown_number (answer_of answer) }
    ensures value { value.new ≡ kept (λ a. a) value.old (answer_of answer) }
{
    if let Ok(found) = &answer {
        *value = *found;
    }
    number(answer)
}

// Writes bytes to the front of an output, where they fit.
#[tactic(auto, using(crate::proofs::IdsWritten::written_front))]
fn write(out: &mut [u8], bytes: &[u8]) -> Result<(), Refusal>
    ensures { record { answer = answer_of result; out = out.new } ≡ written bytes.now out.old }
{
    if out.len() < bytes.len() {
        return Err(Refusal::ShortOutput);
    }
    octets::paste(out, 0, bytes);
    Ok(())
}

// Writes document 01's cord table, 512 bytes, to the front of the output. The table is made where there is room for it.
#[unsafe(no_mangle)]
pub extern "C" fn pelchunda_document_table(out: &mut [u8]) -> u8
    ensures { show_output (document_of out.old) ≡ record { number = result; buffer = out.new; behind = [] } }
{
    if out.len() < cords::TABLE_BYTES {
        return u8::from(Refusal::ShortOutput);
    }
    number(write(out, &unit::document_table()))
}

// Starts a unit with a create event; the count is then 1, and 0 after a refusal.
#[unsafe(no_mangle)]
pub extern "C" fn pelchunda_start(
    store: &mut [u8],
    count: &mut usize,
    table: &[u8],
    event: &[u8],
) -> u8
    ensures { show_start (start_of table.now store.old event.now)
        ≡ record { number = result; buffer = store.new; behind = count.new ∷ [] } }
{
    let started = unit::start(store, table, event);
    *count = started.count;
    number(started.answer)
}

// Takes one event: `repeat` is 0 where it was stored, 1 where its id is held already.
#[unsafe(no_mangle)]
pub extern "C" fn pelchunda_take(
    store: &mut [u8],
    count: &mut usize,
    table: &[u8],
    event: &[u8],
    repeat: &mut u8,
) -> u8
    ensures { show_take repeat.old (take_of table.now store.old count.old event.now)
        ≡ record { number = result; buffer = store.new; behind = count.new ∷ repeat.new ∷ [] } }
{
    let taken = unit::take(store, *count, table, event);
    *count = taken.count;
    show(taken.answer.map(u8::from), repeat)
}

// Takes one event and counts the answer in a tally of three figures: new, repeats, refused.
#[unsafe(no_mangle)]
pub extern "C" fn pelchunda_take_counted(
    store: &mut [u8],
    count: &mut usize,
    table: &[u8],
    event: &[u8],
    repeat: &mut u8,
    tally: &mut [u32; 3],
) -> u8
    ensures { show_tallied (show_take repeat.old)
        (take_tallied table.now store.old count.old event.now (tally_in tally.old))
        ≡ record { number = result; buffer = store.new; behind = count.new ∷ repeat.new ∷ tally.new } }
{
    let done = tally::take_with(store, *count, table, event, Tally::from(*tally));
    *tally = done.tally.into();
    *count = done.taken.count;
    show(done.taken.answer.map(u8::from), repeat)
}

// Takes each event of a bundle: how many were new, repeats and refused.
#[unsafe(no_mangle)]
pub extern "C" fn pelchunda_take_bundle(
    store: &mut [u8],
    count: &mut usize,
    table: &[u8],
    bundle: &[u8],
    figures: &mut [u32; 3],
) -> u8
    ensures { show_bundle figures.old
        (bundle_of table.now store.old count.old bundle.now)
        ≡ record { number = result; buffer = store.new; behind = count.new ∷ figures.new } }
{
    let taken = unit::take_bundle(store, *count, table, bundle);
    *count = taken.count;
    show(taken.answer.map(Tally::into), figures)
}

// Takes each event of a bundle and adds its figures to a tally.
#[unsafe(no_mangle)]
pub extern "C" fn pelchunda_take_bundle_counted(
    store: &mut [u8],
    count: &mut usize,
    table: &[u8],
    bundle: &[u8],
    figures: &mut [u32; 3],
    tally: &mut [u32; 3],
) -> u8
    ensures { show_tallied (show_bundle figures.old)
        (bundle_tallied table.now store.old count.old bundle.now (tally_in tally.old))
        ≡ record { number = result; buffer = store.new; behind = count.new ∷ (figures.new ++ tally.new) } }
{
    let done = tally::bundle_with(store, *count, table, bundle, Tally::from(*tally));
    *tally = done.tally.into();
    *count = done.taken.count;
    show(done.taken.answer.map(Tally::into), figures)
}

// Writes a row of 36 bytes for each settled event, in order; `rows` is their number.
#[unsafe(no_mangle)]
pub extern "C" fn pelchunda_order(
    store: &[u8],
    count: usize,
    table: &[u8],
    out: &mut [u8],
    rows: &mut usize,
) -> u8
    ensures { show_count rows.old (order_of table.now store.now count out.old)
        ≡ record { number = result; buffer = out.new; behind = rows.new ∷ [] } }
{
    let held = Held {
        store,
        count,
        table,
    };
    show(unit::order(held, out), rows)
}

// Writes a row of 8 bytes for each link, by port A: the number of rows, the links ended and the joins run.
#[unsafe(no_mangle)]
pub extern "C" fn pelchunda_map(
    store: &[u8],
    count: usize,
    table: &[u8],
    out: &mut [u8],
    rows: &mut usize,
    ended: &mut usize,
    joins: &mut usize,
) -> u8
    ensures { show_map (rows.old ∷ ended.old ∷ joins.old ∷ [])
        (map_of table.now store.now count out.old)
        ≡ record { number = result; buffer = out.new; behind = rows.new ∷ ended.new ∷ joins.new ∷ [] } }
{
    let held = Held {
        store,
        count,
        table,
    };
    let answer = unit::map(held, out);
    if let Ok(figures) = answer {
        *rows = figures.rows;
        *ended = figures.ended;
        *joins = figures.joins;
    }
    number(answer)
}

// Writes all held events to the output as a bundle; `bytes` is its length.
#[unsafe(no_mangle)]
pub extern "C" fn pelchunda_write_out(
    store: &[u8],
    count: usize,
    table: &[u8],
    out: &mut [u8],
    bytes: &mut usize,
) -> u8
    ensures { show_count bytes.old (written_of table.now store.now count out.old)
        ≡ record { number = result; buffer = out.new; behind = bytes.new ∷ [] } }
{
    let held = Held {
        store,
        count,
        table,
    };
    show(unit::write_out(held, out), bytes)
}

// Writes the text of the events held to the output; `bytes` is its length.
#[unsafe(no_mangle)]
pub extern "C" fn pelchunda_text(
    store: &[u8],
    count: usize,
    table: &[u8],
    out: &mut [u8],
    bytes: &mut usize,
) -> u8
    ensures { show_count bytes.old (text_of table.now store.now count out.old)
        ≡ record { number = result; buffer = out.new; behind = bytes.new ∷ [] } }
{
    let held = Held {
        store,
        count,
        table,
    };
    show(unit::text(held, out), bytes)
}

// The place of the held event with an id: its 192 bytes start at 192 times the place.
#[unsafe(no_mangle)]
pub extern "C" fn pelchunda_look_up(
    store: &[u8],
    count: usize,
    table: &[u8],
    id: &[u8],
    place: &mut u16,
) -> u8
    ensures { show_value place.old (look_up_of table.now store.now count id.now)
        ≡ record { number = result; buffer = []; behind = place.new ∷ [] } }
{
    let held = Held {
        store,
        count,
        table,
    };
    show(store::find(held, id), place)
}

// The verdict of the held event with an id: 0 waiting, 1 unsound, 2 void, 3 effective.
#[unsafe(no_mangle)]
pub extern "C" fn pelchunda_verdict(
    store: &[u8],
    count: usize,
    table: &[u8],
    id: &[u8],
    verdict: &mut u8,
) -> u8
    ensures { show_value verdict.old (verdict_of table.now store.now count id.now)
        ≡ record { number = result; buffer = []; behind = verdict.new ∷ [] } }
{
    let held = Held {
        store,
        count,
        table,
    };
    show(unit::verdict(held, id).map(u8::from), verdict)
}

// Where the first event of a bundle starts: its 192 bytes are at that offset.
#[unsafe(no_mangle)]
pub extern "C" fn pelchunda_first_event(bundle: &[u8], offset: &mut usize) -> u8
    ensures { show_value offset.old (first_of bundle.now)
        ≡ record { number = result; buffer = []; behind = offset.new ∷ [] } }
{
    show(bundles::find_first(bundle), offset)
}

// Writes the id of an event to the front of `id`: the SHA-256 of its 192 bytes, which are hashed where there is room for it.
#[tactic(auto, unfolding(crate::specs::Numbers::id_of))]
#[unsafe(no_mangle)]
pub extern "C" fn pelchunda_id(event: &[u8], id: &mut [u8]) -> u8
    ensures { show_output (id_of event.now id.old) ≡ record { number = result; buffer = id.new; behind = [] } }
{
    if event.len() != EVENT_BYTES {
        return u8::from(Refusal::WrongLength);
    }
    if id.len() < ID_BYTES {
        return u8::from(Refusal::ShortOutput);
    }
    number(write(id, &sha256::event_id(event)))
}

// Writes the ids of at most 256 events, each of 192 bytes, to the front of `ids`: side by side, so in less time than one by one.
#[tactic(auto, unfolding(crate::specs::Numbers::ids_of))]
#[unsafe(no_mangle)]
pub extern "C" fn pelchunda_ids(events: &[u8], ids: &mut [u8]) -> u8
    ensures { show_output (ids_of events.now ids.old) ≡ record { number = result; buffer = ids.new; behind = [] } }
{
    let n = events.len() / EVENT_BYTES;
    if !((events.len() == n * EVENT_BYTES) & (n <= bundles::MOST_EVENTS)) {
        return u8::from(Refusal::WrongLength);
    }
    if ids.len() < n * ID_BYTES {
        return u8::from(Refusal::ShortOutput);
    }
    event_ids::find_ids(events, n, ids);
    0
}
