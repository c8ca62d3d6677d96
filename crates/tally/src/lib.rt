// Takes that count their answers in a tally that the caller lends. Each wrapper hands the tally by value to a function that
// takes and counts, and writes back the tally that this returns. Rests on `takes`.

#![tactic(auto)]

ghost use Rattle.std.specs.Prelude.{◌≡◌, ℕ};
ghost use Rattle.lists.specs.Bytes.{Bytes};
ghost use Rattle.event.specs.Answers.{Answer, answer_of};
ghost use Rattle.takes.specs.declared.Tally.{Tally};
ghost use Rattle.takes.specs.Takes.{Left, taken_left, take_of, counted, bundle_of};
ghost use Rattle.tally.specs.Tallies.{tallied, tallied_by, take_tallied, bundle_tallied};

use event::Refusal;
use takes::{Placed, Taken, Tally};

// What a call that takes answers, and how a tally counts it.
pub trait Countable: Copy {
    ghost left: { Bytes → Bytes → ℕ → Bytes → Left Self };

    ghost counted: { Tally → Answer Self → Tally };

    // Takes what is offered.
    fn take(store: &mut [u8], count: usize, table: &[u8], offered: &[u8]) -> Taken<Self>
        ensures { taken_left result store.new ≡ left table.now store.old count offered.now };

    // A tally with an answer.
    fn count(answer: Result<Self, Refusal>, t: Tally) -> Tally
        ensures { result ≡ counted t (answer_of answer) };
}

// A take raises one figure.
impl Countable for Placed {
    ghost left = { take_of };

    ghost counted = { counted };

    fn take(store: &mut [u8], count: usize, table: &[u8], e: &[u8]) -> Taken<Placed>
        ensures { taken_left result store.new ≡ take_of table.now store.old count e.now }
    {
        takes::take(store, count, table, e)
    }

    fn count(answer: Result<Placed, Refusal>, t: Tally) -> Tally
        ensures { result ≡ counted t (answer_of answer) }
    {
        takes::count_answer(t, answer)
    }
}

// A bundle's figures are added, and a refused one leaves the tally. A figure stays at the largest number.
impl Countable for Tally {
    ghost left = { bundle_of };

    ghost counted = { tallied };

    fn take(store: &mut [u8], count: usize, table: &[u8], b: &[u8]) -> Taken<Tally>
        ensures { taken_left result store.new ≡ bundle_of table.now store.old count b.now }
    {
        takes::take_bundle(store, count, table, b)
    }

    #[tactic(auto, unfolding(crate::specs::Tallies::tallied))]
    fn count(answer: Result<Tally, Refusal>, t: Tally) -> Tally
        ensures { result ≡ tallied t (answer_of answer) }
    {
        match answer {
            Ok(figures) => Tally {
                new: t.new.saturating_add(figures.new),
                repeats: t.repeats.saturating_add(figures.repeats),
                refused: t.refused.saturating_add(figures.refused),
            },
            Err(_) => t,
        }
    }
}

// What a call gives, and the tally with its answer counted.
#[derive(Clone, Copy)]
pub struct Counted<A> {
    pub tally: Tally,
    pub taken: Taken<A>,
}

// Takes, and counts the answer in a tally by value.
fn call_with<A: Countable>(
    store: &mut [u8],
    count: usize,
    table: &[u8],
    offered: &[u8],
    t: Tally,
) -> Counted<A>
    ensures { tallied_by A.left A.counted table.now store.old count offered.now t
        ≡ record { left = taken_left result.taken store.new; tally = result.tally } }
{
    let taken = A::take(store, count, table, offered);
    let tally = A::count(taken.answer, t);
    Counted { tally, taken }
}

// Takes, and counts the answer in the caller's tally.
fn call_counted<A: Countable>(
    store: &mut [u8],
    count: usize,
    table: &[u8],
    offered: &[u8],
    tally: &mut Tally,
) -> Taken<A>
    ensures { tallied_by A.left A.counted table.now store.old count offered.now tally.old
        ≡ record { left = taken_left result store.new; tally = tally.exit.now } }
{
    let done = call_with::<A>(store, count, table, offered, *tally);
    *tally = done.tally;
    done.taken
}

// Takes one event and counts the answer in a tally by value.
pub fn take_with(
    store: &mut [u8],
    count: usize,
    table: &[u8],
    e: &[u8],
    t: Tally,
) -> Counted<Placed>
    ensures { take_tallied table.now store.old count e.now t
        ≡ record { left = taken_left result.taken store.new; tally = result.tally } }
{
    call_with(store, count, table, e, t)
}

// Takes one event and counts the answer in the caller's tally.
pub fn take_counted(
    store: &mut [u8],
    count: usize,
    table: &[u8],
    e: &[u8],
    tally: &mut Tally,
) -> Taken<Placed>
    ensures { take_tallied table.now store.old count e.now tally.old
        ≡ record { left = taken_left result store.new; tally = tally.exit.now } }
{
    call_counted(store, count, table, e, tally)
}

// Takes a bundle and adds its figures to a tally by value.
pub fn bundle_with(
    store: &mut [u8],
    count: usize,
    table: &[u8],
    b: &[u8],
    t: Tally,
) -> Counted<Tally>
    ensures { bundle_tallied table.now store.old count b.now t
        ≡ record { left = taken_left result.taken store.new; tally = result.tally } }
{
    call_with(store, count, table, b, t)
}

// Takes a bundle and adds its figures to the caller's tally.
pub fn take_bundle_counted(
    store: &mut [u8],
    count: usize,
    table: &[u8],
    b: &[u8],
    tally: &mut Tally,
) -> Taken<Tally>
    ensures { bundle_tallied table.now store.old count b.now tally.old
        ≡ record { left = taken_left result store.new; tally = tally.exit.now } }
{
    call_counted(store, count, table, b, tally)
}
