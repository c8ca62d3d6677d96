// From sound to effective: which places no effective revoke strikes, the verdicts, and the places that run.

#![tactic(auto)]

ghost use Rattle.std.specs.Prelude.{◌≡◌, Bool, not, ◌&&◌, ◌||◌, ℕ, ◌<◌, ◌≤◌, eqb, length, map, get_or};
ghost use Rattle.ordering.specs.Order.{of_rank};
ghost use Rattle.ordering.specs.Placed.{Settled};
ghost use Rattle.tables.specs.Bits.{bit_at};
ghost use Rattle.authority.specs.Found.{place_number};
ghost use Rattle.verdicts.specs.Numbers.{verdict_number};
ghost use Rattle.verdicts.specs.Effects.{Within, ByRank, Graded, Effects, narrowed};
ghost use Rattle.verdicts.specs.Verdicts.{rank_of, verdict_of, JudgedPlaces};

use arrayvec::ArrayVec;
use authority::Lines;
use ordering::Named;
use std::array;
use tables::BitRow;

// The verdict of an event held.
#[derive(Clone, Copy, Debug, PartialEq, Eq)]
pub enum Verdict {
    // has no height: "a parent missing, or parents in a ring"
    Waiting = 0,
    // settled, but not sound
    Unsound = 1,
    // sound, but "some effective revoke has its target on the event's line and does not have the event as an ancestor"
    Void = 2,
    // the creator, and any other sound event
    Effective = 3,
}

// As a number: "0 waiting, 1 unsound, 2 void, 3 effective".
impl From<Verdict> for u8 {
    ghost use Rattle.std.specs.Prelude.{◌≡◌};
    ghost use Rattle.verdicts.specs.Numbers.{verdict_number};

    ghost from_gives = { λ verdict number. number ≡ verdict_number verdict };

    fn from(verdict: Verdict) -> u8 {
        verdict as u8
    }
}

// The level of the presented place; 0 for the creator and for a place that is not sound.
#[tactic(auto, unfolding(crate::specs::Verdicts::rank_of))]
fn rank(levels: &[u16], presented: &[Option<u8>; 256], sound: &[bool; 256], k: u8) -> u16
    ensures { result ≡ rank_of levels.now (map place_number presented.now) sound.now k }
{
    if k == 0 || !sound[usize::from(k)] {
        return 0;
    }
    match presented[usize::from(k)] {
        Some(by) => tables::entry(levels, u16::from(by), 0),
        None => 0,
    }
}

// Where place e is a revoke, its target keeps only the ancestors of e.
#[tactic(auto, using(tables::specs::Bits::bit_written), unfolding(tables::specs::Bits::bit_at))]
fn strike(targets: &[Option<u8>; 256], rows: &[BitRow; 256], keep: &mut [BitRow; 256], e: u8)
    ensures { (a b : ℕ) → a < 256 → bit_at keep.new a b
        ≡ (bit_at keep.old a b && (not (eqb a (get_or (map place_number targets.now) e 0)) || bit_at rows.now e b)) }
{
    if let Some(t) = targets[usize::from(e)] {
        let own = rows[usize::from(e)];
        keep[usize::from(t)].meet(own);
    }
}

// Whether e is effective: the row of the presented place keeps it. The row of e then keeps no more than that row, and an
// effective revoke strikes.
#[tactic(auto, using(tables::specs::Bits::bit_written), unfolding(crate::specs::Effects::narrowed, tables::specs::Bits::bit_at))]
fn effect(lines: &Lines, rows: &[BitRow; 256], keep: &mut [BitRow; 256], e: u8) -> bool
    requires { get_or (map place_number lines.now.presented) e 0 < 256 }
    ensures value { result ≡ bit_at keep.old (get_or (map place_number lines.now.presented) e 0) e }
    ensures kept { (a b : ℕ) → a < 256 → bit_at keep.new a b
        ≡ narrowed (map place_number lines.now.presented) (map place_number lines.now.targets) rows.now keep.old e a b }
{
    let Some(g) = lines.presented[usize::from(e)] else {
        return false;
    };
    let above = keep[usize::from(g)];
    let kept = above.has(u16::from(e));
    keep[usize::from(e)].meet(above);
    if kept {
        strike(&lines.targets, rows, keep, e);
    }
    kept
}

// Which places are effective, by a list of the sound ones by rank: what strikes a place stands before it. Row g of `keep` has the
// places that each effective revoke of g, or of a place on the line of g, has as an ancestor. The contract holds for all lines
// and ranks that suit the tables.
// Kept, no plainer: casts of places to u8, here and in `judge`. They are proved to fit, and try_from would have an error that never comes.
#[tactic(auto, using(crate::proofs::Turns::next_low, crate::proofs::Turns::presented_low))]
fn find_effects(lines: &Lines, rows: &[BitRow; 256], list: &[u16]) -> [bool; 256]
    requires { Within (map place_number lines.now.presented) list.now }
    ensures { (on : ℕ → ℕ → Bool) (rank : ℕ → ℕ)
        → Graded on rank (map place_number lines.now.presented) (map place_number lines.now.targets) list.now
        → ByRank rank list.now → Effects on (map place_number lines.now.targets) rows.now list.now result }
{
    let mut effective = [false; 256];
    effective[0] = true;
    let mut keep = [BitRow::full(); 256];
    for &place in list {
        let e = place as u8;
        let kept = effect(lines, rows, &mut keep, e);
        effective[usize::from(e)] = kept;
    }
    effective
}

// The verdict of place k.
#[tactic(auto, unfolding(crate::specs::Verdicts::verdict_of))]
fn verdict_at(levels: &[u16], sound: &[bool; 256], effective: &[bool; 256], k: u8) -> Verdict
    ensures { result ≡ verdict_of levels.now sound.now effective.now k }
{
    if tables::entry(levels, u16::from(k), 0) == 0 {
        return Verdict::Waiting;
    }
    if !sound[usize::from(k)] {
        return Verdict::Unsound;
    }
    if effective[usize::from(k)] {
        Verdict::Effective
    } else {
        Verdict::Void
    }
}

// The listed places that are effective, as they stand in the list.
#[tactic(auto, using(crate::proofs::Running::none, crate::proofs::Running::more, crate::proofs::Running::same, crate::proofs::Running::all))]
fn put_effective(list: &[u16], verdicts: &[Verdict; 256], run: &mut ArrayVec<u16, 256>)
    requires { length list.now ≤ 256 }
    ensures { run.new.items ≡ of_rank (map verdict_number verdicts.now) list.now 3 }
{
    run.clear();
    for &place in list {
        if let Verdict::Effective = tables::entry(verdicts, place, Verdict::Waiting) {
            run.push(place);
        }
    }
}

// The verdict of each event held, from the tables of a store that passed check 2: `order` are the settled places by level. Leaves
// in `run` the places that the plain machine runs, in order.
pub fn judge(
    store: &[u8],
    named: &Named,
    levels: &[u16],
    order: &[u16],
    verdicts: &mut [Verdict; 256],
    run: &mut ArrayVec<u16, 256>,
)
    requires { Settled store.now (length levels.now) named.now levels.now order.now }
    ensures { JudgedPlaces store.now (length levels.now) order.now
        (map verdict_number verdicts.new) run.new.items }
{
    let rows = ancestry::ancestors(named, order);
    let lines = Lines::find(store, named, order, &rows);
    let sound = lines.authorize(order);
    let ranks: [u16; 256] = array::from_fn(|k| rank(levels, &lines.presented, &sound, k as u8));
    let mut list = ArrayVec::new();
    let count = ordering::by_rank(order, &ranks, &mut list);
    list.truncate(count);
    let effective = find_effects(&lines, &rows, list.as_slice());
    *verdicts = array::from_fn(|k| verdict_at(levels, &sound, &effective, k as u8));
    put_effective(order, verdicts, run);
}
