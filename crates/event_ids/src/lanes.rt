// SHA-256 of four events side by side. The word j of lane l stands at l + j * 4 of an array, and the inner loop is over the lanes,
// four rounds in its body, which the compiler unrolls: it makes vector instructions of that loop.
ghost use Rattle.std.specs.Prelude.{◌≡◌, ℕ, true, false, ◌+◌, ◌-◌, ◌*◌, ◌%◌, ◌<◌, ◌≤◌, List, length, get_or, set, replicate, IsTrue, ◌↔◌, MatchOption};
ghost use Rattle.octets.specs.Octets.{all_zero};
ghost use Rattle.sha256.specs.Constants.{K};
ghost use Rattle.sha256.specs.Sha256.{padded, message_block, word_at, words, H0, schedule, extended, one_round, rounds};
ghost use Rattle.sha256.specs.Sha256.{add_states, compress, digest_bytes, sha256};
ghost use Rattle.event_ids.specs.Lanes.{schedule_at, block_at, state_at, lane_at, steps, rounds_from};
ghost use Rattle.event_ids.specs.Lanes.{event_at, block_of, padded_block, with_word, FourTimes};
ghost use Rattle.event_ids.specs.Lanes.{EachLane, OtherSchedules, OtherStates, Stepped};

use sha256::State;
use sha256::constants::ROUND_CONSTANTS;
use std::array;

// Four events, one behind another.
#[derive(Clone, Copy)]
pub struct FourEvents<'a> {
    bytes: &'a [u8],
    ghost long: { length bytes.now ≡ 768 },
}

impl<'a> FourEvents<'a> {
    pub fn new(bytes: &'a [u8]) -> Self
        requires { length bytes.now ≡ 768 }
        ensures { result.bytes.now ≡ bytes.now }
    {
        FourEvents { bytes }
    }

    // The block b of the event of lane l, the first, second or third.
    fn block(&self, b: usize, l: usize) -> &[u8]
        requires { (b < 3) × (l < 4) }
        ensures { result.now ≡ block_of l b self.now.bytes.now }
    {
        let at = l * 192 + b * 64;
        &self.bytes[at..at + 64]
    }

    // Whether that block is zeros in each lane, as the third block of an event with at most one parent is.
    fn is_zero(&self, b: usize) -> bool
        requires { b < 3 }
        ensures { IsTrue result ↔ EachLane (λ l. IsTrue (all_zero (block_of l b self.now.bytes.now))) }
    {
        (0..4).all(|l| octets::all_zero(self.block(b, l)))
    }
}

// 64 words, each four times.
pub fn four_times(k: &[u32; 64]) -> [u32; 256]
    ensures { FourTimes k.now result }
{
    array::from_fn(|i| k[i / 4])
}

// The round constants, each four times: so the constants of a round, one to a lane, are one vector.
#[derive(Drop)]
pub struct FourConstants {
    words: [u32; 256],
    ghost four_times: { FourTimes K words },
}

impl FourConstants {
    pub fn new() -> Self
        ensures { FourTimes K result.words }
    {
        FourConstants {
            words: four_times(&ROUND_CONSTANTS),
        }
    }

    // The constant of the round t, for lane l.
    fn at(&self, t: usize, l: usize) -> u32
        requires { (t < 64) × (l < 4) }
        ensures { result ≡ get_or K t 0 }
    {
        self.words[l + t * 4]
    }
}

// The states of four lanes.
// Kept, no plainer: a lane is a usize below 4: with a type for it each loop over the lanes would have to make one and show the same there.
#[derive(Clone, Copy)]
pub struct States {
    words: [u32; 32],
}

impl States {
    // The state of lane l.
    fn of_lane(&self, l: usize) -> State
        requires { l < 4 }
        ensures { result ≡ state_at l self.now.words }
    {
        State {
            a: self.words[l],
            b: self.words[l + 4],
            c: self.words[l + 8],
            d: self.words[l + 12],
            e: self.words[l + 16],
            f: self.words[l + 20],
            g: self.words[l + 24],
            h: self.words[l + 28],
        }
    }

    // Writes the state of lane l.
    fn put(&mut self, l: usize, s: State)
        requires { l < 4 }
        ensures lane { state_at l self.new.words ≡ s }
        ensures other_states { OtherStates l self.old.words self.new.words }
    {
        self.words[l] = s.a;
        self.words[l + 4] = s.b;
        self.words[l + 8] = s.c;
        self.words[l + 12] = s.d;
        self.words[l + 16] = s.e;
        self.words[l + 20] = s.f;
        self.words[l + 24] = s.g;
        self.words[l + 28] = s.h;
    }

    // In each lane, the initial hash value.
    fn initial() -> Self
        ensures { EachLane (λ l. state_at l result.words ≡ H0) }
    {
        let mut states = States { words: [0; 32] };
        for l in 0..4 {
            states.put(l, sha256::initial());
        }
        states
    }

    // In lane l, adds the state of old.
    fn add_lane(&mut self, old: &States, l: usize)
        requires { l < 4 }
        ensures lane { state_at l self.new.words ≡ add_states (state_at l old.now.words) (state_at l self.old.words) }
        ensures other_states { OtherStates l self.old.words self.new.words }
    {
        self.put(l, sha256::add_states(old.of_lane(l), self.of_lane(l)));
    }

    // In each lane, adds the state of old.
    fn add(&mut self, old: &States)
        ensures { EachLane (λ l. state_at l self.new.words ≡ add_states (state_at l old.now.words) (state_at l self.old.words)) }
    {
        for l in 0..4 {
            self.add_lane(old, l);
        }
    }

    // The id that lane l holds.
    pub fn id(&self, l: usize) -> [u8; 32]
        requires { l < 4 }
        ensures { result ≡ digest_bytes (state_at l self.now.words) }
    {
        sha256::to_bytes(self.of_lane(l))
    }
}

// Where the rounds take their words from.
trait Words {
    // The schedule of lane l.
    ghost of_lane: { Self → ℕ → List ℕ };

    // The word t of it.
    fn word(&self, t: usize, l: usize) -> u32
        requires { (t < 64) × (l < 4) }
        ensures { result ≡ get_or (of_lane self.now l) t 0 };
}

// A schedule that all lanes share.
impl Words for [u32; 64] {
    ghost of_lane = { λ w _. w };

    fn word(&self, t: usize, _l: usize) -> u32 {
        self[t]
    }
}

// A schedule of each lane, or the room for it.
#[derive(Drop)]
pub struct Schedules {
    words: [u32; 256],
}

impl Words for Schedules {
    ghost of_lane = { λ w l. schedule_at l w.words };

    fn word(&self, t: usize, l: usize) -> u32 {
        self.words[l + t * 4]
    }
}

impl Schedules {
    pub fn new() -> Self
        ensures { result.words ≡ replicate 256 0 }
    {
        Schedules { words: [0; 256] }
    }

    // Writes the word t of lane l.
    fn put(&mut self, t: usize, l: usize, word: u32)
        requires { (t < 64) × (l < 4) }
        ensures lane { schedule_at l self.new.words ≡ set (schedule_at l self.old.words) t word }
        ensures others { OtherSchedules l self.old.words self.new.words }
    {
        self.words[l + t * 4] = word;
    }

    // In each lane, the word j of the block b of its event.
    fn load_row(&mut self, events: &FourEvents, b: usize, j: usize)
        requires { (b < 3) × (j < 16) }
        ensures { EachLane (λ l. schedule_at l self.new.words
            ≡ set (schedule_at l self.old.words) j (word_at (block_of l b events.now.bytes.now) j)) }
    {
        for l in 0..4 {
            self.put(j, l, sha256::load_word(events.block(b, l), j));
        }
    }

    // In each lane, the words of that block, word by word: so the words that the rounds read first, of all lanes at once, have
    // been stored for some time when they are read.
    fn load(&mut self, events: &FourEvents, b: usize)
        requires { b < 3 }
        ensures { EachLane (λ l. block_at l self.new.words ≡ words 16 (block_of l b events.now.bytes.now)) }
    {
        for j in 0..16 {
            self.load_row(events, b, j);
        }
    }

    // In lane l, the word t + 16 of the schedule; gives the word t.
    fn next(&mut self, t: usize, l: usize) -> u32
        requires { (t < 48) × (l < 4) }
        ensures word { result ≡ get_or (schedule_at l self.old.words) t 0 }
        ensures lane { schedule_at l self.new.words ≡ with_word t (schedule_at l self.old.words) }
        ensures others { OtherSchedules l self.old.words self.new.words }
    {
        let word = self.word(t, l);
        let sum = sha256::schedule_sum(
            word,
            self.word(t + 1, l),
            self.word(t + 9, l),
            self.word(t + 14, l),
        );
        self.put(t + 16, l, sum);
        word
    }
}

// Kept, no plainer: states, words and constants stay three parameters: words are of two types, lent to write or to read, so two structs.
// Kept, no plainer: rounds that make words stay apart: a trait over both sources would say in its contract how many words are made by then.

// In lane l, the word t + 16 of the schedule and the round t.
fn round_and_word(s: State, w: &mut Schedules, k: &FourConstants, t: usize, l: usize) -> State
    requires { (t < 48) × (l < 4) }
    ensures { Stepped l t w.old.words w.new.words s result }
{
    let x = w.next(t, l);
    sha256::round(s, k.at(t, l), x)
}

// In lane l, the words t + 16 to t + 19 and the rounds t to t + 3.
fn lane_rounds_and_words(st: &mut States, w: &mut Schedules, k: &FourConstants, t: usize, l: usize)
    requires { (t + 4 ≤ 48) × (l < 4) }
    ensures lane { lane_at l w.new.words st.new.words ≡ steps t 4 (lane_at l w.old.words st.old.words) }
    ensures other_schedules { OtherSchedules l w.old.words w.new.words }
    ensures other_states { OtherStates l st.old.words st.new.words }
{
    let mut s = st.of_lane(l);
    for j in 0..4 {
        s = round_and_word(s, w, k, t + j, l);
    }
    st.put(l, s);
}

// In each lane, the words t + 16 to t + 19 and the rounds t to t + 3.
fn lanes_rounds_and_words(st: &mut States, w: &mut Schedules, k: &FourConstants, t: usize)
    requires { t + 4 ≤ 48 }
    ensures { EachLane (λ l. lane_at l w.new.words st.new.words ≡ steps t 4 (lane_at l w.old.words st.old.words)) }
{
    for l in 0..4 {
        lane_rounds_and_words(st, w, k, t, l);
    }
}

// In each lane, the first 48 rounds, which leave the whole schedule in w.
fn first_rounds(st: &mut States, w: &mut Schedules, k: &FourConstants)
    ensures schedules { EachLane (λ l. schedule_at l w.new.words ≡ extended 48 (block_at l w.old.words)) }
    ensures states { EachLane (λ l. state_at l st.new.words ≡ rounds 48 (schedule_at l w.new.words) (state_at l st.old.words)) }
{
    for t in (0..48).step_by(4) {
        lanes_rounds_and_words(st, w, k, t);
    }
}

// In lane l, the round t.
fn round_at<W: Words>(s: State, w: &W, k: &FourConstants, t: usize, l: usize) -> State
    requires { (t < 64) × (l < 4) }
    ensures { result ≡ one_round (get_or K t 0) (get_or (W.of_lane w.now l) t 0) s }
{
    sha256::round(s, k.at(t, l), w.word(t, l))
}

// In lane l, the rounds t to t + 3.
fn lane_rounds<W: Words>(st: &mut States, w: &W, k: &FourConstants, t: usize, l: usize)
    requires { (t + 4 ≤ 64) × (l < 4) }
    ensures lane { state_at l st.new.words ≡ rounds_from t 4 (W.of_lane w.now l) (state_at l st.old.words) }
    ensures other_states { OtherStates l st.old.words st.new.words }
{
    let mut r = st.of_lane(l);
    for j in 0..4 {
        r = round_at(r, w, k, t + j, l);
    }
    st.put(l, r);
}

// In each lane, the rounds t to t + 3.
fn lanes_rounds<W: Words>(st: &mut States, w: &W, k: &FourConstants, t: usize)
    requires { t + 4 ≤ 64 }
    ensures { EachLane (λ l. state_at l st.new.words ≡ rounds_from t 4 (W.of_lane w.now l) (state_at l st.old.words)) }
{
    for l in 0..4 {
        lane_rounds(st, w, k, t, l);
    }
}

// In each lane, the rounds from the round `from` on.
fn rounds_on<W: Words>(st: &mut States, w: &W, k: &FourConstants, from: usize)
    requires { (from ≤ 64) × (from % 4 ≡ 0) }
    ensures { EachLane (λ l. state_at l st.new.words ≡ rounds_from from (64 - from) (W.of_lane w.now l) (state_at l st.old.words)) }
{
    for t in (from..64).step_by(4) {
        lanes_rounds(st, w, k, t);
    }
}

// In each lane, all rounds for the block whose 16 words stand at the front of its schedule.
fn all_rounds(st: &mut States, w: &mut Schedules, k: &FourConstants)
    ensures { EachLane (λ l. state_at l st.new.words ≡ rounds 64 (extended 48 (block_at l w.old.words)) (state_at l st.old.words)) }
{
    first_rounds(st, w, k);
    rounds_on(st, w, k, 48);
}

// The schedule of the block b where it is known beforehand: of the padding, and of zeros in each lane. Both come from here, so that
// the rounds by a shared schedule have one place where they are called, and are compiled into it.
fn known_schedule(events: &FourEvents, b: usize) -> Option<[u32; 64]>
    requires { b < 4 }
    ensures { MatchOption result (b < 3) (λ w. EachLane (λ l. w ≡ schedule (padded_block l b events.now.bytes.now))) }
{
    if b == 3 {
        return Some(sha256::padding_schedule());
    }
    if events.is_zero(b) {
        Some([0; 64])
    } else {
        None
    }
}

// In each lane, all rounds for the block b of its padded event.
fn block_rounds(
    st: &mut States,
    w: &mut Schedules,
    k: &FourConstants,
    events: &FourEvents,
    b: usize,
)
    requires { b < 4 }
    ensures { EachLane (λ l. state_at l st.new.words ≡ rounds 64 (schedule (padded_block l b events.now.bytes.now)) (state_at l st.old.words)) }
{
    if let Some(shared) = known_schedule(events, b) {
        rounds_on(st, &shared, k, 0);
    } else {
        w.load(events, b);
        all_rounds(st, w, k);
    }
}

// In each lane, 6.2.2 of FIPS 180-4 for the block b of its padded event.
fn compress_lanes(
    st: &mut States,
    w: &mut Schedules,
    k: &FourConstants,
    events: &FourEvents,
    b: usize,
)
    requires { b < 4 }
    ensures { EachLane (λ l. state_at l st.new.words ≡ compress (state_at l st.old.words) (padded_block l b events.now.bytes.now)) }
{
    let old = *st;
    block_rounds(st, w, k, events, b);
    st.add(&old);
}

// The hash values of four events, one to a lane, with room for their schedules in w. The compression has one place where it is
// called, and so has this function: so both are compiled into the caller's loop, where the arrays are local, and the compiler
// knows that they do not overlap.
pub fn four_states(events: &FourEvents, k: &FourConstants, w: &mut Schedules) -> States
    ensures { EachLane (λ l. digest_bytes (state_at l result.words) ≡ sha256 (event_at l events.now.bytes.now)) }
{
    let mut st = States::initial();
    for b in 0..4 {
        compress_lanes(&mut st, w, k, events, b);
    }
    st
}
