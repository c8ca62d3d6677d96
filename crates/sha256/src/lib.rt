// SHA-256 of byte strings, as FIPS 180-4 defines it.
//
// It rests on octets::paste and on octets::all_zero. `digest` and `event_id` promise, for every slice, the 32
// bytes that `sha256` of specs/Sha256.antt gives: FIPS 180-4's own digest for each message of fewer than 2^64 bits.

#![tactic(auto)]

pub mod constants;

ghost use Rattle.std.specs.Prelude.{◌≡◌, ℕ, ◌+◌, ◌-◌, ◌*◌, ◌/◌, ◌%◌, ◌<◌, ◌≤◌, List, length, slice_index};
ghost use Rattle.std.specs.List.{fold};
ghost use Rattle.sha256.specs.Words.{◌⊞◌, Ch, Maj, Σ0, Σ1, σ0, σ1};
ghost use Rattle.sha256.specs.Constants.{K};
ghost use Rattle.sha256.specs.Sha256.{padded, word_at, words, H0, extended, one_round, rounds};
ghost use Rattle.sha256.specs.Sha256.{add_states, compress, hash_blocks, hash_all, digest_bytes, sha256};
ghost use Rattle.sha256.specs.FourthBlock.{padding_schedule};
ghost use Rattle.sha256.specs.Rolling.{AtHand, Grown, Rolling};
ghost use Rattle.sha256.specs.declared.State.{State};

use constants::{PADDING_SCHEDULE, ROUND_CONSTANTS};
use std::array;

// A hash value, or the working variables of a round.
#[derive(Clone, Copy)]
pub struct State {
    pub a: u32,
    pub b: u32,
    pub c: u32,
    pub d: u32,
    pub e: u32,
    pub f: u32,
    pub g: u32,
    pub h: u32,
}

// SHA-256 of a message of any length.
pub fn digest(message: &[u8]) -> [u8; 32]
    ensures { result ≡ sha256 message.now }
{
    let n = message.len();
    let s = hash_blocks(initial(), message);
    // The shift drops the bits above 2^64, as the definition does.
    to_bytes(hash_rest(s, &message[n / 64 * 64..], (n as u64) << 3))
}

// SHA-256 too, of an event. For its 192 bytes the fourth block is the same whatever they are, and so is its schedule.
pub fn event_id(event: &[u8]) -> [u8; 32]
    ensures { result ≡ sha256 event.now }
{
    if event.len() != 192 {
        return digest(event);
    }
    let (blocks, _) = event.as_chunks::<64>();
    let s1 = compress(initial(), &blocks[0]);
    let s2 = compress(s1, &blocks[1]);
    let s3 = compress_third(s2, &blocks[2]);
    to_bytes(add_states(s3, rounds_on(s3, &padding_schedule(), 0)))
}

// The schedule of the fourth block of 192 bytes.
pub fn padding_schedule() -> [u32; 64]
    ensures { result ≡ padding_schedule }
{
    PADDING_SCHEDULE
}

// 6.2.2, for the third block of an event: where it has at most one parent, the block is zeros, and so is its schedule.
fn compress_third(s: State, block: &[u8; 64]) -> State
    ensures { result ≡ compress s block.now }
{
    if octets::all_zero(block) {
        return add_states(s, rounds_on(s, &[0u32; 64], 0));
    }
    compress(s, block)
}

// The hash value after a message's whole blocks, from s on.
fn hash_blocks(s: State, message: &[u8]) -> State
    ensures { result ≡ hash_blocks s (length message.now / 64) message.now }
{
    let (blocks, _) = message.as_chunks::<64>();
    fold_blocks(s, blocks)
}

// The same, over the blocks themselves.
fn fold_blocks(s: State, blocks: &[[u8; 64]]) -> State
    ensures { result ≡ fold compress s blocks.now }
{
    blocks.iter().fold(s, |s, block| compress(s, block))
}

// The last one or two blocks: what is left of a message, less than a block, then the byte 0x80, zeros, and the eight bytes of the
// length. It is one block where they fit.
fn hash_rest(s: State, rest: &[u8], bits: u64) -> State
    requires { length rest.now < 64 }
    ensures { result ≡ hash_all s (padded rest.now bits) }
{
    let n = rest.len();
    let end = (n + 9).next_multiple_of(64);
    let mut tail = [0u8; 128];
    octets::paste(&mut tail, 0, rest);
    tail[n] = 0x80;
    octets::paste(&mut tail, end - 8, &bits.to_be_bytes());
    hash_blocks(s, &tail[..end])
}

// 5.3.3: the initial hash value.
pub fn initial() -> State
    ensures { result ≡ H0 }
{
    State {
        a: 0x6a09_e667,
        b: 0xbb67_ae85,
        c: 0x3c6e_f372,
        d: 0xa54f_f53a,
        e: 0x510e_527f,
        f: 0x9b05_688c,
        g: 0x1f83_d9ab,
        h: 0x5be0_cd19,
    }
}

// 6.2.2, for one block. Of the schedule, 16 words are at hand at a time, the word n at n % 16: so each stands at a place that is
// fixed in the code, where it is read soon after it was written.
fn compress(s: State, block: &[u8; 64]) -> State
    ensures { result ≡ compress s block.now }
{
    let mut w = load_words(block);
    let r = first_rounds(s, &mut w);
    add_states(s, rounds_on(r, &w, 48))
}

// The first 48 rounds, from the block's 16 words in w.
fn first_rounds(s0: State, w: &mut [u32; 16]) -> State
    ensures { Rolling (extended 48 w.old) s0 48 w.new result }
{
    let mut s = s0;
    for t in (0..48).step_by(16) {
        s = four_rounds_and_words(s, w, t, 0);
        s = four_rounds_and_words(s, w, t, 4);
        s = four_rounds_and_words(s, w, t, 8);
        s = four_rounds_and_words(s, w, t, 12);
    }
    s
}

// The rounds t + i to t + i + 3 for a t that 16 divides, each with the word 16 places on. To make the words beside the rounds is faster
// than before them.
// Kept, speed: sixteen rounds a turn, by fours. With one or four a turn the places of the words are not fixed, and one id took up to 1.17 of
// the reference's time; its bar is 1.05.
#[inline(always)]
fn four_rounds_and_words(s0: State, w: &mut [u32; 16], t: usize, i: usize) -> State
    requires { (t + 16 ≤ 48) × (t % 16 ≡ 0) × (i + 4 ≤ 16) }
    ensures { (x : List ℕ) (z : State) → Grown x → Rolling x z (t + i) w.old s0 → Rolling x z (t + (i + 4)) w.new result }
{
    let mut s = s0;
    for j in i..i + 4 {
        s = round_and_word(s, w, t, j);
    }
    s
}

// The round t + i, and the word t + i + 16 of the schedule, for a t that 16 divides.
#[inline(always)]
fn round_and_word(s: State, w: &mut [u32; 16], t: usize, i: usize) -> State
    requires { (t + 16 ≤ 48) × (t % 16 ≡ 0) × (i < 16) }
    ensures { (x : List ℕ) (z : State) → Grown x → Rolling x z (t + i) w.old s → Rolling x z (t + (i + 1)) w.new result }
{
    let x = w[i];
    w[i] = schedule_sum(x, w[(i + 1) % 16], w[(i + 9) % 16], w[(i + 14) % 16]);
    round(s, ROUND_CONSTANTS[t + i], x)
}

// The rounds from the round `from` on, with N words at hand: the last 16 of a rolling schedule, or a whole one.
fn rounds_on<const N: usize>(s0: State, w: &[u32; N], from: usize) -> State
    requires { (from ≤ 64) × (from % 8 ≡ 0) × (0 < N) }
    ensures { (x : List ℕ) (z : State) → AtHand N x from (64 - from) w.now → s0 ≡ rounds from x z → result ≡ rounds 64 x z }
{
    let mut s = s0;
    for t in (from..64).step_by(8) {
        s = four_rounds(s, w, t);
        s = four_rounds(s, w, t + 4);
    }
    s
}

// The rounds t to t + 3, with N words at hand: where s0 is what t rounds make of z, the result is what t + 4 rounds make of it.
#[inline(always)]
fn four_rounds<const N: usize>(s0: State, w: &[u32; N], t: usize) -> State
    requires { (t + 4 ≤ 64) × (0 < N) }
    ensures { (x : List ℕ) (z : State) → AtHand N x t 4 w.now → s0 ≡ rounds t x z → result ≡ rounds (t + 4) x z }
{
    let mut s = s0;
    for j in 0..4 {
        s = round_at(s, w, t + j);
    }
    s
}

// The round t, with N words at hand, the word n at n % N.
#[inline(always)]
fn round_at<const N: usize>(s: State, w: &[u32; N], t: usize) -> State
    requires { (t < 64) × (0 < N) }
    ensures { result ≡ one_round (slice_index K t) (slice_index w.now (t % N)) s }
{
    round(s, ROUND_CONSTANTS[t], w[t % N])
}

// 6.2.2, step 3: one round, with its constant and its word.
pub fn round(s: State, k: u32, w: u32) -> State
    ensures { result ≡ one_round k w s }
{
    let t1 = s
        .h
        .wrapping_add(big_sigma1(s.e))
        .wrapping_add(ch(s.e, s.f, s.g))
        .wrapping_add(k)
        .wrapping_add(w);
    let t2 = big_sigma0(s.a).wrapping_add(maj(s.a, s.b, s.c));
    State {
        a: t1.wrapping_add(t2),
        b: s.a,
        c: s.b,
        d: s.c,
        e: s.d.wrapping_add(t1),
        f: s.e,
        g: s.f,
        h: s.g,
    }
}

// 6.2.2, step 4: the next hash value, from the one before and the working variables.
pub fn add_states(s: State, t: State) -> State
    ensures { result ≡ add_states s t }
{
    State {
        a: s.a.wrapping_add(t.a),
        b: s.b.wrapping_add(t.b),
        c: s.c.wrapping_add(t.c),
        d: s.d.wrapping_add(t.d),
        e: s.e.wrapping_add(t.e),
        f: s.f.wrapping_add(t.f),
        g: s.g.wrapping_add(t.g),
        h: s.h.wrapping_add(t.h),
    }
}

// 6.2.2, step 1: the word t + 16 of the schedule, from the words t, t + 1, t + 9 and t + 14.
pub fn schedule_sum(w0: u32, w1: u32, w9: u32, w14: u32) -> u32
    ensures { result ≡ σ1 w14 ⊞ w9 ⊞ σ0 w1 ⊞ w0 }
{
    small_sigma1(w14)
        .wrapping_add(w9)
        .wrapping_add(small_sigma0(w1))
        .wrapping_add(w0)
}

// 5.2.1: the block's 16 words.
fn load_words(block: &[u8; 64]) -> [u32; 16]
    ensures { result ≡ words 16 block.now }
{
    array::from_fn(|i| load_word(block, i))
}

// The word j of a block.
pub fn load_word(block: &[u8], j: usize) -> u32
    requires { (j < 16) × (length block.now ≡ 64) }
    ensures { result ≡ word_at block.now j }
{
    let at = j * 4;
    u32::from_be_bytes([block[at], block[at + 1], block[at + 2], block[at + 3]])
}

// 6.2.2: the digest that a hash value gives, its eight words one after another.
pub fn to_bytes(s: State) -> [u8; 32]
    ensures { result ≡ digest_bytes s }
{
    let mut out = [0u8; 32];
    for (i, word) in [s.a, s.b, s.c, s.d, s.e, s.f, s.g, s.h].iter().enumerate() {
        octets::paste(&mut out, i * 4, &word.to_be_bytes());
    }
    out
}

// 4.1.2, (4.2) to (4.7): the functions on words. The first two are written so as to need fewer operations; in a row of rounds
// x ^ y is the y ^ z of the next.
fn ch(x: u32, y: u32, z: u32) -> u32
    ensures { result ≡ Ch x y z }
{
    z ^ (x & (y ^ z))
}

fn maj(x: u32, y: u32, z: u32) -> u32
    ensures { result ≡ Maj x y z }
{
    y ^ ((x ^ y) & (y ^ z))
}

fn big_sigma0(x: u32) -> u32
    ensures { result ≡ Σ0 x }
{
    x.rotate_right(2) ^ x.rotate_right(13) ^ x.rotate_right(22)
}

fn big_sigma1(x: u32) -> u32
    ensures { result ≡ Σ1 x }
{
    x.rotate_right(6) ^ x.rotate_right(11) ^ x.rotate_right(25)
}

fn small_sigma0(x: u32) -> u32
    ensures { result ≡ σ0 x }
{
    x.rotate_right(7) ^ x.rotate_right(18) ^ (x >> 3)
}

fn small_sigma1(x: u32) -> u32
    ensures { result ≡ σ1 x }
{
    x.rotate_right(17) ^ x.rotate_right(19) ^ (x >> 10)
}
