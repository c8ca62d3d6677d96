// Working tables: u16 entries, and rows of bits.

#![tactic(auto)]

ghost use Rattle.std.specs.Prelude.{◌≡◌, ◌&&◌, ◌||◌, true, false, ℕ, ◌<◌, eqb, get_or, take};
ghost use Rattle.tables.specs.Bits.{bit_in};

use std::array;

// The entry at an index, and past the end what is given for it.
pub fn entry<T: Copy>(table: &[T], index: u16, past: T) -> T
    ensures { result ≡ get_or table.now index past }
{
    table.get(usize::from(index)).copied().unwrap_or(past)
}

// The first n entries of a table, or all: lent as an array, it asks its user for no length.
pub fn front<T>(table: &[T; 256], n: usize) -> &[T]
    ensures { result.now ≡ take n table.now }
{
    table.get(..n).unwrap_or(table)
}

// Takes every entry away.
// Kept, no plainer: `fill(0)` promises this of the entries alone. Here it holds at every index, and no caller proves what stands past the end.
pub fn clear(table: &mut [u16])
    ensures { (i : ℕ) → get_or table.new i 0 ≡ 0 }
{
    table.fill(0);
}

// A row of bits, one for each of 256 places.
#[derive(Clone, Copy)]
pub struct BitRow {
    words: [u64; 4],
}

impl BitRow {
    // A row without a bit.
    #[tactic(auto, using(crate::proofs::RowBits::none_set))]
    pub fn empty() -> BitRow
        ensures { (j : ℕ) → bit_in result j ≡ false }
    {
        BitRow { words: [0; 4] }
    }

    // A row with every bit.
    #[tactic(auto, using(crate::proofs::RowBits::all_set))]
    pub fn full() -> BitRow
        ensures { (j : ℕ) → j < 256 → bit_in result j ≡ true }
    {
        BitRow {
            words: [u64::MAX; 4],
        }
    }

    // Whether the row has bit j; it has none for what is no place.
    #[tactic(auto, unfolding(crate::specs::Bits::bit_in))]
    pub fn has(&self, j: u16) -> bool
        ensures { result ≡ bit_in self.now j }
    {
        j < 256 && (self.words[usize::from(j / 64)] >> (j % 64)) % 2 == 1
    }

    // Sets bit j.
    #[tactic(auto, using(crate::proofs::RowBits::bit_inserted))]
    pub fn insert(&mut self, j: u8)
        ensures { (b : ℕ) → bit_in self.new b ≡ (bit_in self.old b || eqb b j) }
    {
        self.words[usize::from(j / 64)] |= 1 << (j % 64);
    }

    // Sets each bit that the other row has.
    // Kept, no plainer: `meet` differs in the operator alone, but one function over a closure needs a contract on the closure's answers.
    #[tactic(auto, using(crate::proofs::RowBits::united))]
    pub fn unite(&mut self, other: BitRow)
        ensures { (b : ℕ) → bit_in self.new b ≡ (bit_in self.old b || bit_in other b) }
    {
        self.words = array::from_fn(|i| self.words[i] | other.words[i]);
    }

    // Takes away each bit that the other row does not have.
    #[tactic(auto, using(crate::proofs::RowBits::met))]
    pub fn meet(&mut self, other: BitRow)
        ensures { (b : ℕ) → bit_in self.new b ≡ (bit_in self.old b && bit_in other b) }
    {
        self.words = array::from_fn(|i| self.words[i] & other.words[i]);
    }
}
