// The code of POCSAG: a received word is mended by its remainder, or is beyond repair (02, item 5).
ghost use Rattle.std.specs.Prelude.{◌≡◌, map, ◌≤◌, ◌<◌, length};
ghost use Rattle.laws.specs.Lists.{put};
ghost use Rattle.refusal.specs.Told.{number_told, number_by, written_by};
ghost use Rattle.pocsag.specs.Codewords.{remainder_of, is_even, bits_named, how_many, wrong_bits};
ghost use Rattle.pocsag.specs.Mending.{mended_of, mended_by, word_mended, bits_told, mends_row};

use crate::Mended;
use crate::layout::{Tables, laid_out};
use refusal::Refusal;

// Whether the ones of a word are even in number.
fn is_even(word: u32) -> bool
    ensures { result ≡ is_even word }
{
    u32::count_ones(word) % 2 == 0
}

// The bits that an entry of the table names.
fn bits_named(entry: u32) -> u32
    requires { entry < 1024 }
    ensures { result ≡ bits_named entry }
{
    ((1 << (entry % 32)) / 2 * 2) ^ ((1 << (entry / 32)) / 2 * 2)
}

// How many bits an entry of the table names.
fn how_many(entry: u32) -> u32
    ensures { result ≡ how_many entry }
{
    if entry == 0 {
        0
    } else if entry / 32 == 0 {
        1
    } else {
        2
    }
}

// A word with the bits changed that an entry names. It is beyond repair if nothing is named for its remainder, or if the
// parity is wrong after that.
fn mended_by(word: u32, remainder: u32, entry: u32) -> Result<Mended, Refusal>
    requires remainder_value { remainder ≡ remainder_of word }
    requires value { entry ≡ wrong_bits remainder }
    ensures { mended_by result ≡ mended_of word }
{
    let mended = word ^ bits_named(entry);
    if (remainder != 0) & (entry == 0) {
        return Err(Refusal::BeyondRepair);
    }
    if !is_even(mended) {
        return Err(Refusal::BeyondRepair);
    }
    Ok(Mended {
        word: mended,
        bits: how_many(entry),
    })
}

impl Tables<'_> {
    // The remainder of a word. It is put together from its lowest ten code bits and the remainders of four parts of the others.
    fn remainder(self, word: u32) -> u32
        ensures { result ≡ remainder_of word }
    {
        let bits = word / 2;
        let first = self.parts[((bits >> 10) % 32) as usize];
        let second = self.parts[32 + ((bits >> 15) % 32) as usize];
        let third = self.parts[64 + ((bits >> 20) % 32) as usize];
        let fourth = self.parts[96 + (bits >> 25) as usize];
        (bits % 1024) ^ (first as u32) ^ (second as u32) ^ (third as u32) ^ (fourth as u32)
    }

    // A word mended by the table.
    pub(crate) fn mended(self, word: u32) -> Result<Mended, Refusal>
        ensures { mended_by result ≡ mended_of word }
    {
        let remainder = self.remainder(word);
        let entry = self.wrong[remainder as usize];
        mended_by(word, remainder, entry as u32)
    }

    // Mends each word of a row where it stands, and puts beside it how many bits were changed, or 25 if the word is beyond
    // repair and stays as it came: two rows of numbers, as the C interface lends them.
    fn mend_each(self, words: &mut [u32], bits: &mut [u32])
        requires { length words.old ≤ length bits.old }
        ensures words { words.new ≡ put words.old 0 (map word_mended words.old) }
        ensures bits { bits.new ≡ put bits.old 0 (map bits_told words.old) }
    {
        for (i, word) in words.iter_mut().enumerate() {
            match self.mended(*word) {
                Ok(mended) => {
                    *word = mended.word;
                    bits[i] = mended.bits;
                }
                Err(refusal) => bits[i] = refusal.number(),
            }
        }
    }
}

// Mends a row of words where they stand. Beside each word it is told how many bits were changed, 0 to 2, or 25 where the
// word is beyond repair; it then stays as it came. The table is laid out once for the whole row.
pub fn mend(words: &mut [u32], bits: &mut [u32]) -> Result<(), Refusal>
    ensures told { number_by result ≡ number_told (mends_row words.old bits.old) }
    ensures words { words.new
        ≡ written_by (mends_row words.old bits.old) words.old (map word_mended words.old) }
    ensures bits { bits.new
        ≡ written_by (mends_row words.old bits.old) bits.old (map bits_told words.old) }
{
    if bits.len() < words.len() {
        return Err(Refusal::Room);
    }
    laid_out().mend_each(words, bits);
    Ok(())
}
