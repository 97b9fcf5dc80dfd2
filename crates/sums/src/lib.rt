// Message sums (S8.8.6, Table 60): the six-bit K of a numeric page, the ten-bit K of a fragment and the
// seven-bit signature of a text. They take any words; bits above the 21 of a word are not looked at, and a row
// of any length is summed. Beside them what is asked of words before they are summed: whether any is over 21 bits.
#![tactic(auto)]

ghost use Rattle.std.specs.Prelude.{◌≡◌, ◌+◌, ◌%◌, ◌^◌, ◌≤◌};
ghost use Rattle.laws.specs.Numerals.{are_digits};
ghost use Rattle.sums.specs.Sums.{groups_of, binary_sum, unkeyed, six_bits, ten_bits, signature_of};
ghost use Rattle.sums.specs.Words.{undamaged};

// How many bits a word has (S8.7.8, Table 40).
const WORD_BITS: u32 = 21;

// A word has 21 bits: it is below this.
pub const WORD_LIMIT: u32 = 1 << WORD_BITS;

// Whether every number of a row fits so many bits. The bits of all are taken together and tested once: a loop that does
// not leave early is compiled to several numbers at a time.
#[tactic(auto, using(crate::proofs::Asking::asked_more, crate::proofs::Asking::nothing_left, crate::proofs::Asking::wide_fits, laws::proofs::Rows::all_done))]
pub fn fit_bits<const BITS: u32>(row: &[u32]) -> bool
    ensures { result ≡ are_digits (2 ^ BITS) row.now }
{
    let mut bits: u32 = 0;
    for number in row {
        bits |= *number;
    }
    u32::BITS <= BITS || bits >> BITS == 0
}

// 01's table, 10: whether no word has more than 21 bits.
pub fn undamaged(words: &[u32]) -> bool
    ensures { result ≡ undamaged words.now }
{
    fit_bits::<WORD_BITS>(words)
}

// The three groups of a word, added: at most 541.
fn groups(word: u32) -> u32
    ensures sum { result ≡ groups_of word }
    ensures small { result ≤ 541 }
{
    word % 256 + (word >> 8) % 256 + (word >> 16) % 32
}

// The low ten bits of the sum of a first word and of the words after it. More bits than ten are never
// asked for. They are taken after the loop, since one that reduces at each turn is not compiled to several words at a
// time; the loop's own sum wraps at a multiple of 1024.
fn sum_after(first: u32, rest: &[u32]) -> u32
    ensures { result ≡ (groups_of first + binary_sum rest.now) % 1024 }
{
    let mut sum = groups(first);
    for word in rest {
        sum = sum.wrapping_add(groups(*word));
    }
    sum % 1024
}

// The low ten bits of the sum of a row of words whose first holds so many bits of K, taken as 0.
#[tactic(auto, using(crate::proofs::Summing::unkeyed_sum, crate::proofs::Summing::empty_sum))]
fn sum_unkeyed(words: &[u32], held: u32) -> u32
    requires { held ≤ 10 }
    ensures { result ≡ binary_sum (unkeyed held words.now) % 1024 }
{
    match words {
        [first, rest @ ..] => sum_after(first >> held << held, rest),
        [] => 0,
    }
}

// K of a numeric page: its first word's two K bits are taken as 0.
pub fn six_bit(words: &[u32]) -> u32
    ensures sum { result ≡ six_bits words.now }
    ensures small { result ≤ 63 }
{
    let sum = sum_unkeyed(words, 2);
    63 - ((sum >> 6) % 4 + sum % 64) % 64
}

// K of a fragment: its first word's ten K bits are taken as 0.
pub fn ten_bit(words: &[u32]) -> u32
    ensures { result ≡ ten_bits words.now }
{
    1023 - sum_unkeyed(words, 10)
}

// The signature of a text with its fill. Of a byte that is no character the low seven bits count. They are taken after
// the loop, as in `sum_after`.
pub fn signature(characters: &[u8]) -> u32
    ensures { result ≡ signature_of characters.now }
{
    let mut sum: u32 = 0;
    for character in characters {
        sum = sum.wrapping_add(*character as u32);
    }
    127 - sum % 128
}
