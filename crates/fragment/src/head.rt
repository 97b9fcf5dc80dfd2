// The heading of one fragment of a text (document 01, "Fragments"; S8.7.8.3, Tables 43, 44 and 45): what its first word
// says, the signature of a first one, its sum and how many characters it has. ETX is fill: it is summed, and is no text.
// U and V are not looked at.
ghost use Rattle.std.specs.Prelude.{◌≡◌, ◌≤◌, length};
ghost use Rattle.laws.specs.Lists.{sum_by};
ghost use Rattle.sums.specs.Sums.{whole};
ghost use Rattle.refusal.specs.Told.{given, told_by};
ghost use Rattle.fragment.specs.Fragments.{is_size, cells_in, sum_in};
ghost use Rattle.fragment.specs.Answers.{heading_told, heading_of};
ghost use Rattle.fragment.specs.FlatAnswers.{of_heading};

use crate::{CELL_LIMIT, FEWEST_WORDS, FragmentHeading, MOST_WORDS};
use refusal::{Refusal, kept};

// A word's three cells added.
fn sum_in(word: u32) -> u32
    ensures sum { result ≡ sum_by whole (cells_in word) }
    ensures small { result ≤ 381 }
{
    word % CELL_LIMIT + (word >> 7) % CELL_LIMIT + (word >> 14) % CELL_LIMIT
}

// The sum modulo 128 of all cells after the first word. It is reduced after the loop, since one that reduces at each
// turn is not compiled to several words at a time; the loop's own sum wraps at a multiple of 128.
fn sum(words: &[u32]) -> u32
    requires { 1 ≤ length words.now }
    ensures { result ≡ sum_in words.now }
{
    let mut sum: u32 = 0;
    for word in &words[1..] {
        sum = sum.wrapping_add(sum_in(*word));
    }
    sum % CELL_LIMIT
}

// 01's table, 9: whether a fragment has so many words.
pub(crate) fn is_size(words: usize) -> bool
    ensures { result ≡ is_size words }
{
    (FEWEST_WORDS <= words) & (words <= MOST_WORDS)
}

// What the words of a fragment tell.
fn heading_of(words: &[u32]) -> FragmentHeading
    requires { 2 ≤ length words.now }
    ensures { given (of_heading result) ≡ heading_told words.now }
{
    let head = words[0];
    let first = crate::text::is_first(head);
    FragmentHeading {
        continued: (head >> 10) % 2,
        fragment_number: (head >> 11) % 4,
        message_number: (head >> 13) % 64,
        retrieval: kept(first, (head >> 19) % 2),
        mail_drop: kept(first, (head >> 20) % 2),
        signature: kept(first, words[1] % CELL_LIMIT),
        sum: sum(words),
        characters: crate::text::count(crate::text::unsigned(first, words[1]), &words[2..]),
    }
}

// The heading of a fragment, or the first refusal: 9, 10, 11 of 01's table. Compiled into its callers, so that a refusal is
// not handed on through memory.
#[inline(always)]
pub fn heading(words: &[u32]) -> Result<FragmentHeading, Refusal>
    ensures { told_by of_heading result ≡ heading_of words.now }
{
    if !is_size(words.len()) {
        return Err(Refusal::Size);
    }
    if !sums::undamaged(words) {
        return Err(Refusal::Damaged);
    }
    if sums::ten_bit(words) != words[0] % 1024 {
        return Err(Refusal::Checksum);
    }
    Ok(heading_of(words))
}
