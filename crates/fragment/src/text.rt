// The characters of one fragment (document 01, "Fragments"; S8.7.8.3, Tables 43, 44 and 45). A cell is the place of seven
// bits, three to a word. Of a fragment's cells the signature and the fill, ETX, are no text: the others are counted, and
// written into lent bytes.
ghost use Rattle.std.specs.Prelude.{◌≡◌, ◌+◌, ◌*◌, ◌<◌, ◌≤◌, true, [], ◌∷◌, length, nat_le};
ghost use Rattle.fragment.specs.Fragments.{cells_in, is_first, without_fill};
ghost use Rattle.fragment.specs.Cells.{unsigned, plain_text};
ghost use Rattle.laws.specs.Lists.{put, all};
ghost use Rattle.refusal.specs.Told.{told_by};
ghost use Rattle.fragment.specs.Answers.{text_of, text_after};
ghost use Rattle.fragment.specs.Full.{is_full};

use crate::{CELL_LIMIT, ETX, FEWEST_WORDS, MOST_WORDS};
use refusal::Refusal;

// Whether a fragment with this first word is a first one: F is 3.
pub(crate) fn is_first(head: u32) -> bool
    ensures { result ≡ is_first (head ∷ []) }
{
    (head >> 11) % 4 == 3
}

// How many of a word's three cells are text.
fn count_in(word: u32) -> u32
    ensures { result ≡ length (without_fill (cells_in word)) }
{
    (word % CELL_LIMIT != ETX) as u32
        + ((word >> 7) % CELL_LIMIT != ETX) as u32
        + ((word >> 14) % CELL_LIMIT != ETX) as u32
}

// A second word with the signature of a first fragment taken as fill, so that it is no text.
pub(crate) fn unsigned(first: bool, word: u32) -> u32
    ensures { result ≡ unsigned first word }
{
    if first {
        return word / CELL_LIMIT * CELL_LIMIT + ETX;
    }
    word
}

// How many characters are text in no more words than a fragment has. That fits 32 bits, in which twice as many words are
// counted at a time as in 64.
fn count_few(words: &[u32]) -> u32
    requires { length words.now ≤ 85 }
    ensures { result ≡ length (plain_text words.now) }
{
    let mut count = 0;
    for word in words {
        count += count_in(*word);
    }
    count
}

// How many characters the text has that a second word begins, with the words after it. The words of a fragment are counted
// by one call: to go over chunks costs every fragment more.
pub(crate) fn count(second: u32, words: &[u32]) -> usize
    ensures { result ≡ length (plain_text (second ∷ words.now)) }
{
    let mut count = count_in(second) as usize;
    let mut rest = words;
    while rest.len() > MOST_WORDS {
        count += count_few(&rest[..MOST_WORDS]) as usize;
        rest = &rest[MOST_WORDS..];
    }
    count + count_few(rest) as usize
}

// A cell written after what was written before, unless it is fill; the place after it.
fn write_cell(cell: u32, text: &mut [u8], at: usize) -> usize
    requires cell_bound { cell < 128 }
    requires cell_in_bounds { at + length (without_fill (cell ∷ [])) ≤ length text.old }
    ensures next { result ≡ at + length (without_fill (cell ∷ [])) }
    ensures buffer { text.new ≡ put text.old at (without_fill (cell ∷ [])) }
{
    if cell == ETX {
        return at;
    }
    text[at] = cell as u8;
    at + 1
}

// The text of a word written after what was written before; the place after it.
fn write_word(word: u32, text: &mut [u8], at: usize) -> usize
    requires { at + length (without_fill (cells_in word)) ≤ length text.old }
    ensures next { result ≡ at + length (without_fill (cells_in word)) }
    ensures buffer { text.new ≡ put text.old at (without_fill (cells_in word)) }
{
    let second = write_cell(word % CELL_LIMIT, text, at);
    let third = write_cell((word >> 7) % CELL_LIMIT, text, second);
    write_cell((word >> 14) % CELL_LIMIT, text, third)
}

// Whether no cell of a word is fill.
fn is_full(word: u32) -> bool
    ensures { result ≡ is_full word }
{
    (word % CELL_LIMIT != ETX)
        & ((word >> 7) % CELL_LIMIT != ETX)
        & ((word >> 14) % CELL_LIMIT != ETX)
}

// Whether no word has fill, which a text needs only at its end. Asked of all words at once, and not of each before it is
// written, since this loop is compiled to several words at a time and the one that writes is not.
fn are_full(words: &[u32]) -> bool
    ensures { result ≡ all is_full words.now }
{
    let mut full = true;
    for word in words {
        full = full & is_full(*word);
    }
    full
}

// The text of a word without fill written after what was written before; the place after it.
fn write_three(word: u32, text: &mut [u8], at: usize) -> usize
    requires word_value { is_full word ≡ true }
    requires word_in_bounds { at + length (without_fill (cells_in word)) ≤ length text.old }
    ensures next { result ≡ at + length (without_fill (cells_in word)) }
    ensures buffer { text.new ≡ put text.old at (without_fill (cells_in word)) }
{
    text[at] = (word % CELL_LIMIT) as u8;
    text[at + 1] = ((word >> 7) % CELL_LIMIT) as u8;
    text[at + 2] = ((word >> 14) % CELL_LIMIT) as u8;
    at + 3
}

// The text of words written after what was written before; the place after it. Where it is known of all words that they
// have no fill, their cells are not asked for it.
fn write_all<const FULL: bool>(words: &[u32], text: &mut [u8], from: usize) -> usize
    requires words_value { FULL ≡ true → all is_full words.now ≡ true }
    requires words_in_bounds { from + length (plain_text words.now) ≤ length text.old }
    ensures next { result ≡ from + length (plain_text words.now) }
    ensures buffer { text.new ≡ put text.old from (plain_text words.now) }
{
    let mut at = from;
    for word in words {
        at = if FULL {
            write_three(*word, text, at)
        } else {
            write_word(*word, text, at)
        };
    }
    at
}

// The text that a second word begins, with the words after it, where there is room for it; how many characters.
fn write_words(second: u32, words: &[u32], text: &mut [u8]) -> usize
    requires { length (plain_text (second ∷ words.now)) ≤ length text.old }
    ensures count { result ≡ length (plain_text (second ∷ words.now)) }
    ensures buffer { text.new ≡ put text.old 0 (plain_text (second ∷ words.now)) }
{
    let begun = write_word(second, text, 0);
    if are_full(words) {
        return write_all::<true>(words, text, begun);
    }
    write_all::<false>(words, text, begun)
}

// Whether the text that a second word begins, with the words after it, has room. Three characters a word are never too
// few, so that it is counted only where the room is less than that.
fn has_room(second: u32, words: &[u32], room: usize) -> bool
    ensures { result ≡ nat_le (length (plain_text (second ∷ words.now))) room }
{
    if words.len() < room / 3 {
        return true;
    }
    count(second, words) <= room
}

// The text in a row of words, whether or not they are a good fragment, which `fragment::heading` tells: how many characters,
// or the refusal of a buffer that is too short, which is left as it was.
pub fn write_text(words: &[u32], text: &mut [u8]) -> Result<usize, Refusal>
    ensures told { told_by (λ characters. characters ∷ []) result ≡ text_of (length text.old) words.now }
    ensures buffer { text.new ≡ text_after words.now text.old }
{
    if words.len() < FEWEST_WORDS {
        return Ok(0);
    }
    let second = unsigned(is_first(words[0]), words[1]);
    let rest = &words[2..];
    if !has_room(second, rest, text.len()) {
        return Err(Refusal::Room);
    }
    Ok(write_words(second, rest, text))
}
