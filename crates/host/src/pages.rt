// Numeric pages, as C and Rust link them. Every function takes any input, and its contract is that of the function
// it calls: `number` is 0, or 01's number of the refusal, and what was lent is then as it was.
ghost use Rattle.std.specs.Prelude.{◌≡◌, length};
ghost use Rattle.numeric.specs.Answers.{written_chosen, words_chosen, as_written, read_chosen, text_chosen, as_read};

use numeric::{Numbering, PageRead, Written};

// A text as the words of a numeric page.
// Takes the set of characters, MORTISEVANE_SET_STANDARD or _CHINESE; the text, characters of that set; the vector's type,
// MORTISEVANE_VECTOR_STANDARD, _SPECIAL or _NUMBERED; what the head of a numbered page says, all 0 with the others; and
// memory for the words, for which MORTISEVANE_PAGE_WORDS are always enough.
// Answers K for the vector and how many words were written, the fewest that hold the text.
// Refuses 7, 15, 18, the first that applies, and last 1; the memory is then as it was. Here 7 is a set that is neither, a
// type that is none of the three, or a number that the head has no room for: with a page that is not numbered, any but 0.
#[unsafe(no_mangle)]
pub extern "C" fn mortisevane_numeric_write(
    set: u32,
    text: &[u8],
    kind: u32,
    numbering: Numbering,
    words: &mut [u32],
) -> Written
    ensures told { result ≡ as_written (written_chosen set (length words.old) kind numbering text.now) }
    ensures buffer { words.new ≡ words_chosen set kind numbering text.now words.old }
{
    numeric::for_c::write(set, text, kind, numbering, words)
}

// The words of a numeric page as text, its zeros with it.
// Takes the set of characters, MORTISEVANE_SET_STANDARD or _CHINESE; the type and the K of the vector; the words; and
// memory for the text, for which MORTISEVANE_PAGE_CHARACTERS are always enough.
// Answers what the head of a numbered page says; how many characters were written, all that the words have room for; and
// how many of them are spaces at the end. A display has to show the characters before these: filling is spaces, and which
// of them the sender wrote nobody can tell.
// Refuses 7, 9, 10, 11, the first that applies, and last 1; the memory is then as it was. Here 7 is a set that is neither, a
// type that is no numeric page's, or a K over 15.
#[unsafe(no_mangle)]
pub extern "C" fn mortisevane_numeric_read(
    set: u32,
    kind: u32,
    check: u32,
    words: &[u32],
    text: &mut [u8],
) -> PageRead
    ensures told { result ≡ as_read (read_chosen set (length text.old) kind check words.now) }
    ensures buffer { text.new ≡ text_chosen set kind check words.now text.old }
{
    numeric::for_c::read(set, kind, check, words, text)
}
