// Fragments of a text, as C and Rust link them. Every function takes any input, and its contract is that of the function
// it calls: `number` is 0, or 01's number of the refusal, and what was lent is then as it was.
ghost use Rattle.std.specs.Prelude.{◌≡◌, length};
ghost use Rattle.fragment.specs.Answers.{heading_of, read_of, read_after};
ghost use Rattle.fragment.specs.FlatAnswers.{as_fragment};
ghost use Rattle.fragment.specs.CutAnswers.{cut_of, words_after, as_cut};

use fragment::{FragmentRead, Marks, TextCut};

// What a fragment says of itself, without its text.
// Takes the words of the fragment, 2 to 85.
// Answers what its first word says, its signature, its sum and how many characters its text has.
// Refuses 9, 10, 11, the first that applies.
#[unsafe(no_mangle)]
pub extern "C" fn mortisevane_fragment_heading(words: &[u32]) -> FragmentRead
    ensures { result ≡ as_fragment (heading_of words.now) }
{
    fragment::for_c::heading(words)
}

// A fragment, and its text.
// Takes the words of the fragment, 2 to 85, and memory for the text, for which MORTISEVANE_FRAGMENT_CHARACTERS are
// always enough.
// Answers what mortisevane_fragment_heading answers; the text is written without its fill.
// Refuses 9, 10, 11, the first that applies, and last 1; the memory is then as it was.
#[unsafe(no_mangle)]
pub extern "C" fn mortisevane_fragment_read(words: &[u32], text: &mut [u8]) -> FragmentRead
    ensures told { result ≡ as_fragment (read_of (length text.old) words.now) }
    ensures buffer { text.new ≡ read_after words.now text.old }
{
    fragment::for_c::read(words, text)
}

// A text cut into fragments, one after the other.
// Takes the text, up to 1,008 characters; N, R and M of the message; how many words the largest fragment may have, 2 to
// 85; and memory for the words, for which MORTISEVANE_CUT_WORDS are always enough.
// Answers how many fragments there are and how many words they have together. Each but the last has the largest size, so
// that fragment j begins at word j times it.
// Refuses 7, 9, 15, 18, the first that applies, and last 1; the memory is then as it was.
#[unsafe(no_mangle)]
pub extern "C" fn mortisevane_text_cut(
    text: &[u8],
    marks: Marks,
    largest: usize,
    words: &mut [u32],
) -> TextCut
    ensures told { result ≡ as_cut (cut_of (length words.old) marks largest text.now) }
    ensures buffer { words.new ≡ words_after marks largest text.now words.old }
{
    fragment::for_c::cut(text, marks, largest, words)
}
