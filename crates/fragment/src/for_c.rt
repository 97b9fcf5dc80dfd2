// Reading a fragment and cutting a text with C's answer: a struct, in place of a `Result`. Each function is called by one export,
// and the two have the same contract, word for word.
ghost use Rattle.std.specs.Prelude.{◌≡◌, length};
ghost use Rattle.fragment.specs.Answers.{heading_of, read_of, read_after};
ghost use Rattle.fragment.specs.FlatAnswers.{as_fragment};
ghost use Rattle.fragment.specs.CutAnswers.{cut_of, words_after, as_cut};

use crate::{FragmentRead, Marks, TextCut};

// The heading of a fragment.
#[inline]
pub fn heading(words: &[u32]) -> FragmentRead
    ensures { result ≡ as_fragment (heading_of words.now) }
{
    FragmentRead::from(crate::heading(words))
}

// The heading of a fragment; its text is written into lent bytes.
#[inline]
pub fn read(words: &[u32], text: &mut [u8]) -> FragmentRead
    ensures told { result ≡ as_fragment (read_of (length text.old) words.now) }
    ensures buffer { text.new ≡ read_after words.now text.old }
{
    FragmentRead::from(crate::read(words, text))
}

// The number of fragments and words that a text is cut into; they are written into lent words.
#[inline]
pub fn cut(text: &[u8], marks: Marks, largest: usize, words: &mut [u32]) -> TextCut
    ensures told { result ≡ as_cut (cut_of (length words.old) marks largest text.now) }
    ensures buffer { words.new ≡ words_after marks largest text.now words.old }
{
    TextCut::from(crate::cut(text, marks, largest, words))
}
