// Writing and reading a page with C's answer: a struct, in place of a `Result`. Each function is called by one export, and the
// two have the same contract, word for word.
ghost use Rattle.std.specs.Prelude.{◌≡◌, length};
ghost use Rattle.numeric.specs.Answers.{written_chosen, words_chosen, as_written, read_chosen, text_chosen, as_read};

use crate::{Numbering, PageRead, Written};

// Writes a page as the crate's `write` does, and returns the answer as C has it.
#[inline]
pub fn write(set: u32, text: &[u8], kind: u32, numbering: Numbering, words: &mut [u32]) -> Written
    ensures told { result ≡ as_written (written_chosen set (length words.old) kind numbering text.now) }
    ensures buffer { words.new ≡ words_chosen set kind numbering text.now words.old }
{
    Written::from(crate::write(set, text, kind, numbering, words))
}

// Reads a page as the crate's `read` does, and returns the answer as C has it.
#[inline]
pub fn read(set: u32, kind: u32, check: u32, words: &[u32], text: &mut [u8]) -> PageRead
    ensures told { result ≡ as_read (read_chosen set (length text.old) kind check words.now) }
    ensures buffer { text.new ≡ text_chosen set kind check words.now text.old }
{
    PageRead::from(crate::read(set, kind, check, words, text))
}
