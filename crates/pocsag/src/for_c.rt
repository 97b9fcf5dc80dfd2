// Mending words and reading a page with C's answer: a number or a struct, in place of a `Result`. Each function is called by one
// export, and the two have the same contract, word for word.
ghost use Rattle.std.specs.Prelude.{map, ◌≡◌, length};
ghost use Rattle.refusal.specs.Told.{number_told, written_by};
ghost use Rattle.pocsag.specs.Mending.{word_mended, bits_told, mends_row};
ghost use Rattle.pocsag.specs.Texts.{read_of, text_after, as_text};

use crate::PocsagText;

// Mends a row of words in place: 0, or the refusal's number.
#[inline]
pub fn mend(words: &mut [u32], bits: &mut [u32]) -> u32
    ensures told { result ≡ number_told (mends_row words.old bits.old) }
    ensures words { words.new
        ≡ written_by (mends_row words.old bits.old) words.old (map word_mended words.old) }
    ensures bits { bits.new
        ≡ written_by (mends_row words.old bits.old) bits.old (map bits_told words.old) }
{
    match crate::mend(words, bits) {
        Ok(()) => 0,
        Err(refusal) => refusal.number(),
    }
}

// The size and the fill of a page's text, which is written into lent bytes.
#[inline]
pub fn read(kind: u32, words: &[u32], text: &mut [u8]) -> PocsagText
    ensures told { result ≡ as_text (read_of kind (length text.old) words.now) }
    ensures buffer { text.new ≡ text_after kind words.now text.old }
{
    PocsagText::from(crate::read(kind, words, text))
}
