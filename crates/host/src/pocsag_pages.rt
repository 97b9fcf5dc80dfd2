// POCSAG pages, as C and Rust link them. Every function takes any input, and its contract is that of the function it
// calls. Words come as they were received, 32 bits with the first that was sent the highest. The reader goes in and comes
// back by value; zeros are a fresh start, and whatever is handed back has a meaning. The message words of a page lie at the
// start of the lent memory, twenty bits each with the first that was sent the lowest, until the next message word.
ghost use Rattle.std.specs.Prelude.{map, ◌≡◌, length};
ghost use Rattle.refusal.specs.Told.{number_told, written_by};
ghost use Rattle.pocsag.specs.Mending.{word_mended, bits_told, mends_row};
ghost use Rattle.pocsag.specs.Hearing.{heard_of, lent_heard, closed_page};
ghost use Rattle.pocsag.specs.Texts.{read_of, text_after, as_text};

use pocsag::{PocsagHeard, PocsagPage, PocsagReader, PocsagText};

// Mends a row of received words where they stand.
// Takes the words, and memory for as many numbers.
// Answers 0; each word is then the one that was sent, if no more than two of its 31 code bits were wrong, and beside it stands
// how many were, 0 to 2, or 25 where the word is beyond repair. Such a word stays as it came.
// Refuses 1 where the memory is shorter than the row; the words and the memory are then as they were.
#[unsafe(no_mangle)]
pub extern "C" fn mortisevane_pocsag_mend(words: &mut [u32], bits: &mut [u32]) -> u32
    ensures told { result ≡ number_told (mends_row words.old bits.old) }
    ensures words { words.new
        ≡ written_by (mends_row words.old bits.old) words.old (map word_mended words.old) }
    ensures bits { bits.new
        ≡ written_by (mends_row words.old bits.old) bits.old (map bits_told words.old) }
{
    pocsag::for_c::mend(words, bits)
}

// Received words, one after the other, up to and with the first that has something to tell.
// Takes the reader, as it was answered last; the words; and the memory for the message words of a page, of any length, as it
// was left last.
// Answers how many words were taken, the number of the last of them, the page that ended at it, and the reader. Where no word
// has anything to tell all are taken; otherwise the rest is to be given again. A page whose number is 0 is handed out, and
// its message words are the first of the memory. With another number it was not received as a whole: 25 where a word of it
// was beyond repair, 26 where its end was not heard, 15 where the memory was too short; its first words came whole.
// Refuses 25 for a word beyond repair, 26 for a word that does not follow a sync word, 17 for a message word of no page, the
// first that applies; such a word was taken, and a word beyond repair takes its place in the batch.
#[unsafe(no_mangle)]
pub extern "C" fn mortisevane_pocsag_hear(
    reader: PocsagReader,
    words: &[u32],
    lent: &mut [u32],
) -> PocsagHeard
    ensures told { result ≡ heard_of (length lent.old) reader words.now }
    ensures lent { lent.new ≡ lent_heard reader lent.old words.now }
{
    pocsag::hear(reader, words, lent)
}

// The close: no more words come.
// Takes the reader, as it was answered last. To go on after it, begin with zeros.
// Answers the page that was still open, whose end was not heard, or that there was none.
// Refuses a page by 25 where a word of it was beyond repair, else by 26; no page is handed out here.
#[unsafe(no_mangle)]
pub extern "C" fn mortisevane_pocsag_close(reader: PocsagReader) -> PocsagPage
    ensures { result ≡ closed_page reader }
{
    pocsag::close(reader)
}

// The message words of a page as text, its zeros with it.
// Takes the kind of text, MORTISEVANE_POCSAG_TEXT_NUMERIC, _NUMERIC_CHINESE or _SEVEN_BIT, which nothing in a page tells; the
// words, as the lent memory has them; and memory for the text, five bytes a word for a numeric page and three for another.
// Answers how many characters were written, all that the words hold, and how many of them at the end are fill: spaces in a
// numeric page, the characters 00H, 03H and 04H in a text. A display has to show the characters before these.
// Refuses 7 for a kind that there is not, 10 for a word of more than twenty bits, the first that applies, and last 1; the
// memory is then as it was.
#[unsafe(no_mangle)]
pub extern "C" fn mortisevane_pocsag_read(kind: u32, words: &[u32], text: &mut [u8]) -> PocsagText
    ensures told { result ≡ as_text (read_of kind (length text.old) words.now) }
    ensures buffer { text.new ≡ text_after kind words.now text.old }
{
    pocsag::for_c::read(kind, words, text)
}
