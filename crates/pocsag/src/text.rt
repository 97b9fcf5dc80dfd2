// The text of a page: its message words as numeric or seven-bit characters. A page is characters, and its zeros stay.
ghost use Rattle.std.specs.Prelude.{reverse, take_while, ◌≡◌, true, ◌/◌, ◌%◌, ◌^◌, ◌≤◌, ◌<◌, leb, length};
ghost use Rattle.laws.specs.Choice.{pick};
ghost use Rattle.laws.specs.Lists.{put};
ghost use Rattle.laws.specs.Numerals.{are_digits};
ghost use Rattle.refusal.specs.Told.{given, number_told, number_by, told_by};
ghost use Rattle.pocsag.specs.Texts.{kind_number, is_text, width_of, character_of, room_of, text_in, is_fill, read_of, text_after, text_values};

use crate::batch::MESSAGE_BITS;
use crate::{TextKind, TextRead};
use refusal::Refusal;

// Methods that ask the kind, and no trait with an impl for each width: of three types one would be chosen by the same match. What
// is divided by is a constant in each case.
impl TextKind {
    // Whether it is that of seven-bit characters.
    fn is_text(self) -> bool
        ensures { result ≡ is_text (kind_number self) }
    {
        matches!(self, TextKind::SevenBit)
    }

    // How many bits a character has.
    fn width(self) -> u32
        ensures { result ≡ width_of (kind_number self) }
    {
        if self.is_text() { 7 } else { 4 }
    }

    // The character of the lowest bits that are held, as many as it has, and the bits after them. One method and not two, so
    // that the kind is asked once a character.
    fn take(self, held: u32) -> (u8, u32)
        ensures character { result.0 ≡ character_of (kind_number self) (held % 2 ^ width_of (kind_number self)) }
        ensures rest { result.1 ≡ held / 2 ^ width_of (kind_number self) }
    {
        if self.is_text() {
            return ((held % 128) as u8, held / 128);
        }
        let character = numeric::character_of(matches!(self, TextKind::NumericChinese), held % 16);
        (character, held / 16)
    }

    // Whether the characters of so many words have room in so many bytes. Nothing here is so large that it overflows.
    fn has_room(self, words: usize, lent: usize) -> bool
        ensures { result ≡ leb (room_of (kind_number self) words) lent }
    {
        if !self.is_text() {
            return words <= lent / 5;
        }
        if lent / 20 < words / 7 {
            return false;
        }
        20 * (words % 7) / 7 <= lent - 20 * (words / 7)
    }

    // How many characters so many words hold.
    fn room_of(self, words: usize) -> usize
        requires { room_of (kind_number self) words < 2 ^ 64 }
        ensures { result ≡ room_of (kind_number self) words }
    {
        if self.is_text() {
            20 * (words / 7) + 20 * (words % 7) / 7
        } else {
            5 * words
        }
    }

    // Whether a character is fill.
    fn is_fill(self, character: u8) -> bool
        ensures { result ≡ is_fill (kind_number self) character }
    {
        if self.is_text() {
            return (character == 0x00) | (character == 0x03) | (character == 0x04);
        }
        character == b' '
    }
}

// Writes the characters of a page, so many. The bits that a word still has are held while the next word is taken.
fn spell(kind: TextKind, words: &[u32], room: usize, text: &mut [u8])
    requires words_value { are_digits (2 ^ 20) words.now ≡ true }
    requires room_value { room ≡ room_of (kind_number kind) (length words.now) }
    requires room_in_bounds { room ≤ length text.old }
    ensures { text.new ≡ put text.old 0 (text_in (kind_number kind) words.now) }
{
    let width = kind.width();
    let mut held: u32 = 0;
    let mut bits: u32 = 0;
    // An index and no iterator over the words: a word lasts for several characters.
    let mut at: usize = 0;
    for i in 0..room {
        if bits < width {
            held = held + (words[at] << bits);
            bits += MESSAGE_BITS;
            at += 1;
        }
        let (character, rest) = kind.take(held);
        text[i] = character;
        held = rest;
        bits -= width;
    }
}

// How many characters at the end of a text are fill.
fn fill_at_end(kind: TextKind, text: &[u8]) -> usize
    ensures { result ≡ length (take_while (is_fill (kind_number kind)) (reverse text.now)) }
{
    text.iter()
        .rev()
        .take_while(|character| kind.is_fill(**character))
        .count()
}

// The text of a page that is not refused.
fn read_words(kind: TextKind, words: &[u32], text: &mut [u8]) -> TextRead
    requires { number_told (read_of (kind_number kind) (length text.old) words.now) ≡ 0 }
    ensures told { given (text_values result) ≡ read_of (kind_number kind) (length text.old) words.now }
    ensures buffer { text.new ≡ text_after (kind_number kind) words.now text.old }
{
    let room = kind.room_of(words.len());
    spell(kind, words, room, text);
    TextRead {
        characters: room,
        fill_at_end: fill_at_end(kind, &text[..room]),
    }
}

// The first refusal of a page's text, if there is one.
fn judge(kind: TextKind, words: &[u32], lent: usize) -> Result<(), Refusal>
    ensures { number_by result ≡ number_told (read_of (kind_number kind) lent words.now) }
{
    if !sums::fit_bits::<MESSAGE_BITS>(words) {
        return Err(Refusal::Damaged);
    }
    if !kind.has_room(words.len(), lent) {
        return Err(Refusal::Room);
    }
    Ok(())
}

// The message words of a page as text of a kind: all the characters that the words hold, and how many of them at the end are
// fill; or the first refusal, after which the text is as it was.
// Not inlined, so that a kind that is refused costs none of its registers.
#[inline(never)]
pub fn read_as(kind: TextKind, words: &[u32], text: &mut [u8]) -> Result<TextRead, Refusal>
    ensures told { told_by text_values result ≡ read_of (kind_number kind) (length text.old) words.now }
    ensures buffer { text.new ≡ text_after (kind_number kind) words.now text.old }
{
    judge(kind, words, text.len())?;
    Ok(read_words(kind, words, text))
}

// The same of a kind by its number, as C chooses it: packet (7) if no kind has it.
pub fn read(kind: u32, words: &[u32], text: &mut [u8]) -> Result<TextRead, Refusal>
    ensures told { told_by text_values result ≡ read_of kind (length text.old) words.now }
    ensures buffer { text.new ≡ text_after kind words.now text.old }
{
    read_as(TextKind::try_from(kind)?, words, text)
}
