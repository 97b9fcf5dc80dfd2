// Numeric pages: the words of one as text (document 01, "Numeric pages"; 02, item 6; S8.7.8.2, Tables 39, 41
// and 42). A page is characters, and its zeros stay.
ghost use Rattle.std.specs.Prelude.{◌≡◌, ◌+◌, ◌*◌, ◌/◌, ◌%◌, ◌^◌, ◌≤◌, ◌<◌, true, length, get_or, reverse, take_while, IfOk};
ghost use Rattle.laws.specs.Lists.{put};
ghost use Rattle.laws.specs.Numerals.{number};
ghost use Rattle.refusal.specs.Told.{told_by};
ghost use Rattle.sums.specs.Words.{undamaged};
ghost use Rattle.numeric.specs.Pages.{Set, set_with, head_of, room_of, is_space, text_in, is_size, checked, is_numbered};
ghost use Rattle.numeric.specs.Answers.{read_values, told_in, read_of, read_chosen, text_chosen};
ghost use Rattle.numeric.specs.Sets.{set_in};

use crate::page::Head;
use crate::{CharacterSet, MOST_WORDS, PageText};
use refusal::Refusal;

// The character of a code in one of the two sets, that of the option on or off: a digit, or by the column of Table 39. A code
// over 15 has none, and is told as 0. It is a number and no Option, since that is what the function promised before
// `CharacterSet::character_of` was there.
pub fn character_of(chinese: bool, code: u32) -> u8
    ensures { result ≡ get_or (set_with chinese) code 0 }
{
    let set = if chinese {
        CharacterSet::Chinese
    } else {
        CharacterSet::Standard
    };
    set.character_of(code).unwrap_or(0)
}

// How many spaces stand at the end of a text.
fn spaces_at_end(text: &[u8]) -> usize
    ensures { result ≡ length (take_while is_space (reverse text.now)) }
{
    text.iter()
        .rev()
        .take_while(|character| **character == b' ')
        .count()
}

// The words of a page that can be read: 1 to 8 of them, and each of 21 bits.
#[derive(Clone, Copy)]
struct Received<'a> {
    head: Head,
    words: &'a [u32],
    ghost some: { 1 ≤ length words.now },
    ghost few: { length words.now ≤ 8 },
    ghost whole: { undamaged words.now ≡ true },
}

impl Received<'_> {
    // How many characters the words have room for.
    fn room(&self) -> usize
        ensures { result ≡ room_of self.now.head.numbered (length self.now.words.now) }
    {
        self.head.room(self.words.len())
    }

    // 01's table, 11: whether K in the vector and in the first word is that of the words.
    fn checked(&self, check: u32) -> bool
        requires { check < 16 }
        ensures { result ≡ checked check self.now.words.now }
    {
        sums::six_bit(self.words) == check + 16 * (self.words[0] % 4)
    }

    // The code that begins at a bit of a word. If it does not end in that word, its rest is in the next.
    #[tactic(auto, using(crate::proofs::reading::Characters::code_ends))]
    fn code_in(&self, at: usize, place: usize) -> u32
        requires at_in_bounds { at < length self.now.words.now }
        requires place_bound { place < 21 }
        ensures { result ≡ number (2 ^ 21) self.now.words.now / 2 ^ (21 * at + place) % 16 }
    {
        let low = (self.words[at] >> place) % 16;
        if place < 18 {
            return low;
        }
        if at + 1 == self.words.len() {
            return low;
        }
        (low + (self.words[at + 1] << (21 - place)) % 16) % 16
    }

    // Writes the characters of the page, as many as it has room for, and says how many these are.
    fn write_characters(&self, set: CharacterSet, text: &mut [u8]) -> usize
        requires { room_of self.now.head.numbered (length self.now.words.now) ≤ length text.old }
        ensures count { result ≡ room_of self.now.head.numbered (length self.now.words.now) }
        ensures buffer { text.new ≡ put text.old 0 (text_in (set_in set) self.now.head.numbered self.now.words.now) }
    {
        let room = self.room();
        let mut at: usize = 0;
        let mut place = self.head.size();
        for i in 0..room {
            text[i] = set.character_of(self.code_in(at, place)).unwrap_or(0);
            if place < 17 {
                place += 4;
            } else {
                place -= 17;
                at += 1;
            }
        }
        room
    }

    // Writes the characters, and says what the page says.
    fn read(&self, set: CharacterSet, text: &mut [u8]) -> PageText
        requires { room_of self.now.head.numbered (length self.now.words.now) ≤ length text.old }
        ensures page { read_values result ≡ told_in (set_in set) self.now.head.numbered self.now.words.now }
        ensures buffer { text.new ≡ put text.old 0 (text_in (set_in set) self.now.head.numbered self.now.words.now) }
    {
        let characters = self.write_characters(set, text);
        PageText {
            numbering: self.head.numbering_in(self.words[0]),
            characters,
            spaces_at_end: spaces_at_end(&text[..characters]),
        }
    }
}

// 01's table, 9: whether a page has so many words.
fn is_size(words: usize) -> bool
    ensures { result ≡ is_size words }
{
    (1 <= words) & (words <= MOST_WORDS)
}

// The page that can be read, or its first refusal, which is the same in every set.
#[tactic(auto, unfolding(crate::specs::Answers::read_of))]
fn judge<'a>(kind: u32, check: u32, words: &'a [u32], lent: usize) -> Result<Received<'a>, Refusal>
    ensures told { (set : Set) → told_by (λ _. told_in set (is_numbered kind) words.now) result ≡ read_of set lent kind check words.now }
    ensures page { IfOk result (λ page.
        (page.head.numbered ≡ is_numbered kind) × (page.words.now ≡ words.now) × (room_of (is_numbered kind) (length words.now) ≤ lent)) }
{
    let head = Head::try_from(kind)?;
    if 15 < check {
        return Err(Refusal::Packet);
    }
    if !is_size(words.len()) {
        return Err(Refusal::Size);
    }
    if !sums::undamaged(words) {
        return Err(Refusal::Damaged);
    }
    let page = Received { head, words };
    if !page.checked(check) {
        return Err(Refusal::Checksum);
    }
    if lent < page.room() {
        return Err(Refusal::Room);
    }
    Ok(page)
}

// The words of a page as text of the chosen set, with the type and the K of its vector: the characters, all that the
// words have room for, how many of them are spaces at the end, and what the head says; or the first refusal. What is
// refused leaves the text as it was. The set and the type are numbers, as the C interface hands them in.
pub fn read(
    set: u32,
    kind: u32,
    check: u32,
    words: &[u32],
    text: &mut [u8],
) -> Result<PageText, Refusal>
    ensures told { told_by read_values result ≡ read_chosen set (length text.old) kind check words.now }
    ensures buffer { text.new ≡ text_chosen set kind check words.now text.old }
{
    let set = CharacterSet::try_from(set)?;
    let page = judge(kind, check, words, text.len())?;
    Ok(page.read(set, text))
}
