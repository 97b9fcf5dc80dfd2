// Numeric pages: a text as message words, with its K (document 01, "Numeric pages"; 02, item 6; S8.7.8.2,
// Tables 39, 41 and 42). A page is characters, and its zeros stay.
ghost use Rattle.std.specs.Prelude.{◌≡◌, ◌+◌, ◌*◌, ◌/◌, ◌%◌, ◌^◌, ◌≤◌, ◌<◌, true, [], ◌∷◌, ◌++◌, map, length, get_or, IfOk};
ghost use Rattle.laws.specs.Layouts.{size, fit, packed};
ghost use Rattle.laws.specs.Lists.{put, place_in};
ghost use Rattle.refusal.specs.Told.{told_by};
ghost use Rattle.numeric.specs.Pages.{head_of, most_words, room_of, words_for, spaced, codes_of, in_set, words_with, page_of, is_numbered};
ghost use Rattle.numeric.specs.Answers.{flags_of, written_values, laid_in, written_of, written_chosen, words_chosen};
ghost use Rattle.numeric.specs.WritingPieces.{three_from};
ghost use Rattle.numeric.specs.Sets.{set_in};

use crate::page::Head;
use crate::{CharacterSet, MOST_WORDS, Numbering, PageWords};
use refusal::Refusal;
use sums::WORD_LIMIT;

// A page that can be written: its text is of the set and no longer than eight words hold, and the numbers fit its head.
// It has as many words as the text needs, and the room of these.
#[derive(Clone, Copy)]
struct Draft<'a> {
    set: CharacterSet,
    text: &'a [u8],
    head: Head,
    numbering: Numbering,
    words: usize,
    room: usize,
    ghost known: { in_set (set_in set) text.now ≡ true },
    ghost short: { length text.now ≤ room_of head.numbered most_words },
    ghost fits: { fit (head_of head.numbered) (flags_of numbering ++ 0 ∷ []) ≡ true },
    ghost words_is: { words ≡ words_for head.numbered (length text.now) },
    ghost room_is: { room ≡ room_of head.numbered words },
}

impl Draft<'_> {
    // The code at a place of the page: that of the text, then that of a space, and after the room 0.
    #[tactic(auto, using(crate::proofs::writing::Words::page_codes))]
    fn code_at(&self, place: usize) -> u32
        ensures code { result ≡ get_or (map (place_in (set_in self.now.set)) (spaced self.now.room self.now.text.now)) place 0 }
        ensures small { result ≤ 15 }
    {
        if place < self.text.len() {
            return self.set.code_of(self.text[place]).unwrap();
        }
        if place < self.room { 12 } else { 0 }
    }

    // The codes at three places as one number, the first lowest.
    fn three_codes(&self, place: usize) -> u32
        requires { place ≤ 64 }
        ensures codes { result ≡ three_from (map (place_in (set_in self.now.set)) (spaced self.now.room self.now.text.now)) place }
        ensures small { result ≤ 4095 }
    {
        let first = self.code_at(place);
        let second = self.code_at(place + 1);
        let third = self.code_at(place + 2);
        first + 16 * (second + 16 * third)
    }

    // The codes at six places as one number: 24 bits of the characters' bits, which hold any 21 that begin in the first.
    #[tactic(auto, using(crate::proofs::writing::Words::six_at_once))]
    fn six_codes(&self, place: usize) -> u32
        requires { place ≤ 61 }
        ensures { result ≡ codes_of (set_in self.now.set) (spaced self.now.room self.now.text.now) / 16 ^ place % 16 ^ 6 }
    {
        self.three_codes(place) + 4096 * self.three_codes(place + 3)
    }

    // The first word: the head, K as 0, and as many of the characters' bits as stand after it.
    #[tactic(auto, using(crate::proofs::writing::Words::head_and_codes))]
    fn first_word(&self) -> u32
        ensures { result
            ≡ (packed (head_of self.now.head.numbered) (flags_of self.now.numbering ++ 0 ∷ [])
            + 2 ^ size (head_of self.now.head.numbered) * codes_of (set_in self.now.set) (spaced self.now.room self.now.text.now))
            % 2 ^ 21 }
    {
        self.head.with(self.numbering) + (self.six_codes(0) << self.head.size()) % WORD_LIMIT
    }

    // A later word: 21 of the characters' bits from a bit on.
    #[tactic(auto, using(crate::proofs::writing::Words::later_is))]
    fn later_word(&self, start: usize) -> u32
        requires { start ≤ 200 }
        ensures { result ≡ codes_of (set_in self.now.set) (spaced self.now.room self.now.text.now) / 2 ^ start % 2 ^ 21 }
    {
        (self.six_codes(start / 4) >> (start % 4)) % WORD_LIMIT
    }

    // Writes the words of the page with K as 0.
    fn write_words(&self, words: &mut [u32])
        requires { self.now.words ≤ length words.old }
        ensures { words.new
            ≡ put words.old 0
            (words_with (set_in self.now.set) self.now.head.numbered (flags_of self.now.numbering ++ 0 ∷ []) self.now.text.now) }
    {
        words[0] = self.first_word();
        for i in 1..self.words {
            words[i] = self.later_word(21 * i - self.head.size());
        }
    }

    // Writes the words of the page: first with K as 0, then K4 and K5 in the first of them.
    #[tactic(auto, using(crate::proofs::writing::Words::written_page))]
    fn write(&self, words: &mut [u32]) -> PageWords
        requires { self.now.words ≤ length words.old }
        ensures page { written_values result ≡ laid_in (set_in self.now.set) self.now.head.numbered self.now.numbering self.now.text.now }
        ensures buffer { words.new
            ≡ put words.old 0 (page_of (set_in self.now.set) self.now.head.numbered (flags_of self.now.numbering) self.now.text.now) }
    {
        self.write_words(words);
        let check = sums::six_bit(&words[..self.words]);
        words[0] += check / 16;
        PageWords {
            check: check % 16,
            words: self.words,
        }
    }
}

// The page that can be written, or its first refusal.
#[tactic(auto, using(crate::proofs::Bits::page_length), unfolding(crate::specs::Answers::written_of))]
fn judge<'a>(
    set: CharacterSet,
    text: &'a [u8],
    kind: u32,
    numbering: Numbering,
    lent: usize,
) -> Result<Draft<'a>, Refusal>
    ensures told { told_by (λ _. laid_in (set_in set) (is_numbered kind) numbering text.now) result ≡ written_of (set_in set) lent kind numbering text.now }
    ensures page { IfOk result (λ page.
        (page.set ≡ set) × (page.text.now ≡ text.now) × (page.head.numbered ≡ is_numbered kind)
        × (page.numbering ≡ numbering) × (page.words ≤ lent)) }
{
    let head = Head::try_from(kind)?;
    if !head.fits(numbering) {
        return Err(Refusal::Packet);
    }
    if text.len() > head.room(MOST_WORDS) {
        return Err(Refusal::TooLong);
    }
    if !set.has_all(text) {
        return Err(Refusal::Character);
    }
    let words = head.words_for(text.len());
    if lent < words {
        return Err(Refusal::Room);
    }
    Ok(Draft {
        set,
        text,
        head,
        numbering,
        words,
        room: head.room(words),
    })
}

// A text of the chosen set as the words of a page, for a vector of this type: K for the vector and the number of words, or
// the first refusal. What is refused leaves the words as they were. The set and the type are numbers, as the C interface
// hands them in.
pub fn write(
    set: u32,
    text: &[u8],
    kind: u32,
    numbering: Numbering,
    words: &mut [u32],
) -> Result<PageWords, Refusal>
    ensures told { told_by written_values result ≡ written_chosen set (length words.old) kind numbering text.now }
    ensures buffer { words.new ≡ words_chosen set kind numbering text.now words.old }
{
    let set = CharacterSet::try_from(set)?;
    let page = judge(set, text, kind, numbering, words.len())?;
    Ok(page.write(words))
}
