// Cutting a text into fragments (document 01, "The writer takes a text .."; S8.7.8.3, S8.8.5). The text stays where
// it is lent; the fragments are written one after the other into a lent row of words.
ghost use Rattle.std.specs.Prelude.{◌≡◌, ◌+◌, ◌-◌, ◌*◌, ◌%◌, ◌<◌, ◌≤◌, min, true, [], ◌∷◌, ◌++◌, length, take, drop, ◌==◌, slice_index_or, IfOk};
ghost use mathlib.Core.List.{flatten};
ghost use Rattle.laws.specs.Layouts.{packed};
ghost use Rattle.laws.specs.Lists.{put};
ghost use Rattle.laws.specs.Numerals.{number};
ghost use Rattle.sums.specs.Sums.{signature_of};
ghost use Rattle.refusal.specs.Told.{told_by, number_by, number_told};
ghost use Rattle.fragment.specs.Fragments.{is_size, etx, head_of, words_of, fragment_of};
ghost use Rattle.fragment.specs.Cutting.{is_text, sendable, filled, message_of, words_for, fragment_number, continued};
ghost use Rattle.fragment.specs.Cutting.{head_at, marked, fragments_for, fragment_at, cut};
ghost use Rattle.fragment.specs.CutAnswers.{cut_of, words_after, of_cut};

use crate::{CELL_LIMIT, CutSize, ETX, MOST_CHARACTERS, Marks};
use refusal::Refusal;

// How many characters are asked at a time whether they can be sent.
const PART: usize = 64;

// 01's table, 7: whether N, R and M fit their bits.
fn marked(marks: Marks) -> bool
    ensures { result ≡ marked marks }
{
    (marks.mail_drop < 2) & (marks.retrieval < 2) & (marks.message_number < 64)
}

// Whether a character can stand in a text: it has seven bits, and is no fill.
fn is_text(character: u8) -> bool
    ensures { result ≡ is_text character }
{
    ((character as u32) < CELL_LIMIT) & (character as u32 != ETX)
}

// 01's table, 18: whether every character of a part can stand in a text. All are asked, since a loop that leaves early is not
// compiled to several characters at a time.
fn part_sendable(part: &[u8]) -> bool
    ensures { result ≡ sendable part.now }
{
    let mut all = true;
    for character in part {
        all = all & is_text(*character);
    }
    all
}

// 01's table, 18: whether every character can stand in a text. It is asked part by part, so that a text with a wrong character
// near its start is refused without a look at all of it.
fn sendable(text: &[u8]) -> bool
    ensures { result ≡ sendable text.now }
{
    let mut rest = text;
    while rest.len() > PART {
        if !part_sendable(&rest[..PART]) {
            return false;
        }
        rest = &rest[PART..];
    }
    part_sendable(rest)
}

// How many words signature, text and fill are.
fn words_for(characters: usize) -> usize
    requires { characters ≤ 1008 }
    ensures { result ≡ words_for characters }
{
    (characters + 3) / 3
}

// How many fragments a text has.
fn fragments_for(largest: usize, characters: usize) -> usize
    requires largest_value { is_size largest ≡ true }
    requires characters_bound { characters ≤ 1008 }
    ensures count { result ≡ fragments_for largest characters }
    ensures small { result ≤ 420 }
{
    (words_for(characters) + (largest - 2)) / (largest - 1)
}

// The signature of a text with its fill, of which each character lowers it by 3.
fn signature_of(text: &[u8]) -> u32
    ensures sum { result ≡ signature_of (filled text.now) }
    ensures small { result < 128 }
{
    let fill = 2 - text.len() % 3;
    (sums::signature(text) + CELL_LIMIT - ETX * fill as u32) % CELL_LIMIT
}

// F of the fragment at a place: 3, then 0, 1, 2, 0 and so on.
fn fragment_number(place: usize) -> u32
    ensures number { result ≡ fragment_number place }
    ensures small { result < 4 }
{
    if place == 0 {
        return 3;
    }
    ((place - 1) % 3) as u32
}

// C of a fragment that so many follow.
fn continued(left: usize) -> u32
    ensures flag { result ≡ continued left }
    ensures small { result < 2 }
{
    if left == 0 { 0 } else { 1 }
}

// Where the fragment ends that begins at a place of the row: after the largest size, or where the row ends.
fn end_of(start: usize, largest: usize, total: usize) -> usize
    requires { start ≤ total }
    ensures { result ≡ start + min largest (total - start) }
{
    if total - start < largest {
        return total;
    }
    start + largest
}

// A text that can be cut: its characters, N, R and M, the largest size of a fragment, and its signature. Its methods take it
// by value: what is behind a reference is read again for every word that is written.
#[derive(Clone, Copy)]
struct Message<'a> {
    text: &'a [u8],
    marks: Marks,
    largest: usize,
    signature: u32,
    ghost can_be_marked: { marked marks ≡ true },
    ghost is_sized: { is_size largest ≡ true },
    ghost is_short: { length text.now ≤ 1008 },
    ghost can_be_sent: { sendable text.now ≡ true },
    ghost is_signed: { signature ≡ signature_of (filled text.now) },
}

impl<'a> Message<'a> {
    // The message of a text that is to be cut into so many words that are lent; or 7, 9, 15, 18 or 1 of 01's table, the
    // first that applies.
    fn of(text: &'a [u8], marks: Marks, largest: usize, lent: usize) -> Result<Message<'a>, Refusal>
        ensures told { number_by result ≡ number_told (cut_of lent marks largest text.now) }
        ensures value { IfOk result (λ m. (m.text.now ≡ text.now) × (m.marks ≡ marks) × (m.largest ≡ largest)) }
    {
        if !marked(marks) {
            return Err(Refusal::Packet);
        }
        if !crate::head::is_size(largest) {
            return Err(Refusal::Size);
        }
        if text.len() > MOST_CHARACTERS {
            return Err(Refusal::TooLong);
        }
        if !sendable(text) {
            return Err(Refusal::Character);
        }
        if lent < fragments_for(largest, text.len()) + words_for(text.len()) {
            return Err(Refusal::Room);
        }
        Ok(Message {
            text,
            marks,
            largest,
            signature: signature_of(text),
        })
    }

    // How many fragments the text has, and how many words they are together.
    fn size(self) -> CutSize
        ensures fragments { result.fragments ≡ fragments_for self.entry.largest (length self.entry.text.now) }
        ensures words { result.words ≡ result.fragments + words_for (length self.entry.text.now) }
        ensures few { result.fragments ≤ 420 }
    {
        let characters = self.text.len();
        let fragments = fragments_for(self.largest, characters);
        CutSize {
            fragments,
            words: fragments + words_for(characters),
        }
    }

    // The cell at a place: the signature, then the text, then fill.
    fn cell(self, place: usize) -> u32
        ensures cell { result ≡ slice_index_or (message_of self.entry.text.now) place etx }
        ensures small { result < 128 }
    {
        if place == 0 {
            return self.signature;
        }
        if place > self.text.len() {
            return ETX;
        }
        self.text[place - 1] as u32
    }

    // The word that holds the three cells from a place on.
    fn word(self, place: usize) -> u32
        requires { place + 3 ≤ length (message_of self.text.now) }
        ensures word { result ≡ number 128 (take 3 (drop place (message_of self.entry.text.now))) }
        ensures small { result < 0x200000 }
    {
        let first = self.cell(place);
        let second = self.cell(place + 1);
        let third = self.cell(place + 2);
        first + CELL_LIMIT * (second + CELL_LIMIT * third)
    }

    // The first word of the fragment at a place, which so many follow, K as 0.
    fn head(self, place: usize, left: usize) -> u32
        ensures { result ≡ packed (head_of (place == 0)) (head_at self.entry.marks place left ++ 0 ∷ []) }
    {
        let numbers = self.marks.message_number * 0x2000
            + fragment_number(place) * 0x800
            + continued(left) * 0x400;
        if place == 0 {
            return self.marks.mail_drop * 0x10_0000 + self.marks.retrieval * 0x8_0000 + numbers;
        }
        numbers
    }

    // The words after the first of a fragment, whose cells begin at a place of the message.
    fn write_cells(self, place: usize, words: &mut [u32])
        requires { place + 3 * length words.old ≤ length (message_of self.text.now) }
        ensures { words.new ≡ words_of (take (3 * length words.old) (drop place (message_of self.entry.text.now))) }
    {
        let mut at = place;
        for word in words.iter_mut() {
            *word = self.word(at);
            at += 3;
        }
    }

    // The fragment at a place, which so many follow and whose cells begin at a place of the message, in words that it fills:
    // first with K as 0, then K in its first word.
    fn write_fragment(self, place: usize, left: usize, cell: usize, words: &mut [u32])
        requires in_bounds { 1 ≤ length words.old }
        requires words_in_bounds { cell + 3 * (length words.old - 1) ≤ length (message_of self.text.now) }
        ensures { words.new
            ≡ fragment_of (place == 0) (head_at self.entry.marks place left)
            (take (3 * (length words.old - 1)) (drop cell (message_of self.entry.text.now))) }
    {
        words[0] = self.head(place, left);
        self.write_cells(cell, &mut words[1..]);
        let check = sums::ten_bit(&words[..]);
        words[0] = words[0] + check;
    }

    // The fragment at a place, in its part of the row.
    fn write_at(self, place: usize, words: &mut [u32])
        requires room { fragments_for self.largest (length self.text.now) + words_for (length self.text.now) ≤ length words.old }
        requires place_bound { place < fragments_for self.largest (length self.text.now) }
        ensures { words.new
            ≡ put words.old (self.entry.largest * place) (fragment_at self.entry.marks self.entry.largest self.entry.text.now place) }
    {
        let size = self.size();
        let start = self.largest * place;
        let end = end_of(start, self.largest, size.words);
        let cell = 3 * (self.largest - 1) * place;
        self.write_fragment(
            place,
            size.fragments - 1 - place,
            cell,
            &mut words[start..end],
        );
    }

    // The fragments one after the other. By their places, and not over chunks_mut: of what its parts hold then no proof knows.
    fn write(self, words: &mut [u32])
        requires { fragments_for self.largest (length self.text.now) + words_for (length self.text.now) ≤ length words.old }
        ensures { words.new ≡ put words.old 0 (flatten (cut self.entry.marks self.entry.largest self.entry.text.now)) }
    {
        for place in 0..self.size().fragments {
            self.write_at(place, words);
        }
    }
}

// A text as fragments of at most so many words, one after the other: how many fragments and words, or the first refusal.
// What is refused leaves the words as they were.
pub fn cut(text: &[u8], marks: Marks, largest: usize, words: &mut [u32]) -> Result<CutSize, Refusal>
    ensures told { told_by of_cut result ≡ cut_of (length words.old) marks largest text.now }
    ensures buffer { words.new ≡ words_after marks largest text.now words.old }
{
    let message = Message::of(text, marks, largest, words.len())?;
    message.write(words);
    Ok(message.size())
}
