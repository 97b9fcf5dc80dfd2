// CAPCODEs, from text to value (document 01, "CAPCODE text"; S8.6.2).
ghost use Rattle.std.specs.Prelude.{◌≡◌, ◌≤◌, length, drop};
ghost use Rattle.capcode.specs.Reads.{is_digit, head_goes_on, letter_goes_on, address_goes_on, Bounded, head_digit, the_letter};
ghost use Rattle.capcode.specs.Reads.{address_digit, step_of, going, follow, is_whole, said_by, end_of, form_of, read_as};
ghost use Rattle.capcode.specs.Reads.{before_letter, fault_at, read_of, told_read};
ghost use Rattle.capcode.specs.Underway.{Sound};

use crate::{Assignment, Capcode, Fault, LAST_OF_SEVEN};
use refusal::Refusal;

// Where the reading of a text stands: how many digits came before the letter and their number, the letter
// (0 while none came), how many digits came after it and their number.
// The letter is a byte and no Option: the definition of the reading goes by the same numbers. The bounds are no ghost field, since
// the definition builds a Reading where no bound holds yet: each of its records would have to bring a proof.
#[derive(Clone, Copy)]
pub struct Reading {
    pub before: u32,
    pub number: u32,
    pub letter: u8,
    pub after: u32,
    pub address: u64,
}

// A text that goes wrong at a place.
#[derive(Clone, Copy)]
pub(crate) struct Wrong<'a> {
    pub(crate) text: &'a [u8],
    pub(crate) place: usize,
    pub ghost within: { (place ≤ length text.now) × (place ≤ 15) },
}

pub(crate) fn is_digit(byte: u8) -> bool
    ensures { result ≡ is_digit byte }
{
    byte.is_ascii_digit()
}

// Whether some correct text begins with so many digits of this number.
fn head_goes_on(count: u32, number: u32) -> bool
    ensures { result ≡ head_goes_on count number }
{
    if count == 1 {
        return (number <= 3) | (number == 5);
    }
    if count == 2 {
        return number <= 12;
    }
    if count == 3 {
        return number <= 127;
    }
    (count == 4) & (number % 10 <= 5)
}

pub(crate) fn letter_goes_on(count: u32, letter: u8) -> bool
    ensures { result ≡ letter_goes_on count letter }
{
    let standard = crate::assigning::is_standard(letter);
    let framed = crate::assigning::is_framed(letter);
    (((count == 0) | (count == 1)) & standard) | ((count == 4) & framed)
}

// Whether some address begins with so many digits of this number: ten digits are for the large ones only.
fn address_goes_on(count: u32, number: u64) -> bool
    ensures { result ≡ address_goes_on count number }
{
    if count <= 7 {
        return true;
    }
    ((count == 8) & (20316 <= number))
        | ((count == 9) & (203161 <= number))
        | ((count == 10) & (2031615 <= number))
}

// A digit before the letter.
fn head_digit(s: Reading, digit: u8) -> Option<Reading>
    requires { Bounded s }
    ensures { result ≡ head_digit s digit }
{
    let count = s.before + 1;
    let number = s.number * 10 + digit as u32;
    if head_goes_on(count, number) {
        Some(Reading {
            before: count,
            number,
            letter: 0,
            after: 0,
            address: 0,
        })
    } else {
        None
    }
}

// The letter, or what stands in its place.
fn the_letter(s: Reading, byte: u8) -> Option<Reading>
    ensures { result ≡ the_letter s byte }
{
    if letter_goes_on(s.before, byte) {
        Some(Reading {
            before: s.before,
            number: s.number,
            letter: byte,
            after: 0,
            address: 0,
        })
    } else {
        None
    }
}

// A digit after the letter.
fn address_digit(s: Reading, digit: u8) -> Option<Reading>
    requires { Bounded s }
    ensures { result ≡ address_digit s digit }
{
    let count = s.after + 1;
    let number = s.address * 10 + digit as u64;
    if address_goes_on(count, number) {
        Some(Reading {
            before: s.before,
            number: s.number,
            letter: s.letter,
            after: count,
            address: number,
        })
    } else {
        None
    }
}

// The reading after one byte more, or none if no correct text goes on so.
#[tactic(auto, unfolding(crate::specs::Reads::step_of))]
fn step_of(s: Reading, byte: u8) -> Option<Reading>
    requires { Bounded s }
    ensures { result ≡ step_of s byte }
{
    if is_digit(byte) {
        if s.letter == 0 {
            return head_digit(s, byte - b'0');
        }
        return address_digit(s, byte - b'0');
    }
    if s.letter == 0 {
        return the_letter(s, byte);
    }
    None
}

// Whether a text may end here.
fn is_whole(s: Reading) -> bool
    ensures { result ≡ is_whole s }
{
    !(s.letter == 0) & (((s.after == 7) & (s.address <= LAST_OF_SEVEN)) | (s.after == 10))
}

fn said_frame(s: Reading) -> u32
    requires { Bounded s }
    ensures { result ≡ (said_by s).frame }
{
    if s.before == 4 { s.number / 10 } else { 0 }
}

fn said_collapse(s: Reading) -> u32
    ensures { result ≡ (said_by s).collapse }
{
    if s.before == 0 { 4 } else { s.number % 10 }
}

// The form of a text that was read to its end.
fn form_at_end(s: Reading, end: usize) -> Result<Capcode, usize>
    requires { Bounded s }
    ensures { result ≡ end_of (going end s) }
{
    if is_whole(s) {
        return Ok(Capcode {
            letter: s.letter,
            frame: said_frame(s),
            collapse: said_collapse(s),
            address: s.address,
        });
    }
    Err(end)
}

// One byte more after the letter: a digit, or no correct text goes on so.
#[tactic(auto, unfolding(crate::specs::Reads::step_of))]
fn step_after_letter(s: Reading, byte: u8) -> Option<Reading>
    requires { Bounded s × (s.letter ≡ 0 → ⊥) }
    ensures { result ≡ step_of s byte }
{
    if is_digit(byte) {
        return address_digit(s, byte - b'0');
    }
    None
}

// What a text says of which the letter came before `from`, where the reading stands at `start`.
fn form_after_letter(start: Reading, text: &[u8], from: usize) -> Result<Capcode, usize>
    requires { Sound start × (start.letter ≡ 0 → ⊥) × (from ≤ length text.now) }
    ensures { result ≡ end_of (follow (going from start) (drop from text.now)) }
{
    let mut s = start;
    for here in from..text.len() {
        let Some(next) = step_after_letter(s, text[here]) else {
            return Err(here);
        };
        s = next;
    }
    form_at_end(s, text.len())
}

// What a text says, or the first place at which no correct text goes on as it does: the text's length where it only stops
// too soon. The digits after the letter have a loop of their own, since they are most of a text.
pub(crate) fn form_of(text: &[u8]) -> Result<Capcode, usize>
    ensures { result ≡ form_of text.now }
{
    let mut s = Reading {
        before: 0,
        number: 0,
        letter: 0,
        after: 0,
        address: 0,
    };
    // A `while` and no `for`: a `for` was tried, and an accepted line of the listing took 43 instructions more with it.
    let mut i = 0;
    while i < text.len() {
        if !(s.letter == 0) {
            break;
        }
        let Some(next) = step_of(s, text[i]) else {
            return Err(i);
        };
        s = next;
        i += 1;
    }
    if s.letter == 0 {
        return Err(i);
    }
    form_after_letter(s, text, i)
}

// What is answered for a text that says `c`.
fn read_as(c: Capcode) -> Result<(Capcode, Assignment), Fault>
    ensures { told_read result ≡ read_as c }
{
    let a = crate::assigning::assign(c)?;
    Ok((c, a))
}

impl Wrong<'_> {
    // Whether the place is before the letter: only digits stand before it.
    pub(crate) fn is_before_letter(self) -> bool
        ensures { result ≡ before_letter self.entry.text.now self.entry.place }
    {
        self.text[..self.place].iter().all(|byte| is_digit(*byte))
    }

    // The refusal, by the byte that stands there, if one does.
    #[tactic(auto, unfolding(crate::specs::Reads::fault_at))]
    pub(crate) fn refusal(self) -> Refusal
        ensures { result ≡ fault_at self.entry.text.now self.entry.place }
    {
        if self.place == self.text.len() {
            return Refusal::DigitAfterLetter;
        }
        let byte = self.text[self.place];
        if !is_digit(byte) {
            return Refusal::Text;
        }
        if (self.place == 0) & (byte == b'4') {
            return Refusal::LeadingFour;
        }
        if self.is_before_letter() {
            return Refusal::DigitBeforeLetter;
        }
        Refusal::DigitAfterLetter
    }
}

// What a text says, with the phase and base frame that it assigns, or the first refusal, with the place where the text goes
// wrong if it is not in the form.
pub fn read(text: &[u8]) -> Result<(Capcode, Assignment), Fault>
    ensures { told_read result ≡ read_of text.now }
{
    match form_of(text) {
        Ok(c) => read_as(c),
        Err(place) => Err(Fault::Wrong(Wrong { text, place }.refusal(), place as u8)),
    }
}
