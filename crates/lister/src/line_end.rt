// What the listing shows after a text (document 01, "The listing program").
ghost use Rattle.std.specs.Prelude.{◌≡◌, [], ◌∷◌, ◌++◌, ◌+◌, ◌≤◌, ◌<◌, length, Ok};
ghost use Rattle.capcode.specs.Text.{digits};
ghost use Rattle.refusal.specs.Told.{refused, refused_at};
ghost use Rattle.capcode.specs.Reads.{read_of, told_read};
ghost use Rattle.lister.specs.Texts.{Wrote};
ghost use Rattle.lister.specs.Verdicts.{line_feed, six_digits, phase_shown, plain, verdict_by, verdict_as, stands_after};

use crate::Padded;
use crate::writing::{copy, hex_digit};
use capcode::{Assignment, Capcode, Fault, Words};
use refusal::Refusal;

// What stands after a text, with the end of its line.
#[derive(Clone, Copy, Debug, PartialEq, Eq)]
pub(crate) enum Verdict {
    Accepted([u8; 23]),
    Refused(Padded<15>),
}

impl Verdict {
    // The bytes that stand after the text.
    pub(crate) fn as_slice(&self) -> &[u8]
        ensures { result.now ≡ stands_after self.now }
    {
        match self {
            Verdict::Accepted(end) => end,
            Verdict::Refused(end) => end.as_slice(),
        }
    }
}

// A word as six hexadecimal digits, one by one as the definition reads: a chain over the places is no plainer.
fn six_digits(word: u32) -> [u8; 6]
    ensures { result ≡ six_digits word }
{
    [
        hex_digit((word / 0x100000 % 16) as u8),
        hex_digit((word / 0x10000 % 16) as u8),
        hex_digit((word / 0x1000 % 16) as u8),
        hex_digit((word / 0x100 % 16) as u8),
        hex_digit((word / 0x10 % 16) as u8),
        hex_digit((word % 16) as u8),
    ]
}

// The mark of a phase: its letter, or `*` for any-phase.
fn phase_mark(phase: u8) -> u8
    requires { phase ≤ 4 }
    ensures { result ≡ phase_shown phase }
{
    if phase == 4 { b'*' } else { b'A' + phase }
}

// What stands after an accepted text, by its two words and its phase as they are shown.
fn fields(first: [u8; 6], second: [u8; 6], phase: u8, c: Capcode, a: Assignment) -> [u8; 23]
    ensures { result ≡ 32 ∷ first ++ 32 ∷ second ++ 32 ∷ phase ∷ 32 ∷ digits 3 a.frame ++ 32 ∷ digits 1 c.collapse ++ line_feed ∷ [] }
{
    let mut end = *b" ------ ------ A 000 0\n";
    end[1..7].copy_from_slice(&first);
    end[8..14].copy_from_slice(&second);
    end[15] = phase;
    end[17] = b'0' + a.frame / 10 / 10 % 10;
    end[18] = b'0' + a.frame / 10 % 10;
    end[19] = b'0' + a.frame % 10;
    end[21] = b'0' + (c.collapse % 10) as u8;
    end
}

// What stands after the text of an accepted CAPCODE.
fn accepted_end(c: Capcode, a: Assignment) -> [u8; 23]
    requires { a.phase ≤ 4 }
    ensures { result ≡ verdict_by (told_read (Ok (c, a))) ++ line_feed ∷ [] }
{
    let phase = phase_mark(a.phase);
    match capcode::words_of(c.address) {
        Ok(Words::One(word)) => fields(six_digits(word), [b'-'; 6], phase, c, a),
        Ok(Words::Two(first, second)) => fields(six_digits(first), six_digits(second), phase, c, a),
        Err(_) => fields([b'0'; 6], [b'-'; 6], phase, c, a),
    }
}

// Writes a number of at most two digits, with no zero before it. (`write!` would write into a formatter, which is no plainer.)
fn write_plain(n: u32, out: &mut [u8], place: usize) -> usize
    requires { place + 2 ≤ length out.old }
    ensures { Wrote out.old place (plain n) result out.new }
{
    let low = b'0' + (n % 10) as u8;
    if n < 10 {
        return copy(&[low], out, place);
    }
    copy(&[b'0' + (n / 10 % 10) as u8, low], out, place)
}

// What stands after a refused text: " REFUSED n".
fn refused_end(refusal: Refusal) -> Verdict
    ensures { result ≡ verdict_as (refused refusal) }
{
    let mut bytes = *b" REFUSED \0\0\0\0\0\0";
    let feed = write_plain(refusal.number(), &mut bytes, 9);
    let size = copy(b"\n", &mut bytes, feed);
    Verdict::Refused(Padded { bytes, size })
}

// What stands after a text that goes wrong at a place: " REFUSED n place".
fn wrong_end(refusal: Refusal, place: u8) -> Verdict
    ensures { result ≡ verdict_as (refused_at refusal place) }
{
    let mut bytes = *b" REFUSED \0\0\0\0\0\0";
    let blank = write_plain(refusal.number(), &mut bytes, 9);
    let after_blank = copy(b" ", &mut bytes, blank);
    let feed = write_plain(place as u32, &mut bytes, after_blank);
    let size = copy(b"\n", &mut bytes, feed);
    Verdict::Refused(Padded { bytes, size })
}

// What stands after a text.
pub(crate) fn judge(text: &[u8]) -> Verdict
    ensures { result ≡ verdict_as (read_of text.now) }
{
    match capcode::read(text) {
        Ok((c, a)) => Verdict::Accepted(accepted_end(c, a)),
        Err(Fault::Wrong(r, place)) => wrong_end(r, place),
        Err(Fault::Refused(r)) => refused_end(r),
    }
}
