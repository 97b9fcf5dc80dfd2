// CAPCODEs, as C and Rust link them: numbers, slices and structs by value. Every function takes any input. `number` is 0,
// or the number of the refusal; every other field is then 0, but for the place where a text goes wrong.
ghost use Rattle.std.specs.Prelude.{◌≡◌, length};
ghost use Rattle.refusal.specs.Told.{refused_at};
ghost use Rattle.capcode.specs.Assigned.{assigned};
ghost use Rattle.capcode.specs.Reads.{read_of};
ghost use Rattle.capcode.specs.Printed.{print_of, buffer_after};
ghost use Rattle.host.specs.Flat.{capcode_of, capcode_from, assignment_from, length_from};

use capcode::{Assignment, Capcode, Fault};
use refusal::Refusal;

// The structs below have a number beside their fields and are no Result, and the parts of a CAPCODE are handed in one by one:
// the C interface has them so.

// A CAPCODE: its letter, the three frame digits of U to Y (0 with A to H), its collapse and address; and
// the phase (0 to 3 for A to D, 4 for any-phase) and base frame that it assigns. With a `number` of 3 or 19 to 21 `place` is
// that of the first byte, counted from 0, at which no correct text could go on: the text's length where it only stops too
// soon, and 15 at most. Else it is 0.
#[repr(C)]
#[derive(Clone, Copy)]
pub struct MortisevaneCapcode {
    pub number: u32,
    pub letter: u8,
    pub frame: u32,
    pub collapse: u32,
    pub phase: u8,
    pub base: u8,
    pub place: u8,
    pub address: u64,
}

// A phase (0 to 3 for A to D, 4 for any-phase) and a base frame.
#[repr(C)]
#[derive(Clone, Copy)]
pub struct MortisevaneAssignment {
    pub number: u32,
    pub phase: u8,
    pub base: u8,
}

// How many bytes of a lent buffer were written.
#[repr(C)]
#[derive(Clone, Copy)]
pub struct MortisevaneLength {
    pub number: u32,
    pub length: usize,
}

fn capcode_refused(refusal: Refusal, place: u8) -> MortisevaneCapcode
    ensures { result ≡ capcode_from (refused_at refusal place) }
{
    MortisevaneCapcode {
        number: refusal.number(),
        letter: 0,
        frame: 0,
        collapse: 0,
        phase: 0,
        base: 0,
        place,
        address: 0,
    }
}

impl From<Result<(Capcode, Assignment), Fault>> for MortisevaneCapcode {
    ghost use Rattle.capcode.specs.Reads.{told_read};
    ghost use Rattle.host.specs.Flat.{capcode_from};

    ghost from_gives = { λ answer told. told ≡ capcode_from (told_read answer) };

    fn from(answer: Result<(Capcode, Assignment), Fault>) -> MortisevaneCapcode {
        match answer {
            Ok((c, a)) => MortisevaneCapcode {
                number: 0,
                letter: c.letter,
                frame: c.frame,
                collapse: c.collapse,
                phase: a.phase,
                base: a.frame,
                place: 0,
                address: c.address,
            },
            Err(Fault::Wrong(refusal, place)) => capcode_refused(refusal, place),
            Err(Fault::Refused(refusal)) => capcode_refused(refusal, 0),
        }
    }
}

// What a CAPCODE text says.
// Takes the text, without a line's end.
// Answers its letter, frame digits, collapse and address, and the phase and base frame that it assigns.
// Refuses 3, 19, 20, 21, with the place at which the text goes wrong, then 4, 5, 6, the first that applies. By the byte at
// that place 20 is a 4 at the start, 19 any other digit before the letter, 21 a digit after the letter, 3 any other byte; a
// text that only stops too soon is 21.
#[unsafe(no_mangle)]
pub extern "C" fn mortisevane_capcode_read(text: &[u8]) -> MortisevaneCapcode
    ensures { result ≡ capcode_from (read_of text.now) }
{
    capcode::read(text).into()
}

impl From<Result<Assignment, Refusal>> for MortisevaneAssignment {
    ghost use Rattle.capcode.specs.Assigned.{told_assign};
    ghost use Rattle.host.specs.Flat.{assignment_from};

    ghost from_gives = { λ answer told. told ≡ assignment_from (told_assign answer) };

    fn from(answer: Result<Assignment, Refusal>) -> MortisevaneAssignment {
        match answer {
            Ok(a) => MortisevaneAssignment {
                number: 0,
                phase: a.phase,
                base: a.frame,
            },
            Err(refusal) => MortisevaneAssignment {
                number: refusal.number(),
                phase: 0,
                base: 0,
            },
        }
    }
}

// The phase and base frame of a CAPCODE.
// Takes the letter as a character, the frame (0 with A to H), the collapse and the address.
// Answers the phase (0 to 3 for A to D, 4 for any-phase) and the base frame.
// Refuses 3, 4, 5, 6, 7, the first that applies. Here 3 is a letter that no CAPCODE has; 7 is a collapse over 5, a frame
// over 127, or a frame that is not 0 with A to H.
#[unsafe(no_mangle)]
pub extern "C" fn mortisevane_capcode_assign(
    letter: u8,
    frame: u32,
    collapse: u32,
    address: u64,
) -> MortisevaneAssignment
    ensures { result ≡ assignment_from (assigned (capcode_of letter frame collapse address)) }
{
    let c = Capcode {
        letter,
        frame,
        collapse,
        address,
    };
    capcode::assign(c).into()
}

impl From<Result<usize, Refusal>> for MortisevaneLength {
    ghost use Rattle.capcode.specs.Printed.{told_print};
    ghost use Rattle.host.specs.Flat.{length_from};

    ghost from_gives = { λ answer told. told ≡ length_from (told_print answer) };

    fn from(answer: Result<usize, Refusal>) -> MortisevaneLength {
        match answer {
            Ok(length) => MortisevaneLength { number: 0, length },
            Err(refusal) => MortisevaneLength {
                number: refusal.number(),
                length: 0,
            },
        }
    }
}

// The text of a CAPCODE, written at the start of a lent buffer.
// Takes the letter as a character, the frame (0 with A to H), the collapse, the address and the buffer, for which
// MORTISEVANE_CAPCODE_BYTES are always enough.
// Answers how many bytes were written; no zero byte stands after them.
// Refuses 3, 4, 5, 6, 7, as mortisevane_capcode_assign does, and last 1; the buffer is then as it was.
#[unsafe(no_mangle)]
pub extern "C" fn mortisevane_capcode_print(
    letter: u8,
    frame: u32,
    collapse: u32,
    address: u64,
    out: &mut [u8],
) -> MortisevaneLength
    ensures told { result ≡ length_from (print_of (capcode_of letter frame collapse address) (length out.old)) }
    ensures buffer { out.new ≡ buffer_after (capcode_of letter frame collapse address) out.old }
{
    let c = Capcode {
        letter,
        frame,
        collapse,
        address,
    };
    capcode::print(c, out).into()
}
