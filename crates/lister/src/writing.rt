// What every part of a listing is written with: a text put at its place, a hexadecimal digit, and a byte as it is shown.
//
// A buffer and a place in it go from function to function beside one another, and in no struct: one that holds a `&mut` owes in
// each contract that it still holds the same, which is no plainer.
ghost use Rattle.std.specs.Prelude.{◌+◌, ◌≤◌, ◌<◌, ◌≡◌, length, take};
ghost use Rattle.lister.specs.Texts.{Wrote};
ghost use Rattle.lister.specs.Verdicts.{hex_digit};
ghost use Rattle.lister.specs.Lines.{shown_byte, in_four};
ghost use Rattle.lister.specs.Portions.{held_shown};

use crate::{Padded, Shown};

// Puts a text into a buffer at a place, and gives the place after it.
pub(crate) fn copy(text: &[u8], out: &mut [u8], place: usize) -> usize
    requires { place + length text.now ≤ length out.old }
    ensures { Wrote out.old place text.now result out.new }
{
    let end = place + text.len();
    out[place..end].copy_from_slice(text);
    end
}

// A hexadecimal digit, capitals: ten is `A`, which is 65. The library's digits are small letters.
pub(crate) fn hex_digit(d: u8) -> u8
    requires { d < 16 }
    ensures { result ≡ hex_digit d }
{
    if d < 10 { b'0' + d } else { 55 + d }
}

// A byte of a line as the listing shows it: what a terminal could act on is escaped (house).
pub fn shown_byte(byte: u8) -> Shown
    ensures { result ≡ in_four (shown_byte byte) }
{
    if byte == b'\\' {
        return Padded {
            bytes: [b'\\', b'\\', 0, 0],
            size: 2,
        };
    }
    if (b' ' <= byte) & (byte <= b'~') {
        return Padded {
            bytes: [byte, 0, 0, 0],
            size: 1,
        };
    }
    Padded {
        bytes: [b'\\', b'x', hex_digit(byte / 16), hex_digit(byte % 16)],
        size: 4,
    }
}

// Writes a byte of a line as the listing shows it. The three cases are those of `shown_byte`, by themselves: a copy of so many
// bytes as the case says takes no call, and one of as many as a `Shown` holds takes half of the time of a line of such bytes.
pub(crate) fn show(byte: u8, out: &mut [u8], place: usize) -> usize
    requires { place + 4 ≤ length out.old }
    ensures { Wrote out.old place (shown_byte byte) result out.new }
{
    match byte {
        b'\\' => copy(b"\\\\", out, place),
        b' '..=b'~' => copy(&[byte], out, place),
        _ => {
            let escaped = [b'\\', b'x', hex_digit(byte / 16), hex_digit(byte % 16)];
            copy(&escaped, out, place)
        }
    }
}

// Writes the carriage return that was held back, now that it is a byte of the line.
pub(crate) fn show_held(held: bool, out: &mut [u8], place: usize) -> usize
    requires { place + length (held_shown held) ≤ length out.old }
    ensures { Wrote out.old place (held_shown held) result out.new }
{
    if held { show(b'\r', out, place) } else { place }
}
