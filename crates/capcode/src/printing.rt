// CAPCODEs, from value to text, as a label shows them (document 01, "CAPCODE text"; S8.6.2).
ghost use Rattle.std.specs.Prelude.{◌≡◌, ◌+◌, ◌≤◌, length};
ghost use Rattle.laws.specs.Lists.{put};
ghost use Rattle.capcode.specs.Text.{digits, width_of, head_width, text_of};
ghost use Rattle.capcode.specs.Printed.{print_of, buffer_after, told_print};

use crate::assigning::{FineCapcode, judge};
use crate::{Capcode, LAST_OF_SEVEN};
use refusal::Refusal;

// The last `count` digits of a number, zeros written, at a place of a buffer that has room for them.
fn write_digits(out: &mut [u8], place: usize, count: usize, number: u64)
    requires { place + count ≤ length out.old }
    ensures { out.new ≡ put out.old place (digits count number) }
{
    let mut rest = number;
    for left in (0..count).rev() {
        out[place + left] = b'0' + (rest % 10) as u8;
        rest /= 10;
    }
}

// How many digits stand before the letter: the collapse 4 of A to L is not written.
fn head_width(c: Capcode) -> usize
    ensures { (result ≡ head_width c) × (result ≤ 4) }
{
    if crate::assigning::is_standard(c.letter) {
        if c.collapse == 4 {
            return 0;
        }
        return 1;
    }
    4
}

fn width_of(address: u64) -> usize
    ensures { (result ≡ width_of address) × (result ≤ 10) }
{
    if address <= LAST_OF_SEVEN { 7 } else { 10 }
}

// How long the text of a CAPCODE is.
fn text_length(c: Capcode) -> usize
    ensures { result ≡ head_width c + (1 + width_of c.address) }
{
    head_width(c) + (1 + width_of(c.address))
}

impl FineCapcode {
    // Its text at the start of a buffer that has room for it. Frame and collapse are one number of which the last digits are
    // written.
    fn write_text(self, out: &mut [u8])
        requires { head_width self.c + (1 + width_of self.c.address) ≤ length out.old }
        ensures { out.new ≡ put out.old 0 (text_of self.c) }
    {
        let c = self.c;
        let head = head_width(c);
        let number = c.frame as u64 * 10 + c.collapse as u64;
        write_digits(out, 0, head, number);
        out[head] = c.letter;
        let width = width_of(c.address);
        write_digits(out, head + 1, width, c.address);
    }

    // Prints it if there is room.
    fn print(self, out: &mut [u8]) -> Result<usize, Refusal>
        ensures told { told_print result ≡ print_of self.c (length out.old) }
        ensures buffer { out.new ≡ buffer_after self.c out.old }
    {
        let needed = text_length(self.c);
        if out.len() < needed {
            return Err(Refusal::Room);
        }
        self.write_text(out);
        Ok(needed)
    }
}

// The text of a CAPCODE at the start of a lent buffer, and its length, or the first refusal. What is
// refused leaves the buffer as it was.
pub fn print(c: Capcode, out: &mut [u8]) -> Result<usize, Refusal>
    ensures told { told_print result ≡ print_of c (length out.old) }
    ensures buffer { out.new ≡ buffer_after c out.old }
{
    judge(c)?.print(out)
}
