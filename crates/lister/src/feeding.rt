// The listing of CAPCODE lines (document 01, "The listing program"), by portions of any size: bytes of
// lines in, bytes of the listing out.
ghost use Rattle.std.specs.Prelude.{◌≡◌, true, false, not, ◌&&◌, ◌++◌, ◌+◌, ◌^◌, ◌≤◌, ◌<◌, length, get_or, IfSome};
ghost use Rattle.lister.specs.Stands.{kept_of, stand_of};
ghost use Rattle.lister.specs.Texts.{Wrote};
ghost use Rattle.lister.specs.Verdicts.{line_feed, verdict_of};
ghost use Rattle.lister.specs.Portions.{kept, held_bytes, writes, next, most_written, taken_of};
ghost use Rattle.lister.specs.Portions.{as_it_is, FedByte, Ahead, LineWritten, FedOn, FedAll};

use crate::line_end::Verdict;
use crate::writing::{copy, show, show_held};
use crate::{Fed, Lister};

// Writes what stands after a text.
fn write_verdict(text: &[u8], out: &mut [u8], place: usize) -> usize
    requires { place + 23 ≤ length out.old }
    ensures { Wrote out.old place (verdict_of text.now) result out.new }
{
    let verdict = crate::line_end::judge(text);
    copy(verdict.as_slice(), out, place)
}

// Writes what a byte of the input brings.
fn write_byte(before: &Lister, byte: u8, out: &mut [u8], place: usize) -> usize
    requires { place + most_written ≤ length out.old }
    ensures { Wrote out.old place (writes (stand_of before.now) byte) result out.new }
{
    if byte == b'\n' {
        return write_verdict(before.kept(), out, place);
    }
    let shown = show_held(before.held, out, place);
    if byte == b'\r' {
        return shown;
    }
    show(byte, out, shown)
}

// Whether the listing shows a byte as it is.
fn is_shown_as_it_is(byte: u8) -> bool
    ensures { result ≡ as_it_is byte }
{
    ((b' ' <= byte) & (byte <= b'~')) & !(byte == b'\\')
}

// How many bytes stand before the next line feed, if one comes within sixteen bytes.
fn bytes_to_feed(input: &[u8]) -> Option<usize>
    ensures { IfSome result (λ n. (n < 16) × (n < length input.now) × (get_or input.now n 0 ≡ line_feed)) }
{
    let head = &input[..input.len().min(16)];
    head.iter().position(|byte| *byte == b'\n')
}

// Writes the line of an accepted text, and gives the place after it; writes nothing of any other.
fn write_line(text: &[u8], out: &mut [u8], place: usize) -> Option<usize>
    requires { place + length text.now + 23 ≤ length out.old }
    ensures { LineWritten out.old place text.now result out.new }
{
    let Verdict::Accepted(end) = crate::line_end::judge(text) else {
        return None;
    };
    let text_end = copy(text, out, place);
    Some(copy(&end, out, text_end))
}

impl Lister {
    // Keeps the carriage return that was held back, now that it is a byte of the line. (`with_return` gives the same of a
    // listing that is handed over; a copy of the listing at every byte would cost more than the byte.)
    fn keep_return(&mut self)
        ensures kept { kept_of self.new ≡ kept (kept_of self.old ++ held_bytes self.old.held) }
        ensures held { self.new.held ≡ false }
    {
        if self.held {
            self.keep(b'\r');
            self.held = false;
        }
    }

    // Takes a byte of the input.
    fn go_on(&mut self, byte: u8)
        ensures { stand_of self.new ≡ next (stand_of self.old) byte }
    {
        if byte == b'\n' {
            self.count = 0;
            self.held = false;
            return;
        }
        self.keep_return();
        if byte == b'\r' {
            self.held = true;
            return;
        }
        self.keep(byte);
    }
}

impl Fed {
    // Takes a byte that is shown as it is, where no carriage return is held back: nearly every byte, so it
    // has the short way.
    fn feed_as_it_is(&mut self, byte: u8, out: &mut [u8])
        requires most_written_in_bounds { self.old.written + most_written ≤ length out.old }
        requires taken_bound { self.old.taken + 1 < 2 ^ 64 }
        requires held_value { (as_it_is byte && not self.old.lister.held) ≡ true }
        ensures { FedByte self.old out.old byte self.new out.new }
    {
        out[self.written] = byte;
        self.lister.keep(byte);
        self.taken += 1;
        self.written += 1;
    }

    // Takes one byte more of a portion.
    fn feed_byte(&mut self, byte: u8, out: &mut [u8])
        requires most_written_in_bounds { self.old.written + most_written ≤ length out.old }
        requires taken_bound { self.old.taken + 1 < 2 ^ 64 }
        ensures { FedByte self.old out.old byte self.new out.new }
    {
        if is_shown_as_it_is(byte) & !self.lister.held {
            return self.feed_as_it_is(byte, out);
        }
        self.written = write_byte(&self.lister, byte, out, self.written);
        self.lister.go_on(byte);
        self.taken += 1;
    }

    // How long the text of a line is that can be taken whole: one that begins here, is short enough for an
    // accepted text, and has room: 15 bytes of text, 23 of its end, and 32 for whatever one byte more may
    // write.
    fn line_ahead(&self, input: &[u8], room: usize) -> Option<usize>
        requires { self.now.taken ≤ length input.now }
        ensures { IfSome result (λ n. (n < 16) × Ahead self.now input.now room n) }
    {
        if ((self.lister.count == 0) & !self.lister.held) & (70 <= room) {
            return bytes_to_feed(&input[self.taken..]);
        }
        None
    }

    // Takes a whole line, if that of an accepted text is ahead, and else one byte: most lines are such, and
    // need not be kept byte by byte.
    fn feed_some(&mut self, input: &[u8], out: &mut [u8])
        requires most_written_in_bounds { self.old.written + most_written ≤ length out.old }
        requires taken_in_bounds { self.old.taken < length input.now }
        ensures { FedOn self.old input.now out.old self.new out.new }
    {
        let at = self.taken;
        let Some(n) = self.line_ahead(input, out.len() - self.written) else {
            return self.feed_byte(input[at], out);
        };
        let Some(written) = write_line(&input[at..at + n], out, self.written) else {
            return self.feed_byte(input[at], out);
        };
        self.taken = at + n + 1;
        self.written = written;
    }
}

// Takes the bytes of a portion while the buffer has room for whatever one byte may write, and writes the
// listing of what was taken at the buffer's start. With room for 32 bytes at least one byte is taken. (The loop takes a byte or
// a line at a turn, which no iterator does.)
pub fn feed(lister: Lister, input: &[u8], out: &mut [u8]) -> Fed
    ensures { FedAll (stand_of lister) input.now out.old
        (taken_of (stand_of lister) (length out.old) input.now) result out.new }
{
    let mut fed = Fed {
        lister,
        taken: 0,
        written: 0,
    };
    while fed.taken < input.len() {
        if out.len() - fed.written < 32 {
            break;
        }
        fed.feed_some(input, out);
    }
    fed
}
