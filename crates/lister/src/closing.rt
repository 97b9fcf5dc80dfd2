// The end of a listing of CAPCODE lines (document 01, "The listing program"): what stands after its last byte.
ghost use Rattle.std.specs.Prelude.{false, ◌≡◌, ◌++◌, ◌+◌, ◌≤◌, length};
ghost use Rattle.lister.specs.Stands.{kept_of, stand_of};
ghost use Rattle.lister.specs.Texts.{Answered};
ghost use Rattle.lister.specs.Verdicts.{verdict_of};
ghost use Rattle.lister.specs.Portions.{kept, held_bytes, held_shown, closes};

use crate::Lister;
use crate::writing::{copy, show_held};
use refusal::Refusal;

// Where a listing stands at the end of the input: the carriage return that was held back is a byte of the line.
pub fn with_return(lister: Lister) -> Lister
    ensures { (kept_of result ≡ kept (kept_of lister ++ held_bytes lister.held)) × (length result.line ≡ 16) × (result.held ≡ false) }
{
    let mut ended = lister;
    if lister.held {
        ended.keep(b'\r');
    }
    ended.held = false;
    ended
}

// How many bytes the carriage return that was held back takes.
fn held_length(held: bool) -> usize
    ensures { result ≡ length (held_shown held) }
{
    if held { 4 } else { 0 }
}

// Writes the end of a last line that no line feed ends.
fn write_last(ended: Lister, held: bool, out: &mut [u8]) -> Result<usize, Refusal>
    ensures { Answered out.old (held_shown held ++ verdict_of (kept_of ended)) result out.new }
{
    let verdict = crate::line_end::judge(ended.kept());
    let end = verdict.as_slice();
    if out.len() < held_length(held) + end.len() {
        return Err(Refusal::Room);
    }
    let place = show_held(held, out, 0);
    Ok(copy(end, out, place))
}

// Writes what stands after the last byte: the end of the last line, if that has a byte and no line feed. Gives how many bytes
// that takes.
pub fn close(lister: Lister, out: &mut [u8]) -> Result<usize, Refusal>
    ensures { Answered out.old (closes (stand_of lister)) result out.new }
{
    let ended = with_return(lister);
    if ended.count == 0 {
        return Ok(0);
    }
    write_last(ended, lister.held, out)
}
