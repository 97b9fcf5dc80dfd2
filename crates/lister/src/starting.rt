// What a listing of CAPCODE lines opens with (document 01, "The listing program"): its first line, and
// where it stands before the first byte.
ghost use Rattle.std.specs.Prelude.{◌≡◌};
ghost use Rattle.lister.specs.Stands.{stand_of, fresh};
ghost use Rattle.lister.specs.Texts.{header, Answered};

use crate::Lister;
use crate::writing::copy;
use refusal::Refusal;

// Where a listing stands before the first byte, and after each line feed.
pub fn start() -> Lister
    ensures { stand_of result ≡ fresh }
{
    Lister {
        line: [0; 16],
        count: 0,
        held: false,
    }
}

// Writes the listing's first line, and gives how many bytes that takes.
pub fn title(out: &mut [u8]) -> Result<usize, Refusal>
    ensures { Answered out.old header result out.new }
{
    if out.len() < 42 {
        return Err(Refusal::Room);
    }
    Ok(copy(b"ADDRESS FIRST SECOND PHASE FRAME COLLAPSE\n", out, 0))
}
