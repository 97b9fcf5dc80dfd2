// What a caller of the chains lends: the records, as they are after a reset, and the buffer, of which a text that is
// handed out is a part.
ghost use Rattle.std.specs.Prelude.{◌≡◌, take, drop};
ghost use Rattle.chain.specs.Chains.{slot_count, fresh};

use crate::{BLANK, Chains, SLOTS};

// The state after a reset: no chain is open.
pub fn fresh() -> Chains
    ensures { result ≡ record { slots = fresh slot_count } }
{
    let slots = [BLANK; SLOTS];
    Chains { slots: slots }
}

// A text as a part of the lent buffer: so many characters from a place on, as far as the buffer goes.
pub fn text(buffer: &[u8], place: usize, characters: usize) -> &[u8]
    ensures { result.now ≡ take characters (drop place buffer.now) }
{
    if buffer.len() <= place {
        return &buffer[0..0];
    }
    if buffer.len() - place < characters {
        return &buffer[place..];
    }
    let end = place + characters;
    &buffer[place..end]
}
