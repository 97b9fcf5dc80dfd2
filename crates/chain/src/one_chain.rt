// What a fragment makes of its chain (document 01, "A continuation must carry the next F .."; its table, 14, 15 and 16): one
// record, one fragment's heading, and the record that the slot has then.
ghost use Rattle.std.specs.Prelude.{◌≡◌, Err};
ghost use Rattle.chain.specs.Steps.{next_number, fate};
ghost use Rattle.chain.specs.FateAnswers.{as_fate};

use crate::{BLANK, Chain, LAST_FRAGMENT, Lost, WHOLE_SUM};
use fragment::{CELL_LIMIT, FragmentHeading, MOST_CHARACTERS};
use refusal::Refusal;

// F counts 3, 0, 1, 2, 0 and so on: the one after.
fn next_number(fragment_number: u32) -> u32
    ensures { result ≡ next_number fragment_number }
{
    if fragment_number < LAST_FRAGMENT {
        return fragment_number + 1;
    }
    0
}

// A chain that its fragment closes: the refusal, and the record that its slot has then.
fn lost(refusal: Refusal, after: Chain) -> Result<Chain, Lost>
    ensures { result ≡ Err (record { refusal = refusal; chain = after }) }
{
    Err(Lost {
        refusal,
        chain: after,
    })
}

// What a fragment makes of its chain: its record after the fragment; or 14, 15 or 16 of 01's table, with which the chain is
// closed, and its slot's record then.
pub fn fate(chain: Chain, heading: FragmentHeading) -> Result<Chain, Lost>
    ensures { result ≡ as_fate (fate chain heading) }
{
    let closed = BLANK;
    if heading.fragment_number != chain.next_fragment {
        return lost(Refusal::OutOfTurn, closed);
    }
    if heading.characters > MOST_CHARACTERS {
        return lost(Refusal::TooLong, closed);
    }
    if chain.characters > MOST_CHARACTERS - heading.characters {
        return lost(Refusal::TooLong, closed);
    }
    let sum = (chain.sum % CELL_LIMIT + heading.sum % CELL_LIMIT) % CELL_LIMIT;
    if heading.continued != 0 {
        return Ok(Chain {
            is_open: 1,
            address: chain.address,
            message_number: chain.message_number,
            next_fragment: next_number(heading.fragment_number),
            sum: sum,
            characters: chain.characters + heading.characters,
        });
    }
    if sum != WHOLE_SUM {
        return lost(Refusal::Signature, closed);
    }
    Ok(closed)
}
