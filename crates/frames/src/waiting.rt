// The wait for a temporary address (document 01, "Fragments"; document 02, item 3; S8.8.4).
ghost use Rattle.std.specs.Prelude.{◌≡◌};
ghost use Rattle.frames.specs.Waiting.{waited, told_awaited};

use crate::LAST_FRAME;
use refusal::Refusal;

// How many frames it is from the present frame until the designated one comes next, 1 to 128. Counted from the frame after
// the present one it is 0 to 127, so the present frame needs no case of its own.
#[tactic(auto, using(crate::proofs::WaitLaws::wait_sum), unfolding(crate::specs::Waiting::waited))]
pub fn wait(from: u32, to: u32) -> Result<u32, Refusal>
    ensures { told_awaited result ≡ waited from to }
{
    if from > LAST_FRAME {
        return Err(Refusal::Packet);
    }
    if to > LAST_FRAME {
        return Err(Refusal::Packet);
    }
    Ok((to + 127 - from) % 128 + 1)
}
