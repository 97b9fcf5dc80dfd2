// Frames listened to, merged over up to sixteen addresses into the masks of packets 20H to 27H (document 01, "CAPCODE
// text"; S8.6.7).
ghost use Rattle.std.specs.Prelude.{◌≡◌, ◌≤◌, ◌%◌, ◌/◌, true, take, get_or};
ghost use Rattle.frames.specs.Listening.{listens, heard, mask_from, ones_of, last_collapse, fits, all_fit, listened, told_listening};
ghost use Rattle.frames.specs.Repeating.{combs, alternating};

use crate::{LAST_COLLAPSE, LAST_FRAME, Listener, Listeners, Listening};
use refusal::Refusal;

// 01's table, 7: whether a listener's frame and collapse are ones that a CAPCODE can name.
fn fits(listener: Listener) -> bool
    ensures { result ≡ fits listener }
{
    (listener.frame <= LAST_FRAME) & (listener.collapse <= LAST_COLLAPSE)
}

// Whether each listener fits.
fn all_fit(listeners: &[Listener]) -> bool
    ensures { result ≡ all_fit listeners.now }
{
    listeners.iter().all(|listener| fits(*listener))
}

// A collapse of at most 5 repeats its frames after 32 (S8.6.7), so that 32 bits hold them: here those of base frame 0.
const COMBS: [u32; 6] = [
    0xFFFF_FFFF,
    0x5555_5555,
    0x1111_1111,
    0x0101_0101,
    0x0001_0001,
    0x0000_0001,
];

// The comb of a collapse.
fn comb(collapse: usize) -> u32
    requires { collapse ≤ last_collapse }
    ensures { result ≡ get_or combs collapse 0 }
{
    COMBS[collapse]
}

// The first 32 frames as a mask: those that the listener listens to, its comb moved to its base frame.
fn mask(listener: Listener) -> u32
    requires { listener.collapse ≤ last_collapse }
    ensures { result ≡ mask_from (listens listener) 0 32 }
{
    let collapse = listener.collapse as usize;
    let frame = listener.frame;
    comb(collapse) << (frame % (1 << collapse))
}

// The first 32 frames as a mask: those that some listener listens to.
fn merged(listeners: &[Listener]) -> u32
    requires { all_fit listeners.now ≡ true }
    ensures { result ≡ mask_from (heard listeners.now) 0 32 }
{
    let mut marked = 0;
    for listener in listeners {
        marked |= mask(*listener);
    }
    marked
}

// The masks of packets 20H to 27H, the highest frames first (Table 28), for 32 frames that repeat.
fn masks_of(repeated: u32) -> [u16; 8]
    ensures { result ≡ alternating (repeated / 65536) (repeated % 65536) 4 }
{
    let high = (repeated / 65536) as u16;
    let low = (repeated % 65536) as u16;
    [high, low, high, low, high, low, high, low]
}

// 01: "the count of marked bits over all eight packets".
fn marked_bits(masks: [u16; 8]) -> u32
    ensures { result ≡ ones_of masks }
{
    let mut count = 0;
    for mask in masks {
        count += mask.count_ones();
    }
    count
}

// The frames that a pager with these addresses listens to: their number, and the masks to send.
#[tactic(auto, using(crate::proofs::Hearing::looked), unfolding(crate::specs::Listening::listened))]
pub fn listen(all: Listeners) -> Result<Listening, Refusal>
    ensures { told_listening result ≡ listened (take all.count all.listeners) all.count }
{
    let looked_at = &all.listeners[..(all.count as usize).min(16)];
    if !all_fit(looked_at) {
        return Err(Refusal::Packet);
    }
    if all.count > 16 {
        return Err(Refusal::Size);
    }
    let masks = masks_of(merged(looked_at));
    Ok(Listening {
        frames: marked_bits(masks),
        masks,
    })
}
