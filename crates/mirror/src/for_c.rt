// The mirror and the closing packet with C's answer: a struct, in place of a `Result`. Each function is called by one export.
// The two have the same contract, word for word; the export takes a packet as its 32 bits.
ghost use Rattle.std.specs.Prelude.{◌≡◌};
ghost use Rattle.mirror.specs.Handshake.{step_of, run_of, answered, reset_by, closing_of};

use crate::{Mirror, Mirrored};
use packet::{Built, Packet};

// The mirror of a decoder that was reset and sent its part ID.
#[inline]
pub fn reset(packet: Packet) -> Mirrored
    ensures { result ≡ reset_by packet.bits }
{
    Mirrored::told(crate::reset(packet), Mirror::default())
}

// The mirror after one packet.
#[inline]
pub fn step(mirror: Mirror, packet: Packet) -> Mirrored
    ensures { result ≡ answered mirror (step_of mirror packet.bits) }
{
    Mirrored::told(crate::step(mirror, packet), mirror)
}

// The mirror after a run of packets.
#[inline]
pub fn run(mirror: Mirror, packets: &[u32]) -> Mirrored
    ensures { result ≡ answered mirror (run_of mirror packets.now) }
{
    Mirrored::told(crate::run(mirror, packets), mirror)
}

// The checksum packet that makes the decoder talk.
#[inline]
pub fn closing(mirror: Mirror) -> Built
    ensures { result ≡ closing_of mirror }
{
    crate::closing(mirror).into()
}
