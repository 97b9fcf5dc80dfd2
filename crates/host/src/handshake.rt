// The mirror of the decoder, as C and Rust link it. Every function takes any input, and its contract is
// that of the function it calls: `number` is 0, or 01's number of the refusal.
ghost use Rattle.std.specs.Prelude.{◌≡◌};
ghost use Rattle.mirror.specs.Handshake.{step_of, run_of, answered, reset_by, closing_of};

use mirror::{Mirror, Mirrored};
use packet::{Built, Packet};

// The mirror of a decoder that was reset and told its part ID.
// Takes the part ID packet.
// Answers the mirror: the register is the packet's 24 data bits, and the decoder is not talking.
// Refuses 7: another packet.
#[unsafe(no_mangle)]
pub extern "C" fn mortisevane_mirror_reset(packet: u32) -> Mirrored
    ensures { result ≡ reset_by packet }
{
    mirror::for_c::reset(Packet { bits: packet })
}

// The mirror after one packet that the host sent.
// Takes the mirror and the packet, any 32 bits.
// Answers the mirror then; after a checksum packet `talking` says whether the decoder talks.
// Refuses 2: a register over 24 bits.
#[unsafe(no_mangle)]
pub extern "C" fn mortisevane_mirror_step(mirror: Mirror, packet: u32) -> Mirrored
    ensures { result ≡ answered mirror (step_of mirror packet) }
{
    mirror::for_c::step(mirror, Packet { bits: packet })
}

// The mirror after a run of packets that the host sent.
// Takes the mirror and the packets, any 32 bits each.
// Answers the mirror after the last of them.
// Refuses 2: a register over 24 bits.
#[unsafe(no_mangle)]
pub extern "C" fn mortisevane_mirror_run(mirror: Mirror, packets: &[u32]) -> Mirrored
    ensures { result ≡ answered mirror (run_of mirror packets.now) }
{
    mirror::for_c::run(mirror, packets)
}

// The checksum packet that makes the decoder talk.
// Takes the mirror.
// Answers the packet, to be sent last of a set-up and run through the mirror as every other.
// Refuses 2: a register over 24 bits.
#[unsafe(no_mangle)]
pub extern "C" fn mortisevane_mirror_closing(mirror: Mirror) -> Built
    ensures { result ≡ closing_of mirror }
{
    mirror::for_c::closing(mirror)
}
