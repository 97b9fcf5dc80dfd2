// The mirror follows the decoder: after one packet, and after a run of them (document 01, "Packets and the
// handshake"; S8.4.2).
ghost use Rattle.std.specs.Prelude.{ℕ, ◌≡◌};
ghost use Rattle.mirror.specs.Handshake.{summed, step_of, run_of, answered, mirrored_as};

use crate::{DATA_VALUES, Mirror};
use packet::Packet;
use refusal::Refusal;

// The register after a packet other than a checksum.
fn summed(register: u32, bits: u32) -> u32
    ensures { result ≡ summed register bits }
{
    match bits >> 24 {
        Packet::FIRST_SPECIAL..=Packet::LAST_SPECIAL => register,
        _ => register ^ (bits % DATA_VALUES),
    }
}

// The register after a packet, whether the decoder talks or not: a checksum is not summed.
fn register_after(register: u32, bits: u32) -> u32
    ensures { (talking : ℕ) → result ≡ (step_of (record { register = register; talking = talking }) bits).register }
{
    if bits >> 24 == Packet::CHECKSUM {
        return register;
    }
    summed(register, bits)
}

// Whether the decoder talks after a packet: a checksum wakes a silent one if it holds the register and does nothing to
// one that talks, any other packet silences it. `talking` is a number and no bool, as the C interface hands it in: one that
// is neither 0 nor 1 comes back from a checksum as it was.
fn talking_after(register: u32, talking: u32, bits: u32) -> u32
    ensures { result ≡ (step_of (record { register = register; talking = talking }) bits).talking }
{
    if bits >> 24 != Packet::CHECKSUM {
        return 0;
    }
    if talking != 0 {
        return talking;
    }
    (bits % DATA_VALUES == register) as u32
}

// The mirror after one packet.
pub fn step(mirror: Mirror, packet: Packet) -> Result<Mirror, Refusal>
    ensures { mirrored_as mirror result ≡ answered mirror (step_of mirror packet.bits) }
{
    mirror.check()?;
    Ok(Mirror {
        register: register_after(mirror.register, packet.bits),
        talking: talking_after(mirror.register, mirror.talking, packet.bits),
    })
}

// The mirror after a run of packets. Here the register and whether the decoder talks are two numbers, and the loop is no
// fold over a mirror: a struct of both would be packed into one register of the machine and taken apart again at every
// packet.
#[tactic(auto, unfolding(crate::specs::Handshake::run_of))]
pub fn run(mirror: Mirror, packets: &[u32]) -> Result<Mirror, Refusal>
    ensures { mirrored_as mirror result ≡ answered mirror (run_of mirror packets.now) }
{
    mirror.check()?;
    let Mirror {
        mut register,
        mut talking,
    } = mirror;
    for &packet in packets {
        talking = talking_after(register, talking, packet);
        register = register_after(register, packet);
    }
    Ok(Mirror { register, talking })
}
