// The two ends of a start-up (document 01, "Packets and the handshake"; S8.4.2): the mirror of a decoder that was reset,
// and the checksum packet that makes it talk.
ghost use Rattle.std.specs.Prelude.{◌≡◌};
ghost use Rattle.packet.specs.Reading.{built_as};
ghost use Rattle.mirror.specs.Handshake.{fresh, mirrored_as, reset_by, closing_of};

use crate::Mirror;
use packet::{Checksum, Packet};
use refusal::Refusal;

// The mirror of a decoder that was reset and told its part ID.
pub fn reset(packet: Packet) -> Result<Mirror, Refusal>
    ensures { mirrored_as fresh result ≡ reset_by packet.bits }
{
    let bits = packet.bits;
    // No ID is above the part ID's, so what a packet is over it are its data bits.
    if bits < Packet::PART_ID << 24 {
        return Err(Refusal::Packet);
    }
    Ok(Mirror {
        register: bits - (Packet::PART_ID << 24),
        talking: 0,
    })
}

// The checksum packet that makes the decoder talk.
pub fn closing(mirror: Mirror) -> Result<Packet, Refusal>
    ensures { built_as result ≡ closing_of mirror }
{
    mirror.check()?;
    Packet::build(Checksum {
        value: mirror.register,
    })
}
