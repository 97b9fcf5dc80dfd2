// What the host may send (document 01, "Packets and the handshake"): no packet of a reserved or special ID, and none
// with a bit set that its table prints as 0.
ghost use Rattle.std.specs.Prelude.{◌≡◌};
ghost use Rattle.refusal.specs.Told.{number_by};
ghost use Rattle.packet.specs.Rule.{send_of};

use crate::tables::shown;
use crate::{
    AddressEnable, AllFrameMode, Configuration, Control, FrameAssignment, Packet, ReceiverLines,
    ShutDown, UserAddress,
};
use refusal::Refusal;

// Whether the host may send a packet: refused with 7 if not. The settings of the receiver go with any data bits.
pub fn may_send(packet: Packet) -> Result<(), Refusal>
    ensures { number_by result ≡ send_of packet.bits }
{
    let bits = packet.bits;
    match bits >> 24 {
        Packet::CHECKSUM => Ok(()),
        Packet::CONFIGURATION => shown::<Configuration>(bits),
        Packet::CONTROL => shown::<Control>(bits),
        Packet::ALL_FRAME_MODE => shown::<AllFrameMode>(bits),
        Packet::RECEIVER_LINES => shown::<ReceiverLines>(bits),
        Packet::RECEIVER_OFF..=Packet::DATA_1600 => Ok(()),
        Packet::SHUT_DOWN_1..=Packet::SHUT_DOWN_2 => shown::<ShutDown>(bits),
        Packet::FIRST_FRAMES..=Packet::LAST_FRAMES => shown::<FrameAssignment>(bits),
        Packet::ADDRESS_ENABLE => shown::<AddressEnable>(bits),
        Packet::FIRST_USER_ADDRESS..=Packet::LAST_USER_ADDRESS => shown::<UserAddress>(bits),
        _ => Err(Refusal::Packet),
    }
}
