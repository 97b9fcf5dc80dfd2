// What the decoder sends, read into its fields (document 01, "Packets and the handshake"): part ID and status packets
// (S8.4.5, S8.4.9), address and message packets (S8.7). A packet of another ID is refused (7) and its fields read 0. Bits
// that a table marks x are not looked at. The words of hex and secure messages are handed over unread.
//
// The structs with a number beside the fields differ only in a type and are not one generic struct: the C interface takes none.
ghost use Rattle.std.specs.Prelude.{◌≡◌, refl};
ghost use Rattle.laws.specs.Layouts.{fields_of, mask_of, is_printed, printed_bits};
ghost use Rattle.refusal.specs.declared.Refusal.TheVariants as refusals;
ghost use Rattle.packet.specs.Tables.{part_id};
ghost use Rattle.packet.specs.HeardTables.{address, message, status};
ghost use Rattle.packet.specs.Fields.{as_part_id};
ghost use Rattle.packet.specs.Heard.{as_address, address_judged, address_read, as_message, is_message, message_read, as_status};
ghost use Rattle.packet.specs.Reading.{unless};
ghost use Rattle.packet.specs.Tells.{address_tells, message_tells};

use crate::tables::{Readable, Table};
use crate::{Packet, PartId};
use refusal::Refusal;

// The fields of the part ID packet (Table 8), or its refusal.
#[repr(C)]
#[derive(Clone, Copy, Debug, PartialEq, Eq)]
pub struct PartIdRead {
    pub number: u32,
    pub fields: PartId,
}

// The status packet (Table 12): FIV; f, the frame 0 to 127; SM; LB; c, the cycle 0 to 15; SMU; LBU; MT; EOF; BOE.
#[repr(C)]
#[derive(Clone, Copy, Debug, PartialEq, Eq)]
pub struct Status {
    pub frame_valid: u32,
    pub frame: u32,
    pub synchronous: u32,
    pub low_battery: u32,
    pub cycle: u32,
    pub synchronous_update: u32,
    pub low_battery_update: u32,
    pub minute: u32,
    pub end_of_frame: u32,
    pub overflow: u32,
}

// The fields of a status packet, or its refusal.
#[repr(C)]
#[derive(Clone, Copy, Debug, PartialEq, Eq)]
pub struct StatusRead {
    pub number: u32,
    pub fields: Status,
}

// The address packet (Table 30): PA; p, 0 to 3 for A to D; LA; the address number that AI stands for, 0 to
// 31, the last 16 temporary; TOA; WN, the word number of the vector, 0 where none will come.
#[repr(C)]
#[derive(Clone, Copy, Debug, PartialEq, Eq)]
pub struct Address {
    pub priority: u32,
    pub phase: u32,
    pub long_address: u32,
    pub address: u32,
    pub tone_only: u32,
    pub vector: u32,
}

// The fields of an address packet, or its refusal.
#[repr(C)]
#[derive(Clone, Copy, Debug, PartialEq, Eq)]
pub struct AddressRead {
    pub number: u32,
    pub fields: Address,
}

// A message packet (Table 40): WN; e; p; the 21 bits i.
#[repr(C)]
#[derive(Clone, Copy, Debug, PartialEq, Eq)]
pub struct Message {
    pub word: u32,
    pub damaged: u32,
    pub phase: u32,
    pub bits: u32,
}

// The fields of a message packet, or its refusal.
#[repr(C)]
#[derive(Clone, Copy, Debug, PartialEq, Eq)]
pub struct MessageRead {
    pub number: u32,
    pub fields: Message,
}

// The word number of the vector, or 0 after a tone-only address, which brings none.
fn vector_of_address(bits: u32) -> u32
    ensures { result ≡ (as_address (fields_of address bits)).vector }
{
    if (bits >> 7) % 2 == 1 { 0 } else { bits % 0x80 }
}

// The fields of an address packet (Table 30).
fn address_of(bits: u32) -> Address
    ensures { result ≡ as_address (fields_of address bits) }
{
    let index = (bits >> 8) % 0x100;
    Address {
        priority: (bits >> 23) % 2,
        phase: (bits >> 21) % 4,
        long_address: (bits >> 20) % 2,
        // The temporary addresses come after the sixteen of the pager.
        address: index % 16 + 16 * (index / 0x80),
        tone_only: (bits >> 7) % 2,
        vector: vector_of_address(bits),
    }
}

// The address packet (Table 30). It is refused with 7, or else with 8 for an index that stands for no address.
impl Readable for Address {
    ghost judged = { address_judged };

    ghost read = { λ n. as_address (fields_of address n) };

    ghost told = { λ n. ((address_read n).number, (address_read n).fields) };

    fn judge(bits: u32) -> Result<(), Refusal> {
        // Whether it is an address packet, and its vector's word number one of a frame.
        let right = (bits & 0xFF00_0000 == Packet::ADDRESS << 24)
            & (((bits >> 7) % 2 == 1) | (bits % 0x80 <= Packet::LAST_WORD));
        if !right {
            return Err(Refusal::Packet);
        }
        // Whether the address index stands for an address.
        match (bits >> 8) % 0x100 {
            0x00..=0x0F | 0x80..=0x8F => Ok(()),
            _ => Err(Refusal::Address),
        }
    }

    fn of_bits(bits: u32) -> Address {
        address_of(bits)
    }

    ghost tells = { address_tells };
}

// What any 32 bits say as a message packet: word number, error mark, phase and the 21 bits. In a vector the first three stand
// at the same places.
pub fn message_of(bits: u32) -> Message
    ensures { result ≡ as_message (fields_of message bits) }
{
    Message {
        word: (bits >> 24) % 0x80,
        damaged: (bits >> 23) % 2,
        phase: (bits >> 21) % 4,
        bits: bits % 0x20_0000,
    }
}

// The message packet (Table 40).
impl Readable for Message {
    ghost judged = { λ n. unless refusals.Packet (is_message n) };

    ghost read = { λ n. as_message (fields_of message n) };

    ghost told = { λ n. ((message_read n).number, (message_read n).fields) };

    fn judge(bits: u32) -> Result<(), Refusal> {
        match bits >> 24 {
            Packet::FIRST_MESSAGE..=Packet::LAST_WORD => Ok(()),
            _ => Err(Refusal::Packet),
        }
    }

    fn of_bits(bits: u32) -> Message {
        message_of(bits)
    }

    ghost tells = { message_tells };
}

// The part ID packet (Table 8).
impl Table for PartId {
    ghost layout = { part_id };

    ghost fields = { as_part_id };

    const MASK: u32 = 0xFF00_0000;

    ghost MASK = { mask_of is_printed part_id };

    const PRINTED: u32 = Packet::PART_ID << 24;

    ghost PRINTED = { printed_bits part_id };

    fn laid_out(bits: u32) -> PartId {
        PartId {
            model: (bits >> 22) % 4,
            compatibility: (bits >> 8) % 0x4000,
            revision: bits % 0x100,
        }
    }

    ghost shown = { λ _. refl };
}

// The status packet (Table 12).
impl Table for Status {
    ghost layout = { status };

    ghost fields = { as_status };

    const MASK: u32 = 0xFF00_0000;

    ghost MASK = { mask_of is_printed status };

    const PRINTED: u32 = Packet::STATUS << 24;

    ghost PRINTED = { printed_bits status };

    fn laid_out(bits: u32) -> Status {
        Status {
            frame_valid: (bits >> 23) % 2,
            frame: (bits >> 16) % 0x80,
            synchronous: (bits >> 15) % 2,
            low_battery: (bits >> 14) % 2,
            cycle: (bits >> 8) % 16,
            synchronous_update: (bits >> 7) % 2,
            low_battery_update: (bits >> 6) % 2,
            minute: (bits >> 4) % 2,
            end_of_frame: (bits >> 2) % 2,
            overflow: bits % 2,
        }
    }

    ghost shown = { λ _. refl };
}
