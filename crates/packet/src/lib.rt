// The packets between host and decoder (document 01, "Packets and the handshake"): each ID's one name, and the packets, read
// into their fields and built from them (S8.3.5, S8.3.7, S8.3.8). Every field is a number, so that one too large for its place can be
// refused (7) wherever it comes from; a flag is 0 or 1.
//
// Where each field stands is said by the data sheet's tables: specs/Tables for what the host sends, specs/HeardTables and
// specs/VectorTables for what the decoder sends. How fields become bits, and bits fields, is in specs/Fields, specs/Sent,
// specs/Heard and specs/Vectors; what the host may send is in specs/Rule. proofs/ has the laws and worked packets of each.
// The same ID means one thing to the decoder and another from it, so the readers are apart by direction.
#![tactic(auto)]

ghost use Rattle.std.specs.Prelude.{◌≡◌};
ghost use Rattle.packet.specs.Names.{all_ids};

// What follows from the tables, for all packets: reading and building.
mod tables;

// What the host sends, read back into its fields.
mod sent;

// The packets that are built from their fields.
mod building;

// What the host may send.
mod sending;

// What the decoder sends, read into its fields: address, message, part ID and status packets.
mod heard;

// The vectors that the decoder sends, of every type, read into their fields.
mod vectors;

// Building, reading and the send rule with C's answer.
pub mod for_c;

pub use heard::{
    Address, AddressRead, Message, MessageRead, PartIdRead, Status, StatusRead, message_of,
};
pub use sending::may_send;
pub use sent::{
    AddressEnableRead, AllFrameModeRead, ChecksumRead, ConfigurationRead, ControlRead,
    FrameAssignmentRead, ReceiverLinesRead, ShutDownRead, UserAddressRead,
};
pub use tables::{Buildable, Readable, Table, read, told};
pub use vectors::{Instruction, ShortMessage, Span, Vector, VectorRead};

// 32 bits: the ID in the highest byte, 24 data bits after it (Table 1).
#[repr(C)]
#[derive(Clone, Copy, Debug, PartialEq, Eq)]
pub struct Packet {
    pub bits: u32,
}

// A number beside the packet and no Result: the C interface hands it out as it is.

// The packet that was built; `number` is 0, or 7 and the packet's bits are 0.
#[repr(C)]
#[derive(Clone, Copy, Debug, PartialEq, Eq)]
pub struct Built {
    pub number: u32,
    pub packet: Packet,
}

// The checksum packet (Table 9): CV, 24 bits.
#[repr(C)]
#[derive(Clone, Copy, Debug, PartialEq, Eq)]
pub struct Checksum {
    pub value: u32,
}

// The configuration packet (Table 5): OFD (Table 4) and SP (Table 6), 0 to 3; SME, MOT, COD, MTE and LBP.
#[repr(C)]
#[derive(Clone, Copy, Debug, PartialEq, Eq)]
pub struct Configuration {
    pub oscillator: u32,
    pub polarity: u32,
    pub synchronous_mode: u32,
    pub maximum_off_time: u32,
    pub clock_output_disable: u32,
    pub minute_timer: u32,
    pub low_battery_polarity: u32,
}

// The control packet (Table 11): FF, a bit for each of frames 0 to 7; SPM; PS (Table 10), 0 to 3; SBI, MTC and ON.
#[repr(C)]
#[derive(Clone, Copy, Debug, PartialEq, Eq)]
pub struct Control {
    pub forced_frames: u32,
    pub single_phase: u32,
    pub phase: u32,
    pub block_information: u32,
    pub minute_timer_clear: u32,
    pub on: u32,
}

// The all frame mode packet (Table 56): DAF; FAF; DTA, a bit for each temporary address.
#[repr(C)]
#[derive(Clone, Copy, Debug, PartialEq, Eq)]
pub struct AllFrameMode {
    pub decrement: u32,
    pub force: u32,
    pub decrement_temporary: u32,
}

// The receiver line control packet (Table 19): FRS and CLS, a bit for each of lines S0 to S7.
#[repr(C)]
#[derive(Clone, Copy, Debug, PartialEq, Eq)]
pub struct ReceiverLines {
    pub forced: u32,
    pub settings: u32,
}

// A receiver shut-down packet (Tables 20 and 21): s, 0 for shut-down 1 and 1 for shut-down 2; SE; LBC; CLS,
// a bit for each line; ST, in steps of 625 microseconds.
#[repr(C)]
#[derive(Clone, Copy, Debug, PartialEq, Eq)]
pub struct ShutDown {
    pub setting: u32,
    pub enable: u32,
    pub low_battery_check: u32,
    pub lines: u32,
    pub time: u32,
}

// A frame assignment packet (Tables 28 and 29): f, 0 to 7; AF, a bit for each of its sixteen frames.
#[repr(C)]
#[derive(Clone, Copy, Debug, PartialEq, Eq)]
pub struct FrameAssignment {
    pub range: u32,
    pub frames: u32,
}

// A user address assignment packet (Table 26): a, 0 to 15; LA; TOA; A, an address word of 21 bits.
#[repr(C)]
#[derive(Clone, Copy, Debug, PartialEq, Eq)]
pub struct UserAddress {
    pub location: u32,
    pub long_address: u32,
    pub tone_only: u32,
    pub word: u32,
}

// The user address enable packet (Table 27): UAE, a bit for each location.
#[repr(C)]
#[derive(Clone, Copy, Debug, PartialEq, Eq)]
pub struct AddressEnable {
    pub enabled: u32,
}

// The part ID packet (Table 8): MDL, CID and REV.
#[repr(C)]
#[derive(Clone, Copy, Debug, PartialEq, Eq)]
pub struct PartId {
    pub model: u32,
    pub compatibility: u32,
    pub revision: u32,
}

// Constants and no enum: 01 names the form, "Associated constants of a packet type", and the C header has them.
impl Packet {
    // What the host sends (Table 2).
    pub const CHECKSUM: u32 = 0x00;

    pub const CONFIGURATION: u32 = 0x01;

    pub const CONTROL: u32 = 0x02;

    pub const ALL_FRAME_MODE: u32 = 0x03;

    pub const RECEIVER_LINES: u32 = 0x0F;

    pub const RECEIVER_OFF: u32 = 0x10;

    pub const WARM_UP_1: u32 = 0x11;

    pub const WARM_UP_2: u32 = 0x12;

    pub const WARM_UP_3: u32 = 0x13;

    pub const WARM_UP_4: u32 = 0x14;

    pub const WARM_UP_5: u32 = 0x15;

    pub const SYNC_3200: u32 = 0x16;

    pub const SYNC_1600: u32 = 0x17;

    pub const DATA_3200: u32 = 0x18;

    pub const DATA_1600: u32 = 0x19;

    pub const SHUT_DOWN_1: u32 = 0x1A;

    pub const SHUT_DOWN_2: u32 = 0x1B;

    pub const FIRST_SPECIAL: u32 = 0x1C;

    pub const LAST_SPECIAL: u32 = 0x1F;

    pub const FIRST_FRAMES: u32 = 0x20;

    pub const LAST_FRAMES: u32 = 0x27;

    pub const ADDRESS_ENABLE: u32 = 0x78;

    pub const FIRST_USER_ADDRESS: u32 = 0x80;

    pub const LAST_USER_ADDRESS: u32 = 0x8F;

    // What the decoder sends (Table 3). A vector's or message word's ID is its word number.
    pub const ADDRESS: u32 = 0x01;

    pub const FIRST_VECTOR: u32 = 0x02;

    pub const FIRST_MESSAGE: u32 = 0x03;

    pub const LAST_WORD: u32 = 87;

    pub const STATUS: u32 = 0x7F;

    pub const PART_ID: u32 = 0xFF;

    // Every name, tied to the definitions' number.
    pub fn names() -> [u32; 30]
        ensures { result ≡ all_ids }
    {
        [
            Packet::CHECKSUM,
            Packet::CONFIGURATION,
            Packet::CONTROL,
            Packet::ALL_FRAME_MODE,
            Packet::RECEIVER_LINES,
            Packet::RECEIVER_OFF,
            Packet::WARM_UP_1,
            Packet::WARM_UP_2,
            Packet::WARM_UP_3,
            Packet::WARM_UP_4,
            Packet::WARM_UP_5,
            Packet::SYNC_3200,
            Packet::SYNC_1600,
            Packet::DATA_3200,
            Packet::DATA_1600,
            Packet::SHUT_DOWN_1,
            Packet::SHUT_DOWN_2,
            Packet::FIRST_SPECIAL,
            Packet::LAST_SPECIAL,
            Packet::FIRST_FRAMES,
            Packet::LAST_FRAMES,
            Packet::ADDRESS_ENABLE,
            Packet::FIRST_USER_ADDRESS,
            Packet::LAST_USER_ADDRESS,
            Packet::ADDRESS,
            Packet::FIRST_VECTOR,
            Packet::FIRST_MESSAGE,
            Packet::LAST_WORD,
            Packet::STATUS,
            Packet::PART_ID,
        ]
    }
}
