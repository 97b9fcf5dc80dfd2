// What the host sends, read back into its fields (document 01, "Packets and the handshake"): checksum, configuration,
// control and all frame mode (S8.4, S8.8), receiver lines and shut-down (S8.5), frames and user addresses (S8.6). A packet
// whose ID is another's, or that has a bit set which its table prints as 0, is refused (7), and its fields read 0.
//
// The structs with a number beside the fields differ only in a type and are not one generic struct: the C interface takes none.
ghost use Rattle.std.specs.Prelude.{refl};
ghost use Rattle.laws.specs.Layouts.{mask_of, is_printed, printed_bits};
ghost use Rattle.packet.specs.Tables.{checksum, configuration, control, all_frame_mode, receiver_lines, shut_down};
ghost use Rattle.packet.specs.Tables.{frame_assignment, user_address, address_enable};
ghost use Rattle.packet.specs.Fields.{as_checksum, as_configuration, as_control, as_all_frame_mode, as_receiver_lines};
ghost use Rattle.packet.specs.Fields.{as_shut_down, as_frame_assignment, as_user_address, as_address_enable};

use crate::tables::Table;
use crate::{
    AddressEnable, AllFrameMode, Checksum, Configuration, Control, FrameAssignment, Packet,
    ReceiverLines, ShutDown, UserAddress,
};

// The fields of a checksum packet (Table 9), or its refusal.
#[repr(C)]
#[derive(Clone, Copy, Debug, PartialEq, Eq)]
pub struct ChecksumRead {
    pub number: u32,
    pub fields: Checksum,
}

// The fields of a configuration packet (Table 5), or its refusal.
#[repr(C)]
#[derive(Clone, Copy, Debug, PartialEq, Eq)]
pub struct ConfigurationRead {
    pub number: u32,
    pub fields: Configuration,
}

// The fields of a control packet (Table 11), or its refusal.
#[repr(C)]
#[derive(Clone, Copy, Debug, PartialEq, Eq)]
pub struct ControlRead {
    pub number: u32,
    pub fields: Control,
}

// The fields of an all frame mode packet (Table 56), or its refusal.
#[repr(C)]
#[derive(Clone, Copy, Debug, PartialEq, Eq)]
pub struct AllFrameModeRead {
    pub number: u32,
    pub fields: AllFrameMode,
}

// The fields of a receiver line control packet (Table 19), or its refusal.
#[repr(C)]
#[derive(Clone, Copy, Debug, PartialEq, Eq)]
pub struct ReceiverLinesRead {
    pub number: u32,
    pub fields: ReceiverLines,
}

// The fields of a receiver shut-down packet (Table 21), or its refusal.
#[repr(C)]
#[derive(Clone, Copy, Debug, PartialEq, Eq)]
pub struct ShutDownRead {
    pub number: u32,
    pub fields: ShutDown,
}

// The fields of a frame assignment packet (Table 29), or its refusal.
#[repr(C)]
#[derive(Clone, Copy, Debug, PartialEq, Eq)]
pub struct FrameAssignmentRead {
    pub number: u32,
    pub fields: FrameAssignment,
}

// The fields of a user address assignment packet (Table 26), or its refusal.
#[repr(C)]
#[derive(Clone, Copy, Debug, PartialEq, Eq)]
pub struct UserAddressRead {
    pub number: u32,
    pub fields: UserAddress,
}

// The fields of the user address enable packet (Table 27), or its refusal.
#[repr(C)]
#[derive(Clone, Copy, Debug, PartialEq, Eq)]
pub struct AddressEnableRead {
    pub number: u32,
    pub fields: AddressEnable,
}

// The checksum packet (Table 9).
impl Table for Checksum {
    ghost layout = { checksum };

    ghost fields = { as_checksum };

    const MASK: u32 = 0xFF00_0000; // Table 9

    ghost MASK = { mask_of is_printed checksum };

    const PRINTED: u32 = Packet::CHECKSUM << 24;

    ghost PRINTED = { printed_bits checksum };

    fn laid_out(bits: u32) -> Checksum {
        Checksum {
            value: bits % 0x100_0000,
        }
    }

    ghost shown = { λ _. refl };
}

// The all frame mode packet (Table 56).
impl Table for AllFrameMode {
    ghost layout = { all_frame_mode };

    ghost fields = { as_all_frame_mode };

    const MASK: u32 = 0xFF3F_0000; // Table 56

    ghost MASK = { mask_of is_printed all_frame_mode };

    const PRINTED: u32 = Packet::ALL_FRAME_MODE << 24;

    ghost PRINTED = { printed_bits all_frame_mode };

    fn laid_out(bits: u32) -> AllFrameMode {
        AllFrameMode {
            decrement: (bits >> 23) % 2,
            force: (bits >> 22) % 2,
            decrement_temporary: bits % 0x1_0000,
        }
    }

    ghost shown = { λ _. refl };
}

// The configuration packet (Table 5).
impl Table for Configuration {
    ghost layout = { configuration };

    ghost fields = { as_configuration };

    const MASK: u32 = 0xFFFC_FC07; // Table 5

    ghost MASK = { mask_of is_printed configuration };

    const PRINTED: u32 = Packet::CONFIGURATION << 24;

    ghost PRINTED = { printed_bits configuration };

    fn laid_out(bits: u32) -> Configuration {
        Configuration {
            oscillator: (bits >> 16) % 4,
            polarity: (bits >> 8) % 4,
            synchronous_mode: (bits >> 7) % 2,
            maximum_off_time: (bits >> 6) % 2,
            clock_output_disable: (bits >> 5) % 2,
            minute_timer: (bits >> 4) % 2,
            low_battery_polarity: (bits >> 3) % 2,
        }
    }

    ghost shown = { λ _. refl };
}

// The control packet (Table 11).
impl Table for Control {
    ghost layout = { control };

    ghost fields = { as_control };

    const MASK: u32 = 0xFF00_8FAE; // Table 11

    ghost MASK = { mask_of is_printed control };

    const PRINTED: u32 = Packet::CONTROL << 24;

    ghost PRINTED = { printed_bits control };

    fn laid_out(bits: u32) -> Control {
        Control {
            forced_frames: (bits >> 16) % 0x100,
            single_phase: (bits >> 14) % 2,
            phase: (bits >> 12) % 4,
            block_information: (bits >> 6) % 2,
            minute_timer_clear: (bits >> 4) % 2,
            on: bits % 2,
        }
    }

    ghost shown = { λ _. refl };
}

// The frame assignment packets (Table 29).
impl Table for FrameAssignment {
    ghost layout = { frame_assignment };

    ghost fields = { as_frame_assignment };

    const MASK: u32 = 0xF8FF_0000; // Table 29

    ghost MASK = { mask_of is_printed frame_assignment };

    const PRINTED: u32 = Packet::FIRST_FRAMES << 24;

    ghost PRINTED = { printed_bits frame_assignment };

    fn laid_out(bits: u32) -> FrameAssignment {
        FrameAssignment {
            range: (bits >> 24) % 8,
            frames: bits % 0x1_0000,
        }
    }

    ghost shown = { λ _. refl };
}

// The user address assignment packets (Table 26).
impl Table for UserAddress {
    ghost layout = { user_address };

    ghost fields = { as_user_address };

    const MASK: u32 = 0xF080_0000; // Table 26

    ghost MASK = { mask_of is_printed user_address };

    const PRINTED: u32 = Packet::FIRST_USER_ADDRESS << 24;

    ghost PRINTED = { printed_bits user_address };

    fn laid_out(bits: u32) -> UserAddress {
        UserAddress {
            location: (bits >> 24) % 0x10,
            long_address: (bits >> 22) % 2,
            tone_only: (bits >> 21) % 2,
            word: bits % 0x20_0000,
        }
    }

    ghost shown = { λ _. refl };
}

// The user address enable packet (Table 27).
impl Table for AddressEnable {
    ghost layout = { address_enable };

    ghost fields = { as_address_enable };

    const MASK: u32 = 0xFFFF_0000; // Table 27

    ghost MASK = { mask_of is_printed address_enable };

    const PRINTED: u32 = Packet::ADDRESS_ENABLE << 24;

    ghost PRINTED = { printed_bits address_enable };

    fn laid_out(bits: u32) -> AddressEnable {
        AddressEnable {
            enabled: bits % 0x1_0000,
        }
    }

    ghost shown = { λ _. refl };
}

// The receiver line control packet (Table 19).
impl Table for ReceiverLines {
    ghost layout = { receiver_lines };

    ghost fields = { as_receiver_lines };

    const MASK: u32 = 0xFFFF_0000; // Table 19

    ghost MASK = { mask_of is_printed receiver_lines };

    const PRINTED: u32 = Packet::RECEIVER_LINES << 24;

    ghost PRINTED = { printed_bits receiver_lines };

    fn laid_out(bits: u32) -> ReceiverLines {
        ReceiverLines {
            forced: (bits >> 8) % 0x100,
            settings: bits % 0x100,
        }
    }

    ghost shown = { λ _. refl };
}

// The receiver shut-down packets (Table 21).
impl Table for ShutDown {
    ghost layout = { shut_down };

    ghost fields = { as_shut_down };

    const MASK: u32 = 0xFE77_00C0; // Table 21

    ghost MASK = { mask_of is_printed shut_down };

    const PRINTED: u32 = Packet::SHUT_DOWN_1 << 24;

    ghost PRINTED = { printed_bits shut_down };

    fn laid_out(bits: u32) -> ShutDown {
        ShutDown {
            setting: (bits >> 24) % 2,
            enable: (bits >> 23) % 2,
            low_battery_check: (bits >> 19) % 2,
            lines: (bits >> 8) % 0x100,
            time: bits % 0x40,
        }
    }

    ghost shown = { λ _. refl };
}
