// The packets that are built from their fields (S8.3.5, S8.3.7, S8.3.8). A field too large for its place is refused (7).
ghost use Rattle.packet.specs.Fields.{of_checksum, of_configuration, of_control, of_all_frame_mode, of_receiver_lines};
ghost use Rattle.packet.specs.Fields.{of_shut_down, of_frame_assignment, of_user_address, of_address_enable, of_part_id};

use crate::tables::Buildable;
use crate::{
    AddressEnable, AllFrameMode, Checksum, Configuration, Control, FrameAssignment, Packet, PartId,
    ReceiverLines, ShutDown, UserAddress,
};

// The packet that makes a silent decoder talk, where its value is the decoder's register.
impl Buildable for Checksum {
    ghost values = { of_checksum };

    fn fits(self) -> bool {
        self.value < 0x100_0000
    }

    fn bits(self) -> u32 {
        Packet::CHECKSUM << 24 | self.value
    }
}

// What stays as it is while the decoder works. A decoder that is on ignores it.
impl Buildable for Configuration {
    ghost values = { of_configuration };

    fn fits(self) -> bool {
        (self.oscillator < 4)
            & (self.polarity < 4)
            & (self.synchronous_mode < 2)
            & (self.maximum_off_time < 2)
            & (self.clock_output_disable < 2)
            & (self.minute_timer < 2)
            & (self.low_battery_polarity < 2)
    }

    fn bits(self) -> u32 {
        Packet::CONFIGURATION << 24
            | self.oscillator << 16
            | self.polarity << 8
            | self.synchronous_mode << 7
            | self.maximum_off_time << 6
            | self.clock_output_disable << 5
            | self.minute_timer << 4
            | self.low_battery_polarity << 3
    }
}

// What may change while the decoder works, and whether it is on.
impl Buildable for Control {
    ghost values = { of_control };

    fn fits(self) -> bool {
        (self.forced_frames < 0x100)
            & (self.single_phase < 2)
            & (self.phase < 4)
            & (self.block_information < 2)
            & (self.minute_timer_clear < 2)
            & (self.on < 2)
    }

    fn bits(self) -> u32 {
        Packet::CONTROL << 24
            | self.forced_frames << 16
            | self.single_phase << 14
            | self.phase << 12
            | self.block_information << 6
            | self.minute_timer_clear << 4
            | self.on
    }
}

// The counters of fragmented messages and temporary addresses, and whether every frame is decoded.
impl Buildable for AllFrameMode {
    ghost values = { of_all_frame_mode };

    fn fits(self) -> bool {
        (self.decrement < 2) & (self.force < 2) & (self.decrement_temporary < 0x1_0000)
    }

    fn bits(self) -> u32 {
        Packet::ALL_FRAME_MODE << 24
            | self.decrement << 23
            | self.force << 22
            | self.decrement_temporary
    }
}

// The host's hold on the receiver control lines.
impl Buildable for ReceiverLines {
    ghost values = { of_receiver_lines };

    fn fits(self) -> bool {
        (self.forced < 0x100) & (self.settings < 0x100)
    }

    fn bits(self) -> u32 {
        Packet::RECEIVER_LINES << 24 | self.forced << 8 | self.settings
    }
}

// A step of the receiver's shut-down.
impl Buildable for ShutDown {
    ghost values = { of_shut_down };

    fn fits(self) -> bool {
        (self.setting < 2)
            & (self.enable < 2)
            & (self.low_battery_check < 2)
            & (self.lines < 0x100)
            & (self.time < 0x40)
    }

    fn bits(self) -> u32 {
        Packet::SHUT_DOWN_1 << 24
            | self.setting << 24
            | self.enable << 23
            | self.low_battery_check << 19
            | self.lines << 8
            | self.time
    }
}

// Sixteen of the frames listened to.
impl Buildable for FrameAssignment {
    ghost values = { of_frame_assignment };

    fn fits(self) -> bool {
        (self.range < 8) & (self.frames < 0x1_0000)
    }

    fn bits(self) -> u32 {
        Packet::FIRST_FRAMES << 24 | self.range << 24 | self.frames
    }
}

// One address word of the pager.
impl Buildable for UserAddress {
    ghost values = { of_user_address };

    fn fits(self) -> bool {
        (self.location < 16)
            & (self.long_address < 2)
            & (self.tone_only < 2)
            & (self.word < 0x20_0000)
    }

    fn bits(self) -> u32 {
        Packet::FIRST_USER_ADDRESS << 24
            | self.location << 24
            | self.long_address << 22
            | self.tone_only << 21
            | self.word
    }
}

// Which address words are looked for.
impl Buildable for AddressEnable {
    ghost values = { of_address_enable };

    fn fits(self) -> bool {
        self.enabled < 0x1_0000
    }

    fn bits(self) -> u32 {
        Packet::ADDRESS_ENABLE << 24 | self.enabled
    }
}

// What a decoder that is not talking sends; a host builds it to set a mirror or a test up.
impl Buildable for PartId {
    ghost values = { of_part_id };

    fn fits(self) -> bool {
        (self.model < 4) & (self.compatibility < 0x4000) & (self.revision < 0x100)
    }

    fn bits(self) -> u32 {
        Packet::PART_ID << 24 | self.model << 22 | self.compatibility << 8 | self.revision
    }
}
