// Packets, as C and Rust link them: building, reading, and what may be sent. Every function takes any
// input, and its contract is that of the function it calls: `number` is 0, or 01's number of the
// refusal, and every other field is then 0.
ghost use Rattle.std.specs.Prelude.{◌≡◌};
ghost use Rattle.packet.specs.Tables.{checksum, configuration, control, all_frame_mode, receiver_lines, shut_down};
ghost use Rattle.packet.specs.Tables.{frame_assignment, user_address, address_enable, part_id};
ghost use Rattle.packet.specs.Fields.{built_by, of_checksum, of_configuration, of_control, of_all_frame_mode, of_receiver_lines};
ghost use Rattle.packet.specs.Fields.{of_shut_down, of_frame_assignment, of_user_address, of_address_enable, of_part_id};
ghost use Rattle.packet.specs.Sent.{checksum_read, configuration_read, control_read, all_frame_mode_read, receiver_lines_read};
ghost use Rattle.packet.specs.Sent.{shut_down_read, frame_assignment_read, user_address_read, address_enable_read};
ghost use Rattle.packet.specs.Rule.{send_of};
ghost use Rattle.packet.specs.Heard.{part_id_read, status_read, address_read, message_read};
ghost use Rattle.packet.specs.Vectors.{vector_read};

use packet::{
    AddressEnable, AddressEnableRead, AddressRead, AllFrameMode, AllFrameModeRead, Built, Checksum,
    ChecksumRead, Configuration, ConfigurationRead, Control, ControlRead, FrameAssignment,
    FrameAssignmentRead, MessageRead, Packet, PartId, PartIdRead, ReceiverLines, ReceiverLinesRead,
    ShutDown, ShutDownRead, StatusRead, UserAddress, UserAddressRead, VectorRead,
};

// Builds a checksum packet.
// Takes its fields.
// Answers the packet.
// Refuses 7: a field too large.
#[unsafe(no_mangle)]
pub extern "C" fn mortisevane_build_checksum(fields: Checksum) -> Built
    ensures { result ≡ built_by checksum (of_checksum fields) }
{
    Packet::checksum(fields)
}

// Builds a configuration packet.
// Takes its fields.
// Answers the packet.
// Refuses 7: a field too large.
#[unsafe(no_mangle)]
pub extern "C" fn mortisevane_build_configuration(fields: Configuration) -> Built
    ensures { result ≡ built_by configuration (of_configuration fields) }
{
    Packet::configuration(fields)
}

// Builds a control packet.
// Takes its fields.
// Answers the packet.
// Refuses 7: a field too large.
#[unsafe(no_mangle)]
pub extern "C" fn mortisevane_build_control(fields: Control) -> Built
    ensures { result ≡ built_by control (of_control fields) }
{
    Packet::control(fields)
}

// Builds an all frame mode packet.
// Takes its fields.
// Answers the packet.
// Refuses 7: a field too large.
#[unsafe(no_mangle)]
pub extern "C" fn mortisevane_build_all_frame_mode(fields: AllFrameMode) -> Built
    ensures { result ≡ built_by all_frame_mode (of_all_frame_mode fields) }
{
    Packet::all_frame_mode(fields)
}

// Builds a receiver line control packet.
// Takes its fields.
// Answers the packet.
// Refuses 7: a field too large.
#[unsafe(no_mangle)]
pub extern "C" fn mortisevane_build_receiver_lines(fields: ReceiverLines) -> Built
    ensures { result ≡ built_by receiver_lines (of_receiver_lines fields) }
{
    Packet::receiver_lines(fields)
}

// Builds a receiver shut-down packet.
// Takes its fields.
// Answers the packet.
// Refuses 7: a field too large.
#[unsafe(no_mangle)]
pub extern "C" fn mortisevane_build_shut_down(fields: ShutDown) -> Built
    ensures { result ≡ built_by shut_down (of_shut_down fields) }
{
    Packet::shut_down(fields)
}

// Builds a frame assignment packet.
// Takes its fields.
// Answers the packet.
// Refuses 7: a field too large.
#[unsafe(no_mangle)]
pub extern "C" fn mortisevane_build_frame_assignment(fields: FrameAssignment) -> Built
    ensures { result ≡ built_by frame_assignment (of_frame_assignment fields) }
{
    Packet::frame_assignment(fields)
}

// Builds a user address assignment packet.
// Takes its fields.
// Answers the packet.
// Refuses 7: a field too large.
#[unsafe(no_mangle)]
pub extern "C" fn mortisevane_build_user_address(fields: UserAddress) -> Built
    ensures { result ≡ built_by user_address (of_user_address fields) }
{
    Packet::user_address(fields)
}

// Builds a user address enable packet.
// Takes its fields.
// Answers the packet.
// Refuses 7: a field too large.
#[unsafe(no_mangle)]
pub extern "C" fn mortisevane_build_address_enable(fields: AddressEnable) -> Built
    ensures { result ≡ built_by address_enable (of_address_enable fields) }
{
    Packet::address_enable(fields)
}

// Builds a part ID packet.
// Takes its fields.
// Answers the packet.
// Refuses 7: a field too large.
#[unsafe(no_mangle)]
pub extern "C" fn mortisevane_build_part_id(fields: PartId) -> Built
    ensures { result ≡ built_by part_id (of_part_id fields) }
{
    Packet::part_id(fields)
}

// Reads a checksum packet.
// Takes the packet.
// Answers its fields.
// Refuses 7: another packet, or a bit set that its table prints as 0.
#[unsafe(no_mangle)]
pub extern "C" fn mortisevane_read_checksum(packet: u32) -> ChecksumRead
    ensures { result ≡ checksum_read packet }
{
    packet::for_c::read_checksum(Packet { bits: packet })
}

// Reads a configuration packet.
// Takes the packet.
// Answers its fields.
// Refuses 7: another packet, or a bit set that its table prints as 0.
#[unsafe(no_mangle)]
pub extern "C" fn mortisevane_read_configuration(packet: u32) -> ConfigurationRead
    ensures { result ≡ configuration_read packet }
{
    packet::for_c::read_configuration(Packet { bits: packet })
}

// Reads a control packet.
// Takes the packet.
// Answers its fields.
// Refuses 7: another packet, or a bit set that its table prints as 0.
#[unsafe(no_mangle)]
pub extern "C" fn mortisevane_read_control(packet: u32) -> ControlRead
    ensures { result ≡ control_read packet }
{
    packet::for_c::read_control(Packet { bits: packet })
}

// Reads an all frame mode packet.
// Takes the packet.
// Answers its fields.
// Refuses 7: another packet, or a bit set that its table prints as 0.
#[unsafe(no_mangle)]
pub extern "C" fn mortisevane_read_all_frame_mode(packet: u32) -> AllFrameModeRead
    ensures { result ≡ all_frame_mode_read packet }
{
    packet::for_c::read_all_frame_mode(Packet { bits: packet })
}

// Reads a receiver line control packet.
// Takes the packet.
// Answers its fields.
// Refuses 7: another packet, or a bit set that its table prints as 0.
#[unsafe(no_mangle)]
pub extern "C" fn mortisevane_read_receiver_lines(packet: u32) -> ReceiverLinesRead
    ensures { result ≡ receiver_lines_read packet }
{
    packet::for_c::read_receiver_lines(Packet { bits: packet })
}

// Reads a receiver shut-down packet.
// Takes the packet.
// Answers its fields.
// Refuses 7: another packet, or a bit set that its table prints as 0.
#[unsafe(no_mangle)]
pub extern "C" fn mortisevane_read_shut_down(packet: u32) -> ShutDownRead
    ensures { result ≡ shut_down_read packet }
{
    packet::for_c::read_shut_down(Packet { bits: packet })
}

// Reads a frame assignment packet.
// Takes the packet.
// Answers its fields.
// Refuses 7: another packet, or a bit set that its table prints as 0.
#[unsafe(no_mangle)]
pub extern "C" fn mortisevane_read_frame_assignment(packet: u32) -> FrameAssignmentRead
    ensures { result ≡ frame_assignment_read packet }
{
    packet::for_c::read_frame_assignment(Packet { bits: packet })
}

// Reads a user address assignment packet.
// Takes the packet.
// Answers its fields.
// Refuses 7: another packet, or a bit set that its table prints as 0.
#[unsafe(no_mangle)]
pub extern "C" fn mortisevane_read_user_address(packet: u32) -> UserAddressRead
    ensures { result ≡ user_address_read packet }
{
    packet::for_c::read_user_address(Packet { bits: packet })
}

// Reads a user address enable packet.
// Takes the packet.
// Answers its fields.
// Refuses 7: another packet, or a bit set that its table prints as 0.
#[unsafe(no_mangle)]
pub extern "C" fn mortisevane_read_address_enable(packet: u32) -> AddressEnableRead
    ensures { result ≡ address_enable_read packet }
{
    packet::for_c::read_address_enable(Packet { bits: packet })
}

// Reads a part ID packet.
// Takes the packet.
// Answers its fields.
// Refuses 7: another packet.
#[unsafe(no_mangle)]
pub extern "C" fn mortisevane_read_part_id(packet: u32) -> PartIdRead
    ensures { result ≡ part_id_read packet }
{
    packet::for_c::read_part_id(Packet { bits: packet })
}

// Reads a status packet.
// Takes the packet.
// Answers its fields.
// Refuses 7: another packet.
#[unsafe(no_mangle)]
pub extern "C" fn mortisevane_read_status(packet: u32) -> StatusRead
    ensures { result ≡ status_read packet }
{
    packet::for_c::read_status(Packet { bits: packet })
}

// Reads an address packet.
// Takes the packet.
// Answers its fields, the address number 0 to 31 among them.
// Refuses 7 and then 8: another packet or a vector's word number over 87; an index of no address.
#[unsafe(no_mangle)]
pub extern "C" fn mortisevane_read_address(packet: u32) -> AddressRead
    ensures { result ≡ address_read packet }
{
    packet::for_c::read_address(Packet { bits: packet })
}

// Reads a vector packet.
// Takes the packet.
// Answers its fields.
// Refuses 7: another packet.
#[unsafe(no_mangle)]
pub extern "C" fn mortisevane_read_vector(packet: u32) -> VectorRead
    ensures { result ≡ vector_read packet }
{
    packet::for_c::read_vector(Packet { bits: packet })
}

// Reads a message packet.
// Takes the packet.
// Answers its fields.
// Refuses 7: another packet.
#[unsafe(no_mangle)]
pub extern "C" fn mortisevane_read_message(packet: u32) -> MessageRead
    ensures { result ≡ message_read packet }
{
    packet::for_c::read_message(Packet { bits: packet })
}

// Whether the host may send a packet.
// Takes the packet.
// Answers 0 if it may.
// Refuses 7.
#[unsafe(no_mangle)]
pub extern "C" fn mortisevane_may_send(packet: u32) -> u32
    ensures { result ≡ send_of packet }
{
    packet::for_c::may_send(Packet { bits: packet })
}
