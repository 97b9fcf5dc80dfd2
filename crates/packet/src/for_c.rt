// Building, reading and the send rule with C's answer: a struct or a number, in place of a `Result`. Each function is called by
// one export. The two have the same contract, word for word; the export takes a packet as its 32 bits.
ghost use Rattle.std.specs.Prelude.{◌≡◌};
ghost use Rattle.packet.specs.Tables.{checksum, configuration, control, all_frame_mode, receiver_lines, shut_down};
ghost use Rattle.packet.specs.Tables.{frame_assignment, user_address, address_enable, part_id};
ghost use Rattle.packet.specs.Fields.{built_by, of_checksum, of_configuration, of_control, of_all_frame_mode, of_receiver_lines};
ghost use Rattle.packet.specs.Fields.{of_shut_down, of_frame_assignment, of_user_address, of_address_enable, of_part_id};
ghost use Rattle.packet.specs.Sent.{checksum_read, configuration_read, control_read, all_frame_mode_read, receiver_lines_read};
ghost use Rattle.packet.specs.Sent.{shut_down_read, frame_assignment_read, user_address_read, address_enable_read};
ghost use Rattle.packet.specs.Rule.{send_of};
ghost use Rattle.packet.specs.Heard.{part_id_read, status_read, address_read, message_read};
ghost use Rattle.packet.specs.Vectors.{vector_read};

use crate::tables::told;
use crate::{
    Address, AddressEnable, AddressEnableRead, AddressRead, AllFrameMode, AllFrameModeRead, Built,
    Checksum, ChecksumRead, Configuration, ConfigurationRead, Control, ControlRead,
    FrameAssignment, FrameAssignmentRead, Message, MessageRead, Packet, PartId, PartIdRead,
    ReceiverLines, ReceiverLinesRead, ShutDown, ShutDownRead, Status, StatusRead, UserAddress,
    UserAddressRead, Vector, VectorRead,
};

impl Packet {
    // Builds a checksum packet.
    #[inline]
    pub fn checksum(fields: Checksum) -> Built
        ensures { result ≡ built_by checksum (of_checksum fields) }
    {
        Packet::build::<Checksum>(fields).into()
    }

    // Builds a configuration packet.
    #[inline]
    pub fn configuration(fields: Configuration) -> Built
        ensures { result ≡ built_by configuration (of_configuration fields) }
    {
        Packet::build::<Configuration>(fields).into()
    }

    // Builds a control packet.
    #[inline]
    pub fn control(fields: Control) -> Built
        ensures { result ≡ built_by control (of_control fields) }
    {
        Packet::build::<Control>(fields).into()
    }

    // Builds an all frame mode packet.
    #[inline]
    pub fn all_frame_mode(fields: AllFrameMode) -> Built
        ensures { result ≡ built_by all_frame_mode (of_all_frame_mode fields) }
    {
        Packet::build::<AllFrameMode>(fields).into()
    }

    // Builds a receiver line control packet.
    #[inline]
    pub fn receiver_lines(fields: ReceiverLines) -> Built
        ensures { result ≡ built_by receiver_lines (of_receiver_lines fields) }
    {
        Packet::build::<ReceiverLines>(fields).into()
    }

    // Builds a receiver shut-down packet.
    #[inline]
    pub fn shut_down(fields: ShutDown) -> Built
        ensures { result ≡ built_by shut_down (of_shut_down fields) }
    {
        Packet::build::<ShutDown>(fields).into()
    }

    // Builds a frame assignment packet.
    #[inline]
    pub fn frame_assignment(fields: FrameAssignment) -> Built
        ensures { result ≡ built_by frame_assignment (of_frame_assignment fields) }
    {
        Packet::build::<FrameAssignment>(fields).into()
    }

    // Builds a user address assignment packet.
    #[inline]
    pub fn user_address(fields: UserAddress) -> Built
        ensures { result ≡ built_by user_address (of_user_address fields) }
    {
        Packet::build::<UserAddress>(fields).into()
    }

    // Builds a user address enable packet.
    #[inline]
    pub fn address_enable(fields: AddressEnable) -> Built
        ensures { result ≡ built_by address_enable (of_address_enable fields) }
    {
        Packet::build::<AddressEnable>(fields).into()
    }

    // Builds a part ID packet.
    #[inline]
    pub fn part_id(fields: PartId) -> Built
        ensures { result ≡ built_by part_id (of_part_id fields) }
    {
        Packet::build::<PartId>(fields).into()
    }
}

// Reads a checksum packet.
#[inline]
pub fn read_checksum(packet: Packet) -> ChecksumRead
    ensures { result ≡ checksum_read packet.bits }
{
    let (number, fields) = told::<Checksum>(packet);
    ChecksumRead { number, fields }
}

// Reads a configuration packet.
#[inline]
pub fn read_configuration(packet: Packet) -> ConfigurationRead
    ensures { result ≡ configuration_read packet.bits }
{
    let (number, fields) = told::<Configuration>(packet);
    ConfigurationRead { number, fields }
}

// Reads a control packet.
#[inline]
pub fn read_control(packet: Packet) -> ControlRead
    ensures { result ≡ control_read packet.bits }
{
    let (number, fields) = told::<Control>(packet);
    ControlRead { number, fields }
}

// Reads an all frame mode packet.
#[inline]
pub fn read_all_frame_mode(packet: Packet) -> AllFrameModeRead
    ensures { result ≡ all_frame_mode_read packet.bits }
{
    let (number, fields) = told::<AllFrameMode>(packet);
    AllFrameModeRead { number, fields }
}

// Reads a receiver line control packet.
#[inline]
pub fn read_receiver_lines(packet: Packet) -> ReceiverLinesRead
    ensures { result ≡ receiver_lines_read packet.bits }
{
    // Field by field: two numbers in a struct would be packed into one register and stored.
    let (number, ReceiverLines { forced, settings }) = told(packet);
    ReceiverLinesRead {
        number,
        fields: ReceiverLines { forced, settings },
    }
}

// Reads a receiver shut-down packet.
#[inline]
pub fn read_shut_down(packet: Packet) -> ShutDownRead
    ensures { result ≡ shut_down_read packet.bits }
{
    let (number, fields) = told::<ShutDown>(packet);
    ShutDownRead { number, fields }
}

// Reads a frame assignment packet.
#[inline]
pub fn read_frame_assignment(packet: Packet) -> FrameAssignmentRead
    ensures { result ≡ frame_assignment_read packet.bits }
{
    // Field by field: two numbers in a struct would be packed into one register and stored.
    let (number, FrameAssignment { range, frames }) = told(packet);
    FrameAssignmentRead {
        number,
        fields: FrameAssignment { range, frames },
    }
}

// Reads a user address assignment packet.
#[inline]
pub fn read_user_address(packet: Packet) -> UserAddressRead
    ensures { result ≡ user_address_read packet.bits }
{
    let (number, fields) = told::<UserAddress>(packet);
    UserAddressRead { number, fields }
}

// Reads a user address enable packet.
#[inline]
pub fn read_address_enable(packet: Packet) -> AddressEnableRead
    ensures { result ≡ address_enable_read packet.bits }
{
    let (number, fields) = told::<AddressEnable>(packet);
    AddressEnableRead { number, fields }
}

// Reads a part ID packet.
#[inline]
pub fn read_part_id(packet: Packet) -> PartIdRead
    ensures { result ≡ part_id_read packet.bits }
{
    let (number, fields) = told::<PartId>(packet);
    PartIdRead { number, fields }
}

// Reads a status packet.
#[inline]
pub fn read_status(packet: Packet) -> StatusRead
    ensures { result ≡ status_read packet.bits }
{
    let (number, fields) = told::<Status>(packet);
    StatusRead { number, fields }
}

// Reads an address packet.
#[inline]
pub fn read_address(packet: Packet) -> AddressRead
    ensures { result ≡ address_read packet.bits }
{
    let (number, fields) = told::<Address>(packet);
    AddressRead { number, fields }
}

// Reads a vector packet.
#[inline]
pub fn read_vector(packet: Packet) -> VectorRead
    ensures { result ≡ vector_read packet.bits }
{
    let (number, fields) = told::<Vector>(packet);
    VectorRead { number, fields }
}

// Reads a message packet.
#[inline]
pub fn read_message(packet: Packet) -> MessageRead
    ensures { result ≡ message_read packet.bits }
{
    let (number, fields) = told::<Message>(packet);
    MessageRead { number, fields }
}

// Whether the host may send a packet: 0, or the refusal's number.
#[inline]
pub fn may_send(packet: Packet) -> u32
    ensures { result ≡ send_of packet.bits }
{
    match crate::may_send(packet) {
        Ok(()) => 0,
        Err(refusal) => refusal.number(),
    }
}
