// The mirror of the decoder: its checksum register, and whether it is talking to the host (document 01, "Packets and the
// handshake"; S8.4.2). The host runs every packet that it sends through the mirror, and so knows what the decoder knows.
//
// What a packet does to a mirror is said in specs/Handshake; the laws of any run of packets are in proofs/Laws, worked
// runs in proofs/Examples. What a start-up is, with a list that the host sent and one that reached the decoder, is said in
// specs/StartUp; what the checksum shows of it, and what it does not, is in proofs/StartUpLaws and proofs/StartUpExamples.
#![tactic(auto)]

ghost use Rattle.std.specs.Prelude.{◌≡◌};
ghost use Rattle.refusal.specs.declared.Refusal.TheVariants.{State};
ghost use Rattle.packet.specs.Reading.{unless};
ghost use Rattle.mirror.specs.Handshake.{sound, mirrored_as};

// The two ends of a start-up: the mirror after a reset, and the checksum that makes the decoder talk.
mod ends;

// The mirror after one packet, and after a run of them.
mod following;

// The mirror and the closing packet with C's answer.
pub mod for_c;

pub use ends::{closing, reset};
pub use following::{run, step};
use refusal::Refusal;

// How many values 24 bits have: the data bits of a packet and the register are below it.
const DATA_VALUES: u32 = 0x100_0000;

// The register, 24 bits; `talking` is 0 while the decoder sends nothing but its part ID.
#[repr(C)]
#[derive(Clone, Copy, Debug, Default, PartialEq, Eq)]
pub struct Mirror {
    pub register: u32,
    pub talking: u32,
}

// A number beside the mirror and no Result: the C interface hands it out as it is.

// The mirror after what was done; `number` is 0, or the refusal's. After a refusal the mirror is the one that was handed in;
// `reset`, which is handed none, gives one of zeros.
#[repr(C)]
#[derive(Clone, Copy, Debug, PartialEq, Eq)]
pub struct Mirrored {
    pub number: u32,
    pub mirror: Mirror,
}

impl Mirror {
    // Refuses a register over 24 bits with 2.
    fn check(self) -> Result<(), Refusal>
        ensures { result ≡ unless State (sound self) }
    {
        if self.register < DATA_VALUES {
            Ok(())
        } else {
            Err(Refusal::State)
        }
    }
}

impl Mirrored {
    // The answer for C: the mirror, or the refusal's number and the mirror as it was before. Number by number: a struct would
    // be packed into one register of the machine and taken apart again.
    pub fn told(answer: Result<Mirror, Refusal>, before: Mirror) -> Mirrored
        ensures { result ≡ mirrored_as before answer }
    {
        let Mirror { register, talking } = before;
        match answer {
            Ok(Mirror { register, talking }) => Mirrored {
                number: 0,
                mirror: Mirror { register, talking },
            },
            Err(refusal) => Mirrored {
                number: refusal.number(),
                mirror: Mirror { register, talking },
            },
        }
    }
}
