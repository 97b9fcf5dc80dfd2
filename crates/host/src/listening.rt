// Frames listened to and the wait for a temporary address, as C and Rust link them: numbers and structs by value. Every
// function takes any input. `number` is 0, or 01's number of the refusal; every other field is then 0.
ghost use Rattle.std.specs.Prelude.{◌≡◌, take};
ghost use Rattle.frames.specs.Listening.{listened};
ghost use Rattle.frames.specs.Waiting.{waited};
ghost use Rattle.host.specs.Flat.{frames_from, wait_from};

use frames::{Listeners, Listening};
use refusal::Refusal;

// The structs below have a number beside their fields and are no Result: the C interface hands them out as they are.

// The number of frames listened to, and the masks of packets 20H to 27H.
#[repr(C)]
#[derive(Clone, Copy)]
pub struct MortisevaneFrames {
    pub number: u32,
    pub count: u32,
    pub masks: [u16; 8],
}

// A wait in frames.
#[repr(C)]
#[derive(Clone, Copy)]
pub struct MortisevaneWait {
    pub number: u32,
    pub frames: u32,
}

impl From<Result<u32, Refusal>> for MortisevaneWait {
    ghost use Rattle.frames.specs.Waiting.{told_awaited};
    ghost use Rattle.host.specs.Flat.{wait_from};

    ghost from_gives = { λ answer told. told ≡ wait_from (told_awaited answer) };

    fn from(answer: Result<u32, Refusal>) -> MortisevaneWait {
        match answer {
            Ok(frames) => MortisevaneWait { number: 0, frames },
            Err(refusal) => MortisevaneWait {
                number: refusal.number(),
                frames: 0,
            },
        }
    }
}

// The wait until the designated frame of a temporary address comes next (S8.8.4).
// Takes the present frame and the designated one, 0 to 127.
// Answers the wait, 1 to 128 frames. To the present frame it is 128: its next coming, in the following cycle.
// Refuses 7: a frame over 127.
#[unsafe(no_mangle)]
pub extern "C" fn mortisevane_frames_wait(from: u32, to: u32) -> MortisevaneWait
    ensures { result ≡ wait_from (waited from to) }
{
    frames::wait(from, to).into()
}

impl From<Result<Listening, Refusal>> for MortisevaneFrames {
    ghost use Rattle.frames.specs.Listening.{told_listening};
    ghost use Rattle.host.specs.Flat.{frames_from};

    ghost from_gives = { λ answer told. told ≡ frames_from (told_listening answer) };

    fn from(answer: Result<Listening, Refusal>) -> MortisevaneFrames {
        match answer {
            Ok(listening) => {
                let masks = listening.masks;
                MortisevaneFrames {
                    number: 0,
                    count: listening.frames,
                    masks,
                }
            }
            Err(refusal) => MortisevaneFrames {
                number: refusal.number(),
                count: 0,
                masks: [0; 8],
            },
        }
    }
}

// The frames that a pager with these addresses listens to.
// Takes the base frame and the collapse of each address, and how many there are.
// Answers the number of frames, and masks[i], the frame bits of packet 20H + i.
// Refuses 7 and then 9: a frame over 127 or a collapse over 5; over 16 addresses.
#[unsafe(no_mangle)]
pub extern "C" fn mortisevane_frames_listened(listeners: Listeners) -> MortisevaneFrames
    ensures { result ≡ frames_from (listened (take listeners.count listeners.listeners) listeners.count) }
{
    frames::listen(listeners).into()
}
