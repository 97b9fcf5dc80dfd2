// The frames that a pager listens to (document 01, "CAPCODE text"; S8.6.7), and the wait for a temporary address (S8.8.4).
//
// Which frames an address listens to, and the masks that say so to the decoder, are said in specs/Listening; that the
// reported count is the number of those frames is a law in proofs/Laws. The wait is said in specs/Waiting, its law is in
// proofs/WaitLaws.
#![tactic(auto)]

// The frames of up to sixteen addresses, marked in eight masks and counted.
mod marking;

// The wait from one frame to another.
mod waiting;

pub use marking::listen;
pub use waiting::wait;

// A cycle has the frames 0 to 127.
const LAST_FRAME: u32 = 127;

// 01's table, 7: the largest collapse.
const LAST_COLLAPSE: u32 = 5;

// One address as far as frames go: its base frame and its collapse, wider than any that is accepted, so that one too
// large is refused and not cut.
#[repr(C)]
#[derive(Clone, Copy, Debug, PartialEq, Eq)]
pub struct Listener {
    pub frame: u32,
    pub collapse: u32,
}

// A row with a count beside it and no slice: the C interface hands it in by value.

// The addresses of a pager: of sixteen places the first `count` are looked at.
#[repr(C)]
#[derive(Clone, Copy)]
pub struct Listeners {
    pub listeners: [Listener; 16],
    pub count: u32,
}

// How many frames a set of addresses listens to, and what is to be sent: masks[i] is the sixteen AF bits of packet 20H + i.
#[derive(Clone, Copy, Debug, PartialEq, Eq)]
pub struct Listening {
    pub frames: u32,
    pub masks: [u16; 8],
}
