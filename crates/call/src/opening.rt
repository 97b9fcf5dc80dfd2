// A call opened by an address packet (document 01, "Calls in a frame"; S8.7.2).
ghost use Rattle.std.specs.Prelude.{◌≡◌, ◌<◌};
ghost use Rattle.refusal.specs.Told.{told_by};
ghost use Rattle.call.specs.Calls.{most_calls};
ghost use Rattle.call.specs.Steps.{call_of, added};
ghost use Rattle.call.specs.Answers.{open_of, opened_in, opening_of, as_opened, as_opening};
ghost use Rattle.call.specs.OpeningPieces.{opened_values, opening_calls};

use crate::searching::{find, sound};
use crate::{BLANK, Call, CallOpened, CallOpening, Calls, MOST_CALLS};
use packet::{Address, Packet};
use refusal::Refusal;

// What an address packet says, and the place of the call that it opened, if it opened one.
#[derive(Clone, Copy, Debug, PartialEq, Eq)]
struct Opened {
    call: Option<usize>,
    fields: Address,
}

// What the answer says of an address that was not read.
const UNREAD: Address = Address {
    priority: 0,
    phase: 0,
    long_address: 0,
    address: 0,
    tone_only: 0,
    vector: 0,
};

impl From<Result<Opened, Refusal>> for CallOpened {
    ghost from_gives = { λ opened answer. answer ≡ as_opened (told_by opened_values opened) };

    fn from(opened: Result<Opened, Refusal>) -> CallOpened {
        match opened {
            Ok(opened) => CallOpened {
                number: 0,
                opened: opened.call.is_some() as u32,
                call: opened.call.unwrap_or(0),
                fields: opened.fields,
            },
            Err(refusal) => CallOpened {
                number: refusal.number(),
                opened: 0,
                call: 0,
                fields: UNREAD,
            },
        }
    }
}

// The records with one call more.
pub(crate) fn add(calls: &mut Calls, call: Call)
    requires { calls.old.size < most_calls }
    ensures { calls.new ≡ added calls.old call }
{
    calls.calls[calls.size] = call;
    calls.size += 1;
}

// The call that an address packet opens.
fn call_of(address: Address) -> Call
    ensures { result ≡ call_of address }
{
    Call {
        phase: address.phase,
        vector: address.vector,
        address: address.address,
        priority: address.priority,
        long_address: address.long_address,
        ..BLANK
    }
}

// A call opened: 14 and 12 of 01's table, or the new call after the others.
fn open_call(calls: &mut Calls, address: Address) -> Result<Opened, Refusal>
    ensures told { told_by opened_values result ≡ opening_of calls.old address }
    ensures calls { calls.new ≡ opening_calls calls.old address }
{
    let call = call_of(address);
    if find(calls, call.key()).is_some() {
        return Err(Refusal::OutOfTurn);
    }
    let count = calls.count();
    if count == MOST_CALLS {
        return Err(Refusal::Full);
    }
    add(calls, call);
    Ok(Opened {
        call: Some(count),
        fields: address,
    })
}

// What an address packet opens among the records. A tone-only address opens no call and is told at once.
fn open_in(calls: &mut Calls, packet: Packet) -> Result<Opened, Refusal>
    ensures told { told_by opened_values result ≡ open_of calls.old packet.bits }
    ensures calls { calls.new ≡ opened_in calls.old packet.bits }
{
    if !sound(calls) {
        return Err(Refusal::State);
    }
    let address: Address = packet::read(packet)?;
    if address.tone_only == 1 {
        return Ok(Opened {
            call: None,
            fields: address,
        });
    }
    open_call(calls, address)
}

// An address packet: the answer and the records then.
// A struct and not a Result: the C interface hands the records back beside the answer, after a refusal too.
pub fn open(mut calls: Calls, packet: Packet) -> CallOpening
    ensures { result ≡ as_opening (open_of calls packet.bits) (opened_in calls packet.bits) }
{
    let answer = open_in(&mut calls, packet);
    CallOpening {
        answer: CallOpened::from(answer),
        calls,
    }
}
