// The step of a fragment (document 01, "A chain is known by .."). A fragment is judged before anything is written, and
// writes its text once, at its chain's end.
ghost use Rattle.std.specs.Prelude.{◌≡◌, ℕ, set, ◌+◌, ◌*◌, ◌≤◌, ◌<◌, true, false, length, Ok, IfOk, IfErr};
ghost use Rattle.laws.specs.Lists.{put};
ghost use Rattle.refusal.specs.Told.{Told, refused};
ghost use Rattle.fragment.specs.Fragments.{most_characters, text_in};
ghost use Rattle.chain.specs.Chains.{found, sound, slot_count};
ghost use Rattle.chain.specs.Steps.{heading_in, fate, record_after, cleared};
ghost use Rattle.chain.specs.Answers.{when_heard, as_answer, as_step, step_of, chains_after, buffer_after};
ghost use Rattle.chain.specs.JoiningPieces.{turn_of, settled, answered, taken_of, Heard, join_of, joined_row, joined_bytes};

use crate::{BLANK, Chain, ChainAnswer, ChainStep, Chains, FIRST_FRAGMENT, LAST_ADDRESS, SLOTS};
use fragment::{FragmentHeading, MOST_CHARACTERS};
use refusal::Refusal;

// Where a fragment goes: its chain so far, the slot for it, if there is one, and whether an open chain of its key was found. That
// is a truth value of its own: a first fragment closes the chain that was found, and no more of it is wanted.
#[derive(Clone, Copy, Debug, PartialEq, Eq)]
struct Turn {
    chain: Chain,
    slot: Option<usize>,
    known: bool,
}

impl Turn {
    // A refusal that closes the chain, with whether an open chain was found.
    fn refused(self, refusal: Refusal) -> Refused
        ensures { result ≡ record { refusal = refusal; lost = self.known } }
    {
        Refused {
            refusal,
            lost: self.known,
        }
    }
}

// Where a text is that is handed out.
#[derive(Clone, Copy, Debug, PartialEq, Eq)]
struct TextPlace {
    slot: usize,
    place: usize,
    characters: usize,
}

// What a fragment tells that was taken: whether it closed an older chain, whether it began one, of a first one R and M, and
// of a last one where the text is.
#[derive(Clone, Copy, Debug, PartialEq, Eq)]
struct Taken {
    lost: bool,
    begun: bool,
    retrieval: u32,
    mail_drop: u32,
    text: Option<TextPlace>,
}

// A refusal, and whether an open chain was closed with it.
#[derive(Clone, Copy, Debug, PartialEq, Eq)]
struct Refused {
    refusal: Refusal,
    lost: bool,
}

// An answer that tells nothing.
const NOTHING: ChainAnswer = ChainAnswer {
    number: 0,
    lost: 0,
    begun: 0,
    retrieval: 0,
    mail_drop: 0,
    complete: 0,
    slot: 0,
    place: 0,
    characters: 0,
};

// A refusal that closes no chain.
impl From<Refusal> for Refused {
    ghost from_gives = { λ r refused. refused ≡ record { refusal = r; lost = false } };

    fn from(refusal: Refusal) -> Refused {
        Refused {
            refusal,
            lost: false,
        }
    }
}

// The answer as C has it.
impl From<Result<Taken, Refused>> for ChainAnswer {
    ghost from_gives = { λ r answer. answer ≡ answered r };

    fn from(joined: Result<Taken, Refused>) -> ChainAnswer {
        let mut answer = NOTHING;
        match joined {
            Ok(taken) => {
                answer.lost = taken.lost as u32;
                answer.begun = taken.begun as u32;
                answer.retrieval = taken.retrieval;
                answer.mail_drop = taken.mail_drop;
                if let Some(text) = taken.text {
                    answer.complete = 1;
                    answer.slot = text.slot;
                    answer.place = text.place;
                    answer.characters = text.characters;
                }
            }
            Err(refused) => {
                answer.number = refused.refusal.number();
                answer.lost = refused.lost as u32;
            }
        }
        answer
    }
}

// Where a fragment goes. A first one closes an open chain of its key and takes the lowest-numbered free slot, and its chain
// awaits it; a later one stays in its chain's slot, and is refused with 13 where it has none.
fn turn_of(slots: &mut [Chain], address: u32, heading: FragmentHeading) -> Result<Turn, Refusal>
    ensures turn { result ≡ turn_of slots.old address heading }
    ensures slots { slots.new ≡ cleared slots.old address heading }
{
    let older = crate::finding::find(slots, address, heading.message_number);
    if heading.fragment_number != FIRST_FRAGMENT {
        return match older {
            Some(slot) => Ok(Turn {
                chain: slots[slot],
                slot: older,
                known: true,
            }),
            None => Err(Refusal::NoChain),
        };
    }
    if let Some(slot) = older {
        slots[slot] = BLANK;
    }
    Ok(Turn {
        chain: Chain {
            is_open: 1,
            address: address,
            message_number: heading.message_number,
            next_fragment: FIRST_FRAGMENT,
            sum: 0,
            characters: 0,
        },
        slot: crate::finding::first_free(slots),
        known: older.is_some(),
    })
}

// What a fragment tells that was taken in a slot: of a first one R and M, of a last one where the text is.
fn taken_in(turn: Turn, slot: usize, heading: FragmentHeading) -> Taken
    requires slot_lt_slot_count { slot < slot_count }
    requires characters_bound { turn.chain.characters + heading.characters ≤ most_characters }
    ensures { answered (Ok result) ≡ as_answer (taken_of turn slot heading) }
{
    let first = heading.fragment_number == FIRST_FRAGMENT;
    let text = if heading.continued != 0 {
        None
    } else {
        Some(TextPlace {
            slot,
            place: slot * MOST_CHARACTERS,
            characters: turn.chain.characters + heading.characters,
        })
    };
    Taken {
        lost: first & turn.known,
        begun: first,
        retrieval: heading.retrieval,
        mail_drop: heading.mail_drop,
        text,
    }
}

// A record stored in a slot, if there is one.
fn store(slots: &mut [Chain], slot: Option<usize>, chain: Chain)
    requires { (place : ℕ) × (slot ≡ found slots.old place) }
    ensures { (place : ℕ) → slot ≡ found slots.old place → slots.new ≡ set slots.old place chain }
{
    if let Some(slot) = slot {
        slots[slot] = chain;
    }
}

// What a fragment makes of its chain, stored in its slot, if there is one; or 14, 15 or 16 of 01's table, with which the chain
// is closed.
fn settle(slots: &mut [Chain], turn: Turn, heading: FragmentHeading) -> Result<(), Refused>
    requires { (place : ℕ) × (turn.slot ≡ found slots.old place) }
    ensures told { result ≡ settled turn (fate turn.chain heading) }
    ensures slots { (place : ℕ)
        → turn.slot ≡ found slots.old place
        → slots.new ≡ set slots.old place (record_after (fate turn.chain heading)) }
{
    match crate::one_chain::fate(turn.chain, heading) {
        Ok(chain) => {
            store(slots, turn.slot, chain);
            Ok(())
        }
        Err(lost) => {
            store(slots, turn.slot, lost.chain);
            Err(turn.refused(lost.refusal))
        }
    }
}

// The text of a fragment at a place of the lent buffer.
fn write_at(words: &[u32], buffer: &mut [u8], place: usize)
    requires { place + length (text_in words.now) ≤ length buffer.old }
    ensures { buffer.new ≡ put buffer.old place (text_in words.now) }
{
    let _written = fragment::write_text(words, &mut buffer[place..]);
}

// A good fragment joined: 13, 14, 15, 16 and 12 of 01's table, or its text written at its chain's end.
fn join(
    slots: &mut [Chain],
    buffer: &mut [u8],
    address: u32,
    heading: FragmentHeading,
    words: &[u32],
) -> Result<Taken, Refused>
    requires slots_value { sound slots.old ≡ true }
    requires count { length slots.old ≡ slot_count }
    requires most_characters_in_bounds { slot_count * most_characters ≤ length buffer.old }
    requires heading_value { heading ≡ heading_in words.now }
    ensures told { answered result ≡ as_answer (join_of slots.old address heading) }
    ensures slots { slots.new ≡ joined_row slots.old address heading }
    ensures buffer { buffer.new ≡ joined_bytes slots.old address words.now buffer.old }
{
    let turn = turn_of(slots, address, heading)?;
    settle(slots, turn, heading)?;
    match turn.slot {
        Some(slot) => {
            write_at(
                words,
                buffer,
                slot * MOST_CHARACTERS + turn.chain.characters,
            );
            Ok(taken_in(turn, slot, heading))
        }
        None => Err(Refused::from(Refusal::Full)),
    }
}

// The heading of a fragment that can be joined; or 1, 2, 8, 9, 10 or 11 of 01's table, the first that applies.
fn heard(
    slots: &[Chain],
    lent: usize,
    address: u32,
    words: &[u32],
) -> Result<FragmentHeading, Refusal>
    requires { length slots.now ≡ slot_count }
    ensures refused { IfErr result (λ r. (rest : Told) → when_heard lent slots.now address words.now rest ≡ refused r) }
    ensures heard { IfOk result (λ h. Heard lent slots.now address words.now h) }
{
    if lent < SLOTS * MOST_CHARACTERS {
        return Err(Refusal::Room);
    }
    if !crate::finding::sound(slots) {
        return Err(Refusal::State);
    }
    if address > LAST_ADDRESS {
        return Err(Refusal::Address);
    }
    fragment::heading(words)
}

// A fragment heard and joined: what it tells, or its refusal; the records then, and its text at its chain's end.
fn take(
    slots: &mut [Chain],
    buffer: &mut [u8],
    address: u32,
    words: &[u32],
) -> Result<Taken, Refused>
    requires { length slots.old ≡ slot_count }
    ensures told { answered result ≡ as_answer (step_of (length buffer.old) slots.old address words.now) }
    ensures slots { slots.new ≡ chains_after (length buffer.old) slots.old address words.now }
    ensures buffer { buffer.new ≡ buffer_after slots.old address words.now buffer.old }
{
    let heading = heard(slots, buffer.len(), address, words)?;
    join(slots, buffer, address, heading, words)
}

// A fragment for an address number: the answer, the records then, and its text in the lent buffer at its chain's end
// unless it is refused. The C struct and not a Result: it hands the records back after a refusal too.
pub fn step(mut chains: Chains, buffer: &mut [u8], address: u32, words: &[u32]) -> ChainStep
    ensures told { result
        ≡ as_step (step_of (length buffer.old) chains.slots address words.now)
        (chains_after (length buffer.old) chains.slots address words.now) }
    ensures buffer { buffer.new ≡ buffer_after chains.slots address words.now buffer.old }
{
    let taken = take(&mut chains.slots, buffer, address, words);
    ChainStep {
        answer: ChainAnswer::from(taken),
        chains,
    }
}
