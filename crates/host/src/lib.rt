// The library that C and Rust link: an export for each public function that a board needs, with the contract of what it
// calls and nothing but that after it. Every export takes any input. include/mortisevane.h is written from the modules, in
// the order of the lines below.
#![tactic(auto)]

// Addresses and their words.
mod addresses;

// CAPCODEs: read, assigned, printed.
mod capcodes;

// The frames listened to, and the wait for a temporary address.
mod listening;

// Packets: built, read, and whether they may be sent.
mod packets;

// The mirror of the decoder.
mod handshake;

// The sums of messages.
mod checksums;

// Numeric pages.
mod pages;

// Fragments of a text.
mod fragments;

// Chains of fragments.
mod chains;

// Calls in a frame.
mod calls;

// POCSAG pages.
mod pocsag_pages;
