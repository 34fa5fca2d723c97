// Document 01's twelve press-house cases, played through start and call. A line for each case: its letter, the refusal, the verdict, and the issuer and number of the role that gave a yes.
// After B the word of 1%5's holders among issuer 0's roles is written too: the grant is gone.
#![tactic(auto)]

use monitor::{Answer, Outcome};

// The state S: starting, and these records.
fn make_s(state: &mut [u16]) {
    let records: [&[u8]; 12] = [
        // Issuers 0 and 1 are enrolled, and 0 trusts 1.
        b"\x06\x00\x01\x00\x10\x00",
        b"\x06\x00\x01\x00\x10\x01",
        b"\x06\x00\x03\x00\x00\x01",
        // 0@3 holds 0#2, which is public, and 0#3 is present and unheld.
        b"\x06\x00\x05\x00\x00\x03",
        b"\x06\x00\x07\x00\x00\x02",
        b"\x06\x00\x07\x00\x00\x03",
        b"\x07\x00\x0b\x00\x00\x03\x02",
        b"\x06\x00\x16\x00\x00\x02",
        // 0/4 is open for 0@3 with role 2 active, and 1%5 is granted to 0#2.
        b"\x07\x00\x11\x00\x00\x04\x03",
        b"\x07\x00\x13\x00\x00\x04\x02",
        b"\x06\x00\x09\x00\x01\x05",
        b"\x08\x00\x0d\x00\x01\x05\x00\x02",
    ];
    let _ = monitor::start(state);
    for record in records {
        let _ = monitor::call(state, record);
    }
}

// A line that can't be written is left out.
fn show(rt: &impl Print, letter: char, outcome: Outcome) {
    let a = Answer::from(outcome);
    let _ = println!(rt;
        "{letter} {} {} {} {}",
        a.refusal, a.verdict, a.issuer, a.role
    );
}

// A record tried on S.
fn try_on_s(rt: &impl Print, state: &mut [u16], letter: char, record: &[u8]) {
    make_s(state);
    show(rt, letter, monitor::call(state, record));
}

// A record tried on S after another.
fn try_after(rt: &impl Print, state: &mut [u16], letter: char, first: &[u8], record: &[u8]) {
    make_s(state);
    let _ = monitor::call(state, first);
    show(rt, letter, monitor::call(state, record));
}

fn a_to_f(rt: &impl Print, state: &mut [u16]) {
    try_on_s(rt, state, 'A', b"\x08\x00\x15\x00\x01\x05\x00\x04");
    try_after(
        rt,
        state,
        'B',
        b"\x06\x00\x04\x00\x00\x01",
        b"\x08\x00\x15\x00\x01\x05\x00\x04",
    );
    show_holders(rt, state);
    try_after(
        rt,
        state,
        'C',
        b"\x07\x00\x14\x00\x00\x04\x02",
        b"\x08\x00\x15\x00\x01\x05\x00\x04",
    );
    try_on_s(rt, state, 'D', b"\x08\x00\x15\x00\x01\x06\x00\x04");
    try_on_s(rt, state, 'E', b"\x08\x00\x15\x00\x01\x05\x00\x05");
    try_on_s(rt, state, 'F', b"\x08\x00\x0d\x00\x01\x05\x00\x07");
}

fn g_to_l(rt: &impl Print, state: &mut [u16]) {
    try_on_s(rt, state, 'G', b"\x08\x00\x0d\x00\x00\x00\x01\x00");
    try_on_s(rt, state, 'H', b"\x08\x00\x0f\x00\x00\x02\x00\x02");
    try_on_s(rt, state, 'I', b"\x06\x00\x03\x00\x00\x00");
    try_on_s(rt, state, 'J', b"\x06\x00\x03\x00\x00\x10");
    try_on_s(rt, state, 'K', b"\x06\x00\x01\x00\x10\x00");
    try_on_s(rt, state, 'L', b"\x07\x00\x13\x00\x00\x04\x03");
}

// The roles of issuer 0 that hold 1%5.
fn show_holders(rt: &impl Print, state: &[u16]) {
    if 657 < state.len() {
        let _ = println!(rt; "holders {}", state[657]);
    }
}

fn main(rt: HostRuntime) {
    let mut words = [0u16; layout::STATE_LENGTH];
    let state: &mut [u16] = &mut words;
    a_to_f(&rt, state);
    g_to_l(&rt, state);
}
