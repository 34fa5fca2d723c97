// The journal program: plays the journal on standard input on a state of its own, and prints a line for each record and a last one.
#![tactic(auto)]

// One byte more than the limit is read: then the journal is too long, whatever follows. A read that fails counts as the journal's end.
fn main(rt: HostRuntime) {
    let mut state = [0u16; layout::STATE_LENGTH];
    let mut journal = [0u8; 65537];
    let mut text = [0u8; player::ROOM];
    let size = input::fill(&mut rt.stdin(), &mut journal).size;
    let used = player::play(&mut state, &journal[..size], &mut text);
    if rt.write_all(&text[..used]).is_err() {
        let _ = eprintln!(rt; "rights: not all answers could be written");
    }
}
