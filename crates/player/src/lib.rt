// The journal player: plays each record of a journal, and gathers the printed lines.
#![tactic(auto)]

ghost use Rattle.std.specs.Prelude.{◌≤◌, drop};
ghost use Rattle.mtas.specs.Journal.{journal_limit};
ghost use Rattle.journal.specs.Found.{Inside};
ghost use Rattle.player.specs.Played.{Played};
ghost use Rattle.player.specs.Turned.{Turned};

use journal::Found;
use layout::State;
use lines::Buffer;
use monitor::Answer;

// The bytes for the text of any journal.
pub const ROOM: usize = 367060;

// One turn, behind count records: what was found at a place is played if it is a whole record. Answers the line to print, the record's or the last one.
fn turn(state: &mut State, journal: &[u8], at: usize, found: Found, count: u32) -> Buffer
    requires { Inside journal.now at found × (at ≤ journal_limit) × (count ≤ at) }
    ensures { Turned state.old (drop at journal.now) at count found state.new result }
{
    match found {
        Found::Whole(len) => {
            let record = journal::part(journal, at, len);
            let answer = Answer::from(monitor::call(state, record));
            lines::played(
                count + 1,
                journal::kind_of(record),
                journal::caller_of(record),
                answer.refusal,
                answer.verdict,
            )
        }
        Found::NoMore => lines::end(count),
        Found::Partial => lines::broken(at as u32),
    }
}

// Plays a journal of any length and contents, and answers how many bytes of out are the printed text.
pub fn play(state: &mut State, journal: &[u8], out: &mut [u8; ROOM]) -> usize
    ensures { Played state.old journal.now state.new result out.new }
{
    if 65536 < journal.len() {
        return lines::long().append_to(out, 0);
    }
    let _ = monitor::start(state);
    let mut used = 0;
    let mut at = 0;
    let mut count = 0;
    loop {
        let found = journal::first_of(journal, at);
        used = turn(state, journal, at, found, count).append_to(out, used);
        let Found::Whole(len) = found else {
            return used;
        };
        at += len;
        count += 1;
    }
}
