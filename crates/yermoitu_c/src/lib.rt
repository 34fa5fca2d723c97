// The functions of crate `yermoitu` under their own names in C, with the same clauses. `include/yermoitu.h` declares them:
// a slice is there a pointer and the number of its elements.
#![tactic(auto)]

ghost use Rattle.std.specs.Prelude.{◌≡◌};
ghost use Rattle.mtas.specs.Monitor.{start, monitor};
ghost use Rattle.sheet.specs.Converted.{converted};
ghost use Rattle.press.specs.Acted.{ends_in, act};
ghost use Rattle.yermoitu.specs.Packed.{Returns};
ghost use Rattle.yermoitu.specs.PackedSheet.{Converts};

// Starting: a state of any words and any length.
#[unsafe(no_mangle)]
pub extern "C" fn yermoitu_start(state: &mut [u16]) -> u64
    ensures { Returns (start state.old) result state.new }
{
    yermoitu::yermoitu_start(state)
}

// A record of any bytes, played on a state of any words and any length.
#[unsafe(no_mangle)]
pub extern "C" fn yermoitu_call(state: &mut [u16], record: &[u8]) -> u64
    ensures { Returns (monitor state.old «record».now) result state.new }
{
    yermoitu::yermoitu_call(state, record)
}

// A sheet of any bytes made into records for any caller, in a buffer of any length.
#[unsafe(no_mangle)]
pub extern "C" fn yermoitu_sheet(csv: &[u8], caller: u8, out: &mut [u8]) -> u64
    ensures { Converts (converted csv.now caller out.old) result out.new }
{
    yermoitu::yermoitu_sheet(csv, caller, out)
}

// An action on a press for the session issuer/session: lists of any bytes and any length, on a state of any words and any length.
#[unsafe(no_mangle)]
pub extern "C" fn yermoitu_press(
    state: &mut [u16],
    owners: &[u8],
    stages: &mut [u8],
    press: u8,
    action: u8,
    issuer: u8,
    session: u8,
) -> u64
    ensures { act state.old owners.now stages.old press action issuer session ≡ ends_in result stages.new state.new }
{
    yermoitu::yermoitu_press(state, owners, stages, press, action, issuer, session)
}
