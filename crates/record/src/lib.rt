// The call record: its bytes decoded into a request, a caller and one of twenty-three calls, a call's arguments, and bytes encoded.
#![tactic(auto)]

ghost use Rattle.std.specs.Prelude.{◌≡◌, [], ◌∷◌, ◌≤◌, take};
ghost use Rattle.mtas.specs.Record.{kind_at, fill, record_of};
ghost use Rattle.record.specs.Decoded.{call_of, request_of, Decodes, Formed};
ghost use Rattle.record.specs.Padding.{Padded};
ghost use Rattle.record.specs.Encoded.{Holds};

pub use encoded::Encoded;

mod encoded;

// The bytes before the arguments: length, kind and caller.
pub const HEADER: usize = 5;

// The calls, a case for each kind, with the arguments as they stand in the record.
#[derive(Clone, Copy)]
pub enum Call {
    AddIssuer(u8),
    RemoveIssuer(u8),
    AssignTrust(u8),
    RevokeTrust(u8),
    AddUser(u8),
    RemoveUser(u8),
    AddRole(u8),
    RemoveRole(u8),
    AddPerm(u8),
    RemovePerm(u8),
    AssignUser(u8, u8),
    RevokeUser(u8, u8),
    AssignPerm(u8, u8, u8),
    RevokePerm(u8, u8, u8),
    AssignRH(u8, u8, u8),
    RevokeRH(u8, u8, u8),
    CreateSession(u8, u8),
    DeleteSession(u8),
    AddActiveRole(u8, u8),
    DropActiveRole(u8, u8),
    CheckAccess(u8, u8, u8),
    PublishRole(u8),
    UnpublishRole(u8),
}

// A caller and what it calls.
#[derive(Clone, Copy)]
pub struct Request {
    pub caller: u8,
    pub call: Call,
}

// A request, a record of refusal 3's row, or a record of no bytes, a press's sign of life.
#[derive(Clone, Copy)]
pub enum Decoded {
    Request(Request),
    Undecodable,
    SignOfLife,
}

// The kinds, a line for each: how many arguments it has, and its call with as many of x, y and z.
fn kind_at(kind: u16, x: u8, y: u8, z: u8) -> Option<(usize, Call)>
    ensures { Formed kind x y z result }
{
    match kind {
        1 => Some((1, Call::AddIssuer(x))),
        2 => Some((1, Call::RemoveIssuer(x))),
        3 => Some((1, Call::AssignTrust(x))),
        4 => Some((1, Call::RevokeTrust(x))),
        5 => Some((1, Call::AddUser(x))),
        6 => Some((1, Call::RemoveUser(x))),
        7 => Some((1, Call::AddRole(x))),
        8 => Some((1, Call::RemoveRole(x))),
        9 => Some((1, Call::AddPerm(x))),
        10 => Some((1, Call::RemovePerm(x))),
        11 => Some((2, Call::AssignUser(x, y))),
        12 => Some((2, Call::RevokeUser(x, y))),
        13 => Some((3, Call::AssignPerm(x, y, z))),
        14 => Some((3, Call::RevokePerm(x, y, z))),
        15 => Some((3, Call::AssignRH(x, y, z))),
        16 => Some((3, Call::RevokeRH(x, y, z))),
        17 => Some((2, Call::CreateSession(x, y))),
        18 => Some((1, Call::DeleteSession(x))),
        19 => Some((2, Call::AddActiveRole(x, y))),
        20 => Some((2, Call::DropActiveRole(x, y))),
        21 => Some((3, Call::CheckAccess(x, y, z))),
        22 => Some((1, Call::PublishRole(x))),
        23 => Some((1, Call::UnpublishRole(x))),
        _ => None,
    }
}

// The request of a kind with these bytes as its arguments; undecodable where it has more or fewer, or is unknown.
fn fill(caller: u8, kind: u16, bytes: &[u8]) -> Decoded
    ensures { request_of result ≡ fill caller (kind_at kind) bytes.now }
{
    let x = bits::byte_at(bytes, 0);
    let y = bits::byte_at(bytes, 1);
    let z = bits::byte_at(bytes, 2);
    match kind_at(kind, x, y, z) {
        Some((count, call)) if bytes.len() == count => Decoded::Request(Request { caller, call }),
        _ => Decoded::Undecodable,
    }
}

// Decodes any bytes, of any length.
pub fn decode(record: &[u8]) -> Decoded
    ensures { Decodes «record».now result }
{
    let length = record.len();
    if length == 0 {
        return Decoded::SignOfLife;
    }
    if length < HEADER {
        return Decoded::Undecodable;
    }
    if bits::two_bytes(record[0], record[1]) as usize != length {
        return Decoded::Undecodable;
    }
    let kind = bits::two_bytes(record[2], record[3]);
    fill(record[4], kind, &record[HEADER..])
}

// A call's arguments in the record's order, 0 where it has fewer.
#[derive(Clone, Copy)]
pub struct Slots {
    pub x: u8,
    pub y: u8,
    pub z: u8,
}

pub fn arguments(call: Call) -> Slots
    ensures { Padded (call_of call) result.x result.y result.z }
{
    match call {
        Call::AddIssuer(x)
        | Call::RemoveIssuer(x)
        | Call::AssignTrust(x)
        | Call::RevokeTrust(x)
        | Call::AddUser(x)
        | Call::RemoveUser(x)
        | Call::AddRole(x)
        | Call::RemoveRole(x)
        | Call::AddPerm(x)
        | Call::RemovePerm(x)
        | Call::DeleteSession(x)
        | Call::PublishRole(x)
        | Call::UnpublishRole(x) => Slots { x, y: 0, z: 0 },
        Call::AssignUser(x, y)
        | Call::RevokeUser(x, y)
        | Call::CreateSession(x, y)
        | Call::AddActiveRole(x, y)
        | Call::DropActiveRole(x, y) => Slots { x, y, z: 0 },
        Call::AssignPerm(x, y, z)
        | Call::RevokePerm(x, y, z)
        | Call::AssignRH(x, y, z)
        | Call::RevokeRH(x, y, z)
        | Call::CheckAccess(x, y, z) => Slots { x, y, z },
    }
}

// The record of a kind and a caller, with the first count of three arguments. The kind is a number, as the record has it.
pub fn record_of(kind: u16, caller: u8, count: usize, slots: Slots) -> Encoded
    requires { count ≤ 3 }
    ensures { Holds result (record_of kind caller (take count (slots.x ∷ slots.y ∷ slots.z ∷ []))) }
{
    let len = HEADER + count;
    let [low, high] = kind.to_le_bytes();
    let bytes = [len as u8, 0, low, high, caller, slots.x, slots.y, slots.z];
    Encoded { bytes, len }
}
