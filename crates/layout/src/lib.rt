// Where the words of a state stand (document 01, 'The state'): the regions' beginnings and lengths, and the place of each word.
#![tactic(auto)]

ghost use Rattle.std.specs.Prelude.{◌≡◌, take, drop};
ghost use Rattle.mtas.specs.Layout.{links_length, seniors_at, address, trusted, users, roles, permissions, held, holders, seniors, session_user, active_roles, public_roles};

pub const TRUSTED_AT: usize = 1;

pub const USERS_AT: usize = 17;

pub const ROLES_AT: usize = 33;

pub const PERMISSIONS_AT: usize = 49;

pub const HELD_AT: usize = 65;

pub const HOLDERS_AT: usize = 321;

pub const SENIORS_AT: usize = 4417;

pub const SESSIONS_AT: usize = 8513;

pub const PUBLIC_AT: usize = 9025;

pub const STATE_LENGTH: usize = 9041;

// The words of a state.
pub type State = [u16; STATE_LENGTH];

pub const LINKS_LENGTH: usize = 4096;

// Its attachment words: the direct seniors of each role, a row for each role.
pub type Links = [u16; LINKS_LENGTH];

// The user of a closed session.
pub const NOBODY: u16 = 65535;

pub fn links(state: &State) -> &Links
    ensures { result.now ≡ take links_length (drop seniors_at state.now) }
{
    state[SENIORS_AT..SESSIONS_AT].as_array().unwrap()
}

// Below, a function for each word. Some differ only in where their region begins, and stay apart: each promises the address of another word,
// which the model has under the same name, and one function of all words would be these lines in a match and each call longer.

// The issuers that i trusts.
pub fn trusted(i: u8) -> usize
    ensures { result ≡ address (trusted i) }
{
    TRUSTED_AT + i as usize
}

pub fn users(i: u8) -> usize
    ensures { result ≡ address (users i) }
{
    USERS_AT + i as usize
}

pub fn roles(i: u8) -> usize
    ensures { result ≡ address (roles i) }
{
    ROLES_AT + i as usize
}

pub fn permissions(i: u8) -> usize
    ensures { result ≡ address (permissions i) }
{
    PERMISSIONS_AT + i as usize
}

// The roles that i@u holds. A user's number may be that of a closed session.
pub fn held(i: u8, u: u16) -> usize
    ensures { result ≡ address (held i u) }
{
    HELD_AT + 16 * (i as usize) + u as usize
}

// The roles of i that hold j%p.
pub fn holders(j: u8, p: u8, i: u8) -> usize
    ensures { result ≡ address (holders j p i) }
{
    HOLDERS_AT + 16 * (16 * (j as usize) + p as usize) + i as usize
}

// The roles of i that are direct seniors of j#q.
pub fn seniors(j: u8, q: u8, i: u8) -> usize
    ensures { result ≡ address (seniors j q i) }
{
    SENIORS_AT + 16 * (16 * (j as usize) + q as usize) + i as usize
}

// The user of i/s.
pub fn session_user(i: u8, s: u8) -> usize
    ensures { result ≡ address (session_user i s) }
{
    SESSIONS_AT + 2 * (16 * (i as usize) + s as usize)
}

// The active roles of i/s.
pub fn active_roles(i: u8, s: u8) -> usize
    ensures { result ≡ address (active_roles i s) }
{
    session_user(i, s) + 1
}

// The public roles of i.
pub fn public_roles(i: u8) -> usize
    ensures { result ≡ address (public_roles i) }
{
    PUBLIC_AT + i as usize
}
