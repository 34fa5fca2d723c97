// What an accepted call does to the lent words: facts are put, or one is cut with all that needs it, and what is left is settled.
#![tactic(auto)]

ghost use Rattle.std.specs.Prelude.{◌≡◌, true, ℕ, ◌<◌, get_or};
ghost use Rattle.record.specs.Decoded.{call_of};
ghost use Rattle.sessions.specs.Lesser.{Plain};
ghost use Rattle.facts.specs.Table.{fact_of, Inside};
ghost use Rattle.effects.specs.Effect.{Accepted, Left};
ghost use Rattle.effects.specs.Put.{written, Put};
ghost use Rattle.effects.specs.Cut.{MayCut, Cut, Breaking};

use facts::{Fact, Lawful, Place};
use layout::State;
use record::Request;
use rule::Effect;

mod strips;
mod sweep;

// What is said at a place is written there.
fn write_at(state: &mut State, place: Place)
    requires { Inside place }
    ensures { state.new ≡ written state.old place }
{
    match place {
        Place::Bit(at, n) | Place::While(_, _, at, n) => {
            state[at] = bits::with_bit(state[at], n);
        }
        Place::Number(at, u) => {
            state[at] = u;
        }
    }
}

fn put(state: &mut State, fact: Fact)
    ensures { Put (fact_of fact) state.old state.new }
{
    if let Some(place) = facts::place_of(fact) {
        write_at(state, place);
    }
}

// The fact goes, with all that needs it.
fn cut(state: &mut State, fact: Fact)
    requires { MayCut (fact_of fact) state.old }
    ensures { Cut (fact_of fact) state.old state.new }
{
    strips::clear(state, fact);
    if let Some(sweep) = sweep::sweep_of(fact) {
        sweep.sweep_all(state);
    }
}

// Whether a reach may break where the fact is cut. Where each user holds its active roles itself, only taking a role breaks one.
fn may_break(plain: bool, fact: Fact) -> bool
    ensures { Breaking plain (fact_of fact) result }
{
    !plain || matches!(fact, Fact::Holds(..))
}

// A state's words have sixteen bits each. The proof of `change` asks it of what settling leaves, whose contract speaks of bits alone.
fn sixteen_bits(words: &[u16])
    ensures { (k : ℕ) → get_or words.now k 0 < 65536 }
{}

// plain: each user holds its active roles itself, as the law test found.
pub fn change(state: &mut State, request: Request, plain: bool)
    requires { Accepted state.old request.caller (call_of request.call) × (plain ≡ true → Plain state.old) }
    ensures { Left state.old request.caller (call_of request.call) state.new }
{
    match rule::effect_on(Lawful { words: state }, request) {
        // The issuer's trust in itself too.
        Effect::Enrols(i) => {
            put(state, Fact::Trusts(i, i));
            put(state, Fact::Enrolled(i));
        }
        Effect::Puts(fact) => put(state, fact),
        Effect::Cuts(fact) => {
            cut(state, fact);
            if may_break(plain, fact) {
                sessions::settle(state);
                sixteen_bits(state);
            }
        }
        Effect::Decides(..) => {}
    }
}
