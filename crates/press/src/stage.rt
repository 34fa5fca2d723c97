ghost use Rattle.std.specs.Prelude.{◌≡◌};
ghost use Rattle.press.specs.Stages.{next_stage};
ghost use Rattle.press.specs.Contract.{stage_number, action_number, next_of, IsStage, IsAction};

use crate::Error;

// A press's stages, by the card's numbers.
#[derive(Clone, Copy, Debug, PartialEq, Eq)]
pub enum Stage {
    Idle = 0,
    Loaded,
    Pressing,
    Held,
}

impl TryFrom<u8> for Stage {
    type Error = Error;

    ghost try_from_gives = { IsStage };

    fn try_from(n: u8) -> Result<Self, Error> {
        match n {
            0 => Ok(Stage::Idle),
            1 => Ok(Stage::Loaded),
            2 => Ok(Stage::Pressing),
            3 => Ok(Stage::Held),
            _ => Err(Error::Misfit),
        }
    }
}

impl From<Stage> for u8 {
    ghost from_gives = { λ s n. n ≡ stage_number s };

    fn from(s: Stage) -> u8 {
        s as u8
    }
}

// The actions, by the card's numbers.
#[derive(Clone, Copy, Debug, PartialEq, Eq)]
pub enum Action {
    Load = 0,
    Start,
    Pause,
    Resume,
    Empty,
}

impl TryFrom<u8> for Action {
    type Error = Error;

    ghost try_from_gives = { IsAction };

    fn try_from(n: u8) -> Result<Self, Error> {
        match n {
            0 => Ok(Action::Load),
            1 => Ok(Action::Start),
            2 => Ok(Action::Pause),
            3 => Ok(Action::Resume),
            4 => Ok(Action::Empty),
            _ => Err(Error::Misfit),
        }
    }
}

// The stage that an action leads to, a line for each move.
#[tactic(auto, unfolding(crate::specs::Stages::next_in))]
pub fn next_stage(action: Action, stage: Stage) -> Option<Stage>
    ensures { next_of result ≡ next_stage (action_number action) (stage_number stage) }
{
    match (action, stage) {
        (Action::Load, Stage::Idle) => Some(Stage::Loaded),
        (Action::Start, Stage::Loaded) => Some(Stage::Pressing),
        (Action::Pause, Stage::Pressing) => Some(Stage::Held),
        (Action::Resume, Stage::Held) => Some(Stage::Pressing),
        (Action::Empty, Stage::Loaded | Stage::Held) => Some(Stage::Idle),
        _ => None,
    }
}
