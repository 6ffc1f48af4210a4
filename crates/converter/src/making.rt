// Making a device (01, "Turned-down calls").
ghost use Rattle.std.specs.Prelude.{◌≡◌};
ghost use Rattle.converter.specs.Making.{station_fits, no_device, outcome_of};

use crate::{Device, Outcome};
use in_force::Setup;
use refusal::{Refusal, number_of};
use state::State;

impl From<Result<Device, Refusal>> for Outcome {
    ghost from_gives = { λ made outcome. outcome ≡ outcome_of made };

    fn from(made: Result<Device, Refusal>) -> Outcome {
        Outcome {
            number: number_of(&made),
            device: made.unwrap_or_else(|_| no_device()),
        }
    }
}

#[tactic(auto, unfolding(crate::specs::Making::station_fits))]
pub fn station_fits(station: u8) -> bool
    ensures { result ≡ station_fits station }
{
    (1..=247).contains(&station)
}

// The record of zeros, every field 0, which is no device.
#[tactic(auto, unfolding(state::specs::Request::fresh))]
fn no_device() -> Device
    ensures { result ≡ no_device }
{
    let figures = sheet::no_figures();
    let mut state = State::fresh();
    state.flag = 0;
    Device {
        setup: Setup {
            figures,
            copy: figures,
            station: 0,
        },
        state,
    }
}
