// Document 01's setup T, for the programs that run under it.
ghost use Rattle.std.specs.Prelude.{◌≡◌};
ghost use Rattle.setup.specs.Examples.{setup_t};

use crate::{Axes, Setup};

// The setup of "Numbers to try".
pub fn setup_t() -> Setup
    ensures { result ≡ setup_t }
{
    let nought = Axes { x: 0, y: 0, z: 0 };
    let first = Axes {
        x: 1_000_000,
        y: 1_000_000,
        z: -4_000_000,
    };
    Setup {
        low: Axes {
            x: 0,
            y: 0,
            z: -6_000_000,
        },
        high: Axes {
            x: 20_000_000,
            y: 15_000_000,
            z: 0,
        },
        start: nought,
        exofs: nought,
        origins: [first, nought, nought, nought, nought, nought],
        feed: 30_000_000,
        lowest: 3_000,
        highest: 8_000,
        speed: 5_000,
        skip: 0,
    }
}
