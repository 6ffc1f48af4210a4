// A lorry on a platform, with a device at each corner (02, Change 4).
ghost use Rattle.converter.specs.Reached.{Reached};
ghost use Rattle.platform.specs.Platform.{after, AllReached};
ghost use Rattle.std.specs.Prelude.{◌≡◌};

use crate::{print_report, sample_of};
use converter::{Device, Samples};
use platform::{Platform, Weights};
use refusal::number_of;

// Each corner starts as the device that is handed in, so all four have its station. The lorry puts 30, 25.5, 61.5 and 58 % on them; then
// it has gone, and corner 3 gives a reading that is one step beyond its range.
pub(crate) fn weigh_lorry(rt: &impl Print, device: Device)
    requires { Reached device }
{
    let mut platform = Platform {
        one: device,
        two: device,
        three: device,
        four: device,
    };
    let loaded = samples_of(1_966_080, 1_671_168, 4_030_464, 3_801_088);
    weigh(rt, &mut platform, "lorry", &loaded);
    let beyond = samples_of(0, 0, 19_660_801, 0);
    weigh(rt, &mut platform, "corner 3 bad", &beyond);
    print_report(rt, "corner 1", &platform.one);
}

// ELEC of corners 1 to 4.
fn samples_of(one: i64, two: i64, three: i64, four: i64) -> Samples {
    Samples {
        one: sample_of(one),
        two: sample_of(two),
        three: sample_of(three),
        four: sample_of(four),
    }
}

// The four SYS; total, left, right, left less right.
fn weigh(rt: &impl Print, platform: &mut Platform, what: &str, samples: &Samples)
    requires { AllReached platform.old }
    ensures { (platform.new ≡ after platform.old samples.now) × AllReached platform.new }
{
    let weighed = platform.weigh(samples);
    let number = number_of(&weighed);
    let Weights {
        one,
        two,
        three,
        four,
        total,
        left,
        right,
        difference,
    } = weighed.unwrap_or_default();
    let _ = println!(rt;
        "weigh {what}: {number}, {one} {two} {three} {four}, {total} {left} {right} {difference}"
    );
}
