// Step 1, the filter (01, "The reading"; Change 2).
ghost use Rattle.std.specs.Prelude.{◌≡◌};
ghost use Rattle.compensation.specs.Filter.{filtered};
ghost use Rattle.compensation.specs.ForCode.{FilterInput};

use arithmetic::round_div;
use figures::Filter;

// The held value after an input, which is ELEC from there on; `first` says that no value is held yet. `previous` is the input before
// this one: by it the filter is bypassed, however far the held value has fallen behind. FFLV is tested for 0 last, since that decides
// only where the input has not moved.
// Kept: `first` stands beside the values, as the state holds them for C. An `Option` of them would be made at the one call, and be taken
// apart here.
pub fn filter_input(f: Filter, first: bool, previous: i64, held: i64, input: i64) -> i64
    requires { FilterInput f previous held input }
    ensures { result ≡ filtered f first previous held input }
{
    if first || f.ffst == 0 || (f.fflv as u64) < (input - previous).unsigned_abs() || f.fflv == 0 {
        return input;
    }
    held + round_div(input - held, f.ffst)
}
