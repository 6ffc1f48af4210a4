// A reading joins (01, "The reading"; Change 2): its input, unfiltered and filtered, its values, PEAK and TROF, and its STAT bits in FLAG.
ghost use Rattle.std.specs.Prelude.{◌≡◌};
ghost use Rattle.compensation.specs.Filter.{held_by};
ghost use Rattle.compensation.specs.ForCode.{FilterInput};
ghost use Rattle.state.specs.ForCode.{remembering};
ghost use Rattle.state.specs.Reading.{outside, bad_reading, peak_after, trof_after, readings_after, remembered_of, state_after_values};

use crate::{Readings, State};
use compensation::Values;
use figures::Filter;

// The limits of ELEC and TEMP.
const ELEC_MOST: i64 = 19_660_800;

const ELEC_LEAST: i64 = -ELEC_MOST;

const TEMP_MOST: i64 = 13_107_200;

const TEMP_LEAST: i64 = -TEMP_MOST;

#[tactic(auto, unfolding(crate::specs::Reading::outside))]
fn is_outside(least: i64, most: i64, v: i64) -> bool
    ensures { result ≡ outside least most v }
{
    v < least || most < v
}

// Number 9.
#[tactic(auto, unfolding(crate::specs::Reading::bad_reading))]
pub fn bad_reading(elec: i64, temp: i64, integrity: u8) -> bool
    ensures { result ≡ bad_reading elec temp integrity }
{
    is_outside(ELEC_LEAST, ELEC_MOST, elec)
        || is_outside(TEMP_LEAST, TEMP_MOST, temp)
        || 1 < integrity
}

impl Readings {
    // Kept: these two are alike but for `max` and `min`; one function with a closure would be no plainer.
    #[tactic(auto, unfolding(crate::specs::Reading::peak_after))]
    fn peak_after(&self, values: Values) -> i64
        ensures { result ≡ peak_after self.now values }
    {
        if self.any {
            self.peak.max(values.sys)
        } else {
            values.sys
        }
    }

    #[tactic(auto, unfolding(crate::specs::Reading::smaller, crate::specs::Reading::trof_after))]
    fn trof_after(&self, values: Values) -> i64
        ensures { result ≡ trof_after self.now values }
    {
        if self.any {
            self.trof.min(values.sys)
        } else {
            values.sys
        }
    }

    // Step 1 of a reading that is not a bad one, after these: the held value.
    pub fn held_after(&self, filter: Filter, input: i64) -> i64
        requires { FilterInput filter self.now.input self.now.elec input }
        ensures { result ≡ held_by filter (remembered_of self.now) input }
    {
        compensation::filter_input(filter, !self.any, self.input, self.elec, input)
    }

    fn join(&mut self, elec: i64, temp: i64, values: Values)
        ensures { self.new ≡ readings_after self.old (record { input = self.old.input; held = elec }) temp values }
    {
        self.peak = self.peak_after(values);
        self.trof = self.trof_after(values);
        self.any = true;
        self.elec = elec;
        self.temp = temp;
        self.values = values;
    }
}

impl State {
    // The input of a reading, before its values are known.
    pub fn remember(&mut self, input: i64)
        ensures { self.new ≡ remembering self.old input }
    {
        self.readings.input = input;
    }

    // A reading whose input is remembered, by the held value, TEMP and its values.
    #[tactic(auto, unfolding(crate::specs::Reading::state_after_values))]
    pub fn take(&mut self, elec: i64, temp: i64, values: Values)
        ensures { self.new ≡ state_after_values self.old (record { input = self.old.readings.input; held = elec }) temp values }
    {
        self.readings.join(elec, temp, values);
        self.flag |= values.stat;
    }
}
