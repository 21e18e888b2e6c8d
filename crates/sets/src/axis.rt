// The number of axes of a font.
ghost use Rattle.std.specs.Prelude.{◌≡◌, ◌≤◌, MatchResult};
ghost use Rattle.std.proofs.Math.Option.{none, some};
ghost use Rattle.format.specs.Account.{first_of, axis_count_conditions, most_axes};
ghost use Rattle.sets.specs.Refusals.{declined_of};

use super::refusal::Refusal;

const MAX_AXES: u16 = 64;

#[derive(Clone, Copy, PartialEq, Eq, Debug)]
pub struct AxisCount {
    count: u16,
    ghost few: { count ≤ most_axes },
}

impl AxisCount {
    pub fn new(count: u16) -> Result<AxisCount, Refusal>
        ensures { MatchResult result (λ a. (first_of (axis_count_conditions count) ≡ none) × (a.count ≡ count)) (λ e. first_of (axis_count_conditions count) ≡ some (declined_of e)) }
    {
        if count > MAX_AXES {
            Err(Refusal::TooManyAxes)
        } else {
            Ok(AxisCount { count })
        }
    }

    pub fn get(&self) -> u16
        ensures is { result ≡ self.now.count }
        ensures few { result ≤ most_axes }
    {
        self.count
    }
}

impl TryFrom<u16> for AxisCount {
    type Error = Refusal;

    ghost try_from_gives = { λ count result. MatchResult result (λ a. (first_of (axis_count_conditions count) ≡ none) × (a.count ≡ count)) (λ e. first_of (axis_count_conditions count) ≡ some (declined_of e)) };

    fn try_from(count: u16) -> Result<AxisCount, Refusal> {
        AxisCount::new(count)
    }
}
