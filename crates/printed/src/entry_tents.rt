// The tents of an entry as text.
use reader::entry::Entry;
use reader::tuple::{Region, Tuple, implied_end, implied_start};
use std::fmt;

// The peak of an entry with its starts and ends, stored or implied.
#[derive(Clone, Copy)]
pub struct Tents<'a>(pub Entry<'a>);

// What `bound` makes of each value, after a space.
fn write_values<W: fmt::Write, F: Fn(i16) -> i16>(
    f: &mut fmt::Formatter<W>,
    values: Tuple<'_>,
    bound: F,
) -> fmt::Result
    requires { F.IsAlwaysCallable bound }
{
    for v in values.iter().map(bound) {
        write!(f, " {v}")?;
    }
    Ok(())
}

impl fmt::Display for Tents<'_> {
    fn fmt<W: fmt::Write>(&self, f: &mut fmt::Formatter<W>) -> fmt::Result {
        let Tents(entry) = *self;
        let peak = entry.peak();
        f.write_str("peak")?;
        write_values(f, peak, |v| v)?;
        match entry.region() {
            Some(Region { start, end }) => {
                f.write_str(" start")?;
                write_values(f, start, |v| v)?;
                f.write_str(" end")?;
                write_values(f, end, |v| v)
            }
            None => {
                f.write_str(" start")?;
                write_values(f, peak, implied_start)?;
                f.write_str(" end")?;
                write_values(f, peak, implied_end)
            }
        }
    }
}
