// The words of a case.
use std::error::Error;
use std::str::{FromStr, SplitWhitespace};

// The next word as a number.
pub fn parsed<T: FromStr>(words: &mut SplitWhitespace<'_>) -> anyhow::Result<T>
where
    T::Err: Error,
{
    Ok(words.next().unwrap_or("").parse::<T>()?)
}
