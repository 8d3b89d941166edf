//! A word that stands for several: `0a*3` is `0a 0a 0a`.

/// What stands before the star, and the number after it; 1 where there is no star.
pub(crate) fn split_times(word: &str) -> anyhow::Result<(&str, usize)> {
    match word.split_once('*') {
        Some((value, times)) => Ok((value, times.parse()?)),
        None => Ok((word, 1)),
    }
}
