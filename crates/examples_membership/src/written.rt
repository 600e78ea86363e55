// What the writer and the checker of derivations tell.
use crate::slow_reading::Reading;
use refusals::BookQueryRefusal;

// What a buffer is filled with before it is lent.
pub(crate) const BLANK: u8 = 165;

// A buffer in two: the steps that are written, and the bytes behind them.
pub(crate) fn split_written(
    buffer: &[u8],
    told: Result<Option<usize>, BookQueryRefusal>,
) -> (&[u8], &[u8]) {
    let size = match told {
        Ok(Some(count)) => count.saturating_mul(4),
        _ => 0,
    };
    buffer.split_at(size.min(buffer.len()))
}

// Whether bytes are as they were before they were lent.
pub(crate) fn blank(bytes: &[u8]) -> bool {
    bytes.iter().all(|byte| *byte == BLANK)
}

// What the checker told as what the second reading says of the same steps; none where it is none of that.
pub(crate) fn reading_of(told: Result<bool, BookQueryRefusal>) -> Option<Reading> {
    match told {
        Ok(true) => Some(Reading::Yes),
        Ok(false) => Some(Reading::No),
        Err(BookQueryRefusal::Uneven) => Some(Reading::Uneven),
        Err(BookQueryRefusal::Impossible(step)) => Some(Reading::Impossible(step)),
        Err(_) => None,
    }
}
