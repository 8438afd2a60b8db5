//! What was found, or a text that says what differs.

/// What was found; Err is a text that says what differs.
pub(crate) type Found<T> = Result<T, &'static str>;

/// The value of what was tried; if there is none, this text.
pub(crate) fn or_say<T, E: Drop>(tried: Result<T, E>, what: &'static str) -> Found<T> {
    match tried {
        Ok(it) => Ok(it),
        Err(_) => Err(what),
    }
}
