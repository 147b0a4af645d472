//! Why reading stops.

/// Why the reading of a line stops: `Misfit` holds how many bytes of the line are left where the
/// first token that cannot stand begins, 0 at the line's end.
#[derive(Clone, Copy)]
pub enum Stop {
    Misfit(usize),
    OutOfMemory,
}
