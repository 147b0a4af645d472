//! Why reading stops.

/// Why the reading of a line stops: it is off the grammar, or cannot stand where it stands; or
/// memory is wanting.
#[derive(Clone, Copy)]
pub enum Stop {
    Misfit,
    OutOfMemory,
}
