//! The laws of places. They hold no code: each is the contract of a function that does nothing.

ghost use Rattle.place_laws.specs.Laws.{AloneFilesKeepToServices, DependenciesComeFirst, RegisterPlacesAreRegular, RegisterOrdersAreRegular};

/// Where each script of a file has no statements but those that read and write registers of one service,
/// that set variables, that repeat or skip others, and the exit, each of its stages keeps to itself and to
/// the registers of one service.
pub fn alone_files_keep_to_services()
    ensures { AloneFilesKeepToServices }
{}

/// In every run of a file in order, each of whose stages keeps to itself and to the registers of one
/// service: where a read has ended and left what it read as a dependency, its stamp has its step before
/// each later call of the stage sends its own first round.
pub fn dependencies_come_first()
    ensures { DependenciesComeFirst }
{}

/// In every run of a file in order, each of whose stages keeps to itself and to the registers of one
/// service, whatever is lost, repeated or killed: the places of the calls are a regular order for the
/// history. It holds each call that has ended, once, and besides only writes; in this order each read
/// replied what the last write of its register before it wrote; and the order keeps potential causality,
/// and real time from each write that has ended to every later write and to every later read of its register.
/// So it is for the history and the order of every list of steps.
pub fn register_places_are_regular()
    ensures states { RegisterPlacesAreRegular }
    ensures steps { RegisterOrdersAreRegular }
{}
