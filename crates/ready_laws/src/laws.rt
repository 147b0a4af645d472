//! The laws of messages, links, stubs, dependencies and operations. They hold no code: each is the
//! contract of a function that does nothing.

ghost use Rattle.ready_laws.specs.Laws.{MessagesAreOwned, LinksAreSound, OperationsFitFiles, StubsAreOfStages, DependenciesAreOnRegisters};

/// In every run each message that was sent is of an owner that has begun, numbered from 1, and belongs to
/// the exchange of a request that was sent; place 0 holds no message.
pub fn messages_are_owned()
    ensures { MessagesAreOwned }
{}

/// In every run what a stage has under way is numbered from 1, runs, and is of that stage, which lives; a
/// current exchange of an owner is a request that it sent; and an owner that is over has none.
pub fn links_are_sound()
    ensures { LinksAreSound }
{}

/// In every run of a file that is sound each call is on a register of the file, or of one transaction
/// service, numbered from 1 to 8, with keys of the file: it names some, and eight in each list at most.
pub fn operations_fit_files()
    ensures { OperationsFitFiles }
{}

/// In every run of a file that is sound, where the steps name stages by their numbers from 1: the stub of
/// a stage is a stub, of that stage, which is over. And a round of dependencies stores them.
pub fn stubs_are_of_stages()
    ensures { StubsAreOfStages }
{}

/// In every run of a file that is sound every dependency, wherever it lies, is on a register of the file.
pub fn dependencies_are_on_registers()
    ensures { DependenciesAreOnRegisters }
{}
