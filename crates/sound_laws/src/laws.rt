//! The law of files. It holds no code: it is the contract of a function that does nothing.

ghost use Rattle.sound_laws.specs.Sound.{FilesAreSound};

/// Every file that is read is sound. Its scripts name its registers, and keys of its transaction
/// services; each snapshot and each transaction is of one service, from 1 to 8, and names few keys, each
/// once. Each stage is spawned in one place at most, outside of blocks, by an earlier stage of the file,
/// and each pipe has a giver that alone puts into it and closes it, once and last, and a taker that alone
/// takes from it. All is within the limits of a file.
pub fn files_are_sound()
    ensures { FilesAreSound }
{}
