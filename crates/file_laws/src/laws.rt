//! What holds of every file.

ghost use Rattle.file_laws.specs.FileOrder.{TablesAreInFileOrder};
ghost use Rattle.file_laws.specs.ReadFiles.{FilesAreInOrder, FilesNameKeys};

/// The tables of names hold the names of the file in file order; as many homes stand beside them as
/// keys, and as many services as registers.
#[tactic(auto, using(crate::proofs::Order::tables_are_in_file_order))]
pub fn tables_are_in_file_order()
    ensures { TablesAreInFileOrder }
{}

/// Each register that a script of a file names is in the file's table of registers, with its
/// service, which is a register service from 1 to 8; and the register services of the file are
/// numbered in order from 1.
pub fn files_are_in_order()
    ensures { FilesAreInOrder }
{}

/// Each key that a snapshot or a transaction of a file's scripts names is one of the file: its home
/// is the number of one of the file's shards, from 1 to at most 16, and that shard keeps the key from
/// the beginning. Each snapshot and each transaction names a key at least.
pub fn files_name_keys()
    ensures { FilesNameKeys }
{}
