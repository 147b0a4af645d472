//! The generated file: an adder and a worker that take turns over a pipe, a register and a count.

ghost use Rattle.std.specs.Prelude.{◌≡◌, ◌≤◌, ◌<◌, ◌++◌, ◌⊎◌, ◌↔◌, IfOk, OnOk, IsErrOf};
ghost use Rattle.std.specs.Fmt.{decimal};
ghost use Rattle.rss_machine.specs.Generated.{generated_addend, generated_file};

use crate::error::GenError;
use crate::word::has_file;
use rss_names::put_number;
use std::alloc::{AllocError, Global};

/// The tables, and the script of the adder up to the number of its turns.
const TABLES: &[u8] = br#"max_steps = 200000
registers = ["blob", "thumb"]
[[shard]]
name = "s1"
keys = ["count"]
[[shard]]
name = "s2"
keys = ["last"]
[[pipe]]
name = "todo"
from = "adder"
to = "worker"
[[stage]]
name = "adder"
script = '''
repeat "#;

/// The turn of the adder up to what it adds.
const ADDS: &[u8] = b"\n  let id = id + ";

/// What else the adder does, and the script of the worker up to the number of its turns.
const PUTS: &[u8] = br#"
  write blob id
  txn c count : count = c + 1, last = id
  put todo id
end
'''
[[stage]]
name = "worker"
script = '''
repeat "#;

/// The turn of the worker, and the end of the file.
const TAKES: &[u8] = b"
  take p todo
  read b blob
  write thumb b + 1
  snap c count, l last
end
'''
";

/// The text of the generated file of a number: both stages take so many turns, and what the adder
/// adds in each is drawn from the number.
///
/// `OverLimit` comes exactly where the number is 0 or above 1000.
pub fn generate(alloc: Global, n: u32) -> Result<Vec<u8>, GenError>
    ensures text { IfOk result (λ text. text.items ≡ generated_file n) }
    ensures over { IsErrOf result GenError.OverLimit ↔ ((n ≡ 0) ⊎ (1000 < n)) }
{
    if !has_file(n) {
        return Err(GenError::OverLimit);
    }
    let text = file_of(alloc, u64::from(n))?;
    Ok(text)
}

// The text of the generated file of a number that is not too great.
fn file_of(alloc: Global, n: u64) -> Result<Vec<u8>, AllocError>
    requires most { n ≤ 1000 }
    ensures { IfOk result (λ text. text.items ≡ generated_file n) }
{
    let mut text = Vec::new(alloc);
    put_numbered(alloc, &mut text, TABLES, n)?;
    put_numbered(alloc, &mut text, ADDS, addend(n))?;
    put_numbered(alloc, &mut text, PUTS, n)?;
    text.extend_from_slice(TAKES)?;
    Ok(text)
}

// Appends a piece and a number.
fn put_numbered(
    alloc: Global,
    text: &mut Vec<u8>,
    piece: &[u8],
    number: u64,
) -> Result<(), AllocError>
    ensures { OnOk result (text.new.items ≡ text.old.items ++ (piece.now ++ decimal number)) }
{
    text.extend_from_slice(piece)?;
    put_number(alloc, text, number)
}

// What the adder adds in each turn.
fn addend(n: u64) -> u64
    requires most { n ≤ 1000 }
    ensures { result ≡ generated_addend n }
{
    let drawn = (1_103_515_245 * n + 12_345) % (1 << 31);
    1 + drawn % 1000
}
