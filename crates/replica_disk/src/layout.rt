//! How a register's content lies in a cell of a disk.

ghost use Rattle.std.specs.Prelude.{◌≡◌, length};
ghost use Rattle.std.specs.Int.{w32, w64, from_be_bytes};
ghost use Rattle.replica_disk.specs.Cells.{window, content_at as content_there, cell_at as cell_there, content_bytes as bytes_of_content, content_of as content_of_both, first_holds as first_has_it};

use carstamps::Carstamp;
use rss_wire::RegReply;

/// One of the two cells of a register: whether its gate is open, and what it holds.
#[derive(Clone, Copy)]
pub struct RegisterCell {
    pub is_open: bool,
    pub content: RegReply,
}

/// How many bytes of a disk a register has: two cells.
pub const REGISTER_SIZE: u32 = 64;

/// The cell that these 32 bytes hold.
pub fn cell_of(bytes: &[u8]) -> RegisterCell
    requires { length bytes.now ≡ 32 }
    ensures { result ≡ cell_there bytes.now 0 }
{
    RegisterCell {
        is_open: bytes[0] == 1,
        content: content_in(bytes),
    }
}

// What a cell of these 32 bytes holds.
#[tactic(auto, unfolding(crate::specs::Cells::content_at))]
fn content_in(bytes: &[u8]) -> RegReply
    requires { length bytes.now ≡ 32 }
    ensures { result ≡ content_there bytes.now 0 }
{
    RegReply {
        value: value_in(bytes),
        stamp: Carstamp {
            number: number_in(bytes),
            call: call_in(bytes),
        },
        writer: writer_in(bytes),
    }
}

// The value in bytes 8 to 15.
#[tactic(auto, unfolding(crate::specs::Cells::window))]
fn value_in(bytes: &[u8]) -> u64
    requires { length bytes.now ≡ 32 }
    ensures { result ≡ from_be_bytes w64 (window bytes.now 8 8) }
{
    u64::from_be_bytes([
        bytes[8], bytes[9], bytes[10], bytes[11], bytes[12], bytes[13], bytes[14], bytes[15],
    ])
}

// The stamp's number in bytes 16 to 23.
#[tactic(auto, unfolding(crate::specs::Cells::window))]
fn number_in(bytes: &[u8]) -> u64
    requires { length bytes.now ≡ 32 }
    ensures { result ≡ from_be_bytes w64 (window bytes.now 16 8) }
{
    u64::from_be_bytes([
        bytes[16], bytes[17], bytes[18], bytes[19], bytes[20], bytes[21], bytes[22], bytes[23],
    ])
}

// The stamp's call in bytes 24 to 27.
#[tactic(auto, unfolding(crate::specs::Cells::window))]
fn call_in(bytes: &[u8]) -> u32
    requires { length bytes.now ≡ 32 }
    ensures { result ≡ from_be_bytes w32 (window bytes.now 24 4) }
{
    u32::from_be_bytes([bytes[24], bytes[25], bytes[26], bytes[27]])
}

// The writer in bytes 28 to 31.
#[tactic(auto, unfolding(crate::specs::Cells::window))]
fn writer_in(bytes: &[u8]) -> u32
    requires { length bytes.now ≡ 32 }
    ensures { result ≡ from_be_bytes w32 (window bytes.now 28 4) }
{
    u32::from_be_bytes([bytes[28], bytes[29], bytes[30], bytes[31]])
}

/// The bytes of a content, from byte 8 of its cell on.
#[tactic(auto, unfolding(crate::specs::Cells::content_bytes))]
pub fn content_bytes(held: RegReply) -> [u8; 24]
    ensures { result ≡ bytes_of_content held }
{
    let value = held.value.to_be_bytes();
    let number = held.stamp.number.to_be_bytes();
    let call = held.stamp.call.to_be_bytes();
    let writer = held.writer.to_be_bytes();
    [
        value[0], value[1], value[2], value[3], value[4], value[5], value[6], value[7], number[0],
        number[1], number[2], number[3], number[4], number[5], number[6], number[7], call[0],
        call[1], call[2], call[3], writer[0], writer[1], writer[2], writer[3],
    ]
}

/// Whether the first of two cells is the current one: it is open, and the second is not, or has no
/// greater stamp.
pub fn first_holds(first: RegisterCell, second: RegisterCell) -> bool
    ensures { result ≡ first_has_it first second }
{
    first.is_open && !(second.is_open && second.content.stamp.is_above(first.content.stamp))
}

/// What two cells hold: the open one of the greater stamp, the first at a tie, and the opening
/// content where none is open.
pub fn content_of(first: RegisterCell, second: RegisterCell) -> RegReply
    ensures { result ≡ content_of_both first second }
{
    if first_holds(first, second) {
        first.content
    } else if second.is_open {
        second.content
    } else {
        OPENING
    }
}

/// What a replica holds of a register that was never written.
pub const OPENING: RegReply = RegReply {
    value: 0,
    stamp: Carstamp::ZERO,
    writer: 0,
};
