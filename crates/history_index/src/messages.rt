//! Messages by their kind and their numbers.

ghost use Rattle.std.specs.Prelude.{◌≡◌};
ghost use Rattle.history_index.specs.Kept.{key_of_message};

use rss_model::Token;

/// A message by its kind (0 for a start, 1 for a chunk, 2 for an exit), the number of its stage or
/// pipe, and its own, which is 0 but for chunks.
#[derive(Clone, Copy, PartialEq, Eq, Hash)]
pub struct MessageKey {
    pub kind: u8,
    pub of: u8,
    pub number: u32,
}

/// A message by its kind and its numbers.
pub fn message_key(token: Token) -> MessageKey
    ensures { result ≡ key_of_message token }
{
    match token {
        Token::Spawn(stage) => MessageKey {
            kind: 0,
            of: stage.number(),
            number: 0,
        },
        Token::Chunk(pipe, number) => MessageKey {
            kind: 1,
            of: pipe,
            number,
        },
        Token::Exit(stage) => MessageKey {
            kind: 2,
            of: stage.number(),
            number: 0,
        },
    }
}
