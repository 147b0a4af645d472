//! The words with which statements begin.

ghost use Rattle.std.specs.Prelude.{◌≡◌};
ghost use Rattle.std.specs.Str.{bytes_eq};
ghost use Rattle.pipeline_lang.specs.Statements.{keyword as keyword_by};

/// The word with which a statement begins.
#[derive(Clone, Copy)]
pub enum Keyword {
    Let,
    Read,
    Write,
    Snap,
    Txn,
    Spawn,
    Wait,
    Put,
    Take,
    Close,
    Fence,
    Repeat,
    When,
    End,
    Exit,
}

/// Whether a word is this one.
fn is(word: &[u8], other: &[u8]) -> bool
    ensures { result ≡ bytes_eq word.now other.now }
{
    word == other
}

/// The keyword that a word is, if it is one.
#[tactic(auto, unfolding(crate::specs::Statements::keyword))]
pub fn keyword_of(word: &[u8]) -> Option<Keyword>
    ensures { result ≡ keyword_by word.now }
{
    if is(word, b"let") {
        Some(Keyword::Let)
    } else if is(word, b"read") {
        Some(Keyword::Read)
    } else if is(word, b"write") {
        Some(Keyword::Write)
    } else if is(word, b"snap") {
        Some(Keyword::Snap)
    } else if is(word, b"txn") {
        Some(Keyword::Txn)
    } else if is(word, b"spawn") {
        Some(Keyword::Spawn)
    } else if is(word, b"wait") {
        Some(Keyword::Wait)
    } else if is(word, b"put") {
        Some(Keyword::Put)
    } else if is(word, b"take") {
        Some(Keyword::Take)
    } else if is(word, b"close") {
        Some(Keyword::Close)
    } else if is(word, b"fence") {
        Some(Keyword::Fence)
    } else if is(word, b"repeat") {
        Some(Keyword::Repeat)
    } else if is(word, b"when") {
        Some(Keyword::When)
    } else if is(word, b"end") {
        Some(Keyword::End)
    } else if is(word, b"exit") {
        Some(Keyword::Exit)
    } else {
        None
    }
}
