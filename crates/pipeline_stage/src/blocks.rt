//! The open blocks of a script.

ghost use Rattle.std.specs.Prelude.{◌≡◌, ◌<◌, ◌≤◌, ◌-◌, ◌∷◌, [], length, drop, IfSome, IfNone};
ghost use Rattle.pipeline_stage.specs.Blocks.{block_of, blocks_of};

/// An open block: the position of its first statement, and its turns left, this one included.
#[derive(Clone, Copy)]
pub(crate) struct Open {
    pub(crate) first: usize,
    pub(crate) turns: u64,
}

/// The open blocks from the inside out, four at most.
#[derive(Clone, Copy)]
pub(crate) enum Blocks {
    None,
    One(Open),
    Two(Open, Open),
    Three(Open, Open, Open),
    Four(Open, Open, Open, Open),
}

impl Blocks {
    /// Another block inside of all.
    pub(crate) fn inside(&self, block: Open) -> Blocks
        requires { length (blocks_of self.now) < 4 }
        ensures { blocks_of result ≡ block_of block ∷ blocks_of self.now }
    {
        match self {
            Blocks::None => Blocks::One(block),
            Blocks::One(a) => Blocks::Two(block, *a),
            Blocks::Two(a, b) => Blocks::Three(block, *a, *b),
            Blocks::Three(a, b, c) | Blocks::Four(a, b, c, _) => Blocks::Four(block, *a, *b, *c),
        }
    }

    /// The innermost block.
    pub(crate) fn innermost(&self) -> Option<Open>
        ensures some { IfSome result (λ block. blocks_of self.now ≡ block_of block ∷ drop 1 (blocks_of self.now)) }
        ensures none { IfNone result (blocks_of self.now ≡ []) }
    {
        match self {
            Blocks::None => None,
            Blocks::One(a) => Some(*a),
            Blocks::Two(a, _) => Some(*a),
            Blocks::Three(a, _, _) => Some(*a),
            Blocks::Four(a, _, _, _) => Some(*a),
        }
    }

    /// The blocks round the innermost one.
    pub(crate) fn outside(&self) -> Blocks
        ensures blocks { blocks_of result ≡ drop 1 (blocks_of self.now) }
        ensures fewer { length (blocks_of result) ≤ 3 }
    {
        match self {
            Blocks::None | Blocks::One(_) => Blocks::None,
            Blocks::Two(_, b) => Blocks::One(*b),
            Blocks::Three(_, b, c) => Blocks::Two(*b, *c),
            Blocks::Four(_, b, c, d) => Blocks::Three(*b, *c, *d),
        }
    }
}
