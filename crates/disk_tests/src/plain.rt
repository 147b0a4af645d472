//! What three registers hold behind requests, by plain functions.

/// A value with its stamp, and the call that wrote it.
#[derive(Clone, Copy, PartialEq, Eq)]
pub struct Held {
    pub number: u64,
    pub call: u32,
    pub value: u64,
    pub writer: u32,
}

/// What three registers hold.
#[derive(Clone, Copy, PartialEq, Eq)]
pub struct Registers {
    pub first: Held,
    pub second: Held,
    pub third: Held,
}

/// A value for one of the three registers, numbered from 0.
#[derive(Clone, Copy)]
pub struct Accept {
    pub register: u16,
    pub held: Held,
}

/// What is asked of a replica: to store a value, or two dependencies.
#[derive(Clone, Copy)]
pub enum Asked {
    Store(Accept),
    Fix(Accept, Accept),
}

/// A register that was never written.
const NOTHING: Held = Held {
    number: 0,
    call: 0,
    value: 0,
    writer: 0,
};

/// Three registers that were never written.
pub const NEW: Registers = Registers {
    first: NOTHING,
    second: NOTHING,
    third: NOTHING,
};

// The value of the greater stamp, the one that is held at a tie.
fn newer(old: Held, new: Held) -> Held {
    if new.number > old.number || (new.number == old.number && new.call > old.call) {
        new
    } else {
        old
    }
}

// The registers behind one value.
fn behind_one(before: Registers, accept: Accept) -> Registers {
    match accept.register {
        0 => Registers {
            first: newer(before.first, accept.held),
            ..before
        },
        1 => Registers {
            second: newer(before.second, accept.held),
            ..before
        },
        _ => Registers {
            third: newer(before.third, accept.held),
            ..before
        },
    }
}

/// The registers behind what is asked.
pub fn behind(before: Registers, asked: Asked) -> Registers {
    match asked {
        Asked::Store(accept) => behind_one(before, accept),
        Asked::Fix(one, other) => behind_one(behind_one(before, one), other),
    }
}

/// Whether these are the registers behind some front of what is asked.
pub fn is_front(before: Registers, asked: Asked, found: Registers) -> bool {
    if found == before || found == behind(before, asked) {
        return true;
    }
    match asked {
        Asked::Store(_) => false,
        Asked::Fix(one, _) => found == behind_one(before, one),
    }
}
