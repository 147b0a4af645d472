//! Files' own steps through the top call, byte for byte.

use crate::commands::{FORM, serial};
use std::test::Fail;

/// A stage is killed in place of its second act.
const KILL_BY_THE_FILE: (&str, u8, &str) = (
    "registers = [\"r\"]\n[[stage]]\nname = \"a\"\nscript = '''\nwrite r 5\nread v r\n'''\n[[kill]]\nstage = \"a\"\nact = 2\n",
    5,
    "call 1 a write r 5 ok place 1\nstage a killed fenced\nservice reg fences 1\nending hurt\n",
);

/// Two stages wait for each other.
const STUCK: (&str, u8, &str) = (
    "[[pipe]]\nname = \"out\"\nfrom = \"a\"\nto = \"b\"\n[[pipe]]\nname = \"back\"\nfrom = \"b\"\nto = \"a\"\n[[stage]]\nname = \"a\"\nscript = '''\ntake v back\nput out 1\n'''\n[[stage]]\nname = \"b\"\nscript = '''\ntake v out\nput back 1\n'''\n",
    4,
    "stage a waits take back\nstage b waits take out\nending stuck\n",
);

/// The log is full after three steps.
const LIMIT: (&str, u8, &str) = (
    "max_steps = 3\nregisters = [\"r\"]\n[[stage]]\nname = \"a\"\nscript = '''\nwrite r 5\nread v r\n'''\n",
    3,
    "call 1 a write open\nstage a running\nending limit\n",
);

#[test]
fn files_make_their_own_steps(rt: HostRuntime) -> Result<(), Fail> {
    let alloc = rt.alloc();
    let rows = [
        (
            FORM,
            0,
            "call 1 a write r 5 ok place 1\ncall 2 a read r = 5 by 1 ok place 2\nstage a exited\nending done\n",
        ),
        KILL_BY_THE_FILE,
        STUCK,
        LIMIT,
        ("", 2, "fault file MissingKey stage\n"),
    ];
    for (input, code, text) in rows {
        let left = serial(alloc, input)?;
        assert_eq!(rt; left.code, code, "{input}");
        assert_eq!(rt; left.text.as_slice(), text.as_bytes(), "{input}");
    }
    Ok(())
}
