//! Runs of files with several stages, losses and repeats through the top call, byte for byte.

use crate::commands::replay;
use std::test::Fail;

/// The write of the second stage takes effect first.
const PLACE_IS_NOT_CALL_NUMBER: (&str, u8, &str) = (
    "registers = [\"r\", \"q\"]\n[[stage]]\nname = \"a\"\nscript = '''\nwrite r 1\n'''\n[[stage]]\nname = \"b\"\nscript = '''\nwrite q 2\n'''\n%steps\nact 1 10 14\nact 2 20 24\ngo 4 30 34\ngo 5 40 44\ngo 7 50 54\ngo 8 60 64\ngo 9 70 74\ngo 10 80 84\ngo 12 90 94\ngo 13 100 104\nact 2 110 114\ngo 1 120 124\ngo 2 130 134\ngo 14 140 144\ngo 15 150 154\ngo 16 160 164\ngo 17 170 174\ngo 19 180 184\ngo 20 190 194\nact 1 200 204\n",
    0,
    "call 1 a write r 1 ok place 2\ncall 2 b write q 2 ok place 1\nstage a exited\nstage b exited\nending done\n",
);

/// A read that leaves a dependency has the next round store it first.
const DEPENDENCY_FIRST: (&str, u8, &str) = (
    "registers = [\"r\"]\n[[stage]]\nname = \"a\"\nscript = '''\nwrite r 5\n'''\n[[stage]]\nname = \"b\"\nscript = '''\nread v r\nread w r\n'''\n%steps\nact 1 10 14\ngo 1 20 24\ngo 2 30 34\ngo 4 40 44\ngo 5 50 54\ngo 6 60 64\nact 2 70 74\ngo 10 80 84\ngo 11 90 94\ngo 13 100 104\ngo 14 110 114\nact 2 120 124\ngo 16 130 134\ngo 17 140 144\ngo 18 150 154\ngo 19 160 164\ngo 21 170 174\ngo 22 180 184\ngo 23 190 194\ngo 24 200 204\nact 2 210 214\n",
    1,
    "call 1 a write r 5 open place 1\ncall 2 b read r = 5 by 1 ok place 2\ncall 3 b read r = 5 by 1 ok place 3\nstage a running\nstage b exited\nending unfinished\n",
);

/// A quorum of five replicas is lost with three of them.
const FIVE_REPLICAS_THREE_LOST: (&str, u8, &str) = (
    "replicas = 5\ntries = 1\nregisters = [\"r\"]\n[[stage]]\nname = \"a\"\nscript = '''\nread v r\n'''\n%steps\nact 1 10 14\nlose 1 20 24\nlose 2 30 34\nlose 3 40 44\n",
    1,
    "call 1 a read unavailable quorum\nstage a unavailable fencing\nending unfinished\n",
);

/// Each message that was delivered may be delivered once more.
const REPEATS: (&str, u8, &str) = (
    "registers = [\"r\"]\n[[stage]]\nname = \"a\"\nscript = '''\nwrite r 5\nread v r\n'''\n%steps\nact 1 10 14\ngo 1 20 24\nagain 1 30 34\ngo 2 40 44\nagain 2 50 54\ngo 3 60 64\nagain 3 70 74\ngo 4 80 84\nagain 4 90 94\ngo 6 100 104\nagain 6 110 114\ngo 10 120 124\nagain 10 130 134\ngo 11 140 144\nagain 11 150 154\ngo 13 160 164\nagain 13 170 174\ngo 15 180 184\nagain 15 190 194\nact 1 200 204\ngo 17 210 214\nagain 17 220 224\ngo 18 230 234\nagain 18 240 244\ngo 20 250 254\nagain 20 260 264\ngo 22 270 274\nagain 22 280 284\nact 1 290 294\n",
    0,
    "call 1 a write r 5 ok place 1\ncall 2 a read r = 5 by 1 ok place 2\nstage a exited\nending done\n",
);

#[test]
fn files_that_run_are_reported(rt: HostRuntime) -> Result<(), Fail> {
    let alloc = rt.alloc();
    let rows = [
        PLACE_IS_NOT_CALL_NUMBER,
        DEPENDENCY_FIRST,
        FIVE_REPLICAS_THREE_LOST,
        REPEATS,
    ];
    for (input, code, text) in rows {
        let left = replay(alloc, input, &[], &[])?;
        assert_eq!(rt; left.code, code, "{input}");
        assert_eq!(rt; left.text.as_slice(), text.as_bytes(), "{input}");
    }
    Ok(())
}
