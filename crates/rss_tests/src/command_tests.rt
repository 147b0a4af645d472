//! The top call over inputs in memory, byte for byte.

use crate::commands::{FORM, replay, run};
use rss_cli::Status;
use std::test::Fail;

/// All messages of both calls delivered, in the order sent.
const WHOLE: &str =
    "act 1 10 14\ngo 1 20 24\ngo 2 30 34\ngo 3 40 44\ngo 4 50 54\ngo 5 60 64\ngo 6 70 74\ngo 7 80 84\ngo 8 90 94\ngo 9 100 104\ngo 10 110 114\ngo 11 120 124\ngo 12 130 134\nact 1 140 144\ngo 13 150 154\ngo 14 160 164\ngo 15 170 174\ngo 16 180 184\ngo 17 190 194\ngo 18 200 204\nact 1 210 214\n";

const REPORT: &str =
    "call 1 a write r 5 ok place 1\ncall 2 a read r = 5 by 1 ok place 2\nstage a exited\nending done\n";

#[test]
fn smallest_run_is_reported(rt: HostRuntime) -> Result<(), Fail> {
    let alloc = rt.alloc();
    let input = format!(in alloc; "{FORM}%steps\n{WHOLE}")?;
    let left = replay(alloc, input.as_str(), &[], &[])?;
    assert_eq!(rt; left.code, 0);
    assert_eq!(rt; left.text.as_slice(), REPORT.as_bytes());
    Ok(())
}

#[test]
fn lists_of_steps_are_answered(rt: HostRuntime) -> Result<(), Fail> {
    let alloc = rt.alloc();
    let rows = [
        (
            "act 1 10 20\ngo 1 5 10\n",
            1,
            "call 1 a write open\nstage a running\nending unfinished\n",
        ),
        (
            "act 1 10 14\ngo 1 20 24\ngo 2 30 34\ngo 3 40 44\ngo 4 50 54\ngo 5 60 64\ngo 6 70 74\ngo 7 80 84\n",
            1,
            "call 1 a write r 5 open place 1\nstage a running\nending unfinished\n",
        ),
        ("act 1 10 20\ngo 1 5 9\n", 2, "fault step 2 Reading 10 9\n"),
        (
            "act 1 10 14\ngo 9 20 24\n",
            2,
            "fault step 2 Message NoSuchMessage\n",
        ),
        (
            "act 1 10 14\ngo 1 20 24\ngo 1 30 34\n",
            2,
            "fault step 3 Message Delivered\n",
        ),
        (
            "act 1 10 14\nlose 1 20 24\ngo 1 30 34\n",
            2,
            "fault step 3 Message Lost\n",
        ),
        (
            "act 1 10 14\nagain 1 20 24\n",
            2,
            "fault step 2 Message NotDelivered\n",
        ),
        (
            "act 1 10 14\ngo 1 20 24\nagain 1 30 34\nagain 1 40 44\n",
            2,
            "fault step 4 Message AgainUsed\n",
        ),
        ("act 1 10 14\nact 1 20 24\n", 2, "fault step 2 NotEnabled\n"),
        ("act 2 10 14\n", 2, "fault step 1 NotEnabled\n"),
        ("act 1 10 14\ngo 1 2", 2, "fault step 2 column 7\n"),
        ("\nact 1 1 2\n", 2, "fault step 1 column 1\n"),
        ("act 1 20 10\n", 2, "fault step 1 column 10\n"),
    ];
    for (steps, code, text) in rows {
        let input = format!(in alloc; "{FORM}%steps\n{steps}")?;
        let left = replay(alloc, input.as_str(), &[], &[])?;
        assert_eq!(rt; left.code, code, "{steps}");
        assert_eq!(rt; left.text.as_slice(), text.as_bytes(), "{steps}");
    }
    Ok(())
}

#[test]
fn stage_that_exited_acts_no_more(rt: HostRuntime) -> Result<(), Fail> {
    let alloc = rt.alloc();
    let input = format!(in alloc; "{FORM}%steps\n{WHOLE}act 1 220 224\n")?;
    let left = replay(alloc, input.as_str(), &[], &[])?;
    assert_eq!(rt; left.code, 2);
    assert_eq!(rt;
        left.text.as_slice(),
        b"fault step 22 StageOver\n".as_slice()
    );
    Ok(())
}

#[test]
fn faults_of_source_sink_and_words(rt: HostRuntime) -> Result<(), Fail> {
    let alloc = rt.alloc();
    let input = format!(in alloc; "{FORM}%steps\n{WHOLE}")?;
    let unread = replay(alloc, input.as_str(), &[1], &[])?;
    assert_eq!(rt; unread.code, 6);
    assert_eq!(rt; unread.text.len(), 0);
    let unwritten = replay(alloc, input.as_str(), &[], &[2])?;
    assert_eq!(rt; unwritten.code, 7);
    assert_eq!(rt; unwritten.text.as_slice(), b"call 1 a".as_slice());
    let words = [String::from_str(alloc, "play")?];
    let usage = run(alloc, &words, input.as_str(), &[], &[])?;
    assert_eq!(rt; usage.code, 2);
    assert_eq!(rt; usage.text.as_slice(), b"fault usage\n".as_slice());
    assert_eq!(rt; Status::OutOfMemory.code(), 10);
    Ok(())
}
