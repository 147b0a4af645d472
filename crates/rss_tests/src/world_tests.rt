//! Long runs of the World, and steps out of place, through the top call.

use crate::commands::{FORM, replay};
use std::alloc::{AllocError, Global};
use std::test::Fail;

/// How often the stage writes and reads.
const TURNS: u32 = 1000;

/// A stage that counts in a register, a thousand times.
const COUNTER: &str =
    "registers = [\"r\"]\n[[stage]]\nname = \"a\"\nscript = '''\nrepeat 1000\n  let n = n + 1\n  write r n\n  read v r\nend\n'''\n";

// Appends a step with a reading of its own.
fn add_step(
    alloc: Global,
    text: &mut Vec<u8>,
    made: &mut u32,
    step: &str,
) -> Result<(), AllocError> {
    *made = made.wrapping_add(1);
    let earliest = made.wrapping_mul(10);
    let latest = earliest.wrapping_add(4);
    let line = format!(in alloc; "{step} {earliest} {latest}\n")?;
    text.extend_from_slice(line.as_bytes())
}

// Appends the delivery of so many messages behind those sent before.
fn deliver(
    alloc: Global,
    text: &mut Vec<u8>,
    made: &mut u32,
    before: u32,
    messages: u32,
) -> Result<(), AllocError> {
    for next in 0..messages {
        let message = before.wrapping_add(next).wrapping_add(1);
        let step = format!(in alloc; "go {message}")?;
        add_step(alloc, text, made, step.as_str())?;
    }
    Ok(())
}

// The file with its steps: a write has twelve messages, a read six, and all are delivered in order.
fn counted(alloc: Global) -> Result<Vec<u8>, AllocError> {
    let mut text = Vec::new(alloc);
    let mut made = 0;
    text.extend_from_slice(COUNTER.as_bytes())?;
    text.extend_from_slice(b"%steps\n")?;
    add_step(alloc, &mut text, &mut made, "act 1")?;
    for turn in 0..TURNS {
        let before = turn.wrapping_mul(18);
        add_step(alloc, &mut text, &mut made, "act 1")?;
        add_step(alloc, &mut text, &mut made, "act 1")?;
        deliver(alloc, &mut text, &mut made, before, 12)?;
        add_step(alloc, &mut text, &mut made, "act 1")?;
        deliver(alloc, &mut text, &mut made, before.wrapping_add(12), 6)?;
        add_step(alloc, &mut text, &mut made, "act 1")?;
    }
    add_step(alloc, &mut text, &mut made, "act 1")?;
    Ok(text)
}

// The report of the file with its steps.
fn counted_report(alloc: Global) -> Result<Vec<u8>, AllocError> {
    let mut text = Vec::new(alloc);
    for turn in 0..TURNS {
        let value = turn.wrapping_add(1);
        let write = value.wrapping_mul(2).wrapping_sub(1);
        let read = value.wrapping_mul(2);
        let lines = format!(in alloc;
            "call {write} a write r {value} ok place {write}\ncall {read} a read r = {value} by {write} ok place {read}\n"
        )?;
        text.extend_from_slice(lines.as_bytes())?;
    }
    text.extend_from_slice(b"stage a exited\nending done\n")?;
    Ok(text)
}

#[test]
fn a_thousand_turns_of_a_repeat_are_reported(rt: HostRuntime) -> Result<(), Fail> {
    let alloc = rt.alloc();
    let input = counted(alloc)?;
    let text = std::str::from_utf8(input.as_slice())
        .ok()
        .ok_or("the file is text")?;
    let left = replay(alloc, text, &[], &[])?;
    let report = counted_report(alloc)?;
    assert_eq!(rt; left.code, 0);
    assert_eq!(rt; left.text.as_slice(), report.as_slice());
    Ok(())
}

#[test]
fn steps_out_of_place_are_refused_by_name(rt: HostRuntime) -> Result<(), Fail> {
    let alloc = rt.alloc();
    let rows = [
        ("lose 1 10 14\n", "1 Message NoSuchMessage"),
        ("again 1 10 14\n", "1 Message NoSuchMessage"),
        ("stub 1 10 14\n", "1 NotEnabled"),
        ("kill 2 10 14\n", "1 NotEnabled"),
        ("kill 1 10 14\nkill 1 20 24\n", "2 StageOver"),
        ("kill 1 10 14\nact 1 20 24\n", "2 StageOver"),
        ("kill 1 10 14\nstub 1 20 24\nstub 1 30 34\n", "3 NotEnabled"),
        ("act 1 10 14\nkill 1 20 24\nact 1 30 34\n", "3 StageOver"),
    ];
    for (steps, fault) in rows {
        let input = format!(in alloc; "{FORM}%steps\n{steps}")?;
        let left = replay(alloc, input.as_str(), &[], &[])?;
        let line = format!(in alloc; "fault step {fault}\n")?;
        assert_eq!(rt; left.code, 2, "{steps}");
        assert_eq!(rt; left.text.as_slice(), line.as_bytes(), "{steps}");
    }
    Ok(())
}

#[test]
fn a_full_log_takes_no_step(rt: HostRuntime) -> Result<(), Fail> {
    let alloc = rt.alloc();
    let rows = [
        (
            "act 1 10 14\n",
            3,
            "call 1 a write open\nstage a running\nending limit\n",
        ),
        ("act 1 10 14\ngo 1 20 24\n", 2, "fault step 2 LogFull\n"),
    ];
    for (steps, code, text) in rows {
        let input = format!(in alloc; "max_steps = 1\n{FORM}%steps\n{steps}")?;
        let left = replay(alloc, input.as_str(), &[], &[])?;
        assert_eq!(rt; left.code, code, "{steps}");
        assert_eq!(rt; left.text.as_slice(), text.as_bytes(), "{steps}");
    }
    Ok(())
}
