//! Pipeline files through the top call: the first fault of each, by its name and its place.

use crate::commands::{FORM, replay};
use std::alloc::{AllocError, Global};
use std::test::Fail;

// A file of one stage with this script.
fn with_script(alloc: Global, script: &str) -> Result<String, AllocError> {
    format!(in alloc; "[[stage]]\nname = \"a\"\nscript = '''\n{script}'''\n")
}

#[test]
fn faults_of_tables_are_named(rt: HostRuntime) -> Result<(), Fail> {
    let alloc = rt.alloc();
    let rows = [
        ("", "MissingKey stage"),
        ("tries = 0\n", "OverLimit tries"),
        ("tries = \"3\"\n", "WrongKind tries"),
        ("replicas = 4\n", "WrongKind replicas"),
        ("colour = 1\n", "UnknownKey ?"),
        ("registers = 7 = 7\n", "NotToml file"),
        (
            "registers = [\"r\", \"r\"]\n[[stage]]\nname = \"a\"\nscript = ''\n",
            "DoubleName registers",
        ),
        (
            "[[pipe]]\nname = \"p\"\nfrom = \"a\"\nto = \"a\"\n[[stage]]\nname = \"a\"\nscript = ''\n",
            "PipeShape pipe.1.to",
        ),
        (
            "[[withhold]]\nstage = \"a\"\ntarget = \"replica 4\"\nfrom = 1\ncount = 1\n[[stage]]\nname = \"a\"\nscript = ''\n",
            "UnknownName withhold.1.target",
        ),
        (
            "drivers = 17\n[[stage]]\nname = \"a\"\nscript = ''\n",
            "OverLimit drivers",
        ),
    ];
    for (file, fault) in rows {
        let left = replay(alloc, file, &[], &[])?;
        let line = format!(in alloc; "fault file {fault}\n")?;
        assert_eq!(rt; left.code, 2, "{fault}");
        assert_eq!(rt; left.text.as_slice(), line.as_bytes(), "{fault}");
    }
    Ok(())
}

#[test]
fn faults_of_scripts_are_named(rt: HostRuntime) -> Result<(), Fail> {
    let alloc = rt.alloc();
    let rows = [
        (
            "let v = 1 +\n",
            "Syntax stage.1.script statement 1 column 12",
        ),
        (
            "read v q\n",
            "UnknownName stage.1.script statement 1 column 8",
        ),
        (
            "repeat 1001\nend\n",
            "OverLimit stage.1.script statement 1 column 8",
        ),
        (
            "repeat 2\nrepeat 2\nrepeat 2\nrepeat 2\nrepeat 2\nend\nend\nend\nend\nend\n",
            "OverLimit stage.1.script statement 5 column 1",
        ),
        (
            "repeat 1000\nrepeat 1000\nrepeat 1000\nlet v = 1\nend\nend\nend\n",
            "OverLimit stage.1.script",
        ),
        ("wait a\n", "SpawnShape stage.1.script statement 1 column 6"),
        (
            "let status = 1\n",
            "Syntax stage.1.script statement 1 column 5",
        ),
        (
            "# a note\n\n  when 1 < 2\n",
            "Syntax stage.1.script statement 1 column 13",
        ),
        (
            "let v = 1\n  end x\n",
            "Syntax stage.1.script statement 2 column 3",
        ),
        (
            "when 1 < 2\nend x\n",
            "Syntax stage.1.script statement 2 column 5",
        ),
    ];
    for (script, fault) in rows {
        let file = with_script(alloc, script)?;
        let left = replay(alloc, file.as_str(), &[], &[])?;
        let line = format!(in alloc; "fault file {fault}\n")?;
        assert_eq!(rt; left.code, 2, "{script}");
        assert_eq!(rt; left.text.as_slice(), line.as_bytes(), "{script}");
    }
    Ok(())
}

#[test]
fn keys_of_two_services_do_not_mix(rt: HostRuntime) -> Result<(), Fail> {
    let alloc = rt.alloc();
    let file =
        "[[shard]]\nname = \"s1\"\nkeys = [\"x\"]\n[[shard]]\nname = \"s2\"\nkeys = [\"z\"]\nservice = \"second\"\n[[stage]]\nname = \"a\"\nscript = '''\nsnap v x, w z\n'''\n[[service]]\nname = \"second\"\nkind = \"txn\"\n";
    let left = replay(alloc, file, &[], &[])?;
    assert_eq!(rt; left.code, 2);
    assert_eq!(rt;
        left.text.as_slice(),
        b"fault file ServiceShape stage.1.script statement 1 column 13\n".as_slice()
    );
    Ok(())
}

#[test]
fn valid_files_are_reported_before_their_first_step(rt: HostRuntime) -> Result<(), Fail> {
    let alloc = rt.alloc();
    let rows = [
        ("let v = 1\nfence\n", "stage a running\nending unfinished\n"),
        (
            "repeat 2\n  let v = v + 1\nend\n",
            "stage a running\nending unfinished\n",
        ),
        ("", "stage a running\nending unfinished\n"),
    ];
    for (script, report) in rows {
        let file = with_script(alloc, script)?;
        let left = replay(alloc, file.as_str(), &[], &[])?;
        assert_eq!(rt; left.code, 1, "{script}");
        assert_eq!(rt; left.text.as_slice(), report.as_bytes(), "{script}");
    }
    Ok(())
}

#[test]
fn step_lines_off_the_grammar_are_named(rt: HostRuntime) -> Result<(), Fail> {
    let alloc = rt.alloc();
    let rows = [
        ("go 0 1 2\n", 4),
        ("xyz\n", 1),
        ("a", 2),
        ("ac\n", 3),
        ("love 1 1 2\n", 3),
        ("again 0 1 2\n", 7),
        ("kill 17 10 14\n", 7),
        ("stub 16 20 10\n", 12),
        ("lose 4294967296 1 2\n", 15),
        ("act 17 1 2\n", 6),
        ("go 4294967296 1 2\n", 13),
        ("act 1 1 4611686018427387904\n", 27),
        ("act 01 10 14\n", 5),
        ("%steps\n", 1),
    ];
    for (line, column) in rows {
        let input = format!(in alloc; "{FORM}%steps\n{line}")?;
        let left = replay(alloc, input.as_str(), &[], &[])?;
        let fault = format!(in alloc; "fault step 1 column {column}\n")?;
        assert_eq!(rt; left.code, 2, "{line}");
        assert_eq!(rt; left.text.as_slice(), fault.as_bytes(), "{line}");
    }
    Ok(())
}
