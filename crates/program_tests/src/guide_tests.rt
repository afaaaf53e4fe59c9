//! Words that ask for a text about the program.

use std::test::Fail;
use test_runs::cases::USAGE;
use test_runs::running::ran_over;

const VERSION: &str = "famlint, proved by rattle-kit-13f logic dac8208d650f15bf\n";

const F17: &str =
    "F17: A file is refused.\nCause: the first declaration of the 17th variable before `main`, or of the 17th\nin it; at its name.\nWhat to do: cut the program into parts.\n";

const STATUS_8: &str =
    "Status 8: want of memory.\nOn the error stream: `want of memory`.\nWhat to do: more memory, or a smaller file.\n";

const FEATURES: &str =
    "famlint features MODEL\n\nWhat a model leaves open, over its valid configurations: whether a switch is\nfree, dead or always on, and the least and the greatest value of a number.\n\nExample: famlint features queue.json\n\nOptions, as --NAME=VALUE or --NAME VALUE, each at most once:\n  --unknown zero|refuse              what a name of a condition is that is no\n                                     feature: the number 0, or refused with C6;\n                                     without it zero\n";

#[test]
fn tells_texts(rt: HostRuntime) -> Result<(), Fail> {
    let rows = [
        ("--version", VERSION),
        ("-V", VERSION),
        ("explain F17", F17),
        ("explain 8", STATUS_8),
        ("help features", FEATURES),
    ];
    for (line, text) in rows {
        let ran = ran_over(rt.alloc(), line, &[])?;
        assert_eq!(rt; ran.status, 0, "at {line}");
        assert_eq!(rt; ran.out.as_slice(), text.as_bytes(), "at {line}");
        assert_eq!(rt; ran.err.as_slice(), b"".as_slice(), "at {line}");
    }
    Ok(())
}

/// The commands and options are the same text under each of the three words, which begins as told.
#[test]
fn tells_all_commands(rt: HostRuntime) -> Result<(), Fail> {
    let help = ran_over(rt.alloc(), "help", &[])?;
    assert!(rt;
        help.out
            .as_slice()
            .starts_with(b"usage: famlint COMMAND WORD.. [OPTION..]\n")
    );
    for line in ["--help", "-h"] {
        let ran = ran_over(rt.alloc(), line, &[])?;
        assert_eq!(rt; ran.status, 0, "at {line}");
        assert_eq!(rt; ran.out.as_slice(), help.out.as_slice(), "at {line}");
    }
    Ok(())
}

#[test]
fn other_words_are_as_ever(rt: HostRuntime) -> Result<(), Fail> {
    let lines = [
        "--help plain",
        "help frob",
        "help plain f",
        "explain",
        "explain F99",
        "explain f12",
        "-h -h",
        "version",
    ];
    for line in lines {
        let ran = ran_over(rt.alloc(), line, &[])?;
        assert_eq!(rt; ran.status, 2, "at {line}");
        assert_eq!(rt; ran.out.as_slice(), b"".as_slice(), "at {line}");
        assert_eq!(rt; ran.err.as_slice(), USAGE.as_bytes(), "at {line}");
    }
    Ok(())
}
