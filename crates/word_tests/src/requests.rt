//! Words that ask for a text about the program, the words of `page`, and what stands at its foot.

use crate::lines::words_of;
use c_tree::Mode;
use command_words::{Domain, Widening, WordsRefusal};
use fam_outer::{Dialect, Includes, NoMemory, Unknown};
use famlint_requests::{Analysis, Request, made_by, read_request};
use linear_atoms::Regions;
use std::alloc::Global;
use std::test::Fail;

/// The first line of a text, and the options that begin a line of it.
fn gist_of(alloc: Global, bytes: &[u8]) -> Result<String, NoMemory> {
    let mut gist = String::new(alloc);
    let text = str::from_utf8(bytes).unwrap_or("no UTF-8");
    for (number, line) in text.lines().enumerate() {
        if number == 0 {
            gist.push_str(line)?;
        }
        match line.strip_prefix("  --") {
            Some(rest) => {
                gist.push_str(" --")?;
                gist.push_str(rest.split(' ').next().unwrap_or(""))?;
            }
            None => {}
        }
    }
    Ok(gist)
}

/// The gist of the text that is asked for, if it is one.
fn told(alloc: Global, request: &Request) -> Result<String, NoMemory> {
    match request {
        Request::Guide(guide) => {
            let text = guide.text(alloc)?;
            gist_of(alloc, text.bytes())
        }
        _ => Ok(String::from_str(alloc, "work")?),
    }
}

/// What the words of a line ask for.
fn asked(alloc: Global, line: &str) -> Result<String, NoMemory> {
    let words = words_of(alloc, line)?;
    match read_request(alloc, words.as_slice()) {
        Ok(request) => told(alloc, &request),
        Err(WordsRefusal::Fault(_)) => Ok(String::from_str(alloc, "refused")?),
        Err(WordsRefusal::NoMemory) => Err(NoMemory),
    }
}

/// The gist of the text on all commands.
const ALL: &str =
    "usage: famlint COMMAND WORD.. [OPTION..] --help, --domain --delay --narrow --widening --unknown --includes --overflow --regions --steps --inputs";

/// The text on the program itself.
const VERSION: &str = "famlint, proved by rattle-kit-13f logic dac8208d650f15bf";

/// The same, as a line.
const VERSION_LINE: &str = "famlint, proved by rattle-kit-13f logic dac8208d650f15bf\n";

#[test]
fn texts_are_asked_for(rt: HostRuntime) -> Result<(), Fail> {
    let cases = [
        ("help", ALL),
        ("--help", ALL),
        ("-h", ALL),
        ("--version", VERSION),
        ("-V", VERSION),
        (
            "help plain",
            "famlint plain FILE --domain --delay --narrow --widening --includes --overflow",
        ),
        (
            "help project",
            "famlint project MODEL FILE SETTING.. --unknown --includes",
        ),
        (
            "help run",
            "famlint run MODEL FILE SETTING.. --unknown --includes --overflow --steps --inputs",
        ),
        (
            "help analyse",
            "famlint analyse MODEL FILE --domain --delay --narrow --widening --unknown --includes --overflow --regions",
        ),
        (
            "help page",
            "famlint page MODEL FILE --domain --delay --narrow --widening --unknown --includes --overflow --regions",
        ),
        (
            "help certify",
            "famlint certify MODEL FILE --delay --narrow --widening --unknown --includes --overflow --regions",
        ),
        (
            "help check",
            "famlint check MODEL FILE CERTIFICATE --unknown --includes",
        ),
        ("help features", "famlint features MODEL --unknown"),
        (
            "help generate",
            "famlint generate NUMBER --domain --delay --narrow --widening --overflow --regions",
        ),
        ("explain F12", "F12: A file is refused."),
        (
            "explain C5",
            "C5: A condition is refused, of a model (M7) or of a file (F8).",
        ),
        ("explain 4", "Status 4: the file is refused."),
        ("plain F", "work"),
        ("page M F", "work"),
        ("page --regions=merged M --domain octagon F", "work"),
        (
            "page M F --delay 1 --narrow=2 --widening thresholds --overflow=wrap --unknown refuse --includes=skip",
            "work",
        ),
        ("plain --overflow wrap F", "work"),
        ("plain --includes skip F", "work"),
        ("features M --unknown refuse", "work"),
        ("project M F --unknown=refuse --includes=skip", "work"),
    ];
    for (line, want) in cases {
        let text = asked(rt.alloc(), line)?;
        assert_eq!(rt; text.as_str(), want, "at {line}");
    }
    Ok(())
}

#[test]
fn other_words_are_refused(rt: HostRuntime) -> Result<(), Fail> {
    let cases = [
        "",
        "--help plain",
        "plain --help",
        "-h -h",
        "--help=plain",
        "-- help",
        "--help --",
        "help help",
        "help plain F",
        "help --domain",
        "help -h",
        "Help",
        "version",
        "-V 1",
        "explain",
        "explain F18",
        "explain f12",
        "explain 10",
        "explain 04",
        "explain F1 F2",
        "explain --steps",
        "page",
        "page M",
        "page M F SETTING",
        "page M F --steps 3",
        "page M F --inputs=1",
        "page M F --regions paths --regions merged",
        "page M F --html",
        "Page M F",
        "plain F --unknown refuse",
        "features M --includes skip",
        "generate 3 --unknown zero",
        "generate 3 --includes skip",
        "F1",
    ];
    for line in cases {
        let text = asked(rt.alloc(), line)?;
        assert_eq!(rt; text.as_str(), "refused", "at {line}");
    }
    Ok(())
}

#[test]
fn pages_say_by_what_they_were_made(rt: HostRuntime) -> Result<(), Fail> {
    let usual = Analysis {
        domain: Domain::Interval,
        delay: 0,
        narrow: 1,
        widening: Widening::Type,
        mode: Mode::Stop,
    };
    let other = Analysis {
        domain: Domain::Octagon,
        delay: 16,
        narrow: 8,
        widening: Widening::Thresholds,
        mode: Mode::Wrap,
    };
    let lax = Dialect {
        unknown: Unknown::Zero,
        includes: Includes::Assert,
    };
    let strict = Dialect {
        unknown: Unknown::Refuse,
        includes: Includes::Skip,
    };
    let cases = [
        (
            lax,
            usual,
            Regions::Paths,
            "options: --domain=interval --delay=0 --narrow=1 --widening=type --overflow=stop --regions=paths --unknown=zero --includes=assert\n",
        ),
        (
            strict,
            other,
            Regions::Merged,
            "options: --domain=octagon --delay=16 --narrow=8 --widening=thresholds --overflow=wrap --regions=merged --unknown=refuse --includes=skip\n",
        ),
    ];
    for (dialect, analysis, regions, want) in cases {
        let text = made_by(rt.alloc(), dialect, &analysis, regions)?;
        let mut expected = String::from_str(rt.alloc(), VERSION_LINE)?;
        expected.push_str(want)?;
        assert_eq!(rt; text.bytes(), expected.as_bytes(), "at {want}");
    }
    Ok(())
}
