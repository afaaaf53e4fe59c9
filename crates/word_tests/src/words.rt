//! Words and what they say, made by hand.

use crate::lines::words_of;
use command_words::{Arguments, Chosen, Given, WordsRefusal, read_words};
use fam_outer::NoMemory;
use std::alloc::Global;
use std::test::Fail;

/// Adds a name where it is given.
fn add_given(text: &mut String, is_given: bool, name: &str) -> Result<(), NoMemory> {
    if is_given {
        write!(text, " {name}")?;
    }
    Ok(())
}

/// Which options are given.
fn write_given(text: &mut String, given: &Given) -> Result<(), NoMemory> {
    add_given(text, given.domain, "domain")?;
    add_given(text, given.delay, "delay")?;
    add_given(text, given.narrow, "narrow")?;
    add_given(text, given.widening, "widening")?;
    add_given(text, given.overflow, "overflow")?;
    add_given(text, given.regions, "regions")?;
    add_given(text, given.unknown, "unknown")?;
    add_given(text, given.includes, "includes")?;
    add_given(text, given.steps, "steps")?;
    add_given(text, given.inputs, "inputs")
}

/// What the words say, as a line: the positional words, the settings, the inputs, and the options that are given.
fn line_of(alloc: Global, found: &Arguments) -> Result<String, NoMemory> {
    let mut text = String::new(alloc);
    for word in found.positional.items() {
        let word = word.as_str();
        write!(text, "{word} ")?;
    }
    let Chosen {
        domain,
        delay,
        narrow,
        widening,
        overflow,
        regions,
        unknown,
        includes,
        steps,
    } = found.settings.chosen;
    write!(
        text,
        "| {domain:?} {delay} {narrow} {widening:?} {overflow:?} {regions:?} {unknown:?} {includes:?} {steps} |"
    )?;
    for input in found.settings.inputs.items() {
        write!(text, " {input}")?;
    }
    text.push_str(" |")?;
    write_given(&mut text, &found.given)?;
    Ok(text)
}

/// What the words of a line say.
fn told(alloc: Global, line: &str) -> Result<String, NoMemory> {
    let words = words_of(alloc, line)?;
    match read_words(alloc, words.as_slice()) {
        Ok(found) => line_of(alloc, &found),
        Err(WordsRefusal::Fault(_)) => Ok(String::from_str(alloc, "refused")?),
        Err(WordsRefusal::NoMemory) => Err(NoMemory),
    }
}

#[test]
fn words_are_read(rt: HostRuntime) -> Result<(), Fail> {
    let cases = [
        ("", "| Interval 0 1 Type Stop Paths Zero Assert 1000 | |"),
        (
            "plain F",
            "plain F | Interval 0 1 Type Stop Paths Zero Assert 1000 | |",
        ),
        (
            "plain F --delay=16",
            "plain F | Interval 16 1 Type Stop Paths Zero Assert 1000 | | delay",
        ),
        (
            "--delay 0 plain F",
            "plain F | Interval 0 1 Type Stop Paths Zero Assert 1000 | | delay",
        ),
        (
            "plain --narrow 8 F --domain=octagon",
            "plain F | Octagon 0 8 Type Stop Paths Zero Assert 1000 | | domain narrow",
        ),
        (
            "--domain stride --overflow wrap x --steps 1000000 --inputs 2147483647,0",
            "x | Stride 0 1 Type Wrap Paths Zero Assert 1000000 | 2147483647 0 | domain overflow steps inputs",
        ),
        (
            "invariants M --domain=sharp F",
            "invariants M F | Sharp 0 1 Type Stop Paths Zero Assert 1000 | | domain",
        ),
        (
            "--domain=interval --overflow=stop --narrow=0 --steps=0",
            "| Interval 0 0 Type Stop Paths Zero Assert 0 | | domain narrow overflow steps",
        ),
        (
            "run --inputs=-5,3,-2147483648",
            "run | Interval 0 1 Type Stop Paths Zero Assert 1000 | -5 3 -2147483648 | inputs",
        ),
        (
            "analyse M F --regions merged",
            "analyse M F | Interval 0 1 Type Stop Merged Zero Assert 1000 | | regions",
        ),
        (
            "analyse --regions=merged M F",
            "analyse M F | Interval 0 1 Type Stop Merged Zero Assert 1000 | | regions",
        ),
        (
            "--regions=paths --steps 3 x",
            "x | Interval 0 1 Type Stop Paths Zero Assert 3 | | regions steps",
        ),
        (
            "plain F --widening thresholds",
            "plain F | Interval 0 1 Thresholds Stop Paths Zero Assert 1000 | | widening",
        ),
        (
            "--widening=type plain --narrow=2 F",
            "plain F | Interval 0 2 Type Stop Paths Zero Assert 1000 | | narrow widening",
        ),
        (
            "--inputs 1 --steps 2 --regions merged --overflow wrap --widening thresholds --narrow 3 --delay 4 --domain octagon",
            "| Octagon 4 3 Thresholds Wrap Merged Zero Assert 2 | 1 | domain delay narrow widening overflow regions steps inputs",
        ),
        (
            "analyse M F --unknown refuse --includes=skip",
            "analyse M F | Interval 0 1 Type Stop Paths Refuse Skip 1000 | | unknown includes",
        ),
        (
            "--includes assert --unknown=zero x --steps 3",
            "x | Interval 0 1 Type Stop Paths Zero Assert 3 | | unknown includes steps",
        ),
        (
            "-- --widening thresholds",
            "--widening thresholds | Interval 0 1 Type Stop Paths Zero Assert 1000 | |",
        ),
        (
            "-- --regions merged",
            "--regions merged | Interval 0 1 Type Stop Paths Zero Assert 1000 | |",
        ),
        (
            "plain -",
            "plain - | Interval 0 1 Type Stop Paths Zero Assert 1000 | |",
        ),
        (
            "-- --delay -x",
            "--delay -x | Interval 0 1 Type Stop Paths Zero Assert 1000 | |",
        ),
        (
            "a -- b -- c",
            "a b -- c | Interval 0 1 Type Stop Paths Zero Assert 1000 | |",
        ),
        (
            "plain -- F --narrow 0",
            "plain F --narrow 0 | Interval 0 1 Type Stop Paths Zero Assert 1000 | |",
        ),
        (
            "--narrow 0 -- plain F",
            "plain F | Interval 0 0 Type Stop Paths Zero Assert 1000 | | narrow",
        ),
    ];
    for (line, want) in cases {
        let text = told(rt.alloc(), line)?;
        assert_eq!(rt; text.as_str(), want, "at {line}");
    }
    Ok(())
}

#[test]
fn words_are_refused(rt: HostRuntime) -> Result<(), Fail> {
    let lines = r"
F --narrow 0 --narrow 0
--narrow=0 --narrow=1
--delay
F --narrow
--delay -1
--delay -
--delay --
--inputs -5
--delay --narrow 1
--width 3
--Delay 3
--del 3
--=3
-d 3
-delay=3
--help
--version
-h
--delay=17
--delay 17
--delay 07
--delay=00
--delay=+1
--delay=
--delay=1=2
--delay=x
--narrow 9
--steps 1000001
--steps=18446744073709551616
--domain=intervals
--domain=Octagon
--domain=sharper
--domain=
--overflow trap
--widening type --widening type
--widening=thresholds --widening=type
F --widening
--widening --narrow 1
--widening=
--widening threshold
--widening=Type
--widening=8
--widen thresholds
--regions paths --regions paths
--regions=merged --regions=paths
--regions
--regions --narrow 1
--regions=
--regions merge
--regions=Merged
--regions=paths,merged
--region merged
--unknown zero --unknown zero
--unknown
--unknown --narrow 1
--unknown=
--unknown Refuse
--unknown 0
--includes skip --includes=skip
--includes
--includes=
--includes skipped
--include skip
--inputs=
--inputs=-0
--inputs=01
--inputs=+1
--inputs=1,,2
--inputs=1,
--inputs=--1
--inputs=2147483648
--inputs=-2147483649
--inputs=99999999999999999999
";
    for line in lines.lines().skip(1) {
        let text = told(rt.alloc(), line)?;
        assert_eq!(rt; text.as_str(), "refused", "at {line}");
    }
    Ok(())
}
