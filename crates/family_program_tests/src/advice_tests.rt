//! `advise` and `features` over files in memory.

use std::alloc::Global;
use std::test::Fail;
use test_runs::cases::USAGE;
use test_runs::comparing::{compares, gives, two_files};

#[test]
fn what_models_leave_open(rt: HostRuntime) -> Result<(), Fail> {
    let alloc = rt.alloc();
    let rows = [
        ("features m0", 0, "", ""),
        ("features mc", 0, "A: free\nN: 0 to 7\n", ""),
        ("features mand", 0, "A: always\nN: 0 to 2\n", ""),
        ("features mnot", 0, "A: dead\n", ""),
        (
            "features queue.json",
            0,
            "LOG: free\nFAST: free\nRETRY: free\nSAFE: free\nBULK: free\nSIZE: 1 to 16\nLIMIT: 0 to 5\n",
            "",
        ),
        ("features void", 3, "", "model: M9\n"),
        ("features m3", 3, "", "model: M3 at feature 2\n"),
        ("features nowhere", 6, "", "read fault: model\n"),
        ("features", 2, "", USAGE),
        ("features mc f10", 2, "", USAGE),
        ("features mc --delay 1", 2, "", USAGE),
        ("features mc --inputs 1", 2, "", USAGE),
        ("features mc --regions paths", 2, "", USAGE),
    ];
    for (line, status, output, told) in rows {
        gives(alloc, line, Vec::new(alloc), (status, output, told))?;
    }
    Ok(())
}

#[test]
fn nearest_configurations(rt: HostRuntime) -> Result<(), Fail> {
    let alloc = rt.alloc();
    let rows = [
        (
            "advise queue.json queue.c FAST RETRY SIZE=4 LIMIT=2",
            0,
            "advice: LOG=0 FAST=0 RETRY=1 SAFE=0 BULK=0 SIZE=4 LIMIT=2; changed 1\n",
            "",
        ),
        (
            "advise queue.json queue.c SIZE=4 LIMIT=2",
            0,
            "advice: LOG=0 FAST=0 RETRY=0 SAFE=0 BULK=0 SIZE=4 LIMIT=2; changed 0\n",
            "",
        ),
        // without relations `LOG` may overflow, and not with them
        (
            "advise queue.json queue.c LOG SIZE=4 LIMIT=2",
            0,
            "advice: LOG=0 FAST=0 RETRY=0 SAFE=0 BULK=0 SIZE=4 LIMIT=2; changed 1\n",
            "",
        ),
        (
            "advise --domain octagon queue.json queue.c LOG SIZE=4 LIMIT=2",
            0,
            "advice: LOG=1 FAST=0 RETRY=0 SAFE=0 BULK=0 SIZE=4 LIMIT=2; changed 0\n",
            "",
        ),
        ("advise m0 f41", 1, "advice: none\n", ""),
        ("advise m0 f1", 0, "advice: -; changed 0\n", ""),
        // an alarm where `A` is off
        ("advise mc f10 N=5", 0, "advice: A=1 N=5; changed 1\n", ""),
        (
            "advise mc f10 A N=8",
            5,
            "",
            "configuration: K4 at word 2\n",
        ),
        ("advise mc f10 A", 5, "", "configuration: K2 N\n"),
        ("advise void f10", 3, "", "model: M9\n"),
        ("advise ma f13", 4, "", "file: F6 at 2:1\n"),
        ("advise ma nowhere", 6, "", "read fault: file\n"),
        ("advise ma", 2, "", USAGE),
        ("advise ma f1 --steps 3", 2, "", USAGE),
        ("advise ma f1 --regions merged", 2, "", USAGE),
    ];
    for (line, status, output, told) in rows {
        gives(alloc, line, Vec::new(alloc), (status, output, told))?;
    }
    Ok(())
}

/// A model of thirty switches, a file with an alarm where each fifth is on, and the words with all switches on.
fn thirty(alloc: Global) -> Result<(String, String, String), Fail> {
    let mut model = String::from_str(alloc, "{\"features\":[{\"name\":\"F1\"}")?;
    let mut file = String::from_str(alloc, "int main(void) {\n")?;
    let mut words = String::from_str(alloc, "advise m f F1")?;
    for number in 2..31 {
        let feature = format!(in alloc; ",{{\"name\":\"F{number}\"}}")?;
        model.push_str(feature.as_str())?;
        let word = format!(in alloc; " F{number}")?;
        words.push_str(word.as_str())?;
        if number % 5 == 0 {
            let group = format!(in alloc; "#ifdef F{number}\nassert(0);\n#endif\n")?;
            file.push_str(group.as_str())?;
        }
    }
    model.push_str("]}\n")?;
    file.push_str("}\n")?;
    Ok((model, file, words))
}

#[test]
fn thirty_switches_with_alarms_on_six(rt: HostRuntime) -> Result<(), Fail> {
    let alloc = rt.alloc();
    let (model, file, line) = thirty(alloc)?;
    let contents = two_files(model.as_bytes(), file.as_bytes());
    let told =
        b"advice: F1=1 F2=1 F3=1 F4=1 F5=0 F6=1 F7=1 F8=1 F9=1 F10=0 F11=1 F12=1 F13=1 F14=1 F15=0 F16=1 F17=1 F18=1 F19=1 F20=0 F21=1 F22=1 F23=1 F24=1 F25=0 F26=1 F27=1 F28=1 F29=1 F30=0; changed 6\n".as_slice();
    Ok(compares(alloc, line.as_str(), &contents, (0, told, b""))?)
}

/// A model of 24 switches, a file that counts those that are on and has an alarm where more than twelve are, and the words with
/// all switches on.
fn counted(alloc: Global) -> Result<(String, String, String), Fail> {
    let mut model = String::from_str(alloc, "{\"features\":[{\"name\":\"F1\"}")?;
    let mut file = String::from_str(
        alloc,
        "int x = 0;\nint main(void) {\n#ifdef F1\nx++;\n#endif\n",
    )?;
    let mut words = String::from_str(alloc, "advise m f F1")?;
    for number in 2..25 {
        let feature = format!(in alloc; ",{{\"name\":\"F{number}\"}}")?;
        model.push_str(feature.as_str())?;
        let word = format!(in alloc; " F{number}")?;
        words.push_str(word.as_str())?;
        let group = format!(in alloc; "#ifdef F{number}\nx++;\n#endif\n")?;
        file.push_str(group.as_str())?;
    }
    model.push_str("]}\n")?;
    file.push_str("assert(x <= 12);\n}\n")?;
    Ok((model, file, words))
}

#[test]
fn half_of_the_switches_that_count_change(rt: HostRuntime) -> Result<(), Fail> {
    let alloc = rt.alloc();
    let (model, file, line) = counted(alloc)?;
    let contents = two_files(model.as_bytes(), file.as_bytes());
    let told =
        b"advice: F1=0 F2=0 F3=0 F4=0 F5=0 F6=0 F7=0 F8=0 F9=0 F10=0 F11=0 F12=0 F13=1 F14=1 F15=1 F16=1 F17=1 F18=1 F19=1 F20=1 F21=1 F22=1 F23=1 F24=1; changed 12\n".as_slice();
    Ok(compares(alloc, line.as_str(), &contents, (0, told, b""))?)
}

/// A model of 32 numbers, which take more tests than trees have, and the words with each number 3.
fn numbers(alloc: Global) -> Result<(String, String), Fail> {
    let mut model = String::from_str(
        alloc,
        "{\"features\":[{\"name\":\"N1\",\"min\":0,\"max\":7}",
    )?;
    let mut words = String::from_str(alloc, "advise m f N1=3")?;
    for number in 2..33 {
        let feature = format!(in alloc; ",{{\"name\":\"N{number}\",\"min\":0,\"max\":7}}")?;
        model.push_str(feature.as_str())?;
        let word = format!(in alloc; " N{number}=3")?;
        words.push_str(word.as_str())?;
    }
    model.push_str("]}\n")?;
    Ok((model, words))
}

#[test]
fn one_of_many_numbers_changes(rt: HostRuntime) -> Result<(), Fail> {
    let alloc = rt.alloc();
    let (model, line) = numbers(alloc)?;
    let file = b"int main(void) {\n#if N5 < 4\nassert(0);\n#endif\n}\n".as_slice();
    let contents = two_files(model.as_bytes(), file);
    let told =
        b"advice: N1=3 N2=3 N3=3 N4=3 N5=4 N6=3 N7=3 N8=3 N9=3 N10=3 N11=3 N12=3 N13=3 N14=3 N15=3 N16=3 N17=3 N18=3 N19=3 N20=3 N21=3 N22=3 N23=3 N24=3 N25=3 N26=3 N27=3 N28=3 N29=3 N30=3 N31=3 N32=3; changed 1\n".as_slice();
    Ok(compares(alloc, line.as_str(), &contents, (0, told, b""))?)
}

#[test]
fn a_model_that_is_not_loaded(rt: HostRuntime) -> Result<(), Fail> {
    let alloc = rt.alloc();
    let failing = vec![in alloc; 1u64]?;
    Ok(gives(
        alloc,
        "features mc",
        failing,
        (6, "", "read fault: model\n"),
    )?)
}
