//! Models and settings, with ample memory.

ghost use Rattle.std.specs.Prelude.{◌<◌, length, IfOk};
ghost use Rattle.cpp_conditions.specs.Naming.{AreFeatures};
ghost use Rattle.cpp_conditions.specs.Validity.{AreFit};

use cpp_conditions::{Condition, Model};
use fam_outer::{ConditionFault, Unknown};
use feature_model::{
    ConfigFault, ConfigRefusal, ModelFault, ModelRefusal, read_config, read_model,
};
use std::alloc::Global;
use std::test::Fail;

/// The fault of bytes, or None where they are a model.
fn fault(alloc: Global, unknown: Unknown, bytes: &[u8]) -> Result<Option<ModelFault>, Fail> {
    match read_model(alloc, unknown, bytes) {
        Ok(_) => Ok(None),
        Err(ModelRefusal::Fault(fault)) => Ok(Some(fault)),
        Err(ModelRefusal::NoMemory) => Err("want of memory")?,
    }
}

/// A model that is read from bytes.
fn model(alloc: Global, bytes: &[u8]) -> Result<Model, Fail>
    ensures features { IfOk result (λ made. AreFeatures made.features) }
    ensures fit { IfOk result (λ made. AreFit (length made.features) made.constraints) }
{
    match read_model(alloc, Unknown::Zero, bytes) {
        Ok(model) => Ok(model),
        Err(_) => Err("no model")?,
    }
}

#[test]
fn models_are_refused(rt: HostRuntime) -> Result<(), Fail> {
    let alloc = rt.alloc();
    let cases: [(&[u8], ModelFault); 36] = [
        (b"{", ModelFault::Json),
        (b"", ModelFault::Json),
        (b"{\"features\":[{\"name\":\"\xff\"}]}", ModelFault::Json),
        (
            b"{\"features\":[{\"name\":\"N\",\"min\":0,\"max\":1e400}]}",
            ModelFault::Json,
        ),
        (b"[]", ModelFault::Shape),
        (b"{}", ModelFault::Shape),
        (b"{\"features\":{}}", ModelFault::Shape),
        (
            b"{\"features\":[],\"constraints\":\"1\"}",
            ModelFault::Shape,
        ),
        (b"{\"features\":[],\"constraints\":[1]}", ModelFault::Shape),
        (b"{\"features\":[],\"name\":\"A\"}", ModelFault::Shape),
        (b"{\"features\":[\"A\"]}", ModelFault::Shape),
        (b"{\"features\":[{}]}", ModelFault::Shape),
        (b"{\"features\":[{\"name\":1}]}", ModelFault::Shape),
        (
            b"{\"features\":[{\"name\":\"A\",\"type\":\"B\"}]}",
            ModelFault::Shape,
        ),
        (
            b"{\"features\":[{\"name\":\"N\",\"min\":2}]}",
            ModelFault::Shape,
        ),
        (
            b"{\"features\":[{\"name\":\"N\",\"max\":2}]}",
            ModelFault::Shape,
        ),
        (
            b"{\"features\":[{\"name\":\"N\",\"min\":0,\"max\":1.0}]}",
            ModelFault::Shape,
        ),
        (
            b"{\"features\":[{\"name\":\"N\",\"min\":0,\"max\":1e2}]}",
            ModelFault::Shape,
        ),
        (
            b"{\"features\":[{\"name\":\"N\",\"min\":-0,\"max\":1}]}",
            ModelFault::Shape,
        ),
        (
            b"{\"features\":[{\"name\":\"N\",\"min\":0,\"max\":9223372036854775808}]}",
            ModelFault::Shape,
        ),
        (b"{\"features\":[{\"name\":\"int\"}]}", ModelFault::Name(1)),
        (
            b"{\"features\":[{\"name\":\"A\"},{\"name\":\"_Imaginary\"}]}",
            ModelFault::Name(2),
        ),
        (
            b"{\"features\":[{\"name\":\"NDEBUG\"}]}",
            ModelFault::Name(1),
        ),
        (b"{\"features\":[{\"name\":\"\"}]}", ModelFault::Name(1)),
        (b"{\"features\":[{\"name\":\"1A\"}]}", ModelFault::Name(1)),
        (b"{\"features\":[{\"name\":\"A-B\"}]}", ModelFault::Name(1)),
        (b"{\"features\":[{\"name\":\"__A\"}]}", ModelFault::Name(1)),
        (
            b"{\"features\":[{\"name\":\"A\"},{\"name\":\"A\"}]}",
            ModelFault::Twice(2),
        ),
        (
            b"{\"features\":[{\"name\":\"A\"},{\"name\":\"B\"},{\"name\":\"A\",\"min\":2,\"max\":1}]}",
            ModelFault::Twice(3),
        ),
        (
            b"{\"features\":[{\"name\":\"N\",\"min\":2,\"max\":1}]}",
            ModelFault::Range(1),
        ),
        (
            b"{\"features\":[{\"name\":\"N\",\"min\":-1048577,\"max\":1}]}",
            ModelFault::Range(1),
        ),
        (
            b"{\"features\":[{\"name\":\"A\"},{\"name\":\"N\",\"min\":0,\"max\":1048577}]}",
            ModelFault::Range(2),
        ),
        (
            b"{\"features\":[],\"constraints\":[\"1 +\"]}",
            ModelFault::Constraint(1, ConditionFault::Syntax),
        ),
        (
            b"{\"features\":[{\"name\":\"A\"}],\"constraints\":[\"A\",\"A * A\",\"__A\"]}",
            ModelFault::Constraint(2, ConditionFault::NonLinear),
        ),
        (
            b"{\"features\":[],\"constraints\":[\"0\"]}",
            ModelFault::Void,
        ),
        (
            b"{\"features\":[{\"name\":\"A\"}],\"constraints\":[\"A\",\"!A\"]}",
            ModelFault::Void,
        ),
    ];
    for (bytes, expected) in cases {
        assert_eq!(rt; fault(alloc, Unknown::Zero, bytes)?, Some(expected));
    }
    Ok(())
}

#[test]
fn models_are_read(rt: HostRuntime) -> Result<(), Fail> {
    let alloc = rt.alloc();
    let bytes =
        b"\n{\"constraints\":[\"A || N >= 3\"],\"features\":[{\"name\":\"B\",\"name\":\"A\"},{\"max\":7,\"name\":\"N\",\"min\":-1048576}]}";
    let model = model(alloc, bytes)?;
    match model.features.items() {
        [switch, number] => {
            assert!(rt; switch.name.bytes() == b"A".as_slice() && switch.boolean);
            assert!(rt; (switch.low, switch.high) == (0, 1));
            assert!(rt; number.name.bytes() == b"N".as_slice() && !number.boolean);
            assert!(rt; (number.low, number.high) == (-1_048_576, 7));
        }
        _ => panic!(rt; "two features are wanted"),
    }
    assert!(rt; matches!(model.constraints.items(), [Condition::Or(_, _)]));
    Ok(())
}

/// So many copies of a text between two others.
fn repeated(
    alloc: Global,
    before: &str,
    text: &str,
    count: u32,
    behind: &str,
) -> Result<String, Fail> {
    let mut bytes = String::from_str(alloc, before)?;
    for _ in 0..count {
        bytes.push_str(text)?;
    }
    bytes.push_str(behind)?;
    Ok(bytes)
}

#[test]
fn long_and_deep_models_are_refused(rt: HostRuntime) -> Result<(), Fail> {
    let alloc = rt.alloc();
    let spaces = repeated(alloc, "", " ", 65_522, "{\"features\":[]}")?;
    assert_eq!(rt;
        fault(alloc, Unknown::Zero, spaces.as_bytes())?,
        Some(ModelFault::TooLong)
    );
    let spaces = repeated(alloc, "", " ", 65_521, "{\"features\":[]}")?;
    assert_eq!(rt; fault(alloc, Unknown::Zero, spaces.as_bytes())?, None);
    let open = repeated(alloc, "", "[", 200, "")?;
    let deep = repeated(alloc, open.as_str(), "]", 200, "")?;
    assert_eq!(rt;
        fault(alloc, Unknown::Zero, deep.as_bytes())?,
        Some(ModelFault::Json)
    );
    Ok(())
}

/// A model with the features `F1`, `F2` and so on.
fn switches(alloc: Global, count: u32) -> Result<String, Fail> {
    let mut text = String::from_str(alloc, "{\"features\":[{\"name\":\"F1\"}")?;
    for before in 1..count {
        let number = before + 1;
        let feature = format!(in alloc; ",{{\"name\":\"F{number}\"}}")?;
        text.push_str(feature.as_str())?;
    }
    text.push_str("]}")?;
    Ok(text)
}

/// A model of `N` from 0 to 100 with so many constraints, of so many distinct tests.
fn tests(alloc: Global, count: u32, distinct: u32) -> Result<String, Fail>
    requires { 0 < distinct }
{
    let mut text = String::from_str(
        alloc,
        "{\"features\":[{\"name\":\"N\",\"min\":0,\"max\":100}],\"constraints\":[\"1\"",
    )?;
    for number in 0..count {
        let bound = number % distinct + 1;
        let constraint = format!(in alloc; ",\"N >= {bound}\"")?;
        text.push_str(constraint.as_str())?;
    }
    text.push_str("]}")?;
    Ok(text)
}

#[test]
fn models_have_limits(rt: HostRuntime) -> Result<(), Fail> {
    let alloc = rt.alloc();
    let cases = [
        (switches(alloc, 32)?, None),
        (switches(alloc, 33)?, Some(ModelFault::TooMany)),
        (tests(alloc, 255, 64)?, None),
        (tests(alloc, 255, 65)?, Some(ModelFault::TooManyTests)),
        (tests(alloc, 256, 1)?, Some(ModelFault::TooMany)),
    ];
    for (text, expected) in &cases {
        assert_eq!(rt; fault(alloc, Unknown::Zero, text.as_bytes())?, *expected);
    }
    Ok(())
}

/// A model of 32 features from -2^20 to 2^20, with these constraints.
fn wide(alloc: Global, constraints: &str) -> Result<String, Fail> {
    let mut text = String::from_str(
        alloc,
        "{\"features\":[{\"name\":\"N1\",\"min\":-1048576,\"max\":1048576}",
    )?;
    for before in 1..32u32 {
        let number = before + 1;
        let feature = format!(in alloc;
            ",{{\"name\":\"N{number}\",\"min\":-1048576,\"max\":1048576}}"
        )?;
        text.push_str(feature.as_str())?;
    }
    text.push_str("],\"constraints\":")?;
    text.push_str(constraints)?;
    text.push_str("}")?;
    Ok(text)
}

#[test]
fn wide_models_are_judged_by_bounds(rt: HostRuntime) -> Result<(), Fail> {
    let alloc = rt.alloc();
    let cases = [
        ("[\"N31 >= 5\",\"N31 <= 3\"]", Some(ModelFault::Void)),
        (
            "[\"N31 + N32 >= 5\",\"N31 + N32 <= 3\"]",
            Some(ModelFault::Void),
        ),
        (
            "[\"B || N1 < N2\",\"N2 < N1 && 1\"]",
            Some(ModelFault::Void),
        ),
        ("[\"N1 + N2 + N32 >= 3145728\"]", None),
        (
            "[\"N1 >= N2 + 600000\",\"N2 >= N3 + 600000\",\"N3 >= N4 + 600000\"]",
            None,
        ),
        (
            "[\"N1 >= N2 + 600000\",\"N2 >= N3 + 600000\",\"N3 >= N4 + 600000\",\"N4 >= N5 + 600000\"]",
            Some(ModelFault::Void),
        ),
    ];
    for (constraints, expected) in cases {
        let text = wide(alloc, constraints)?;
        assert_eq!(rt; fault(alloc, Unknown::Zero, text.as_bytes())?, expected);
    }
    Ok(())
}

/// The values that words give `A` and `N`, or the fault.
fn configured(
    alloc: Global,
    model: &Model,
    words: &[&str],
) -> Result<Result<(i64, i64), ConfigFault>, Fail>
    requires features { AreFeatures model.now.features }
    requires fit { AreFit (length model.now.features) model.now.constraints }
{
    let mut settings = Vec::new(alloc);
    for word in words {
        settings.push(String::from_str(alloc, *word)?)?;
    }
    match read_config(alloc, model, &settings) {
        Ok(config) => match config.values.items() {
            [switch, number] => Ok(Ok((*switch, *number))),
            _ => Err("two values are wanted")?,
        },
        Err(ConfigRefusal::Fault(fault)) => Ok(Err(fault)),
        Err(ConfigRefusal::NoMemory) => Err("want of memory")?,
    }
}

/// The model of `A` and `N`, from -2 to 7, of which `A` is on or `N` is at least 3.
fn pair(alloc: Global) -> Result<Model, Fail>
    ensures features { IfOk result (λ made. AreFeatures made.features) }
    ensures fit { IfOk result (λ made. AreFit (length made.features) made.constraints) }
{
    model(
        alloc,
        b"{\"features\":[{\"name\":\"A\"},{\"name\":\"N\",\"min\":-2,\"max\":7}],\"constraints\":[\"A || N >= 3\"]}",
    )
}

#[test]
fn settings_are_read(rt: HostRuntime) -> Result<(), Fail> {
    let alloc = rt.alloc();
    let model = pair(alloc)?;
    let cases: [(&[&str], (i64, i64)); 5] = [
        (&["A", "N=0"], (1, 0)),
        (&["N=7", "A=0"], (0, 7)),
        (&["N=3"], (0, 3)),
        (&["A=1", "N=-2"], (1, -2)),
        (&["N", "A"], (1, 1)),
    ];
    for (words, values) in cases {
        assert_eq!(rt; configured(alloc, &model, words)?, Ok(values));
    }
    Ok(())
}

#[test]
fn settings_are_refused(rt: HostRuntime) -> Result<(), Fail> {
    let alloc = rt.alloc();
    let model = pair(alloc)?;
    let cases: [(&[&str], ConfigFault); 18] = [
        (&["A=1", "A=1", "N=0"], ConfigFault::Twice(2)),
        (&["A=1", "A=9"], ConfigFault::Twice(2)),
        (&["A=1", "N=8"], ConfigFault::OutOfRange(2)),
        (&["N=-3"], ConfigFault::OutOfRange(1)),
        (&["A=2"], ConfigFault::OutOfRange(1)),
        (&["N="], ConfigFault::OutOfRange(1)),
        (&["N=03"], ConfigFault::OutOfRange(1)),
        (&["N=-0"], ConfigFault::OutOfRange(1)),
        (&["N=+3"], ConfigFault::OutOfRange(1)),
        (&["N=3=3"], ConfigFault::OutOfRange(1)),
        (&["N=99999999999999999999"], ConfigFault::OutOfRange(1)),
        (&["A=1"], ConfigFault::Missing(2)),
        (&[], ConfigFault::Missing(2)),
        (&["A=0", "N=0"], ConfigFault::NotValid),
        (&["N=0"], ConfigFault::NotValid),
        (&["B=1"], ConfigFault::UnknownName(1)),
        (&["A", "=1", "A"], ConfigFault::UnknownName(2)),
        (&["A=1", "n=8", "N=8"], ConfigFault::UnknownName(2)),
    ];
    for (words, fault) in cases {
        assert_eq!(rt; configured(alloc, &model, words)?, Err(fault));
    }
    Ok(())
}

#[test]
fn unknown_names_refuse_constraints(rt: HostRuntime) -> Result<(), Fail> {
    let alloc = rt.alloc();
    let model = b"{\"features\":[{\"name\":\"A\"}],\"constraints\":[\"A||!A\",\"defined(B)\"]}";
    let refused = ModelFault::Constraint(2, ConditionFault::UnknownName);
    assert_eq!(rt; fault(alloc, Unknown::Refuse, model)?, Some(refused));
    assert_eq!(rt; fault(alloc, Unknown::Zero, model)?, Some(ModelFault::Void));
    let model = b"{\"features\":[{\"name\":\"A\"}],\"constraints\":[\"A||!A\",\"!defined(B)\"]}";
    assert_eq!(rt; fault(alloc, Unknown::Refuse, model)?, Some(refused));
    assert_eq!(rt; fault(alloc, Unknown::Zero, model)?, None);
    Ok(())
}
