//! The lines of faults.
#![tactic(auto)]

ghost use Rattle.std.specs.Option.{option_copied};
ghost use Rattle.std.specs.Prelude.{◌≡◌, ◌++◌, string_bytes, IfOk};
ghost use Rattle.famlint_loads.specs.Faults as specs;

use certificate_format::CertificateFault;
use fam_outer::{ConditionFault, FileCode, NoMemory, Place, Text};
use feature_model::{ConfigFault, ModelFault};
use std::alloc::Global;

/// The code of a condition's fault.
fn condition_code(fault: ConditionFault) -> &'static str
    ensures { result.now ≡ specs.condition_code fault }
{
    match fault {
        ConditionFault::Syntax => "C1",
        ConditionFault::NonLinear => "C2",
        ConditionFault::TooLarge => "C3",
        ConditionFault::ReservedName => "C4",
        ConditionFault::TooDeep => "C5",
        ConditionFault::UnknownName => "C6",
        ConditionFault::DefinedName => "C7",
    }
}

/// A line that ends with a number.
fn numbered(alloc: Global, front: &str, number: u32) -> Result<Text, NoMemory>
    ensures { IfOk result (λ text. text ≡ specs.numbered front.now number) }
{
    let text = format!(in alloc; "{front}{number}\n")?;
    Ok(Text::from_vec(text.into_bytes()))
}

/// A line.
fn line(alloc: Global, text: &str) -> Result<Text, NoMemory>
    ensures { IfOk result (λ made. made ≡ text.now) }
{
    Text::from_bytes(alloc, text.as_bytes())
}

/// The line of a constraint's fault.
fn constraint_line(alloc: Global, number: u32, fault: ConditionFault) -> Result<Text, NoMemory>
    ensures { IfOk result (λ text. text ≡ specs.constraint_line number fault) }
{
    let code = condition_code(fault);
    let text = format!(in alloc; "model: M7 {code} at constraint {number}\n")?;
    Ok(Text::from_vec(text.into_bytes()))
}

/// The line of a model's fault.
pub fn model_line(alloc: Global, fault: ModelFault) -> Result<Text, NoMemory>
    ensures { IfOk result (λ text. text ≡ specs.model_line fault) }
{
    match fault {
        ModelFault::Json => line(alloc, "model: M1\n"),
        ModelFault::Shape => line(alloc, "model: M2\n"),
        ModelFault::Name(number) => numbered(alloc, "model: M3 at feature ", number),
        ModelFault::Twice(number) => numbered(alloc, "model: M4 at feature ", number),
        ModelFault::Range(number) => numbered(alloc, "model: M5 at feature ", number),
        ModelFault::TooMany => line(alloc, "model: M6\n"),
        ModelFault::Constraint(number, fault) => constraint_line(alloc, number, fault),
        ModelFault::TooLong => line(alloc, "model: M8\n"),
        ModelFault::Void => line(alloc, "model: M9\n"),
        ModelFault::TooManyTests => line(alloc, "model: M10\n"),
    }
}

/// A file's code, but for what it says of a condition.
fn file_code(code: &FileCode) -> &'static str
    ensures { result.now ≡ specs.file_code code.now }
{
    match code {
        FileCode::OpenComment => "F1",
        FileCode::Splice => "F2",
        FileCode::CommentAtDirective => "F3",
        FileCode::Directive => "F4",
        FileCode::NoIf => "F5",
        FileCode::NoEndif => "F6",
        FileCode::SecondElse => "F7",
        FileCode::Condition(_) => "F8",
        FileCode::TooManyTests => "F9",
        FileCode::StrayByte => "F10",
        FileCode::Literal => "F11",
        FileCode::Syntax => "F12",
        FileCode::Undeclared(_) => "F13",
        FileCode::Twice(_) => "F14",
        FileCode::FeatureInCode => "F15",
        FileCode::TooDeep => "F16",
        FileCode::TooManyVariables => "F17",
        FileCode::GroupInsideStatement => "F19",
        FileCode::TooLong => "F20",
        FileCode::GroupHere => "F21",
        FileCode::TooManyValueTests => "F22",
        FileCode::ChangedConstant => "F23",
        FileCode::TooManyConstants => "F24",
    }
}

/// Adds what stands behind a file's code: the code of a condition's fault, or nothing.
fn push_condition(text: &mut String, code: &FileCode) -> Result<(), NoMemory>
    ensures { IfOk result (λ _. string_bytes text.new
        ≡ string_bytes text.old ++ specs.condition_part code.now) }
{
    match code {
        FileCode::Condition(fault) => {
            let condition = condition_code(*fault);
            write!(text, " {condition}")?;
            Ok(())
        }
        _ => Ok(()),
    }
}

/// The line of a file's fault, but for its end.
fn file_front(alloc: Global, code: &FileCode, place: Place) -> Result<Vec<u8>, NoMemory>
    ensures { IfOk result (λ text. text.items ≡ specs.file_front code.now place) }
{
    let name = file_code(code);
    let Place { line, column } = place;
    let mut text = format!(in alloc; "file: {name}")?;
    push_condition(&mut text, code)?;
    write!(text, " at {line}:{column}")?;
    Ok(text.into_bytes())
}

/// The line of a file's fault.
pub fn file_line(
    alloc: Global,
    code: &FileCode,
    place: Place,
    example: Option<&Text>,
) -> Result<Text, NoMemory>
    ensures { IfOk result (λ text. text ≡ specs.file_line code.now place (option_copied example.entry)) }
{
    let mut text = file_front(alloc, code, place)?;
    if let Some(example) = example {
        text.extend_from_slice(b"; example ")?;
        text.extend_from_slice(example.bytes())?;
    }
    text.push(b'\n')?;
    Ok(Text::from_vec(text))
}

/// The line of a feature without a value.
fn missing_line(alloc: Global, name: &[u8]) -> Result<Text, NoMemory>
    ensures { IfOk result (λ text. text ≡ specs.missing_line name.now) }
{
    let mut text = Vec::from_slice(alloc, b"configuration: K2 ")?;
    text.extend_from_slice(name)?;
    text.push(b'\n')?;
    Ok(Text::from_vec(text))
}

/// The line of the fault of settings; the name is that of the feature without a value.
pub fn config_line(alloc: Global, fault: ConfigFault, name: &[u8]) -> Result<Text, NoMemory>
    ensures { IfOk result (λ text. text ≡ specs.config_line fault name.now) }
{
    match fault {
        ConfigFault::UnknownName(word) => numbered(alloc, "configuration: K1 at word ", word),
        ConfigFault::Missing(_) => missing_line(alloc, name),
        ConfigFault::Twice(word) => numbered(alloc, "configuration: K3 at word ", word),
        ConfigFault::OutOfRange(word) => numbered(alloc, "configuration: K4 at word ", word),
        ConfigFault::NotValid => line(alloc, "configuration: K5\n"),
    }
}

/// The line of a certificate's fault.
pub fn certificate_line(alloc: Global, fault: CertificateFault) -> Result<Text, NoMemory>
    ensures { IfOk result (λ text. text ≡ specs.certificate_line fault) }
{
    match fault {
        CertificateFault::TooLong => line(alloc, "certificate: E1\n"),
        CertificateFault::Header => line(alloc, "certificate: E2\n"),
        CertificateFault::Line(number) => numbered(alloc, "certificate: E3 at line ", number),
        CertificateFault::Test(number) => numbered(alloc, "certificate: E4 at line ", number),
    }
}
