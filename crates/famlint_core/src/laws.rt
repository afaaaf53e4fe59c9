//! Laws of the program: each function does nothing, and its contract is the law.
#![tactic(auto)]

ghost use Rattle.std.specs.Prelude.{◌≡◌, ◌≤◌, ℕ, List, Result};
ghost use Rattle.fam_outer.specs.declared.dialect.Dialect.{Dialect};
ghost use Rattle.fam_outer.specs.declared.dialect.Includes.{Includes};
ghost use Rattle.fam_outer.specs.declared.dialect.Unknown.{Unknown};
ghost use Rattle.linear_atoms.specs.declared.regions.Regions.{Regions};
ghost use Rattle.famlint_requests.specs.declared.request.Analysis.{Analysis};
ghost use Rattle.famlint_requests.specs.declared.request.FamilyTask.{FamilyTask};
ghost use Rattle.famlint_requests.specs.declared.request.Request.{Request};
ghost use Rattle.famlint_requests.specs.declared.request.VariantTask.{VariantTask};
ghost use Rattle.famlint_loads.specs.declared.fault.Done.{Done};
ghost use Rattle.famlint_loads.specs.declared.fault.Fault.{Fault};
ghost use Rattle.famlint_checks.specs.Checked.{AnswersCheck};
ghost use Rattle.famlint_families.specs.FamilyAnswers.{AnswersAdvice, AnswersFamily, AnswersFeatures, AnswersGenerate, AnswersPage};
ghost use Rattle.famlint_programs.specs.ProgramAnswers.{AnswersPlain, AnswersVariant};
ghost use Rattle.famlint_loads.specs.Contents.{Contents};
ghost use Rattle.famlint_core.specs.Answers.{AsksOfCertified, IsAccepted, IsRead};
ghost use Rattle.famlint_core.specs.Certified.{IsWrittenByCertify, IsYes};
ghost use Rattle.famlint_core.specs.Theorem.{QuietFamiliesAreSafe, ReportsTellEachStop, FamiliesAreRead, PagesTellEachStop};
ghost use Rattle.famlint_core.specs.Theorem.{QuietProgramsAreSafe};
ghost use Rattle.famlint_core.specs.Theorem.{ProgramsAreRead, CheckedCertificatesListEachStop, RefusedCertificatesDoNotHold};
ghost use Rattle.famlint_core.specs.Theorem.{AdviceIsSafe, ReportsTellOneList, RegionsAreConditions};

use advice_laws::{advice_is_one, uses_are_one};
use c_parser::laws::{reads_at_most_once, reads_something};
use c_parser::variants::{families_are_read_once, variants_are_projections};
use certificate_laws::laws::{
    certificate_texts_have_one_reading, families_are_of_files, written_analyses_are_accepted,
    written_analyses_are_spelled,
};
use cpp_lines::laws::{texts_are_read_once, variants_have_one_text};
use family_generator::laws::generated_families_are_accepted;
use feature_model::laws::bytes_say_one_model;
use reading_laws::answers::phases_have_answers;
use reading_laws::families::families_have_answers;
use reading_laws::models::bytes_say_some_model;
use region_laws::{region_texts_are_conditions, region_texts_have_the_meaning_of_regions};
use report_laws::reports_of_families_tell_their_alarms;

/// `plain` has one answer, whatever its path holds.
pub fn plain_has_one_answer()
    ensures some { (includes : Includes) (analysis : Analysis) (bytes : List ℕ)
        → (answer : Result Done Fault) × AnswersPlain includes analysis bytes answer }
    ensures alone { (includes : Includes) (analysis : Analysis) (bytes : List ℕ) (a b : Result Done Fault)
        → AnswersPlain includes analysis bytes a → AnswersPlain includes analysis bytes b → a ≡ b }
{
    reads_at_most_once();
    reads_something();
}

/// `project`, `variant` and `run` have exactly one answer, whatever MODEL and FILE hold: a text, a report or a run, or one
/// refusal of the model, the file or the settings.
pub fn variants_have_one_answer()
    ensures some { (dialect : Dialect) (task : VariantTask) (settings : List (List ℕ)) (told : Contents)
        → (answer : Result Done Fault) × AnswersVariant dialect task settings told answer }
    ensures alone { (dialect : Dialect) (task : VariantTask) (settings : List (List ℕ)) (told : Contents) (a b : Result Done Fault)
        → AnswersVariant dialect task settings told a → AnswersVariant dialect task settings told b → a ≡ b }
{
    bytes_say_some_model();
    families_have_answers();
    phases_have_answers();
    variants_are_projections();
    bytes_say_one_model();
    families_are_read_once();
    variants_have_one_text();
    reads_at_most_once();
}

/// `features` has exactly one answer, whatever MODEL holds: what the model leaves open, or one refusal.
pub fn features_have_one_answer()
    ensures some { (unknown : Unknown) (bytes : List ℕ) → (answer : Result Done Fault) × AnswersFeatures unknown bytes answer }
    ensures alone { (unknown : Unknown) (bytes : List ℕ) (a b : Result Done Fault)
        → AnswersFeatures unknown bytes a → AnswersFeatures unknown bytes b → a ≡ b }
{
    bytes_say_some_model();
    families_have_answers();
    phases_have_answers();
    variants_are_projections();
    bytes_say_one_model();
    families_are_read_once();
    variants_have_one_text();
    reads_at_most_once();
    uses_are_one();
}

/// `advise` has exactly one answer, whatever MODEL and FILE hold: one nearest configuration, or none, or one refusal of the
/// model, the file or the settings.
pub fn advice_has_one_answer()
    ensures some { (dialect : Dialect) (analysis : Analysis) (settings : List (List ℕ)) (told : Contents)
        → (answer : Result Done Fault) × AnswersAdvice dialect analysis settings told answer }
    ensures alone { (dialect : Dialect) (analysis : Analysis) (settings : List (List ℕ)) (told : Contents) (a b : Result Done Fault)
        → AnswersAdvice dialect analysis settings told a → AnswersAdvice dialect analysis settings told b → a ≡ b }
{
    bytes_say_some_model();
    families_have_answers();
    phases_have_answers();
    variants_are_projections();
    bytes_say_one_model();
    families_are_read_once();
    variants_have_one_text();
    reads_at_most_once();
    advice_is_one();
}

/// What `certify` writes of a model and a file, if it is not too long, `check` of these has no answer to but yes, where both
/// read names and includes alike.
pub fn certificates_are_accepted()
    ensures { (dialect : Dialect) (told : Contents) (answer : Result Done Fault)
        → IsWrittenByCertify dialect told.model told.file told.certificate → AnswersCheck dialect told answer → IsYes answer }
{
    bytes_say_one_model();
    families_are_read_once();
    variants_have_one_text();
    reads_at_most_once();
    texts_are_read_once();
    families_are_of_files();
    written_analyses_are_accepted();
}

/// What is read is accepted: no fault answers a request where what its paths hold is read, as a program, or as a model and a
/// family with the settings, and for a check the bytes of CERTIFICATE as a certificate over these.
pub fn what_is_read_is_accepted()
    ensures { (request : Request) (told : Contents) → IsRead request told → IsAccepted request told }
{
    bytes_say_one_model();
    families_are_read_once();
    variants_have_one_text();
    reads_at_most_once();
    texts_are_read_once();
}

/// What `certify` writes of a model and a file, if it is not too long, is read where `check` is asked of these: they are read as
/// a model and a family, and it spells a certificate over them.
pub fn what_is_certified_is_read()
    ensures { (request : Request) (told : Contents) → AsksOfCertified request told → IsRead request told }
{
    families_are_of_files();
    written_analyses_are_spelled();
}

/// Where `analyse` ends with status 0, no run of the variant of any valid configuration stops.
pub fn quiet_families_are_safe()
    ensures { QuietFamiliesAreSafe }
{
    bytes_say_one_model();
    families_are_read_once();
    variants_have_one_text();
    reads_at_most_once();
}

/// Where `analyse` ends with status 0 or 1, each stop of each run of each valid configuration's variant is told by exactly one line of
/// the report, and there are such variants.
pub fn reports_tell_each_stop()
    ensures told { ReportsTellEachStop }
    ensures read { FamiliesAreRead }
{
    bytes_say_one_model();
    families_are_read_once();
    variants_have_one_text();
    reads_at_most_once();
}

/// The text of a report on a family, as `analyse` ends with status 0 or 1, is that of one list of alarms.
pub fn reports_tell_one_list()
    ensures { ReportsTellOneList }
{
    bytes_say_one_model();
    families_are_read_once();
    variants_have_one_text();
    reads_at_most_once();
    families_are_of_files();
    reports_of_families_tell_their_alarms();
}

/// A printed region, read as a condition of the model, is true at exactly the configurations that meet it.
pub fn printed_regions_are_conditions()
    ensures { RegionsAreConditions }
{
    region_texts_are_conditions();
    region_texts_have_the_meaning_of_regions();
}

/// Where `page` ends with status 0 or 1, what is read back of the page is MODEL, FILE and a report as `analyse` tells it.
pub fn pages_tell_each_stop()
    ensures { PagesTellEachStop }
{
    bytes_say_one_model();
    families_are_read_once();
    variants_have_one_text();
    reads_at_most_once();
}

/// Where `plain` ends with status 0, no run of the program that the file is read as stops, and there is such a program.
pub fn quiet_programs_are_safe()
    ensures safe { QuietProgramsAreSafe }
    ensures read { ProgramsAreRead }
{
    reads_at_most_once();
}

/// Where `check` ends with status 0, the certificate lists each stop of each run of each valid configuration's variant.
pub fn checked_certificates_list_each_stop()
    ensures { CheckedCertificatesListEachStop }
{
    bytes_say_one_model();
    families_are_read_once();
    variants_have_one_text();
    reads_at_most_once();
    texts_are_read_once();
    families_are_of_files();
    written_analyses_are_accepted();
}

/// Where `check` ends with status 1, the text tells a place and a valid configuration at which the certificate does not hold.
pub fn refused_certificates_do_not_hold()
    ensures { RefusedCertificatesDoNotHold }
{
    bytes_say_one_model();
    families_are_read_once();
    variants_have_one_text();
    reads_at_most_once();
    texts_are_read_once();
    families_are_of_files();
    written_analyses_are_accepted();
}

/// Where `advise` ends with status 0, no run of the variant of the configuration that it prints stops, and each valid configuration that
/// is nearer has an alarm.
pub fn advice_is_safe()
    ensures { AdviceIsSafe }
{
    bytes_say_one_model();
    families_are_read_once();
    variants_have_one_text();
    reads_at_most_once();
}

/// `analyse`, `invariants` and `certify` have exactly one answer, whatever MODEL and FILE hold: one report or one certificate, or one
/// refusal of the model or the file.
pub fn families_have_one_answer()
    ensures some { (dialect : Dialect) (analysis : Analysis) (regions : Regions) (task : FamilyTask) (told : Contents)
        → (answer : Result Done Fault) × AnswersFamily dialect analysis regions task told answer }
    ensures alone { (dialect : Dialect) (analysis : Analysis) (regions : Regions) (task : FamilyTask) (told : Contents) (a b : Result Done Fault)
        → AnswersFamily dialect analysis regions task told a → AnswersFamily dialect analysis regions task told b → a ≡ b }
{
    bytes_say_some_model();
    families_have_answers();
    phases_have_answers();
    variants_are_projections();
    bytes_say_one_model();
    families_are_read_once();
    variants_have_one_text();
    reads_at_most_once();
    texts_are_read_once();
}

/// `page` has exactly one answer, whatever MODEL and FILE hold: one page, or one refusal of the model or the file.
pub fn pages_have_one_answer()
    ensures some { (dialect : Dialect) (analysis : Analysis) (regions : Regions) (told : Contents)
        → (answer : Result Done Fault) × AnswersPage dialect analysis regions told answer }
    ensures alone { (dialect : Dialect) (analysis : Analysis) (regions : Regions) (told : Contents) (a b : Result Done Fault)
        → AnswersPage dialect analysis regions told a → AnswersPage dialect analysis regions told b → a ≡ b }
{
    bytes_say_some_model();
    families_have_answers();
    phases_have_answers();
    variants_are_projections();
    bytes_say_one_model();
    families_are_read_once();
    variants_have_one_text();
    reads_at_most_once();
    texts_are_read_once();
}

/// `generate` has exactly one answer for each number up to 2,000, and at most one for each other.
pub fn generate_has_one_answer()
    ensures some { (analysis : Analysis) (regions : Regions) (number : ℕ) → number ≤ 2000
        → (answer : Result Done Fault) × AnswersGenerate analysis regions number answer }
    ensures alone { (analysis : Analysis) (regions : Regions) (number : ℕ) (a b : Result Done Fault)
        → AnswersGenerate analysis regions number a → AnswersGenerate analysis regions number b → a ≡ b }
{
    bytes_say_some_model();
    families_have_answers();
    phases_have_answers();
    variants_are_projections();
    generated_families_are_accepted();
    bytes_say_one_model();
    families_are_read_once();
    variants_have_one_text();
    reads_at_most_once();
    texts_are_read_once();
}

/// `check` has exactly one answer, whatever MODEL, FILE and CERTIFICATE hold: one verdict, or one refusal of the model, the file or the
/// certificate.
pub fn checks_have_one_answer()
    ensures some { (dialect : Dialect) (told : Contents) → (answer : Result Done Fault) × AnswersCheck dialect told answer }
    ensures alone { (dialect : Dialect) (told : Contents) (a b : Result Done Fault)
        → AnswersCheck dialect told a → AnswersCheck dialect told b → a ≡ b }
{
    bytes_say_some_model();
    families_have_answers();
    phases_have_answers();
    variants_are_projections();
    certificate_texts_have_one_reading();
    bytes_say_one_model();
    families_are_read_once();
    variants_have_one_text();
    reads_at_most_once();
    texts_are_read_once();
}
