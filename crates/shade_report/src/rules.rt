//! The names of rules.

ghost use Rattle.std.specs.Prelude.{◌≡◌, ◌≤◌, length};
ghost use Rattle.shade_report.specs.Refusals.{cert_rule_name, job_rule_name, part_name, rule_name, why_name};

use box_core::{CertRule, Why};
use job_file::{JobRule, Part};
use spectral_tables::TableRule;

/// The name of a rule of tables.
pub(crate) fn rule_name(rule: TableRule) -> &'static str
    ensures is { result.now ≡ rule_name rule }
    ensures short { length result.now ≤ 17 }
{
    match rule {
        TableRule::NoHeader => "NoHeader",
        TableRule::BadWavelength => "BadWavelength",
        TableRule::WrongCount => "WrongCount",
        TableRule::BadNumber => "BadNumber",
        TableRule::OutOfRange => "OutOfRange",
        TableRule::DoubleName => "DoubleName",
        TableRule::NoWhite => "NoWhite",
        TableRule::WhiteNotPositive => "WhiteNotPositive",
        TableRule::Unbalanced => "Unbalanced",
    }
}

/// The name of a part of a job.
pub(crate) fn part_name(part: Part) -> &'static str
    ensures is { result.now ≡ part_name part }
    ensures short { length result.now ≤ 6 }
{
    match part {
        Part::Job => "job",
        Part::Light => "light",
        Part::Dye => "dye",
        Part::Dyeing => "dyeing",
        Part::Pair => "pair",
        Part::Batch => "batch",
    }
}

/// The name of a rule of jobs.
pub(crate) fn job_rule_name(rule: JobRule) -> &'static str
    ensures is { result.now ≡ job_rule_name rule }
    ensures short { length result.now ≤ 13 }
{
    match rule {
        JobRule::NotToml => "NotToml",
        JobRule::NotVersion1 => "NotVersion1",
        JobRule::UnknownKey => "UnknownKey",
        JobRule::MissingKey => "MissingKey",
        JobRule::WrongKind => "WrongKind",
        JobRule::OutOfRange => "OutOfRange",
        JobRule::BadCount => "BadCount",
        JobRule::DoubleDye => "DoubleDye",
        JobRule::UnknownDye => "UnknownDye",
        JobRule::SamePair => "SamePair",
        JobRule::BatchLength => "BatchLength",
        JobRule::TooWide => "TooWide",
        JobRule::UnknownColumn => "UnknownColumn",
        JobRule::TooStrong => "TooStrong",
    }
}

/// The name of a rule of the text of certificates.
pub(crate) fn cert_rule_name(rule: CertRule) -> &'static str
    ensures { result.now ≡ cert_rule_name rule }
{
    match rule {
        CertRule::BadHeader => "BadHeader",
        CertRule::BadClaim => "BadClaim",
        CertRule::BadLine => "BadLine",
        CertRule::Missing => "Missing",
        CertRule::Left => "Left",
    }
}

/// The name of the reason why a line of a certificate does not hold.
pub(crate) fn why_name(why: Why) -> &'static str
    ensures { result.now ≡ why_name why }
{
    match why {
        Why::BadSplit => "BadSplit",
        Why::NotLimit => "NotLimit",
        Why::NotFailing => "NotFailing",
        Why::NotDear => "NotDear",
        Why::NotPoint => "NotPoint",
        Why::NotUndecided => "NotUndecided",
        Why::NotPassing => "NotPassing",
        Why::WrongList => "WrongList",
    }
}
