//! The words of the texts.
ghost use Rattle.std.specs.Prelude.{◌≡◌};
ghost use Rattle.check_lines.specs.Words.{level_word, kind_word, dbgconf_word, image_word, disabled_word};

use code_check::FaultKind;
use hex_image::ImageKind;
use job_check::DbgconfKind;
use sequence_resolve::LevelKind;

pub fn level_text(level: LevelKind) -> &'static str
    ensures { result.now ≡ level_word level }
{
    match level {
        LevelKind::Defaults => "defaults",
        LevelKind::Family => "family",
        LevelKind::SubFamily => "subFamily",
        LevelKind::Device => "device",
        LevelKind::Variant => "variant",
    }
}

/// The word of what is wrong, as `UndefinedName`.
pub fn kind_text(kind: FaultKind) -> &'static str
    ensures { result.now ≡ kind_word kind }
{
    match kind {
        FaultKind::Syntax => "Syntax",
        FaultKind::UndefinedName => "UndefinedName",
        FaultKind::Redeclared => "Redeclared",
        FaultKind::UndefinedSequence => "UndefinedSequence",
        FaultKind::UndefinedFunction => "UndefinedFunction",
        FaultKind::ArgumentCount => "ArgumentCount",
        FaultKind::TextExpected => "TextExpected",
        FaultKind::NumberExpected => "NumberExpected",
        FaultKind::FormatMismatch => "FormatMismatch",
        FaultKind::BadDebugvars => "BadDebugvars",
        FaultKind::UnboundedLoop => "UnboundedLoop",
        FaultKind::TimeoutTooLong => "TimeoutTooLong",
        FaultKind::NestedTooDeep => "NestedTooDeep",
        FaultKind::CallCycle => "CallCycle",
        FaultKind::CallsTooDeep => "CallsTooDeep",
    }
}

pub fn image_kind_text(kind: ImageKind) -> &'static str
    ensures { result.now ≡ image_word kind }
{
    match kind {
        ImageKind::AfterEnd => "AfterEnd",
        ImageKind::BadRecord => "BadRecord",
        ImageKind::BadSum => "BadSum",
        ImageKind::BadKind => "BadKind",
        ImageKind::BadLength => "BadLength",
        ImageKind::TooMany => "TooMany",
        ImageKind::NoEnd => "NoEnd",
    }
}

pub fn dbgconf_kind_text(kind: DbgconfKind) -> &'static str
    ensures { result.now ≡ dbgconf_word kind }
{
    match kind {
        DbgconfKind::BadToken => "BadToken",
        DbgconfKind::Unexpected => "Unexpected",
        DbgconfKind::Repeated => "Repeated",
        DbgconfKind::UndefinedName => "UndefinedName",
    }
}

pub fn disabled_text(disabled: bool) -> &'static str
    ensures { result.now ≡ disabled_word disabled }
{
    if disabled { " disabled" } else { "" }
}
