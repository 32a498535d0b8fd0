//! The options of a command line, and the rows of options that a command may have.
ghost use Rattle.std.specs.Prelude.{◌≡◌, ◌≢◌, ◌↔◌, ℕ, List, None, Some, IsTrue, MatchOption};
ghost use Rattle.command_words.specs.Table.{for_device, for_number, no_options, IsForPort, IsPort, IsShortNumber};

use crate::numeral::short_number;
use dap_base::NameText;
use sequence_resolve::Selection;

/// The value of each option that was given.
#[derive(Drop)]
pub struct Options {
    pub device: Option<NameText>,
    pub variant: Option<NameText>,
    pub pname: Option<NameText>,
    pub sequence: Option<NameText>,
    pub number: Option<NameText>,
}

/// The selection, where a device is given and neither a sequence nor a number.
pub fn device_alone(options: Options) -> Option<Selection>
    ensures { MatchOption result ((s : _) → options ≢ for_device s None) (λ s. options ≡ for_device s None) }
{
    if options.sequence.is_some() || options.number.is_some() {
        return None;
    }
    let Options {
        device,
        variant,
        pname,
        ..
    } = options;
    let device = device?;
    Some(Selection {
        device,
        variant,
        pname,
    })
}

/// The selection and the sequence, where a device and a sequence are given and no number.
pub fn device_and_sequence(options: Options) -> Option<(Selection, NameText)>
    ensures { MatchOption result ((s : _) (name : List ℕ) → options ≢ for_device s (Some name)) (λ p. options ≡ for_device p.0 (Some p.1)) }
{
    if options.number.is_some() {
        return None;
    }
    let Options {
        device,
        variant,
        pname,
        sequence,
        ..
    } = options;
    let device = device?;
    let sequence = sequence?;
    let selection = Selection {
        device,
        variant,
        pname,
    };
    Some((selection, sequence))
}

// The number of an access port, 0 where none is given.
fn port_of(number: &Option<NameText>) -> Option<u8>
    ensures { MatchOption result ((ap : ℕ) → IsPort number.now ap → ⊥) (λ ap. IsPort number.now ap) }
{
    match number {
        Some(text) => {
            let number = short_number(text.as_str())?;
            if number < 256 {
                Some(number as u8)
            } else {
                None
            }
        }
        None => Some(0),
    }
}

/// The selection, the sequence and the number of an access port, where a device and a sequence are given, and a number of at most 255 or none.
pub fn device_and_port(options: Options) -> Option<(Selection, NameText, u8)>
    ensures { MatchOption result ((s : _) (name : List ℕ) (ap : ℕ) → IsForPort options s name ap → ⊥) (λ p. IsForPort options p.0 p.1 p.2) }
{
    let ap = port_of(&options.number)?;
    let Options {
        device,
        variant,
        pname,
        sequence,
        ..
    } = options;
    let device = device?;
    let sequence = sequence?;
    let selection = Selection {
        device,
        variant,
        pname,
    };
    Some((selection, sequence, ap))
}

/// The number, where a short number is given and nothing else.
pub fn number_alone(options: &Options) -> Option<u16>
    ensures { MatchOption result ((text : List ℕ) (n : ℕ) → IsShortNumber text n → options.now ≢ for_number text)
        (λ n. (text : List ℕ) × IsShortNumber text n × (options.now ≡ for_number text)) }
{
    let Options {
        device: None,
        variant: None,
        pname: None,
        sequence: None,
        number: Some(number),
    } = options
    else {
        return None;
    };
    short_number(number.as_str())
}

/// Whether no option is given.
pub fn are_none(options: &Options) -> bool
    ensures { IsTrue result ↔ (options.now ≡ no_options) }
{
    matches!(
        options,
        Options {
            device: None,
            variant: None,
            pname: None,
            sequence: None,
            number: None,
        }
    )
}
