//! One component.
ghost use Rattle.std.specs.Prelude.{◌≡◌, ◌+◌, ◌≤◌, ◌%◌, length, IfOk};
ghost use Rattle.access_calls.specs.Asking.{EndsAsking, MayAsk};
ghost use Rattle.rom_scan.specs.Components.{component_at, is_component, known_as, words_read_of};
ghost use Rattle.rom_scan.specs.Frame.{GivesAsking};
ghost use Rattle.rom_scan.specs.Meets.{GivesEnd};

use crate::asking::read_words;
use crate::component::{Component, ComponentId};
use access_calls::{Access, Stop};

// The low byte of a word.
fn low(word: u32) -> u8
    ensures { result ≡ word % 256 }
{
    (word % 256) as u8
}

// Whether the words are those of a component that is known.
fn is_known(cidr: &[u32]) -> bool
    requires { length cidr.now ≡ 4 }
    ensures { result ≡ is_component cidr.now }
{
    low(cidr[0]) == 0x0D && low(cidr[1]) % 16 == 0 && low(cidr[2]) == 0x05 && low(cidr[3]) == 0xB1
}

// A component by its words.
fn known_as(address: u32, depth: u8, cidr: &[u32], fourth: &[u32], first: &[u32]) -> Component
    requires cidr { length cidr.now ≡ 4 }
    requires fourth { length fourth.now ≡ 1 }
    requires first { length first.now ≡ 4 }
    ensures { result ≡ known_as address depth cidr.now fourth.now first.now }
{
    Component {
        address,
        depth,
        known: Some(ComponentId {
            class: low(cidr[1]) / 16,
            id: [
                low(fourth[0]),
                low(first[3]),
                low(first[2]),
                low(first[1]),
                low(first[0]),
            ],
        }),
    }
}

// How many words are read of a component.
pub(crate) fn words_of(component: Component) -> u32
    ensures words { result ≡ words_read_of component.known }
    ensures few { result ≤ 9 }
{
    match component.known {
        Some(_) => 9,
        None => 4,
    }
}

// What is read of a component.
#[tactic(auto, using(access_calls::proofs::KeepLemmas::goes_trans))]
pub(crate) fn read_component<A: Access>(
    ap: u8,
    address: u32,
    depth: u8,
    access: &mut A,
) -> Result<Component, Stop>
    requires page { address % 4096 ≡ 0 }
    requires may { MayAsk 8000000 (A.reported access.old) }
    ensures gives { GivesAsking A.begun A.reported access.old access.new (λ w lines. GivesEnd w lines (component_at ap address depth) result) }
    ensures address { IfOk result (λ c. c.address ≡ address) }
    ensures count { IfOk result (λ c. length (A.reported access.new).asks.calls ≡ length (A.reported access.old).asks.calls + words_read_of c.known) }
    ensures ends { EndsAsking A.begun A.reported A.identity result access.old access.new }
{
    let cidr = read_words(ap, address + 0xFF0, 4, access)?;
    if !is_known(cidr.as_slice()) {
        return Ok(Component {
            address,
            depth,
            known: None,
        });
    }
    let fourth = read_words(ap, address + 0xFD0, 1, access)?;
    let first = read_words(ap, address + 0xFE0, 4, access)?;
    Ok(known_as(
        address,
        depth,
        cidr.as_slice(),
        fourth.as_slice(),
        first.as_slice(),
    ))
}
