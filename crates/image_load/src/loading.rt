//! The load of an image over an access.
ghost use Rattle.std.specs.Prelude.{◌≡◌, ◌+◌, ◌<◌, ◌≤◌, ◌∷◌, [], Option, None, false, true, length, slice_index, IfOk};
ghost use Rattle.std.specs.List.{All};
ghost use Rattle.target_calls.specs.Asks.{unit_ask};
ghost use Rattle.target_calls.specs.World.{results};
ghost use Rattle.access_calls.specs.Asking.{IsSoundNarrow, MayAsk, MayAskMore};
ghost use Rattle.access_calls.specs.CallEnds.{InEachWorld};
ghost use Rattle.access_calls.specs.Keeps.{KeepsAccess};
ghost use Rattle.image_load.specs.Frame.{AsksCalls, EndsLoad, EndsPart, MayLoadPieces};
ghost use Rattle.image_load.specs.Loading.{AsksLoad, ReadsBack, StopsLoad};
ghost use Rattle.image_load.specs.Pieces.{IsPiece, asked_all, first_difference, load_calls, piece_ask, pieces};

use crate::comparing::difference;
use crate::ends::{LoadEnd, Loaded};
use crate::piece::{Difference, WordOrByte, pieces_of};
use access_calls::{Access, Stop};
use dap_base::OutOfMemory;
use hex_image::Image;
use std::alloc::Global;
use target_calls::{Asked, Slot};
use target_machine::Unit;

// The memory access that reads or writes a piece.
fn unit_of(read: bool, ap: u8, piece: WordOrByte) -> Unit
    requires { IsPiece piece }
    ensures asks { unit_ask result false ≡ piece_ask read ap piece }
    ensures narrow { IsSoundNarrow result }
{
    Unit::Memory {
        size: piece.size,
        read,
        ap,
        address: u64::from(piece.address),
        value: if read { 0 } else { piece.value },
    }
}

// Asks for an access at an address of 32 bits, whose fault is not forgiven.
fn ask<A: Access>(unit: Unit, access: &mut A) -> Result<Slot, Stop>
    requires narrow { IsSoundNarrow unit }
    requires may { MayAsk 9999999 (A.reported access.old) }
    ensures slot { IfOk result (λ slot. slot.index ≡ length (A.reported access.old).asks.calls) }
    ensures asks { AsksCalls (unit_ask unit false ∷ []) result (A.reported access.old).asks.calls (A.reported access.new).asks.calls }
    ensures ends { EndsPart A.begun A.reported A.identity result access.old access.new }
{
    match access.ask(unit, false)? {
        Asked::Slot(slot) => Ok(slot),
        Asked::Small => unreachable!(),
    }
}

// Asks for all pieces, as writes or as reads. Answers the place of the first result, 0 where there is no piece: the others follow it.
#[tactic(auto, using(access_calls::proofs::KeepLemmas::goes_trans, access_calls::proofs::KeepLemmas::goes_same))]
fn ask_all<A: Access>(
    read: bool,
    ap: u8,
    pieces: &[WordOrByte],
    access: &mut A,
) -> Result<u32, Stop>
    requires pieces { All IsPiece pieces.now }
    requires may { MayAskMore (length pieces.now) 9000000 (A.reported access.old) }
    ensures first { IfOk result (λ first. 0 < length pieces.now → first ≡ length (A.reported access.old).asks.calls) }
    ensures none { IfOk result (λ first. length pieces.now ≡ 0 → first ≡ 0) }
    ensures asks { AsksCalls (asked_all read ap pieces.now) result (A.reported access.old).asks.calls (A.reported access.new).asks.calls }
    ensures ends { EndsPart A.begun A.reported A.identity result access.old access.new }
{
    let mut first = 0;
    for i in 0..pieces.len() {
        let slot = ask(unit_of(read, ap, pieces[i]), access)?;
        if i == 0 {
            first = slot.index;
        }
    }
    Ok(first)
}

// The first byte that was read as another one, by the results from a place on, all of which have come.
#[tactic(auto, using(access_calls::proofs::KeepLemmas::goes_trans, access_calls::proofs::KeepLemmas::goes_same))]
fn compare_all<A: Access>(pieces: &[WordOrByte], first: u32, access: &mut A) -> Option<Difference>
    requires pieces { All IsPiece pieces.now }
    requires few { first + length pieces.now ≤ 9000000 }
    requires known { first + length pieces.now ≤ (A.reported access.old).known }
    requires open { (A.reported access.old).end ≡ None }
    ensures differs { InEachWorld A.begun A.reported access.old access.new (λ w. result
        ≡ first_difference pieces.now (λ i. slice_index (results w (A.reported access.old).asks.calls) (first + i))) }
    ensures calls { (A.reported access.new).asks.calls ≡ (A.reported access.old).asks.calls }
    ensures open { (A.reported access.new).end ≡ None }
    ensures keeps { KeepsAccess A.begun A.reported A.identity access.old access.new }
{
    for i in 0..pieces.len() {
        let slot = Slot {
            index: first + i as u32,
        };
        let found = match access.value(slot) {
            Ok(value) => value as u32,
            Err(_) => unreachable!(),
        };
        match difference(pieces[i], found) {
            Some(differs) => return Some(differs),
            None => {}
        }
    }
    None
}

// Asks for all writes, and then for all reads. Answers the place of the result of the first read, 0 where there is no piece.
#[tactic(auto, using(crate::proofs::CallLemmas::count_all, access_calls::proofs::KeepLemmas::goes_trans, access_calls::proofs::KeepLemmas::goes_same))]
fn ask_both<A: Access>(ap: u8, pieces: &[WordOrByte], access: &mut A) -> Result<u32, Stop>
    requires may { MayLoadPieces pieces.now (A.reported access.old) }
    ensures first { IfOk result (λ first. 0 < length pieces.now → first ≡ length (A.reported access.old).asks.calls + length pieces.now) }
    ensures none { IfOk result (λ first. length pieces.now ≡ 0 → first ≡ 0) }
    ensures asks { AsksCalls (load_calls ap pieces.now) result (A.reported access.old).asks.calls (A.reported access.new).asks.calls }
    ensures ends { EndsPart A.begun A.reported A.identity result access.old access.new }
{
    ask_all(false, ap, pieces, access)?;
    ask_all(true, ap, pieces, access)
}

// Writes pieces in order, reads them back in the same order, and finishes.
#[tactic(auto, using(access_calls::proofs::KeepLemmas::goes_trans, access_calls::proofs::KeepLemmas::goes_same))]
fn load_pieces<A: Access>(ap: u8, pieces: &[WordOrByte], access: &mut A) -> Result<(), LoadEnd>
    requires may { MayLoadPieces pieces.now (A.reported access.old) }
    ensures asks { AsksLoad result (load_calls ap pieces.now) (A.reported access.old).asks.calls (A.reported access.new).asks.calls }
    ensures loads { InEachWorld A.begun A.reported access.old access.new
        (λ w. ReadsBack w (A.reported access.old).asks.calls ap pieces.now result) }
    ensures stops { InEachWorld A.begun A.reported access.old access.new (λ w. StopsLoad w result (load_calls ap pieces.now)
        (A.reported access.old).asks.calls (A.reported access.new).asks.calls (A.reported access.new).lines) }
    ensures ends { EndsLoad A.begun A.reported A.identity result access.old access.new }
{
    let first = match ask_both(ap, pieces, access) {
        Ok(first) => first,
        Err(stop) => return Err(LoadEnd::Stop(stop)),
    };
    match access.finish() {
        Ok(()) => {}
        Err(stop) => return Err(LoadEnd::Stop(stop)),
    }
    match compare_all(pieces, first, access) {
        None => Ok(()),
        Some(differs) => Err(LoadEnd::Differs {
            address: differs.address,
            wanted: differs.wanted,
            found: differs.found,
        }),
    }
}

/// How many writes the load of an image makes: one of four bytes for each word whose four bytes are in the image, and one for each other
/// byte. At most 262,144. Refused where memory is.
pub fn count_writes(alloc: Global, image: &Image) -> Result<u32, OutOfMemory>
    ensures count { IfOk result (λ n. n ≡ length (pieces image.now)) }
    ensures few { IfOk result (λ n. n ≤ 262144) }
{
    match pieces_of(alloc, image) {
        Ok(pieces) => Ok(pieces.len() as u32),
        Err(_) => Err(OutOfMemory),
    }
}

/// Writes an image through an access port, reads it back, and finishes. At most 1,000,000 calls were asked of the access before, and it has no end.
///
/// The writes come first, in rising order: a word for each word with all four bytes in the image, a byte for each other byte. Then the
/// same words and bytes are read, in the same order. No fault is forgiven.
///
/// # Errors
///
/// `Differs` exactly where a byte was read as another one, with the first of them. Then all was written and read, and the access goes on. `Stop`
/// where the access stopped, which is its end, or where memory was refused. Then the first of the calls were asked, or none.
pub fn load<A: Access>(
    alloc: Global,
    image: &Image,
    ap: u8,
    access: &mut A,
) -> Result<Loaded, LoadEnd>
    requires may { MayAsk 1000000 (A.reported access.old) }
    ensures asks { AsksLoad result (load_calls ap (pieces image.now)) (A.reported access.old).asks.calls (A.reported access.new).asks.calls }
    ensures loads { InEachWorld A.begun A.reported access.old access.new
        (λ w. ReadsBack w (A.reported access.old).asks.calls ap (pieces image.now) result) }
    ensures stops { InEachWorld A.begun A.reported access.old access.new (λ w. StopsLoad w result (load_calls ap (pieces image.now))
        (A.reported access.old).asks.calls (A.reported access.new).asks.calls (A.reported access.new).lines) }
    ensures counts { IfOk result (λ l. (l.bytes ≡ length image.now) × (l.writes ≡ length (pieces image.now))) }
    ensures few { IfOk result (λ l. l.writes ≤ 262144) }
    ensures ends { EndsLoad A.begun A.reported A.identity result access.old access.new }
{
    let bytes = image.bytes().len();
    let pieces = match pieces_of(alloc, image) {
        Ok(pieces) => pieces,
        Err(_) => return Err(LoadEnd::Stop(Stop::OutOfMemory)),
    };
    load_pieces(ap, &pieces, access)?;
    Ok(Loaded {
        bytes: bytes as u32,
        writes: pieces.len() as u32,
    })
}
