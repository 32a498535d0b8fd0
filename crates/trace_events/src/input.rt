//! The bytes of a source, one by one.
ghost use Rattle.std.specs.Prelude.{◌≡◌, IfOk, OnOk};
ghost use Rattle.dap_base.specs.Causes.{HasCause};
ghost use Rattle.trace_events.specs.Inputs.{untaken_input, GivesByte, IsFilled, GivesFirstByte};

use dap_base::{Failed, Source};
use std::marker::Model;

// How many bytes are asked of a source at once.
const CHUNK: usize = 4096;

// The bytes that were taken of a source and not given yet.
#[derive(Drop)]
pub struct Input {
    chunk: [u8; CHUNK],
    at: usize,
    count: usize,
    // Whether the source had no more bytes.
    is_over: bool,
}

impl Model for Input {
    ghost use Rattle.std.specs.Prelude.{◌≤◌, drop, take};
    ghost use Rattle.trace_events.specs.Inputs.{Input};

    ghost Value = { Input };

    ghost view = { λ i. record { ready = drop i.at (take i.count i.chunk); over = i.is_over } };

    ghost invariant = { λ i. (i.at ≤ i.count) × (i.count ≤ 4096) };
}

impl Input {
    pub fn new() -> Input
        ensures { result ≡ untaken_input }
    {
        Input {
            chunk: [0; CHUNK],
            at: 0,
            count: 0,
            is_over: false,
        }
    }

    // The first of the bytes that were taken.
    #[tactic(auto, using(crate::proofs::InputLemmas::first_of_piece, crate::proofs::InputLemmas::end_of_piece))]
    fn ready(&mut self) -> Option<u8>
        ensures { GivesFirstByte self.old result self.new }
    {
        if self.at == self.count {
            return None;
        }
        let byte = self.chunk[self.at];
        self.at += 1;
        Some(byte)
    }

    // Takes more bytes, where none is left of the last ones.
    #[tactic(auto, using(crate::proofs::InputLemmas::kept, crate::proofs::InputLemmas::filled))]
    fn fill<S: Source>(&mut self, source: &mut S) -> Result<(), Failed>
        ensures bytes { OnOk result (IsFilled self.old self.new (S.left source.old) (S.left source.new)) }
        ensures cause { HasCause (S.faults source.old) (S.faults source.new) result }
    {
        if self.at < self.count || self.is_over {
            return Ok(());
        }
        self.at = 0;
        self.count = 0;
        let count = source.take(&mut self.chunk)?;
        self.count = count;
        self.is_over = count == 0;
        Ok(())
    }

    // The next byte of this source. `None` at its end.
    #[tactic(auto, using(crate::proofs::InputLemmas::gives))]
    pub fn next<S: Source>(&mut self, source: &mut S) -> Result<Option<u8>, Failed>
        ensures byte { IfOk result (λ byte. GivesByte self.old self.new (S.left source.old) (S.left source.new) byte) }
        ensures cause { HasCause (S.faults source.old) (S.faults source.new) result }
    {
        self.fill(source)?;
        Ok(self.ready())
    }
}
