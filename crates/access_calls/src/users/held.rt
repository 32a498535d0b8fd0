//! A struct that owns an access, which may be lent.
ghost use Rattle.std.specs.Prelude.{◌≡◌, OnOk, IfErr, IfSome, Err};
ghost use Rattle.target_calls.specs.NeedPoints.{asks_at_need};
ghost use Rattle.access_calls.specs.Answers.{IsEnd, NoMemory};
ghost use Rattle.access_calls.specs.CallEnds.{EndsAtFlush};
ghost use Rattle.access_calls.specs.GoesOn.{AccessGoesOn};

use crate::{Access, Stop};

/// Owns an access.
#[derive(Drop)]
pub struct AccessOwner<A: Access> {
    access: A,
}

impl<A: Access> AccessOwner<A> {
    /// Takes the access.
    pub fn new(access: A) -> AccessOwner<A>
        ensures answer { result.access ≡ access }
    {
        AccessOwner { access }
    }

    /// Makes all that was asked. Takes no memory. At an error the access has ended with it, and an access
    /// that had ended answers its end again.
    pub fn flush(&mut self) -> Result<(), Stop>
        ensures asks { OnOk result ((A.reported self.new.access).asks ≡ asks_at_need (A.reported self.old.access).asks) }
        ensures ends { EndsAtFlush A.begun A.reported A.identity result self.old.access self.new.access }
    {
        self.access.flush()
    }

    /// Gives the access back.
    pub fn into_access(self) -> A
        ensures answer { result ≡ self.access }
    {
        self.access
    }
}

/// Lends an access to an `AccessOwner`, lets that make all that was asked, and takes it back. Takes no memory. At an
/// error the access has ended with it, and an access that had ended answers its end again.
pub fn flush_lent<A: Access>(access: &mut A) -> Result<(), Stop>
    ensures asks { OnOk result ((A.reported access.new).asks ≡ asks_at_need (A.reported access.old).asks) }
    ensures memory { IfErr result NoMemory }
    ensures end { IfErr result (IsEnd (A.reported access.new).end) }
    ensures ended { IfSome (A.reported access.old).end (λ s. result ≡ Err s) }
    ensures goes { AccessGoesOn (A.reported access.old) (A.reported access.new) }
{
    let mut held = AccessOwner::new(&mut *access);
    let answer = held.flush();
    let _ = held.into_access();
    answer
}
