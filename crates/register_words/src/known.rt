//! What is known of SELECT, and of CSW and TAR of each access port.
ghost use Rattle.std.specs.Prelude.{◌≡◌, ◌⊎◌, Option, bit_and};
ghost use Rattle.target_machine.specs.Registers.{csw_size};
ghost use Rattle.register_words.specs.Known.{unknown_port, nothing_known, unknown_ports, port_at, known_with_port, tar_after, bytes_of, moved_by};
ghost use Rattle.register_words.specs.Known.{stepped_tar, known_next_tar, accessed_port, kept_tar, port_written, port_read, port_matched};
ghost use Rattle.register_words.specs.Known.{after_abort, after_write, after_read, after_match};

use crate::register::Register;
use target_machine::registers::{ADDRINC_SINGLE, CSW, CSW_ADDRINC, CSW_SIZE, DRW, TAR};

/// CSW and TAR of an access port, each where it is known.
#[derive(Clone, Copy, Debug, PartialEq, Eq)]
pub struct KnownPort {
    pub csw: Option<u32>,
    pub tar: Option<u32>,
}

/// SELECT, where it is known, and what is known of the access ports 0 to 255.
#[derive(Clone, Debug, Drop)]
pub struct KnownRegisters {
    pub select: Option<u32>,
    pub ports: [KnownPort; 256],
}

// Nothing is known of a port.
const UNKNOWN_PORT: KnownPort = KnownPort {
    csw: None,
    tar: None,
};

// TAR after an access of so many bytes.
fn move_tar(tar: u32, size: u32) -> Option<u32>
    requires { (size ≡ 1) ⊎ (size ≡ 2) ⊎ (size ≡ 4) }
    ensures { result ≡ tar_after tar size }
{
    if tar % 1024 + size < 1024 {
        Some(tar + size)
    } else {
        None
    }
}

fn moved_by(tar: u32, csw: u32) -> Option<u32>
    ensures { result ≡ moved_by tar (bytes_of (bit_and csw csw_size)) }
{
    match csw & CSW_SIZE {
        0 => move_tar(tar, 1),
        1 => move_tar(tar, 2),
        2 => move_tar(tar, 4),
        _ => None,
    }
}

#[tactic(auto, unfolding(crate::specs::Known::stepped_tar))]
fn step_tar(csw: u32, tar: u32) -> Option<u32>
    ensures { result ≡ stepped_tar csw tar }
{
    match csw & CSW_ADDRINC {
        0 => Some(tar),
        ADDRINC_SINGLE => moved_by(tar, csw),
        _ => None,
    }
}

impl KnownPort {
    // One access of DRW.
    fn after_access(self) -> KnownPort
        ensures { result ≡ accessed_port self }
    {
        let tar = match (self.csw, self.tar) {
            (Some(csw), Some(tar)) => step_tar(csw, tar),
            _ => None,
        };
        KnownPort { tar, ..self }
    }

    // TAR after several accesses whose number is not known.
    fn kept_tar(self) -> Option<u32>
        ensures { result ≡ kept_tar self.csw self.tar }
    {
        match self.csw {
            Some(csw) if csw & CSW_ADDRINC == 0 => self.tar,
            _ => None,
        }
    }

    #[tactic(auto, unfolding(crate::specs::Known::port_written))]
    fn after_write(self, register: u8, word: u32) -> KnownPort
        ensures { result ≡ port_written self register word }
    {
        match register {
            CSW => KnownPort {
                csw: Some(word),
                ..self
            },
            TAR => KnownPort {
                tar: Some(word),
                ..self
            },
            DRW => self.after_access(),
            _ => self,
        }
    }

    #[tactic(auto, unfolding(crate::specs::Known::port_read))]
    fn read(self, register: u8, value: Option<u32>) -> KnownPort
        ensures { result ≡ port_read self register value }
    {
        match register {
            CSW => KnownPort { csw: value, ..self },
            TAR => KnownPort { tar: value, ..self },
            DRW => self.after_access(),
            _ => self,
        }
    }

    #[tactic(auto, unfolding(crate::specs::Known::port_matched))]
    fn after_match(self, register: u8) -> KnownPort
        ensures { result ≡ port_matched self register }
    {
        match register {
            DRW => KnownPort {
                tar: self.kept_tar(),
                ..self
            },
            _ => self,
        }
    }
}

impl KnownRegisters {
    /// Nothing is known.
    pub fn new() -> KnownRegisters
        ensures { result ≡ nothing_known }
    {
        KnownRegisters {
            select: None,
            ports: [UNKNOWN_PORT; 256],
        }
    }

    /// From now on nothing is known.
    pub fn forget(&mut self)
        ensures { self.new ≡ nothing_known }
    {
        self.select = None;
        self.forget_ports();
    }

    fn forget_ports(&mut self)
        ensures { self.new ≡ record self.old { ports = unknown_ports } }
    {
        self.ports = [UNKNOWN_PORT; 256];
    }

    /// What is known of the access port of this number.
    pub fn port(&self, ap: u8) -> KnownPort
        ensures { result ≡ port_at self.now ap }
    {
        self.ports[ap as usize]
    }

    fn set_port(&mut self, ap: u8, port: KnownPort)
        ensures { self.new ≡ known_with_port self.old ap port }
    {
        self.ports[ap as usize] = port;
    }

    /// `DAP_WriteABORT` of this word, or its write by a request.
    pub fn abort(&mut self, word: u32)
        ensures { self.new ≡ after_abort self.old word }
    {
        if word & 1 != 0 {
            self.forget();
        }
    }

    /// A write of this word was made.
    #[tactic(auto, unfolding(crate::specs::Known::after_write))]
    pub fn write(&mut self, register: Register, word: u32)
        ensures { self.new ≡ after_write self.old register word }
    {
        match register {
            Register::Select => self.select = Some(word),
            Register::Abort => self.abort(word),
            Register::CtrlStat | Register::Banked => self.forget_ports(),
            Register::Targetsel => self.forget(),
            Register::Ap { ap, register } => {
                let port = self.port(ap).after_write(register, word);
                self.set_port(ap, port);
            }
            _ => {}
        }
    }

    /// A read was made, whose value came or not.
    #[tactic(auto, unfolding(crate::specs::Known::after_read))]
    pub fn read(&mut self, register: Register, value: Option<u32>)
        ensures { self.new ≡ after_read self.old register value }
    {
        if let Register::Ap { ap, register } = register {
            let port = self.port(ap).read(register, value);
            self.set_port(ap, port);
        }
    }

    /// A read was repeated until its value matched.
    #[tactic(auto, unfolding(crate::specs::Known::after_match))]
    pub fn note_match(&mut self, register: Register)
        ensures { self.new ≡ after_match self.old register }
    {
        if let Register::Ap { ap, register } = register {
            let port = self.port(ap).after_match(register);
            self.set_port(ap, port);
        }
    }
}
