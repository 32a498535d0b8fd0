//! What is known of the registers of an access port.

/// What is known of an access port: whether it has large physical addresses, and CSW, TAR and the upper word of TAR. These are as they were
/// last read, written or left by an increment.
#[derive(Clone, Copy, Debug, PartialEq, Eq)]
pub struct Known {
    pub csw: Option<u32>,
    pub tar: Option<u32>,
    pub high: Option<u32>,
    pub large: bool,
}

/// The access port whose CSW and TAR are not those that its units leave when each is made alone. It has the low 32 bits of the address of
/// its last unit.
#[derive(Clone, Copy, Debug, PartialEq, Eq)]
pub struct Unsettled {
    pub ap: u8,
    pub tar: u32,
}
