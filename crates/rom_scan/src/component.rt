//! A component of a target.

/// What the words of a component say of it.
#[derive(Clone, Copy, Debug, PartialEq, Eq)]
pub struct ComponentId {
    /// The class, 0 to 15: the upper four bits of CIDR1. A ROM table is of class 1.
    pub class: u8,
    /// The low bytes of PIDR4, PIDR3, PIDR2, PIDR1 and PIDR0.
    pub id: [u8; 5],
}

/// A component: where it is, and what is known of it.
#[derive(Clone, Copy, Debug, PartialEq, Eq)]
pub struct Component {
    /// Its address, a multiple of 4,096.
    pub address: u32,
    /// How deep it stands, from 1 for the root to 8.
    pub depth: u8,
    /// What its words say of it. `None` where CIDR0 to CIDR3 are not those of a component.
    pub known: Option<ComponentId>,
}
