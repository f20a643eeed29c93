/// The word in the base of a place, and the address to which the place leads.
#[derive(Clone, Copy, PartialEq, Eq)]
pub struct Target {
    /// The word.
    pub pointer: u64,
    /// The address.
    pub address: u64,
}
