use c_tree::typed::Layout;

/// What stays the same in a function, and where a statement stands.
#[derive(Clone, Copy)]
pub struct Frame<'a, 'b, 'c> {
    /// The structs of the program.
    pub structs: &'a [Layout],
    /// For each local the number of its stack object, or none where it is kept in the register of
    /// its own number.
    pub homes: &'a [Option<u32>],
    /// The first register that holds no local, and nothing of a switch around.
    pub first_temp: u32,
    /// The flag of the switch that a break leaves, or none where it leaves a loop.
    pub flag: Option<u32>,
    /// The stack objects of the blocks around, up to the function's body.
    pub around: &'b [u32],
    /// Those of them that the loop around stands in.
    pub outer: &'c [u32],
}

/// How an object is reached once the pointer to it is in a register.
#[derive(Clone, Copy, Debug, PartialEq, Eq)]
pub enum Reach {
    /// By that pointer.
    Found,
    /// By the pointer in a local's own register.
    Direct {
        /// The local's register.
        base: u32,
        /// The bytes behind that pointer.
        offset: u32,
    },
    /// By the pointer in a local's own register and by an index, which stands in the register
    /// behind the one with the pointer to the object.
    Indexed {
        /// The local's register.
        base: u32,
        /// The bytes of an element.
        scale: u32,
        /// The bytes behind that.
        offset: u32,
    },
}
