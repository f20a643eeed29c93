ghost use Rattle.std.specs.Prelude.{◌≡◌};
ghost use Rattle.race_rules.specs.Kinds.{clash, is_access, is_atomic, is_write, outdoes};

/// What a touch is.
#[derive(Clone, Copy, Debug, Default, PartialEq, Eq)]
pub enum TouchKind {
    /// A read of a type that isn't atomic.
    #[default]
    Read,
    /// A write of a type that isn't atomic.
    Write,
    /// A read of an atomic type.
    AtomicRead,
    /// A write of an atomic type.
    AtomicWrite,
    /// The mutex in these cells was got.
    Lock,
    /// The mutex in these cells was given back.
    Unlock,
    /// A thread of this number was made.
    Start(u32),
    /// The thread of this number was joined.
    Join(u32),
}

impl TouchKind {
    /// Whether it is a read or a write, atomic or not.
    pub fn is_access(self) -> bool
        ensures { result ≡ is_access self }
    {
        match self {
            TouchKind::Read | TouchKind::Write | TouchKind::AtomicRead | TouchKind::AtomicWrite =>
                true,
            TouchKind::Lock | TouchKind::Unlock | TouchKind::Start(_) | TouchKind::Join(_) => false,
        }
    }

    /// Whether it writes.
    pub fn is_write(self) -> bool
        ensures { result ≡ is_write self }
    {
        match self {
            TouchKind::Write | TouchKind::AtomicWrite => true,
            TouchKind::Read | TouchKind::AtomicRead => false,
            TouchKind::Lock | TouchKind::Unlock | TouchKind::Start(_) | TouchKind::Join(_) => false,
        }
    }

    /// Whether it is atomic.
    pub fn is_atomic(self) -> bool
        ensures { result ≡ is_atomic self }
    {
        match self {
            TouchKind::AtomicRead | TouchKind::AtomicWrite => true,
            TouchKind::Read | TouchKind::Write => false,
            TouchKind::Lock | TouchKind::Unlock | TouchKind::Start(_) | TouchKind::Join(_) => false,
        }
    }

    /// Whether touches of these kinds clash at a cell that they have in common.
    pub fn clashes(self, other: TouchKind) -> bool
        ensures { result ≡ clash self other }
    {
        self.is_access()
            && other.is_access()
            && (self.is_write() || other.is_write())
            && !(self.is_atomic() && other.is_atomic())
    }

    /// Whether what clashes with the old kind clashes with this one.
    pub fn outdoes(self, old: TouchKind) -> bool
        ensures { result ≡ outdoes self old }
    {
        self.is_access()
            && (!old.is_write() || self.is_write())
            && (!self.is_atomic() || old.is_atomic())
    }
}

/// A touch of the cells from `from` up to `to`, and where in the text it stands.
#[derive(Clone, Copy, Debug, PartialEq, Eq)]
pub struct Touch {
    pub kind: TouchKind,
    /// The number of the block.
    pub block: u64,
    /// The first cell.
    pub from: u32,
    /// The cell behind the last.
    pub to: u32,
    /// The place in the text.
    pub place: u32,
}

/// A touch of one cell: its turn, that one's thread, and its kind.
#[derive(Clone, Copy, Debug, Default, PartialEq, Eq)]
pub struct Seen {
    pub turn: u64,
    pub thread: u32,
    pub kind: TouchKind,
}
