ghost use Rattle.std.specs.Prelude.{◌*◌, ◌≤◌, IsTrue};
ghost use Rattle.std.specs.Option.{ForSome};
ghost use Rattle.flat_rules.specs.Ranges.{is_sub_heap_size};

/// What the program does.
#[derive(Clone, Copy, Debug, PartialEq, Eq)]
pub enum Mode {
    /// It runs a file.
    Run,
    /// It runs a text that it makes itself.
    Churn,
    /// It says which rule of C a file breaks first.
    Check,
    /// It runs a file, and says whether two of its accesses race.
    Race,
    /// It writes the code of a file.
    Build,
    /// It runs code that was written so.
    Load,
}

/// What the program is told. By its type each number is in its range.
#[derive(Debug, Drop)]
pub struct Settings {
    /// The file that is run.
    pub file: Option<String>,
    /// How many workers there are.
    pub workers: u32,
    /// The seed of the draws that say which thread goes out.
    pub schedule: Option<u64>,
    /// After how many turn entries a barrier is wanted.
    pub every: Option<u32>,
    /// How many bytes a sub-heap has.
    pub subheap: u32,
    /// How many sub-heaps there are.
    pub subheaps: u32,
    /// How many objects may live.
    pub ids: u32,
    /// How many entries the journal may have.
    pub entries: u32,
    /// Whether objects are moved out of thin sub-heaps before a barrier.
    pub evacuate: bool,
    /// How many bytes may be printed.
    pub output: u32,
    /// What the program does.
    pub mode: Mode,
    /// The seed of the text that it makes.
    pub seed: Option<u64>,
    /// The size of that text.
    pub size: Option<u32>,
    pub ghost some_workers: { (1 ≤ workers) × (workers ≤ 16) },
    pub ghost every_some: { ForSome every (λ n. (1 ≤ n) × (n ≤ 1000000)) },
    pub ghost sub_heap_size: { IsTrue (is_sub_heap_size subheap) },
    pub ghost some_sub_heaps: { (1 ≤ subheaps) × (subheaps ≤ 256) },
    pub ghost heap_is_bounded: { subheaps * subheap ≤ 268435456 },
    pub ghost some_ids: { (1 ≤ ids) × (ids ≤ 1048576) },
    pub ghost some_entries: { (1000 ≤ entries) × (entries ≤ 16000000) },
    pub ghost some_output: { (1 ≤ output) × (output ≤ 16777216) },
    pub ghost text_size: { ForSome size (λ n. (1 ≤ n) × (n ≤ 4000)) },
}
