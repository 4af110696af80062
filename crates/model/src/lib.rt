// The types of the interface. Document 01 itself is in specs/.
#![tactic(auto)]

ghost use Rattle.std.specs.Prelude.{◌≡◌};
ghost use Rattle.model.specs.Interface.{refusal_number, number_of, no_counters, defaults_at};

// Which algorithm to run.
#[derive(Clone, Copy)]
pub enum Strategy {
    Merge,
    Litinski,
}

// Whether even rotations wait: none, all, or those behind a measurement or conditional rotation, named by its place in the program.
#[derive(Clone, Copy)]
pub enum Lazy {
    Off,
    On,
    From(usize),
}

// What becomes of even rotations now: they stay, are absorbed at their turn, or wait.
#[derive(Clone, Copy)]
pub enum Absorption {
    Off,
    AtOnce,
    Lazy,
}

// The options of `OptimizeOptions`, the order of ties and the place of a change to lazy absorption, which it does not have.
#[derive(Clone, Copy)]
pub struct Options {
    pub lookback: usize,
    pub window: usize,
    pub candidates: usize,
    pub rounds: usize,
    pub clifford_to_frame: bool,
    pub eager_swaps: bool,
    pub second_exchange_first: bool,
    pub lazy_cliffords: Lazy,
    pub strategy: Strategy,
    pub measure_depth: bool,
    pub max_packed_words: usize,
}

// What an exchange goes by, of the options.
#[derive(Clone, Copy)]
pub struct ExchangeRules {
    pub window: usize,
    pub candidates: usize,
    pub eager: bool,
    pub second_first: bool,
}

// Rust's defaults, at a word limit.
pub fn defaults(limit: usize) -> Options
    ensures { result ≡ defaults_at limit }
{
    Options {
        lookback: 1048576,
        window: 0,
        candidates: 16,
        rounds: 8,
        clifford_to_frame: true,
        eager_swaps: true,
        second_exchange_first: false,
        lazy_cliffords: Lazy::Off,
        strategy: Strategy::Merge,
        measure_depth: false,
        max_packed_words: limit,
    }
}

// How wide a listing's fields are, as the model's `columns`.
pub const COLUMNS: usize = 8;

// How many qubits, nodes and operations a program has.
#[derive(Clone, Copy)]
pub struct Counts {
    pub qubits: usize,
    pub nodes: usize,
    pub operations: usize,
}

// Why a call is refused, as document 01 numbers it.
#[derive(Clone, Copy, PartialEq, Eq)]
pub enum Refusal {
    CountOutside = 1,
    OptionOutside = 2,
    SliceShort = 3,
    BadNode = 4,
    BadQubit = 5,
    BadReference = 6,
    BadOperation = 7,
    BadOutcome = 8,
    NonHermitianAxis = 9,
    ExpansionLimit = 10,
    BadText = 11,
    BadPlace = 16,
}

impl From<Refusal> for u32 {
    ghost from_gives = { λ r n. n ≡ refusal_number r };

    fn from(refusal: Refusal) -> u32 {
        refusal as u32
    }
}

// Refusal 10, by what stores a word: the limit leaves no room for it.
#[derive(Clone, Copy)]
pub struct ExpansionLimit;

// Document 01's number of an answer: 0 where the call is accepted.
pub fn number_of(answer: Result<(), Refusal>) -> u32
    ensures { result ≡ number_of answer }
{
    match answer {
        Ok(()) => 0,
        Err(refusal) => refusal.into(),
    }
}

// The run's counters: those of `OptimizeStats`, without the axis summaries, and the largest word sum that was tested.
#[derive(Clone, Copy)]
pub struct Counters {
    pub t_before: usize,
    pub t_after: usize,
    pub rotations_before: usize,
    pub rotations_after: usize,
    pub merges: usize,
    pub swaps: usize,
    pub cliffords_to_frame: usize,
    pub t_depth_before: usize,
    pub t_depth_after: usize,
    pub weight_before: usize,
    pub weight_after: usize,
    pub packed_words: usize,
}

// What every run starts from, and what every refusal leaves.
pub fn no_counters() -> Counters
    ensures { result ≡ no_counters }
{
    Counters {
        t_before: 0,
        t_after: 0,
        rotations_before: 0,
        rotations_after: 0,
        merges: 0,
        swaps: 0,
        cliffords_to_frame: 0,
        t_depth_before: 0,
        t_depth_after: 0,
        weight_before: 0,
        weight_after: 0,
        packed_words: 0,
    }
}
