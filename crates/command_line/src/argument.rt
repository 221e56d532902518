/// What a value of the command line is for.
#[derive(Clone, Copy, Debug, PartialEq, Eq)]
pub enum Argument {
    /// `--harts`.
    Harts,
    /// `--memory`.
    Memory,
    /// `--steps`.
    Steps,
    /// `--cache`.
    Cache,
    /// `--stats`.
    Stats,
    /// `--seed`.
    Seed,
    /// `--mix`.
    Mix,
    /// `--trace`.
    Trace,
    /// `--timeline`.
    Timeline,
    /// `--history`.
    History,
    /// `--states`.
    States,
    /// `--witness`, whichever of its two values it is.
    Witness,
    /// A WORD.
    Word,
}
