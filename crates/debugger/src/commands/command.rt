use schedule::Sort;

/// What a line asks the debugger for. Harts and addresses are as they were typed: nothing says yet that there is such a hart, or a word
/// at such an address.
#[derive(Clone, Copy, Debug, PartialEq, Eq)]
pub enum Command {
    /// `step`: turns until an entry.
    Step,
    /// `run`, `run N`: turns until no hart runs, a breakpoint, or so many steps.
    Run(u32),
    /// `break B`: sets a breakpoint, or clears it.
    Break(u32),
    /// `core H`: one step of a hart's core.
    Core(u32),
    /// `evict H A`: a hart gives up its line of a block.
    Evict(u32, u32),
    /// `deliver SORT H A`: a message arrives.
    Deliver(Sort, u32, u32),
    /// A look at the machine, which changes nothing.
    Look(Look),
    /// A line that begins with `#`: nothing.
    Comment,
    /// `quit`.
    Quit,
}

/// A look at the machine.
#[derive(Clone, Copy, Debug, PartialEq, Eq)]
pub enum Look {
    /// `regs H`: registers, pc and status.
    Regs(u32),
    /// `word A`: a word of memory, with the undo logs undone.
    Word(u32),
    /// `raw A`: a word as it stands in place.
    Raw(u32),
    /// `view H A`: a word as a hart sees it.
    View(u32, u32),
    /// `line H A`: a hart's line of a block.
    Line(u32, u32),
    /// `dir A`: the directory's entry of a block.
    Dir(u32),
    /// `dirs`: all entries that are kept.
    Dirs,
    /// `tx H`: a hart's transaction.
    Tx(u32),
    /// `log A`: a word of an undo log.
    Log(u32),
    /// `dis B`: a word of text as an instruction.
    Dis(u32),
    /// `messages`: those in flight, the oldest first.
    Messages,
    /// `harts`: how far each hart has come.
    Harts,
    /// `help`: the commands.
    Help,
}
