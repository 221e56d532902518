ghost use Rattle.disassembler.specs.Nearest.{NearestIsFound};

/// The symbol that an address is named by is the nearest at or below it, and there is one unless all lie above.
pub fn nearest_symbol_is_found()
    ensures { NearestIsFound }
{}
