ghost use Rattle.std.specs.Prelude.{◌≡◌, ◌≢◌, ◌↔◌, ℕ, false, IsSome};
ghost use Rattle.std.specs.Option.{option_map, option_map_or};
ghost use Rattle.protocol.specs.Directory.{first_entry};
ghost use Rattle.directory.specs.Blocks.{kept_at};
ghost use Rattle.machine.specs.Turns.{is_held};

use crate::machine::Machine;
use crate::turns::is_held;
use directory::DirEntry;
use std::collections::BTreeMap;
use words::{BlockNo, HartId};

/// What waits for what, and which blocks are reserved or in use.
impl<const SETS: usize, const WAYS: usize> Machine<SETS, WAYS> {
    ghost use Rattle.machine.specs.States.{shown};

    /// Whether the directory holds the message with a number: its block is busy with another request. Where there is none nothing is held.
    pub fn is_held(&self, number: u64) -> bool
        ensures { result ≡ option_map_or (is_held (shown SETS self.now)) ((shown SETS self.now).net number) false }
    {
        match self.net.get(number) {
            Some(message) => is_held(&self.directory, &message),
            None => false,
        }
    }

    /// The block that a hart's request is for, while one is out. `None` where there is no such hart.
    pub fn waits_for(&self, id: HartId) -> Option<BlockNo>
        ensures { result ≡ option_map (λ r. r.block) ((shown SETS self.now).harts id).request }
    {
        let request = self.seats.get(id.index())?.hart.request()?;
        Some(request.block)
    }

    /// The block that a hart has reserved. `None` where there is no such hart.
    pub fn reserved_by(&self, id: HartId) -> Option<BlockNo>
        ensures { result ≡ ((shown SETS self.now).harts id).reserved }
    {
        self.seats.get(id.index())?.hart.reserved()
    }

    /// The entries of the directory that aren't the first one, by the numbers of their blocks.
    pub fn kept(&self) -> &BTreeMap<u32, DirEntry>
        ensures entries { result.now.entries ≡ self.now.directory.kept }
        ensures exact { (b : ℕ) → IsSome (kept_at self.now.directory b) ↔ ((shown SETS self.now).entries b ≢ first_entry) }
    {
        self.directory.kept()
    }
}
