ghost use Rattle.std.specs.Prelude.{◌≡◌, ◌<◌, ◌≤◌, nat_lt, is_some};
ghost use Rattle.flat.specs.State.{Setting, Flat};
ghost use Rattle.flat.specs.Reads.{is_readable, word_if, shown_if};

use words::{Addr, HartId, Regs, Status};

/// A machine that flat states belong to. What is read of it is what each of them has.
///
/// A machine to which no flat state belongs would meet the clauses on values with any answer: what makes machines says that
/// the state of the start belongs to the first, and that each step carries it on.
pub trait Engine {
    /// The program's segments, the size of memory and the number of harts.
    ghost setting: { Self → Setting };

    /// The flat state belongs to the machine.
    ghost belongs: { Flat → Self → Type 0 };

    /// How many harts there are, 8 at most.
    fn harts(&self) -> usize
        ensures count { result ≡ (setting self.now).count }
        ensures few { result ≤ 8 };

    /// The word of memory at an address: what all commits so far have left there. `None` where the address isn't a
    /// multiple of 4 below the undo logs.
    fn peek(&self, addr: Addr) -> Option<u32>
        ensures readable { is_some result ≡ is_readable (setting self.now) addr }
        ensures value { (f : Flat) → belongs f self.now → result ≡ word_if f.setting f.mem addr };

    /// A hart's registers, pc and status. `None` where there is no such hart.
    fn regs(&self, id: HartId) -> Option<(Regs, Addr, Status)>
        ensures known { is_some result ≡ nat_lt id (setting self.now).count }
        ensures value { (f : Flat) → belongs f self.now → result ≡ shown_if f id };

    /// The bytes that a hart has put out, in order.
    fn output(&self, id: HartId) -> &[u8]
        requires { id < (setting self.now).count }
        ensures { (f : Flat) → belongs f self.now → result.now ≡ (f.hart id).output };

    /// A flat state that belongs to the machine has its setting.
    ghost same_setting: { (f : Flat) (m : Self) → belongs f m → f.setting ≡ setting m };
}
