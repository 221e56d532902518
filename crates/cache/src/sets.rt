ghost use Rattle.std.specs.Prelude.{◌≡◌, ◌↔◌, ◌<◌, ℕ, [], length, get_or, map, true, false, IsTrue};
ghost use Rattle.std.specs.Option.{option_map};
ghost use Rattle.cache.specs.Line.{without_marks};
ghost use Rattle.cache.specs.Ways.{has_line};
ghost use Rattle.cache.specs.Occupied.{may_have, mask_of};

use crate::line::Line;
use crate::occupied::Occupied;
use crate::ways::clear_ways;

/// Whether two caches have the same lines in the sets that may have one.
pub fn same_sets<const WAYS: usize>(
    sets: &[[Option<Line>; WAYS]],
    others: &[[Option<Line>; WAYS]],
    occupied: &Occupied,
) -> bool
    requires { length others.now ≡ length sets.now }
    ensures { IsTrue result ↔ ((s : ℕ) → may_have occupied.now s ≡ true → get_or sets.now s [] ≡ get_or others.now s []) }
{
    let mut set = occupied.next(0);
    while set < sets.len() {
        if !same_ways(&sets[set], &others[set]) {
            return false;
        }
        set = occupied.next(set + 1);
    }
    true
}

fn same_ways<const WAYS: usize>(ways: &[Option<Line>; WAYS], others: &[Option<Line>; WAYS]) -> bool
    ensures { IsTrue result ↔ (ways.now ≡ others.now) }
{
    *ways == *others
}

/// Makes sets those of another cache. Copies only those that may differ: a set that neither says to have a line is the same in both.
pub fn assign_sets<const WAYS: usize>(
    sets: &mut [[Option<Line>; WAYS]],
    others: &[[Option<Line>; WAYS]],
    either: &Occupied,
)
    requires size { length others.now ≡ length sets.old }
    requires same { (s : ℕ) → may_have either.now s ≡ false → get_or sets.old s [] ≡ get_or others.now s [] }
    ensures { sets.new ≡ others.now }
{
    let mut set = either.next(0);
    while set < sets.len() {
        sets[set].copy_from_slice(&others[set]);
        set = either.next(set + 1);
    }
}

/// Takes the marks of every line away.
pub fn clear_sets<const WAYS: usize>(sets: &mut [[Option<Line>; WAYS]], occupied: &Occupied)
    requires { occupied.now ≡ mask_of 64 (map has_line sets.old) }
    ensures { sets.new ≡ map (map (option_map without_marks)) sets.old }
{
    let mut set = occupied.next(0);
    while set < sets.len() {
        clear_ways(&mut sets[set]);
        set = occupied.next(set + 1);
    }
}
