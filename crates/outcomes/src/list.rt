//! Lists of plain values. Generic, since the check can't follow a list of entries through the list's own methods.
ghost use Rattle.std.specs.Prelude.{◌≡◌, ◌++◌, [], ◌∷◌, OnOk, cond, reverse};

use std::alloc::AllocError;

/// Puts an item at the end. It fails only if memory runs out.
pub fn push<T: Copy>(list: &mut Vec<T>, item: T) -> Result<(), AllocError>
    ensures { OnOk result (list.new.items ≡ list.old.items ++ item ∷ []) }
{
    list.reserve(1)?;
    list.push_reserved(item);
    Ok(())
}

/// Puts an item at the end, if it is asked for. It fails only if memory runs out.
pub fn push_if<T: Copy>(list: &mut Vec<T>, item: T, yes: bool) -> Result<(), AllocError>
    ensures { OnOk result (list.new.items ≡ cond yes (list.old.items ++ item ∷ []) list.old.items) }
{
    if yes {
        push(list, item)?;
    }
    Ok(())
}

/// Turns a list round.
pub fn turn_round<T: Copy>(list: &mut Vec<T>)
    ensures { list.new.items ≡ reverse list.old.items }
{
    list.reverse();
}
