//! Room in a list. Generic, since the check can't follow a list of entries through the list's own methods.
ghost use Rattle.std.specs.Prelude.{◌≡◌, ◌<◌, ◌++◌, OnOk, OnErr, IfOk, is_ok, vec_len, vec_capacity, option_to_list};

use std::alloc::AllocError;

/// Makes room for one item more. It fails only if memory runs out.
pub fn make_room<T: Copy>(list: &mut Vec<T>) -> Result<(), AllocError>
    ensures items { list.new.items ≡ list.old.items }
    ensures room { OnOk result (vec_len list.new < vec_capacity list.new) }
{
    list.reserve(1)
}

/// Pushes the item of an answer, if there is one, into room that is there.
pub fn append<T: Copy>(
    list: &mut Vec<T>,
    answer: Result<Option<T>, AllocError>,
) -> Result<(), AllocError>
    requires { vec_len list.old < vec_capacity list.old }
    ensures ok { OnOk result (IfOk answer (λ item. list.new.items ≡ list.old.items ++ option_to_list item)) }
    ensures both { is_ok result ≡ is_ok answer }
    ensures err { OnErr result (list.new.items ≡ list.old.items) }
{
    if let Some(item) = answer? {
        list.push_reserved(item);
    }
    Ok(())
}
