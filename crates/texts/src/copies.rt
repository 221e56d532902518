ghost use Rattle.std.specs.Prelude.{◌≡◌, ◌≤◌, ◌*◌, length};

/// Copies a text over one of its length. Where it is short, that takes no call.
#[inline(always)]
pub(crate) fn copy(text: &[u8], to: &mut [u8])
    requires { length to.old ≡ length text.now }
    ensures { to.new ≡ text.now }
{
    let len = text.len();
    if len > 16 {
        to.copy_from_slice(text);
    } else if len >= 8 {
        copy_ends::<8>(text, to);
    } else if len >= 4 {
        copy_ends::<4>(text, to);
    } else if len >= 2 {
        copy_ends::<2>(text, to);
    } else if len == 1 {
        to[0] = text[0];
    }
}

/// Copies a text by its first `N` bytes and by its last `N`, which may overlap.
#[inline(always)]
pub(crate) fn copy_ends<const N: usize>(text: &[u8], to: &mut [u8])
    requires same { length to.old ≡ length text.now }
    requires long { N ≤ length text.now }
    requires short { length text.now ≤ 2 * N }
    ensures { to.new ≡ text.now }
{
    if let Some(first) = text.first_chunk::<N>() {
        if let Some(place) = to.first_chunk_mut::<N>() {
            *place = *first;
        }
    }
    if let Some(last) = text.last_chunk::<N>() {
        if let Some(place) = to.last_chunk_mut::<N>() {
            *place = *last;
        }
    }
}
