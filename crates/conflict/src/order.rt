ghost use Rattle.std.specs.Prelude.{◌≡◌, ◌&&◌};
ghost use Rattle.words.specs.Stamps.{is_earlier, earlier};

use words::Stamp;

/// Whether one request comes before another, by their transactions' stamps. A request outside a transaction has no stamp: it comes
/// before none, and none before it.
pub fn earlier(a: Option<Stamp>, b: Option<Stamp>) -> bool
    ensures { result ≡ earlier a b }
{
    match (a, b) {
        (Some(a), Some(b)) => is_earlier(a, b),
        _ => false,
    }
}

fn is_earlier(a: Stamp, b: Stamp) -> bool
    ensures { result ≡ is_earlier a b }
{
    a.count < b.count || a.count == b.count && a.hart.index() < b.hart.index()
}

/// Whether a transaction aborts when its request ends refused: it has itself refused an earlier one since it began, so that the
/// two may wait for each other, and one that refused it is earlier.
pub fn must_abort(possible_cycle: bool, earlier_refused: bool) -> bool
    ensures { result ≡ possible_cycle && earlier_refused }
{
    possible_cycle && earlier_refused
}

#[cfg(test)]
mod tests {
    use super::*;
    use words::HartId;

    fn stamp(count: u64, hart: usize) -> Option<Stamp> {
        let hart = HartId::try_new(hart)?;
        Some(Stamp { count, hart })
    }

    #[test]
    fn requests_in_order(rt: HostRuntime) {
        let cases = [
            (stamp(0, 0), stamp(1, 1), true),
            (stamp(1, 1), stamp(2, 0), true),
            (stamp(0, 0), stamp(2, 0), true),
            (stamp(1, 1), stamp(0, 0), false),
            (stamp(2, 0), stamp(1, 1), false),
            (stamp(1, 0), stamp(1, 1), true),
            (stamp(1, 1), stamp(1, 1), false),
            (None, stamp(0, 0), false),
            (stamp(0, 0), None, false),
            (None, None, false),
        ];
        for (a, b, is) in cases {
            assert_eq!(rt; earlier(a, b), is, "{a:?} before {b:?}");
        }
    }

    #[test]
    fn gives_way_in_a_cycle_alone(rt: HostRuntime) {
        assert!(rt; must_abort(true, true));
        assert!(rt; !must_abort(true, false) && !must_abort(false, true));
        assert!(rt; !must_abort(false, false));
    }
}
