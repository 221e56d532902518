ghost use Rattle.std.specs.Prelude.{◌≡◌};
ghost use Rattle.words.specs.Marks.{refuses};

use words::{Kind, Marks};

/// Whether a hart refuses a request for a block, by the marks of its line of it, if it has one. `overflow` says whether its
/// transaction has given up a marked line: then an absent block may be one that it used.
pub fn refuses(line: Option<Marks>, overflow: bool, kind: Kind) -> bool
    ensures { result ≡ refuses line overflow kind }
{
    let Some(marks) = line else {
        return overflow;
    };
    match kind {
        Kind::Read => marks.written || marks.overflowed,
        Kind::Write => marks.is_marked(),
    }
}

#[cfg(test)]
mod tests {
    use super::*;

    #[test]
    fn refuses_by_marks(rt: HostRuntime) {
        let none = Marks::none();
        let cases = [
            (Some(none), false, false),
            (Some(Marks { read: true, ..none }), false, true),
            (
                Some(Marks {
                    written: true,
                    ..none
                }),
                true,
                true,
            ),
            (
                Some(Marks {
                    overflowed: true,
                    ..none
                }),
                true,
                true,
            ),
        ];
        for (line, read, write) in cases {
            for overflow in [false, true] {
                assert_eq!(rt; refuses(line, overflow, Kind::Read), read, "read {line:?}");
                assert_eq!(rt;
                    refuses(line, overflow, Kind::Write),
                    write,
                    "write {line:?}"
                );
            }
        }
        for kind in [Kind::Read, Kind::Write] {
            assert!(rt; refuses(None, true, kind) && !refuses(None, false, kind));
        }
    }
}
