ghost use Rattle.std.specs.Prelude.{◌≡◌, ◌≤◌, ◌-◌, length};
ghost use Rattle.watch.specs.CountTexts.{blanks, kinds, kind_name};

use crate::kinds::Kind;

/// The kinds, in the order in which they are shown.
pub(crate) fn kinds() -> [Kind; 16]
    ensures { result ≡ kinds }
{
    [
        Kind::Retired,
        Kind::Begun,
        Kind::Committed,
        Kind::Asked,
        Kind::Conflicted,
        Kind::LogFull,
        Kind::Trapped,
        Kind::Refused,
        Kind::WasRefused,
        Kind::Spilled,
        Kind::LoadHit,
        Kind::LoadMissed,
        Kind::StoreHit,
        Kind::StoreMissed,
        Kind::Upgraded,
        Kind::Held,
    ]
}

/// What a kind is called.
pub(crate) fn kind_name(kind: Kind) -> &'static str
    ensures { result.now ≡ kind_name kind }
{
    match kind {
        Kind::Retired => "retired",
        Kind::Begun => "begun",
        Kind::Committed => "committed",
        Kind::Asked => "aborted-asked",
        Kind::Conflicted => "aborted-conflict",
        Kind::LogFull => "aborted-logfull",
        Kind::Trapped => "aborted-trap",
        Kind::Refused => "refused",
        Kind::WasRefused => "was-refused",
        Kind::Spilled => "spilled",
        Kind::LoadHit => "load-hits",
        Kind::LoadMissed => "load-misses",
        Kind::StoreHit => "store-hits",
        Kind::StoreMissed => "store-misses",
        Kind::Upgraded => "upgrades",
        Kind::Held => "held",
    }
}

/// Blanks that make a text of this length as wide as a column.
pub(crate) fn padding(width: usize, used: usize) -> &'static [u8]
    requires { width ≤ 17 }
    ensures { result.now ≡ blanks (width - used) }
{
    &b"                 "[..width.saturating_sub(used)]
}
