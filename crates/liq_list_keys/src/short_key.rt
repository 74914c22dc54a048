//! A key in 8 bytes.

ghost use Rattle.std.specs.Prelude.{◌≡◌, ◌<ℤ◌, true, refl, IfSome, IfNone};
ghost use Rattle.liq_list_keys.specs.ShortKey.{is_short, no_key};

use liq_tables::Row;

/// A key that fits an i64. The least i64 stands for none.
#[derive(Clone, Copy)]
pub struct ShortKey {
    pub key: i64,
}

impl Row for ShortKey {
    ghost used = { is_short };

    ghost nothing = { no_key };

    fn is_used(&self) -> bool {
        self.key != i64::MIN
    }

    fn nothing() -> ShortKey {
        ShortKey { key: i64::MIN }
    }

    ghost is_unused = { refl };
}

impl ShortKey {
    /// A key, if it can be kept: where it fits an i64 and is not the least of all.
    pub fn of(key: i128) -> Option<ShortKey>
        ensures kept { IfSome result (λ kept. is_short kept ≡ true) }
        ensures same { IfSome result (λ kept. kept.key ≡ key) }
        ensures far { IfNone result (i64.MIN <ℤ key → i64.MAX <ℤ key) }
    {
        match i64::try_from(key) {
            Ok(key) if key != i64::MIN => Some(ShortKey { key }),
            _ => None,
        }
    }
}
