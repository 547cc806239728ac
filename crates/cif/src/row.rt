// A row that was found whole.
ghost use Rattle.std.specs.Prelude.{◌≡◌, true, length, IsTrue};
ghost use Rattle.cif.specs.Refusals.{is_missing};
ghost use Rattle.cif.specs.Rows.{first_bad};

use crate::identity::Identity;

/// How many bytes a row has. Its columns count from 1.
pub const ROW_LENGTH: usize = 80;

/// A row that was found whole: 80 bytes, each from 32 to 126, and their identity.
#[derive(Clone, Copy, Debug, PartialEq, Eq)]
pub struct Row {
    pub(crate) bytes: [u8; ROW_LENGTH],
    pub(crate) identity: Identity,
    ghost long: { length bytes ≡ 80 },
    ghost printable: { IsTrue (is_missing (first_bad bytes)) },
}
