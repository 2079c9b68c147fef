//! The first 32 bytes of a log.
ghost use Rattle.std.specs.Prelude.{◌≡◌, ◌≤◌, ◌↔◌, IsTrue, IfSome, IsSome, length};
ghost use Rattle.sqlite_wal.specs.Format.{be32, IsSigned};
ghost use Rattle.sqlite_wal.specs.PageSize.{IsPageSize, bytes_of};

use crate::bytes::{number_at, sum_at};
use sqlite_wal::{PageSize, checksum_of};

pub(crate) const HEADER: usize = 32;

/// The fourth byte of a header whose checksums read words with the highest byte first.
pub(crate) const BIG: u8 = 0x83;

/// The count of checkpoints that a log has before its first one.
const BEGUN: u32 = 0xffff_ffff;

/// Whether a header begins as each does, and ends with its checksum.
pub(crate) fn is_signed(head: &[u8]) -> bool
    requires { 32 ≤ length head.now }
    ensures { IsTrue result ↔ IsSigned head.now }
{
    if head[0] != 0x37 || head[1] != 0x7f || head[2] != 0x06 {
        return false;
    }
    if head[3] != 0x82 && head[3] != 0x83 {
        return false;
    }
    checksum_of(head[3] == BIG, (0, 0), &head[..24]) == sum_at(head, 24)
}

/// Whether a header is of a log that had no checkpoint yet.
pub(crate) fn is_begun(head: &[u8]) -> bool
    requires { 32 ≤ length head.now }
    ensures { IsTrue result ↔ (be32 head.now 12 ≡ 0xffff_ffff) }
{
    number_at(head, 12) == BEGUN
}

/// The bytes of a page, if it is a size that pages have.
pub(crate) fn page_size(head: &[u8]) -> Option<PageSize>
    requires { 32 ≤ length head.now }
    ensures valid { IsSome result ↔ IsPageSize (be32 head.now 8) }
    ensures value { IfSome result (λ size. bytes_of size ≡ be32 head.now 8) }
{
    PageSize::new(number_at(head, 8) as usize)
}
