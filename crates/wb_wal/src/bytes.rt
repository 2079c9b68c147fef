//! Numbers and counts in bytes.
ghost use Rattle.std.specs.Prelude.{◌≡◌, ◌+◌, ◌≤◌, ◌↔◌, IsTrue, length};
ghost use Rattle.sqlite_wal.specs.Format.{be32, be64, stored_sum, zeros};
ghost use Rattle.wb_wal.specs.Look.{AreRightOrLost};

/// A checksum: two words.
pub(crate) type Sum = (u32, u32);

/// The four bytes from a place as a number, the highest first.
pub(crate) fn number_at(bytes: &[u8], at: usize) -> u32
    requires { at + 4 ≤ length bytes.now }
    ensures { result ≡ be32 bytes.now at }
{
    bytes[at] as u32 * 0x100_0000
        + bytes[at + 1] as u32 * 0x1_0000
        + bytes[at + 2] as u32 * 0x100
        + bytes[at + 3] as u32
}

/// The eight bytes from the beginning as a number, the highest first.
pub(crate) fn first_number(bytes: &[u8]) -> u64
    requires { 8 ≤ length bytes.now }
    ensures { result ≡ be64 bytes.now 0 }
{
    number_at(bytes, 0) as u64 * 0x1_0000_0000 + number_at(bytes, 4) as u64
}

/// The checksum that is stored at a place.
pub(crate) fn sum_at(bytes: &[u8], at: usize) -> Sum
    requires { at + 8 ≤ length bytes.now }
    ensures { result ≡ stored_sum bytes.now at }
{
    (number_at(bytes, at), number_at(bytes, at + 4))
}

/// How many bytes are 0.
pub(crate) fn zeros_in(bytes: &[u8]) -> u64
    ensures value { result ≡ zeros bytes.now }
    ensures few { result ≤ length bytes.now }
{
    let mut count = 0;
    for i in 0..bytes.len() {
        count += if bytes[i] == 0 { 1 } else { 0 };
    }
    count
}

/// Whether each of these bytes is right, or was lost to a 0.
pub(crate) fn are_right_or_lost(bytes: &[u8], right: &[u8]) -> bool
    requires { length bytes.now ≡ length right.now }
    ensures { IsTrue result ↔ AreRightOrLost bytes.now right.now }
{
    for i in 0..bytes.len() {
        if bytes[i] != 0 && bytes[i] != right[i] {
            return false;
        }
    }
    true
}
