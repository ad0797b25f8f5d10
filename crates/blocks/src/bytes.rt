// Numbers of several bytes, high byte first, read from a slice.
ghost use Rattle.std.specs.Prelude.{◌≡◌, ◌+◌, length, if◌then◌else◌, Some, None, nat_le, take, drop};
ghost use Rattle.blocks.specs.Bytes.{number_at};

// The `N` bytes from `at` on, if the slice reaches so far.
fn bytes_at<const N: usize>(bytes: &[u8], at: usize) -> Option<[u8; N]>
    ensures { result ≡ (if nat_le (at + N) (length bytes.now) then Some (take N (drop at bytes.now)) else None) }
{
    let (front, _) = bytes.get(at..)?.split_first_chunk()?;
    Some(*front)
}

// The 16-bit number at `at`, if the slice reaches so far.
pub fn u16_at(bytes: &[u8], at: usize) -> Option<u16>
    ensures { result ≡ (if nat_le (at + 2) (length bytes.now) then Some (number_at bytes.now at 2) else None) }
{
    Some(u16::from_be_bytes(bytes_at(bytes, at)?))
}

// The 32-bit number at `at`, if the slice reaches so far.
pub fn u32_at(bytes: &[u8], at: usize) -> Option<u32>
    ensures { result ≡ (if nat_le (at + 4) (length bytes.now) then Some (number_at bytes.now at 4) else None) }
{
    Some(u32::from_be_bytes(bytes_at(bytes, at)?))
}

// The 64-bit number at `at`, if the slice reaches so far.
pub fn u64_at(bytes: &[u8], at: usize) -> Option<u64>
    ensures { result ≡ (if nat_le (at + 8) (length bytes.now) then Some (number_at bytes.now at 8) else None) }
{
    Some(u64::from_be_bytes(bytes_at(bytes, at)?))
}
