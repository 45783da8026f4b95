//! Files in memory, by name and by place.
ghost use Rattle.std.specs.Prelude.{◌≡◌, ◌≤◌, ◌<◌, ◌+◌, ◌^◌, ◌↔◌, ◌++◌, [], Some, None, length, take, drop, min, position, IfSome, IfNone};
ghost use Rattle.osal_outside.specs.Memory.{stored, found, is_named, bytes_at, rest_from};

use osal_base::Bytes;

/// The first place at which a file has that name.
fn first_named(files: &[(String, Bytes)], name: &str) -> Option<usize>
    ensures { result ≡ position (is_named name.now) files.now }
{
    files.iter().position(|file| file.0.as_str() == name)
}

/// The place of the file of that name.
pub fn place_of(files: &[(String, Bytes)], name: &str) -> Option<usize>
    ensures there { IfSome result (λ place.
        found (stored files.now) name.now ≡ Some (bytes_at files.now place)) }
    ensures none { IfNone result (found (stored files.now) name.now ≡ None) }
{
    first_named(files, name)
}

/// What is left of the open file.
pub fn rest_of(files: &[(String, Bytes)], current: Option<usize>, at: usize) -> &[u8]
    ensures value { result.now ≡ rest_from files.now current at }
    ensures bound { at + length result.now < 2 ^ 64 }
{
    let Some(place) = current else {
        return &[];
    };
    let bytes = bytes_of(files, place);
    if at > bytes.len() {
        return &[];
    }
    &bytes[at..]
}

/// The bytes of the file in that place.
fn bytes_of(files: &[(String, Bytes)], place: usize) -> &[u8]
    ensures { result.now ≡ bytes_at files.now place }
{
    match files.get(place) {
        Some(file) => file.1.as_slice(),
        None => &[],
    }
}

/// Moves the front of the rest into the front of the buffer.
pub fn fill(rest: &[u8], grain: u32, buf: &mut [u8]) -> usize
    requires room { 0 < length buf.old }
    requires grain { 1 ≤ grain }
    ensures count { result ≡ min (min (length rest.now) (length buf.old)) grain }
    ensures bytes { rest.now ≡ take result buf.new ++ drop result rest.now }
    ensures end { (result ≡ 0) ↔ (rest.now ≡ []) }
{
    let n = rest.len().min(buf.len()).min(grain as usize);
    buf[..n].copy_from_slice(&rest[..n]);
    n
}
