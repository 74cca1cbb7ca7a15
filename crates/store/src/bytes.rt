// Bytes at a place of a store: reading, writing and moving them.
ghost use Rattle.std.specs.Prelude.{◌≡◌, ◌+◌, ◌≤◌, length, take, drop};
ghost use Rattle.store.specs.Numbers.{laid};

// The bytes that stand at a place.
pub(crate) fn bytes_at<const N: usize>(store: &[u8], at: usize) -> [u8; N]
    requires { at + N ≤ length store.now }
    ensures { result ≡ take N (drop at store.now) }
{
    let mut bytes = [0; N];
    bytes.copy_from_slice(&store[at..at + N]);
    bytes
}

// Writes bytes from a place on; every other byte stays.
pub(crate) fn write_bytes(store: &mut [u8], at: usize, bytes: &[u8])
    requires { at + length bytes.now ≤ length store.old }
    ensures { store.new ≡ laid at bytes.now store.old }
{
    store[at..at + bytes.len()].copy_from_slice(bytes);
}

// Moves `n` bytes down from one place to another; every other byte stays.
pub(crate) fn move_bytes(store: &mut [u8], from: usize, to: usize, n: usize)
    requires { (to ≤ from) × (from + n ≤ length store.old) }
    ensures { store.new ≡ laid to (take n (drop from store.old)) store.old }
{
    store.copy_within(from..from + n, to);
}
