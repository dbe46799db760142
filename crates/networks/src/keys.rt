// The two parts of a key: a room in front, and a partial behind it.
ghost use Rattle.std.specs.Prelude.{◌≡◌, ◌+◌, ◌≤◌, ◌++◌, length, take, drop};

/// The room of a key.
#[inline(always)]
pub fn front(key: &[i128], width: usize) -> &[i128]
    requires { width ≤ length key.now }
    ensures room { result.now ≡ take width key.now }
    ensures long { length result.now ≡ width }
{
    &key[..width]
}

/// The partial of a key.
#[inline(always)]
pub fn behind(key: &[i128], width: usize) -> &[i128]
    requires { width ≤ length key.now }
    ensures { result.now ≡ drop width key.now }
{
    &key[width..]
}

/// Writes a room in front of a key.
#[inline(always)]
pub fn write_front(room: &[i128], key: &mut [i128])
    requires { length room.now ≤ length key.old }
    ensures long { length key.new ≡ length key.old }
    ensures room { take (length room.now) key.new ≡ room.now }
{
    key[..room.len()].copy_from_slice(room);
}

/// Writes a partial behind the room of a key.
#[inline(always)]
pub fn write_behind(partial: &[i128], width: usize, key: &mut [i128])
    requires { width + length partial.now ≡ length key.old }
    ensures { key.new ≡ take width key.old ++ partial.now }
{
    key[width..].copy_from_slice(partial);
}

/// Writes a whole key.
#[inline(always)]
pub fn write_key(room: &[i128], partial: &[i128], key: &mut [i128])
    requires { length room.now + length partial.now ≡ length key.old }
    ensures { key.new ≡ room.now ++ partial.now }
{
    write_front(room, key);
    write_behind(partial, room.len(), key);
}
