// Rooms and choices of one number.
ghost use Rattle.std.specs.Prelude.{◌≡◌, [], ◌∷◌, length, pos};
ghost use Rattle.count_rooms.specs.OneCount.{IsOneCount, remaining};

/// The number of a room of one number.
#[inline(always)]
pub fn count_in(room: &[i128]) -> u64
    requires { IsOneCount room.now }
    ensures { result ≡ remaining room.now }
{
    room[0] as u64
}

/// Writes the number of a choice of one number.
#[inline(always)]
pub fn write_count(choice: &mut [u64], count: u64)
    requires { length choice.old ≡ 1 }
    ensures { choice.new ≡ count ∷ [] }
{
    choice[0] = count;
}

/// Writes the number of a room of one number.
#[inline(always)]
pub fn write_remaining(room: &mut [i128], count: u64)
    requires { length room.old ≡ 1 }
    ensures { room.new ≡ pos count ∷ [] }
{
    room[0] = count as i128;
}
