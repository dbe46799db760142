// Lists that grow within the room that they have.
ghost use Rattle.std.specs.Prelude.{◌≡◌, ◌+◌, ◌<◌, ◌≤◌, [], ◌∷◌, ◌++◌, length};
ghost use Rattle.std.specs.Prelude.{vec_len, vec_capacity};

/// Adds an item to a list that has room.
#[inline(always)]
pub fn push_within<T: Drop>(items: &mut Vec<T>, item: T)
    requires { vec_len items.old < vec_capacity items.old }
    ensures items { items.new.items ≡ items.old.items ++ item ∷ [] }
    ensures room { vec_capacity items.old ≤ vec_capacity items.new }
{
    match items.push(item) {
        Ok(()) => {}
        Err(_) => unreachable!(),
    }
}

/// Adds a key to a row that has room. Most keys are one number, which needs no copying in bulk.
#[inline(always)]
pub fn append_within(row: &mut Vec<i128>, key: &[i128])
    requires { vec_len row.old + length key.now ≤ vec_capacity row.old }
    ensures items { row.new.items ≡ row.old.items ++ key.now }
    ensures room { vec_capacity row.old ≤ vec_capacity row.new }
{
    if key.len() == 1 {
        push_within(row, key[0]);
        return;
    }
    match row.extend_from_slice(key) {
        Ok(()) => {}
        Err(_) => unreachable!(),
    }
}
