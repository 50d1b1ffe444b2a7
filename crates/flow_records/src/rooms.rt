// Lists in room of a caller's.

ghost use Rattle.std.specs.Prelude.{◌≡◌, ◌<◌, ◌≤◌, ◌++◌, drop, length, MatchBool};

/// Puts a list where there is room for it, and tells how long it is.
pub fn put_list<T: Copy>(list: &[T], room: &mut [T], size: &mut usize) -> bool
    ensures size { size.new ≡ length list.now }
    ensures items { MatchBool result (room.new ≡ list.now ++ drop (length list.now) room.old) (room.new ≡ room.old) }
    ensures room { MatchBool result (length list.now ≤ length room.old) (length room.old < length list.now) }
{
    *size = list.len();
    if room.len() < list.len() {
        return false;
    }
    room[..list.len()].copy_from_slice(list);
    true
}
