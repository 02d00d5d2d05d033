//! The header of a store.
ghost use Rattle.std.specs.Prelude.{◌≡◌, ◌<◌, ◌≤◌, IsTrue, IsNone, IfSome, length, get_or, true, false, ℕ};
ghost use Rattle.zone_disk.specs.Image.{may_stand, is_right, IsFirstWrong};

/// What follows the head gate: the form's name, the selector, six zeros and a closed first gate.
pub const TAIL: [u8; 16] = *b"ZNSTORE1A\0\0\0\0\0\0\0";

fn may_stand(place: usize, byte: u8) -> bool
    ensures { result ≡ may_stand place byte }
{
    match place {
        0 => byte == 1,
        9 => byte != 0x42,
        16.. => true,
        _ => byte == TAIL[place - 1],
    }
}

fn is_right(bytes: &[u8], place: usize) -> bool
    ensures { result ≡ is_right bytes.now place }
{
    place < bytes.len() && may_stand(place, bytes[place])
}

/// The first offset, up to the first gate, whose byte is missing or wrong.
pub fn first_wrong(bytes: &[u8]) -> Option<u64>
    ensures none { IsNone result → (k : ℕ) → k < 17 → is_right bytes.now k ≡ true }
    ensures some { IfSome result (λ place. IsFirstWrong bytes.now place) }
{
    for place in 0..17 {
        if !is_right(bytes, place) {
            return Some(place as u64);
        }
    }
    None
}
