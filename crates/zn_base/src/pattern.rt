//! Patterns of paths, as a device's `match` has them in zonecfg(8).
ghost use Rattle.std.specs.Prelude.{◌≡◌, ◌≢◌, ◌+◌, ◌<◌, ◌≤◌, ◌==◌, ◌&&◌, nat_le, nat_lt, IfSome, drop, length, position, slice_index};
ghost use Rattle.std.specs.Option.{ForSome};
ghost use Rattle.zn_base.specs.Glob.{bracket_end, is_chosen, is_close, is_listed, stands_for, glob};
ghost use Rattle.zn_base.specs.Runs.{fits_from, star_fits_from, IsBehindCloses, PassesPart, RunTells};

// Whether `X-Y` stands at a place of a bracket.
fn begins_range(items: &[u8], at: usize) -> bool
    requires { at < length items.now }
    ensures { result ≡ (nat_lt (at + 2) (length items.now) && (slice_index items.now (at + 1) == 45)) }
{
    items.len() - at > 2 && items[at + 1] == b'-'
}

fn is_between(low: u8, byte: u8, high: u8) -> bool
    ensures { result ≡ (nat_le low byte && nat_le byte high) }
{
    (low..=high).contains(&byte)
}

#[tactic(auto, using(crate::proofs::Patterns::listing))]
fn is_listed(items: &[u8], byte: u8) -> bool
    ensures { result ≡ is_listed items.now byte }
{
    let mut at = 0;
    while at < items.len() {
        if begins_range(items, at) {
            if is_between(items[at], byte, items[at + 2]) {
                return true;
            }
            at += 3;
        } else {
            if byte == items[at] {
                return true;
            }
            at += 1;
        }
    }
    false
}

fn is_chosen(items: &[u8], byte: u8) -> bool
    ensures { result ≡ is_chosen items.now byte }
{
    match items {
        [b'!', rest @ ..] => !is_listed(rest, byte),
        _ => is_listed(items, byte),
    }
}

fn next_close(bytes: &[u8]) -> Option<usize>
    ensures { result ≡ position is_close bytes.now }
{
    bytes.iter().position(|byte| *byte == b']')
}

// The place after the last `]` of a pattern, or 0: no bracket begins at it or later.
fn behind_closes(pattern: &[u8]) -> usize
    ensures { IsBehindCloses result pattern.now }
{
    let mut behind = 0;
    for (place, byte) in pattern.iter().enumerate() {
        if *byte == b']' {
            behind = place + 1;
        }
    }
    behind
}

// Where the bracket ends that the byte at a place begins, counted from the next one.
#[tactic(auto, using(crate::proofs::Patterns::no_bracket))]
fn bracket_end(pattern: &[u8], behind_closes: usize, at: usize) -> Option<usize>
    requires inside { at < length pattern.now }
    requires closes { IsBehindCloses behind_closes pattern.now }
    ensures end { result ≡ bracket_end (slice_index pattern.now at) (drop (at + 1) pattern.now) }
    ensures within { IfSome result (λ end. at + 1 + end < length pattern.now) }
{
    if pattern[at] != b'[' {
        return None;
    }
    if at + 1 >= behind_closes {
        return None;
    }
    next_close(&pattern[at + 1..])
}

// What a part that is no star stands for, given where its bracket ends, its first byte and what follows.
fn stands_for(end: Option<usize>, first: u8, behind: &[u8], byte: u8) -> bool
    requires { ForSome end (λ end. end ≤ length behind.now) }
    ensures { result ≡ stands_for end first behind.now byte }
{
    match end {
        Some(end) => byte != b'/' && is_chosen(&behind[..end], byte),
        None if first == b'?' => byte != b'/',
        None => byte == first,
    }
}

// The place after the part at a place, if that is no star and stands for a byte.
fn behind_part(pattern: &[u8], behind_closes: usize, at: usize, byte: u8) -> Option<usize>
    requires inside { at < length pattern.now }
    requires no_star { slice_index pattern.now at ≢ 42 }
    requires closes { IsBehindCloses behind_closes pattern.now }
    ensures { PassesPart (slice_index pattern.now at) (drop (at + 1) pattern.now) byte (at + 1) (length pattern.now) result }
{
    let end = bracket_end(pattern, behind_closes, at);
    if !stands_for(end, pattern[at], &pattern[at + 1..], byte) {
        return None;
    }
    match end {
        Some(end) => Some(at + 1 + end + 1),
        None => Some(at + 1),
    }
}

// How far the parts before the next star of a pattern go with a path.
enum Run {
    // To the end of both.
    ToEnd,
    // To a star: the place after it, and how far the path is passed.
    ToStar(usize, usize),
    Differs,
}

// Follows the parts of a pattern from a place on, up to its next star, along a path from a place on.
#[tactic(auto, using(crate::proofs::Patterns::following))]
fn follow(pattern: &[u8], behind_closes: usize, start: usize, path: &[u8], begin: usize) -> Run
    requires inside { start ≤ length pattern.now }
    requires inside_path { begin ≤ length path.now }
    requires closes { IsBehindCloses behind_closes pattern.now }
    ensures { RunTells pattern.now start path.now begin result }
{
    let mut at = start;
    let mut place = begin;
    while at < pattern.len() {
        if pattern[at] == b'*' {
            return Run::ToStar(at + 1, place);
        }
        if place == path.len() {
            return Run::Differs;
        }
        let Some(behind) = behind_part(pattern, behind_closes, at, path[place]) else {
            return Run::Differs;
        };
        at = behind;
        place += 1;
    }
    if place == path.len() {
        Run::ToEnd
    } else {
        Run::Differs
    }
}

// Whether a star and what stands in a pattern from a place on fit a path from a place on. A star that is met
// takes the place of the one before it, since it can do what that could by taking more. A run reads no more
// bytes than the measure of this loop falls by, and that begins below the product of the lengths, each plus one.
#[tactic(auto, using(crate::proofs::Patterns::starring))]
fn star_fits(pattern: &[u8], behind_closes: usize, start: usize, path: &[u8], begin: usize) -> bool
    requires inside { start ≤ length pattern.now }
    requires inside_path { begin ≤ length path.now }
    requires closes { IsBehindCloses behind_closes pattern.now }
    ensures { result ≡ star_fits_from pattern.now start path.now begin }
{
    let mut at = start;
    let mut place = begin;
    loop {
        match follow(pattern, behind_closes, at, path, place) {
            Run::ToEnd => return true,
            Run::ToStar(next, left) => {
                at = next;
                place = left;
            }
            Run::Differs => {
                if place == path.len() || path[place] == b'/' {
                    return false;
                }
                place += 1;
            }
        }
    }
}

/// Whether a pattern fits a whole path. `*` stands for any bytes but `/`, `?` for one byte but `/`, `[a-z]`
/// and `[abc]` for one byte that they list, `[!a]` for one byte but `/` that it does not list, and each other
/// byte for itself, a `[` without a later `]` too. It takes no memory, and time by the product of the lengths.
#[tactic(auto, unfolding(crate::specs::Glob::glob, crate::specs::Runs::fits_from, crate::specs::Runs::star_fits_from))]
pub fn glob(pattern: &[u8], path: &[u8]) -> bool
    ensures { result ≡ glob pattern.now path.now }
{
    let behind_closes = behind_closes(pattern);
    match follow(pattern, behind_closes, 0, path, 0) {
        Run::ToEnd => true,
        Run::ToStar(at, place) => star_fits(pattern, behind_closes, at, path, place),
        Run::Differs => false,
    }
}
