//! Patterns of paths.
use zn_base::glob;

// A pattern, a path, and whether the one fits the other.
const ROWS: &[(&[u8], &[u8], bool)] = &[
    (b"/dev/d*", b"/dev/dsk", true),
    (b"/dev/d*", b"/dev/d/a", false),
    (b"/dev/d*", b"/dev/d", true),
    (b"/dev/*/c0*s[0-7]", b"/dev/dsk/c0t0d0s7", true),
    (b"/dev/*/c0*s[0-7]", b"/dev/dsk/c0t0d0s8", false),
    (b"/dev/*/*", b"/dev/a", false),
    (b"*", b"", true),
    (b"", b"a", false),
    (b"**a**", b"bab", true),
    (b"a*ab*b", b"aabab", true),
    (b"a*a*a*a*b", b"aaaaaaaaaaaaaaaaaaaaaaaa", false),
    (b"*/a*c", b"b/abc", true),
    (b"?", b"/", false),
    (b"a?c", b"abc", true),
    (b"[!a]", b"b", true),
    (b"[!a]", b"a", false),
    (b"[!a]", b"/", false),
    (b"[!]", b"x", true),
    (b"[/]", b"/", false),
    (b"[a-c-e]", b"-", true),
    (b"[a-c-e]", b"d", false),
    (b"[]a]", b"]", false),
    (b"[a-", b"[a-", true),
    (b"[!-a]", b"A", true),
];

#[test]
fn patterns_fit_paths(rt: HostRuntime) {
    for (pattern, path, fits) in ROWS {
        assert!(rt; glob(pattern, path) == *fits, "{pattern:?} {path:?}");
    }
}
