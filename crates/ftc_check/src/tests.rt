mod crash;
mod files;

use crate::{first_difference, without_taps};

#[test]
fn the_first_difference_is_named(rt: HostRuntime) {
    assert_eq!(rt; first_difference(b"", b""), None);
    assert_eq!(rt; first_difference(b"same", b"same"), None);
    assert_eq!(rt; first_difference(b"", b"a"), Some(0));
    assert_eq!(rt; first_difference(b"abc", b"ab"), Some(2));
    assert_eq!(rt; first_difference(b"ab", b"abc"), Some(2));
    assert_eq!(rt; first_difference(b"abcd", b"aXcY"), Some(1));
    assert_eq!(rt; first_difference(b"abcd", b"abcY"), Some(3));
}

const REPORTS: [(&str, &str); 12] = [
    ("", ""),
    ("tap x\n", ""),
    ("tap ", ""),
    ("tap", "tap"),
    ("a\n", "a\n"),
    ("a", "a"),
    ("a\ntap 1\ntap 2\n", "a\n"),
    ("a\ntap 1\ntap 2", "a\n"),
    ("tap 1\na\ntap 2\n", "tap 1\na\n"),
    ("tap 1\n\ntap 2\n", "tap 1\n\n"),
    ("a\n tap 1\n", "a\n tap 1\n"),
    ("atap 1\ntap 2\ntap\n", "atap 1\ntap 2\ntap\n"),
];

#[test]
fn the_lines_of_taps_are_left_out(rt: HostRuntime) {
    for (report, wanted) in REPORTS {
        assert_eq!(rt;
            without_taps(report.as_bytes()),
            wanted.as_bytes(),
            "{report}"
        );
    }
}
