//! A report without the lines of its taps.

ghost use Rattle.std.specs.Prelude.{◌≡◌, ◌≤◌, length, take};
ghost use Rattle.ftc_check.specs.Taps.{is_tap_line, IsWithoutTaps};

use ftc_base::line_at;

fn is_tap_line(line: &[u8]) -> bool
    ensures { result ≡ is_tap_line line.now }
{
    line.starts_with(b"tap ")
}

/// Where the last line ends that is no tap's.
fn front_len(report: &[u8]) -> usize
    ensures within { result ≤ length report.now }
    ensures front { IsWithoutTaps report.now (take result report.now) }
{
    let mut end = 0;
    let mut from = 0;
    while let Some(line) = line_at(report, from) {
        if !is_tap_line(&report[line.start..line.end]) {
            end = line.next;
        }
        from = line.next;
    }
    end
}

/// The report without the lines at its end that begin with `tap `.
pub fn without_taps(report: &[u8]) -> &[u8]
    ensures { IsWithoutTaps report.now result.now }
{
    &report[..front_len(report)]
}
