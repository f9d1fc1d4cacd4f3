// Lines in a slice that move by one place.
ghost use Rattle.std.specs.Prelude.{◌≡◌, ◌<◌, ◌-◌, ◌++◌, length, take, drop};
ghost use Rattle.std.specs.List.{insert, remove};

/// Puts `line` at place `at`, counted from 0. The lines from there on move up by one, and the last of them goes.
pub fn insert_at<L: Copy>(lines: &mut [L], at: usize, line: L)
    requires { at < length lines.old }
    ensures { lines.new ≡ insert (take (length lines.old - 1) lines.old) at line }
{
    let last = lines.len() - 1;
    lines.copy_within(at..last, at + 1);
    lines[at] = line;
}

/// Takes away the line at place `at`, counted from 0. The lines behind it move down by one, and the last of all stays besides.
pub fn remove_at<L: Copy>(lines: &mut [L], at: usize)
    requires { at < length lines.old }
    ensures { lines.new ≡ remove lines.old at ++ drop (length lines.old - 1) lines.old }
{
    lines.copy_within(at + 1.., at);
}
