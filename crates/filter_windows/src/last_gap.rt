// Where the samples behind the last gap begin.
ghost use Rattle.std.specs.Prelude.{◌≤◌, ◌<◌};
ghost use Rattle.lists.specs.Prelude.{suc, length};
ghost use Rattle.filter_windows.specs.Looks.{Since};

// Where the samples behind the last gap up to place p begin; begin is where those before p begin.
pub fn begin_next(text: &[i32], p: usize, begin: usize) -> usize
    requires { (p < length text.now) × Since text.now p begin }
    ensures { Since text.now (suc p) result }
{
    if gaps::is_gap(text, p) { p + 1 } else { begin }
}

// Where the samples behind the last gap before the place first begin; begin is where those before
// the place done begin. The values between the two places are looked at from the last one back, at
// most 256 of them: no window is longer.
pub fn begin_before(text: &[i32], done: usize, begin: usize, first: usize) -> usize
    requires { (done ≤ first) × (first ≤ length text.now) × Since text.now done begin }
    ensures { Since text.now first result }
{
    for last in (done..first).rev() {
        if first - last > 256 {
            return last + 1;
        }
        if gaps::is_gap(text, last) {
            return last + 1;
        }
    }
    begin
}
