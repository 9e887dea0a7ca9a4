// What is printed is gathered in a buffer, and written once that is nearly full or before more input is waited for.
// Where it cannot be written, that is told on standard error, and the program ends.
ghost use Rattle.std.specs.Prelude.{◌≡◌, true, false};
ghost use Rattle.stream.specs.Outputs.{is_full, waits_behind};

// The room that is kept free behind what waits. That it is enough for what stepper and replay print before they come back here is proved in logs.
const SPARE: usize = 8192;

// How much output waits, and whether what does not could be written. Where it could not, the contract says how much waits too: a Result would lose that.
#[derive(Clone, Copy)]
pub struct Output {
    pub waits: usize,
    pub writes: bool,
}

// Tells that output is lost.
fn tell_lost<R: Eprint>(rt: &R) {
    let _ = eprintln!(rt; "standard output: cannot be written; the rest of the output is lost");
}

// Writes all that waits.
pub fn flushed<R: Print + Eprint>(rt: &R, out: &[u8], waits: usize) -> Output
    ensures { result.waits ≡ 0 }
{
    let n = waits.min(out.len());
    let writes = rt.write_all(&out[..n]).is_ok();
    if !writes {
        tell_lost(rt);
    }
    Output { waits: 0, writes }
}

// Writes all that waits where there is little room behind it.
pub fn drained<R: Print + Eprint>(rt: &R, out: &[u8], waits: usize) -> Output
    ensures waits_value { result.waits ≡ waits_behind out.now waits }
    ensures writes_value { is_full out.now waits ≡ false → result.writes ≡ true }
{
    let n = waits.min(out.len());
    if out.len() - n < SPARE {
        return flushed(rt, out, n);
    }
    Output {
        waits: n,
        writes: true,
    }
}
