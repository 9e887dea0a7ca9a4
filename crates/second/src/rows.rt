// The rows: for each task a line of those who have called it.
ghost use Rattle.std.specs.Prelude.{◌≡◌};
ghost use Rattle.second.specs.Rows.{row_of, row_looked, next_rows};

use calls::Call;
use rules::{Core, Row};
use steps::change::{looks, next_line};
use table::dispatch::running;
use table::place::is_between;

// The row of task g; an empty line where g is no task's number.
pub fn row_of(rows: [Row; 31], g: u8) -> [u8; 31]
    ensures { result ≡ row_of rows g }
{
    if is_between(g, 31) {
        let at = (g - 1) as usize;
        let r = rows[at];
        let l = r.line;
        return l;
    }
    [0u8; 31]
}

// The row of the running task, if the call looks at it; else an empty line.
pub fn row_looked_at(core: Core, rows: [Row; 31], c: Call) -> [u8; 31]
    ensures { result ≡ row_looked core rows c }
{
    if looks(c) {
        let t = running(core);
        return row_of(rows, t);
    }
    [0u8; 31]
}

// All rows after a step: of those that somebody has left the marked ones are gone, and t comes into that of task g. No other row is touched.
pub fn next_rows(rows: [Row; 31], left: [u8; 32], gone: [u8; 32], g: u8, t: u8) -> [Row; 31]
    ensures { result ≡ next_rows left gone g t 1 rows }
{
    let mut n = rows;
    for (i, row) in n.iter_mut().enumerate() {
        let joins = i + 1 == usize::from(g);
        if joins | (left[i + 1] != 0) {
            let l = row.line;
            row.line = next_line(l, gone, joins, t);
        }
    }
    n
}
