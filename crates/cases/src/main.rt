#![tactic(auto)]

// Runs the script on standard input, the file `stdin`, which has a line or a few for each case, and prints what the code answers. The file `stdout` has what
// must come out. Its numbers were not taken from a run.
// Those of rounding, charts and calibration were worked out from the formulas of paper 01, by a few lines of Python over whole numbers and fractions:
// near(x) as floor(x + 1/2), in edition 2 as Python's `round` of a fraction; a sum and its count as (sum, count + 1) where the sum is above 0, else
// (0, 0); a slope as one fraction; both sides of each verdict as whole numbers of any size. The pairs of a boundary were looked for there too: of all Q
// that whole D's can give, the last that passes and the first that fails.
// What the cases of records must give was worked out by a second reader of the script in Python, which goes by the papers on records, weeks, calls and
// refusals, and knows nothing of this code.
mod calibration_cases;
mod charts_cases;
mod desk;
mod file_cases;
mod print;
mod record_cases;
mod script;
mod script_command;

use std::io;

fn main(rt: HostRuntime) -> io::Result<()> {
    script::run(&rt)
}
