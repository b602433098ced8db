// Bytes from a file or a pipe.
ghost use Rattle.std.specs.Prelude.{◌≡◌, ◌<◌, ◌≤◌, length, take, IsSome, IsNone};
ghost use Rattle.std.specs.Io.KnownBytes.{Consumes, IsAtEnd};

use std::io::{Error, Read};

// How many bytes came, and the read that failed, if one did: what came before it counts.
#[derive(Clone, Copy)]
pub struct Filled {
    pub count: usize,
    pub failure: Option<Error>,
}

// Reads until `enough` bytes are there, and what comes with them. A read takes what there is: a pipe may give less than was asked for, and nothing more
// before its other end writes again. Fewer come only where the input ends or a read fails. `count` is what the reads gave, and no index: no iterator
// steps by it.
pub fn fill<R: Read>(input: &mut R, buffer: &mut [u8], enough: usize) -> Filled
    requires { enough ≤ length buffer.old }
    ensures len { length buffer.new ≡ length buffer.old }
    ensures in_bounds { result.count ≤ length buffer.new }
    ensures bytes { Consumes (R.remaining input.old) (R.remaining input.new) (take result.count buffer.new) }
    ensures end { IsNone result.failure → result.count < enough → IsAtEnd (R.remaining input.new) }
    ensures failed { IsSome result.failure → result.count < enough }
{
    let mut count = 0;
    while count < enough {
        match input.read(&mut buffer[count..]) {
            Ok(0) => break,
            Ok(more) => count += more,
            Err(e) => {
                return Filled {
                    count,
                    failure: Some(e),
                };
            }
        }
    }
    Filled {
        count,
        failure: None,
    }
}
