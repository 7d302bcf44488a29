// A source whose bytes go to a reader.
ghost use Rattle.ule_scenario.specs.Feeding.{FeedsAll};

use crate::reader::Reader;
use ule_io::{Failed, ReadAllFault, Source};

/// The most that one read takes, in bytes.
const PIECE: usize = 4096;

/// Gives all bytes to the end of the source, of which there may be at most `limit`, to a reader, in
/// pieces of at most 4,096. `TooLong` comes where one byte more was taken, and no further byte is.
/// One read meets the end where the answer is `Ok`, and else none. `ReadFault` comes with at most
/// `limit` bytes taken, and `Memory` with at most one more.
pub fn feed_all<S: Source>(src: &mut S, limit: usize, r: &mut Reader) -> Result<(), ReadAllFault>
    ensures { FeedsAll (S.state src.old) (S.state src.new) limit r.old r.new result }
{
    let mut piece = [0; PIECE];
    let mut left = limit;
    loop {
        let most = left.min(PIECE - 1) + 1;
        match src.read(&mut piece[..most]) {
            Err(Failed) => return Err(ReadAllFault::ReadFault),
            Ok(0) => return Ok(()),
            Ok(n) => {
                let Ok(()) = r.feed(&piece[..n]) else {
                    return Err(ReadAllFault::Memory);
                };
                if n > left {
                    return Err(ReadAllFault::TooLong);
                }
                left -= n;
            }
        }
    }
}
