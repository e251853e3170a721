// Lists the session tape on standard input: a line for each record, and at a fault a last line that tells it.
#![tactic(auto)]

use rules::MOST_TAPE_BYTES;
use std::alloc::Global;
use std::io;
use std::io::{Read, Write};
use tape::listing::listing;

// One byte more than a tape may have is enough to tell that it is too long. With `as`, since `from` cannot be called in a constant.
const MOST_READ: u64 = MOST_TAPE_BYTES as u64 + 1;

// The tape that an input holds. An input that is longer than any tape is not read to its end.
fn read_tape<R: Read + Drop>(heap: Global, input: R) -> io::Result<Vec<u8>> {
    let mut tape = Vec::new(heap);
    input.take(MOST_READ).read_to_end(&mut tape)?;
    Ok(tape)
}

fn list(rt: &HostRuntime) -> anyhow::Result<()> {
    let tape = read_tape(rt.alloc(), rt.stdin())?;
    let text = listing(rt.alloc(), tape.as_slice())?;
    rt.stdout().write_all(text.as_slice())?;
    Ok(())
}

fn main(rt: HostRuntime) -> anyhow::Result<()> {
    list(&rt)
}

#[cfg(test)]
mod tests {
    use super::*;
    use std::test::Fail;

    #[test]
    fn an_input_longer_than_any_tape_is_told_as_such(rt: HostRuntime) -> Result<(), Fail> {
        let input = [1u8; 70_000];
        let tape = read_tape(rt.alloc(), &input[0..70_000])?;
        assert_eq!(rt; tape.len(), 65_537);
        let text = listing(rt.alloc(), tape.as_slice())?;
        assert_eq!(rt; text.as_slice(), b"tape 24 at 0\n".as_slice());
        Ok(())
    }

    #[test]
    fn the_longest_tape_is_read_whole(rt: HostRuntime) -> Result<(), Fail> {
        let input = [1u8; 65_536];
        let tape = read_tape(rt.alloc(), &input[0..65_536])?;
        assert_eq!(rt; tape.len(), 65_536);
        Ok(())
    }
}
