ghost use Rattle.std.specs.Prelude.{◌≡◌};
ghost use Rattle.script.specs.Blocks.{block_of, lines_of, found};

use crate::piece::Lines;

const END: &[u8] = b"end";

/// The lines of a script up to a line that is exactly `end`: as one text in which each line has its end, how many they are, and what follows.
#[derive(Clone, Copy)]
pub struct Block<'a> {
    pub text: &'a [u8],
    pub lines: usize,
    pub rest: &'a [u8],
}

/// The block at the front of a script, or none where no line is exactly `end`.
pub fn cut_block(script: &[u8]) -> Option<Block<'_>>
    ensures { found result ≡ block_of (lines_of script.now) }
{
    let mut len = 0;
    for (count, line) in Lines::new(script).enumerate() {
        if line.piece == END {
            return Some(Block {
                text: &script[..len],
                lines: count,
                rest: line.rest,
            });
        }
        len = script.len() - line.rest.len();
    }
    None
}
