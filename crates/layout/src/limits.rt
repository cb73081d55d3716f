// The limits, by name: the numbers of specs/Limits.antt, for code.
ghost use Rattle.std.specs.Prelude.{◌≡◌};
ghost use Rattle.layout.specs.Limits.{most_blocks, most_streams, longest_name, slash};

// So many marks do for every card.
pub const MOST_BLOCKS: usize = 4096;

pub fn most_blocks() -> usize
    ensures { result ≡ most_blocks }
{
    MOST_BLOCKS
}

pub fn most_streams() -> usize
    ensures { result ≡ most_streams }
{
    256
}

pub fn longest_name() -> usize
    ensures { result ≡ longest_name }
{
    64
}

pub fn slash() -> u8
    ensures { result ≡ slash }
{
    47
}
