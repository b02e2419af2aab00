// What a file gave: how many bytes, which stand in front of a buffer; or nothing, where it was not read to its end or
// is too long.
ghost use Rattle.std.specs.Prelude.{◌≡◌, MatchOption};
ghost use Rattle.std.proofs.Math.Option.{none, some};
ghost use Rattle.policy.specs.Files.{text_in};

// The most bytes of a file that the programs read. No tree that a list is compiled into has a longer text.
pub const MOST_FILE: usize = 65536;

// The bytes that were read of a file, or none.
pub(crate) fn text_of(file: Option<usize>, buffer: &[u8]) -> Option<&[u8]>
    ensures { MatchOption result (text_in file buffer.now ≡ none)
        (λ text. text_in file buffer.now ≡ some text.now) }
{
    let n = file?.min(buffer.len());
    Some(&buffer[..n])
}
