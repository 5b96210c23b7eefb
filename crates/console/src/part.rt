// Counts of a slice's bytes, as a part of it takes them.
ghost use Rattle.std.specs.Prelude.{◌≡◌, ◌++◌, min, length, take, drop};
ghost use Rattle.console.specs.Counts.{IsPrefixLen};

// Zeros, as many as are asked for, whose length is known to proofs. There is no heap, so they are an array.
pub(crate) fn zeros<const N: usize>() -> [u8; N]
    ensures { length result ≡ N }
{
    [0; N]
}

// A number of the slice's bytes: the one given, or all of them where it is larger.
pub fn least(size: usize, bytes: &[u8]) -> usize
    ensures counts { IsPrefixLen result bytes.now }
    ensures least { result ≡ min size (length bytes.now) }
{
    size.min(bytes.len())
}

// Copies as many bytes as fit, and answers how many.
pub fn copied(from: &[u8], to: &mut [u8]) -> usize
    ensures counts { IsPrefixLen result to.new }
    ensures most { result ≡ min (length to.old) (length from.now) }
    ensures copied { to.new ≡ take result from.now ++ drop result to.old }
{
    let count = least(to.len(), from);
    to[..count].copy_from_slice(&from[..count]);
    count
}
