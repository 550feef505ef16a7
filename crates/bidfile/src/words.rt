ghost use Rattle.std.specs.Prelude.{◌≡◌, ◌+◌, ◌-◌, ◌<◌, ◌≤◌};
ghost use Rattle.bidfile.specs.Found.{operands, plain_words};
ghost use Rattle.bidfile.specs.Words.{words, word_at, kind_at, value_at};

// These take the file and a place, not a struct that keeps `at < words file`: each place would be made such a struct and read once.

// How many words a file has.
pub(crate) fn count(file: &[u8]) -> usize
    ensures { result ≡ words file.now }
{
    file.len() / 4
}

fn word(file: &[u8], at: usize) -> u32
    requires { at < words file.now }
    ensures { result ≡ word_at file.now at }
{
    let first = 4 * at;
    let bytes: [u8; 4] = file[first..first + 4].try_into().unwrap();
    u32::from_be_bytes(bytes)
}

// The top 4 bits of a word.
pub(crate) fn kind(file: &[u8], at: usize) -> u32
    requires { at < words file.now }
    ensures { result ≡ kind_at file.now at }
{
    word(file, at) >> 28
}

// The other 28 bits.
pub(crate) fn value(file: &[u8], at: usize) -> u32
    requires { at < words file.now }
    ensures { result ≡ value_at file.now at }
{
    word(file, at) % (1 << 28)
}

// Whether the words of a stretch have kind 0.
pub(crate) fn are_plain(file: &[u8], from: usize, to: usize) -> bool
    requires from_le_to { from ≤ to }
    requires to_bound { to ≤ words file.now }
    ensures { result ≡ plain_words (to - from) file.now from }
{
    (from..to).all(|at| kind(file, at) == 0)
}
