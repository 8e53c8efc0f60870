// Bytes cut at a byte, the spaces before a word and at the end, and two words compared.
ghost use Rattle.std.specs.Prelude.{◌≡◌, ◌≤◌, length};
ghost use Rattle.texts.specs.Cut.{up_to, spaces_of, without_spaces, same};

// How many bytes stand before the first x; all, where there is none.
pub fn find(bytes: &[u8], x: u8) -> usize
    ensures value { result ≡ up_to x bytes.now }
    ensures upper_bound { result ≤ length bytes.now }
{
    bytes.iter().position(|&c| c == x).unwrap_or(bytes.len())
}

// How many spaces stand at the start.
pub fn spaces(bytes: &[u8]) -> usize
    ensures value { result ≡ spaces_of bytes.now }
    ensures upper_bound { result ≤ length bytes.now }
{
    bytes.iter().take_while(|&&c| c == b' ').count()
}

// How many bytes stand before the spaces at the end.
pub fn without_spaces(bytes: &[u8]) -> usize
    ensures value { result ≡ without_spaces bytes.now }
    ensures upper_bound { result ≤ length bytes.now }
{
    bytes.len() - bytes.iter().rev().take_while(|&&c| c == b' ').count()
}

// Whether two words are the same.
pub fn same(word: &[u8], name: &[u8]) -> bool
    ensures { result ≡ same word.now name.now }
{
    word == name
}
