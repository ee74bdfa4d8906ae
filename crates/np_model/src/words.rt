//! Words and names: the texts that labels, ports and objects may have.
ghost use Rattle.std.specs.Prelude.{◌≡◌};
ghost use Rattle.np_model.specs.Words as words;

/// Whether a text is made of ASCII letters, digits and the characters `-`, `_`, `.`, `/` and `:` alone. The
/// empty text is a word.
pub fn is_word(text: &str) -> bool
    ensures { result ≡ words.is_word text.now }
{
    text.bytes().all(is_word_byte)
}

/// Whether a text is a word that is not empty and has no `/`.
pub fn is_name(text: &str) -> bool
    ensures { result ≡ words.is_name text.now }
{
    !text.is_empty() && is_word(text) && !has_slash(text)
}

fn has_slash(text: &str) -> bool
    ensures { result ≡ words.has_slash text.now }
{
    text.bytes().any(|byte| byte == b'/')
}

fn is_word_byte(byte: u8) -> bool
    ensures { result ≡ words.is_word_byte byte }
{
    byte.is_ascii_alphanumeric() || matches!(byte, b'-' | b'_' | b'.' | b'/' | b':')
}
