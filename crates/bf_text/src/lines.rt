//! A walk over bytes: the next line, what it says, and the next word.
ghost use Rattle.std.specs.Prelude.{◌≡◌, ◌<◌, ◌≤◌, [], ◌∷◌, length, IfSome, MatchOption};
ghost use Rattle.std.specs.List.{list_all, before_first, position};
ghost use Rattle.std.specs.Str.Lines.{strip_carriage_return};
ghost use Rattle.bf_text.specs.Lines.{is_feed, is_hash, is_blank, is_plain, lines_of, content_of, words_of, BeginsWord};

fn feed_in(bytes: &[u8]) -> Option<usize>
    ensures { result ≡ position is_feed bytes.now }
{
    bytes.iter().position(|&b| b == b'\n')
}

fn hash_in(line: &[u8]) -> Option<usize>
    ensures { result ≡ position is_hash line.now }
{
    line.iter().position(|&b| b == b'#')
}

fn blank_in(content: &[u8]) -> Option<usize>
    ensures { result ≡ position is_blank content.now }
{
    content.iter().position(|&b| b == b' ' || b == b'\t')
}

/// The next line, without the line feed that ends it, and the bytes after it.
pub fn next_line(bytes: &[u8]) -> Option<(&[u8], &[u8])>
    ensures lines { MatchOption result (lines_of bytes.now ≡ []) (λ x. lines_of bytes.now ≡ x.0.now ∷ lines_of x.1.now) }
    ensures shorter { IfSome result (λ x. length x.1.now < length bytes.now) }
{
    if bytes.is_empty() {
        return None;
    }
    match feed_in(bytes) {
        Some(end) => Some((&bytes[..end], &bytes[end + 1..])),
        None => Some((bytes, &[])),
    }
}

fn without_return(line: &[u8]) -> &[u8]
    ensures { result.now ≡ strip_carriage_return line.now }
{
    match line {
        [front @ .., b'\r'] => front,
        _ => line,
    }
}

fn without_comment(line: &[u8]) -> &[u8]
    ensures { result.now ≡ before_first is_hash line.now }
{
    match hash_in(line) {
        Some(end) => &line[..end],
        None => line,
    }
}

/// What a line says: all before its comment, without the carriage return that ends it.
pub fn content_of(line: &[u8]) -> &[u8]
    ensures { result.now ≡ content_of line.now }
{
    without_comment(without_return(line))
}

/// Whether each byte may stand outside of comments.
pub fn is_plain(content: &[u8]) -> bool
    ensures { result ≡ list_all is_plain content.now }
{
    content
        .iter()
        .all(|&b| b == b'\t' || (b' ' <= b && b <= b'~'))
}

/// The bytes without the blanks in front.
fn without_blanks(bytes: &[u8]) -> &[u8]
    ensures words { words_of result.now ≡ words_of bytes.now }
    ensures begins { BeginsWord result.now }
    ensures shorter { length result.now ≤ length bytes.now }
{
    let mut rest = bytes;
    while let [b' ' | b'\t', others @ ..] = rest {
        rest = others;
    }
    rest
}

/// The word at the front, which no blank begins, and the bytes after it.
fn first_word(bytes: &[u8]) -> Option<(&[u8], &[u8])>
    requires { BeginsWord bytes.now }
    ensures words { MatchOption result (words_of bytes.now ≡ []) (λ x. words_of bytes.now ≡ x.0.now ∷ words_of x.1.now) }
    ensures shorter { IfSome result (λ x. length x.1.now < length bytes.now) }
{
    if bytes.is_empty() {
        return None;
    }
    match blank_in(bytes) {
        Some(end) => Some((&bytes[..end], &bytes[end + 1..])),
        None => Some((bytes, &[])),
    }
}

/// The next word, and the bytes after it.
pub fn next_word(bytes: &[u8]) -> Option<(&[u8], &[u8])>
    ensures words { MatchOption result (words_of bytes.now ≡ []) (λ x. words_of bytes.now ≡ x.0.now ∷ words_of x.1.now) }
    ensures shorter { IfSome result (λ x. length x.1.now < length bytes.now) }
{
    first_word(without_blanks(bytes))
}
