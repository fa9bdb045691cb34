//! Bytes cut into words, which are separated by bytes of a given list.

ghost use Rattle.std.specs.Prelude.{◌≡◌, ◌≤◌, ◌∷◌, [], length, take, drop, IfSome, IfNone};
ghost use Rattle.byte_streams.specs.Words.{is_gap, words, skip_gaps, first_word, after_word, without_last_gaps, trimmed};

fn is_gap(gaps: &[u8], byte: u8) -> bool
    ensures { result ≡ is_gap gaps.now byte }
{
    gaps.contains(&byte)
}

// The bytes without the gaps at their beginning.
fn skip_gaps<'a>(bytes: &'a [u8], gaps: &[u8]) -> &'a [u8]
    ensures { result.now ≡ skip_gaps gaps.now bytes.now }
{
    let mut rest = bytes;
    while let [first, others @ ..] = rest {
        if !is_gap(gaps, *first) {
            return rest;
        }
        rest = others;
    }
    rest
}

fn word_len(bytes: &[u8], gaps: &[u8]) -> usize
    ensures bound { result ≤ length bytes.now }
    ensures word { take result bytes.now ≡ first_word gaps.now bytes.now }
    ensures rest { drop result bytes.now ≡ after_word gaps.now bytes.now }
{
    let mut len = 0;
    while len < bytes.len() && !is_gap(gaps, bytes[len]) {
        len += 1;
    }
    len
}

/// The first word, and what comes after it. Words are separated by the bytes of `gaps`; `None` where there is no word.
pub fn split_word<'a>(bytes: &'a [u8], gaps: &[u8]) -> Option<(&'a [u8], &'a [u8])>
    ensures none { IfNone result (words gaps.now bytes.now ≡ []) }
    ensures some { IfSome result (λ r. words gaps.now bytes.now ≡ r.0.now ∷ words gaps.now r.1.now) }
    ensures rest { IfSome result (λ r. r.1.now ≡ after_word gaps.now (skip_gaps gaps.now bytes.now)) }
{
    let bytes = skip_gaps(bytes, gaps);
    if bytes.is_empty() {
        return None;
    }
    let (word, rest) = bytes.split_at(word_len(bytes, gaps));
    Some((word, rest))
}

// The bytes without the gaps at their end.
fn skip_last_gaps<'a>(bytes: &'a [u8], gaps: &[u8]) -> &'a [u8]
    ensures { result.now ≡ without_last_gaps gaps.now bytes.now }
{
    let mut rest = bytes;
    while let [others @ .., last] = rest {
        if !is_gap(gaps, *last) {
            return rest;
        }
        rest = others;
    }
    rest
}

/// The bytes without the gaps at their two ends.
pub fn trim<'a>(bytes: &'a [u8], gaps: &[u8]) -> &'a [u8]
    ensures { result.now ≡ trimmed gaps.now bytes.now }
{
    skip_last_gaps(skip_gaps(bytes, gaps), gaps)
}
