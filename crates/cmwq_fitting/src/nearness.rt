//! Which of some words is most like another.
ghost use Rattle.cmwq_fitting.specs.Nearness.{apart, apart_from, common_back, common_front, left_apart, nearest};
ghost use Rattle.std.specs.Prelude.{◌≡◌, ◌<◌, ◌≤◌, IfSome, length, map, nat_lt};

/// The word that is the fewest letters apart from this one, and of such ones the first; none where there are no words.
pub fn nearest(words: &[&[u8]], word: &[u8]) -> Option<usize>
    ensures nearest { result ≡ nearest (map (λ word. word.now) words.now) word.now }
    ensures in_range { IfSome result (λ k. k < length words.now) }
{
    let mut nearest = None;
    for k in 0..words.len() {
        nearest = match nearest {
            Some(so_far) if !is_nearer(words, word, k, so_far) => Some(so_far),
            _ => Some(k),
        };
    }
    nearest
}

/// Whether the word of number `k` is fewer letters apart from this word than the other one.
fn is_nearer(words: &[&[u8]], word: &[u8], k: usize, other: usize) -> bool
    requires k { k < length words.now }
    requires other { other < length words.now }
    ensures { result ≡ nat_lt (apart_from (map (λ word. word.now) words.now) word.now k) (apart_from (map (λ word. word.now) words.now) word.now other) }
{
    apart(word, words[k]) < apart(word, words[other])
}

/// How many letters two words are apart: of the longer one, once what both begin with is cut off, and then what both end with.
pub(crate) fn apart(one: &[u8], other: &[u8]) -> usize
    ensures apart { result ≡ apart one.now other.now }
{
    let front = common_front(one, other);
    left_apart(one.split_at(front).1, other.split_at(front).1)
}

/// The letters of the longer one, once what both end with is cut off.
fn left_apart(one: &[u8], other: &[u8]) -> usize
    ensures { result ≡ left_apart one.now other.now }
{
    one.len().max(other.len()) - common_back(one, other)
}

/// How many letters both begin with.
fn common_front(one: &[u8], other: &[u8]) -> usize
    ensures front { result ≡ common_front one.now other.now }
    ensures one { result ≤ length one.now }
    ensures other { result ≤ length other.now }
{
    let Some((x, one)) = one.split_first() else {
        return 0;
    };
    let Some((y, other)) = other.split_first() else {
        return 0;
    };
    if *x != *y {
        return 0;
    }
    1 + common_front(one, other)
}

/// How many letters both end with.
fn common_back(one: &[u8], other: &[u8]) -> usize
    ensures back { result ≡ common_back one.now other.now }
    ensures one { result ≤ length one.now }
    ensures other { result ≤ length other.now }
{
    let Some((x, one)) = one.split_last() else {
        return 0;
    };
    let Some((y, other)) = other.split_last() else {
        return 0;
    };
    if *x != *y {
        return 0;
    }
    1 + common_back(one, other)
}
