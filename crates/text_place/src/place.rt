// Where a place stands in a log: the bytes of its line, and those before it.
ghost use Rattle.std.specs.Prelude.{◌≡◌, length, take};
ghost use Rattle.text_place.specs.Place.{feeds, line_front, line_rest, front_at, line_at, line_number, column};

// How many line feeds s has.
fn feeds(s: &[u8]) -> usize
    ensures { result ≡ feeds s.now }
{
    let mut n = 0;
    for c in s {
        if *c == 10 {
            n += 1;
        }
    }
    n
}

// How many bytes stand behind the last line feed of s.
fn front_length(s: &[u8]) -> usize
    ensures { result ≡ length (line_front s.now) }
{
    let mut k = 0;
    for c in s {
        k = if *c == 10 { 0 } else { k + 1 };
    }
    k
}

// How many bytes stand before the first line feed of s.
fn rest_length(s: &[u8]) -> usize
    ensures { result ≡ length (line_rest s.now) }
{
    for i in 0..s.len() {
        if s[i] == 10 {
            return i;
        }
    }
    s.len()
}

// The first k bytes of s.
pub(crate) fn first(s: &[u8], k: usize) -> &[u8]
    ensures { result.now ≡ take k s.now }
{
    if k <= s.len() { &s[..k] } else { s }
}

// The bytes of the place's line before the place.
pub(crate) fn front_at(log: &[u8], place: usize) -> &[u8]
    ensures { result.now ≡ front_at log.now place }
{
    let s = first(log, place);
    text::behind(s, s.len() - front_length(s))
}

// The place's line, without its line feed.
pub fn line_at(log: &[u8], place: usize) -> &[u8]
    ensures { result.now ≡ line_at log.now place }
{
    let s = first(log, place);
    let rest = rest_length(text::behind(log, place));
    let line = first(log, s.len() + rest);
    text::behind(line, s.len() - front_length(s))
}

// The number of the place's line.
pub fn line_number(log: &[u8], place: usize) -> usize
    ensures { result ≡ line_number log.now place }
{
    1 + feeds(first(log, place))
}

// The place's column in its line.
pub fn column(log: &[u8], place: usize) -> usize
    ensures { result ≡ column log.now place }
{
    1 + front_at(log, place).len()
}
