//! What held bytes show of the next line.
ghost use Rattle.std.specs.Prelude.{◌≡◌, ◌==◌, take};
ghost use Rattle.std.specs.List.{position_or_len};
ghost use Rattle.pl_io.specs.Reading.{Shows};

/// What bytes at the front of the input show, whatever follows them.
pub(crate) enum Look {
    /// A line of this many bytes, and its newline.
    Whole(usize),
    /// A line that passes the line limit.
    TooLong,
    /// A line that doesn't end within the total limit.
    PastTotal,
    /// Nothing yet.
    Open,
}

/// `room` is how many bytes the total limit lets in.
pub(crate) fn judge(held: &[u8], limit: usize, room: usize) -> Look
    ensures { Shows limit room held.now result }
{
    let seen = front(held, room);
    let len = line_len(seen);
    if len > limit {
        return Look::TooLong;
    }
    if len < seen.len() {
        return Look::Whole(len);
    }
    if held.len() > room {
        return Look::PastTotal;
    }
    Look::Open
}

fn front(bytes: &[u8], count: usize) -> &[u8]
    ensures { result.now ≡ take count bytes.now }
{
    if bytes.len() < count {
        return bytes;
    }
    &bytes[..count]
}

fn line_len(bytes: &[u8]) -> usize
    ensures { result ≡ position_or_len (λ byte. byte == 10) bytes.now }
{
    bytes.iter().take_while(|byte| **byte != b'\n').count()
}
