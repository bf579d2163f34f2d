//! Lines with their ends, written one after another into a buffer.
ghost use Rattle.std.specs.Prelude.{◌≡◌, ◌+◌, ◌-◌, ◌≤◌, ◌<◌, ◌++◌, codes, length, take, drop, min};
ghost use Rattle.link_queue.specs.Lines.{ended_line};

/// Writes `bytes` from `at` on, as many as fit, and says where they end.
pub(crate) fn put(out: &mut [u8], at: usize, bytes: &[u8]) -> usize
    requires { at ≤ length out.old }
    ensures end { result ≡ at + min (length out.old - at) (length bytes.now) }
    ensures within { result ≤ length out.new }
    ensures bytes { take result out.new ≡ take at out.old ++ take (length out.old - at) bytes.now }
    ensures rest { drop result out.new ≡ drop result out.old }
{
    let count = bytes.len().min(out.len() - at);
    out[at..at + count].copy_from_slice(&bytes[..count]);
    at + count
}

/// Writes `bytes`, which fit.
fn put_whole(out: &mut [u8], at: usize, bytes: &[u8]) -> usize
    requires { at + length bytes.now ≤ length out.old }
    ensures end { result ≡ at + length bytes.now }
    ensures bytes { take result out.new ≡ take at out.old ++ bytes.now }
    ensures rest { drop result out.new ≡ drop result out.old }
{
    let end = at + bytes.len();
    out[at..end].copy_from_slice(bytes);
    end
}

/// Writes a CR and an LF, which fit.
fn put_end(out: &mut [u8], at: usize) -> usize
    requires { at + 2 ≤ length out.old }
    ensures end { result ≡ at + 2 }
    ensures bytes { take result out.new ≡ take at out.old ++ codes "\r\n" }
    ensures rest { drop result out.new ≡ drop result out.old }
{
    out[at] = b'\r';
    out[at + 1] = b'\n';
    at + 2
}

/// Writes a line with its CR and LF, as much of it as fits.
pub(crate) fn put_line(out: &mut [u8], at: usize, line: &[u8]) -> usize
    requires { at ≤ length out.old }
    ensures end { result ≡ at + min (length out.old - at) (length line.now + 2) }
    ensures within { result ≤ length out.new }
    ensures bytes { take result out.new ≡ take at out.old ++ take (length out.old - at) (ended_line line.now) }
    ensures rest { drop result out.new ≡ drop result out.old }
{
    let room = out.len() - at;
    if room < 2 || room - 2 < line.len() {
        let at = put(out, at, line);
        return put(out, at, b"\r\n");
    }
    let at = put_whole(out, at, line);
    put_end(out, at)
}

/// The bytes from `place` on.
pub(crate) fn from_place(bytes: &[u8], place: usize) -> &[u8]
    requires { place ≤ length bytes.now }
    ensures { result.now ≡ drop place bytes.now }
{
    &bytes[place..]
}

/// A line with its CR and LF, without its first `skip` bytes.
pub(crate) fn put_rest(out: &mut [u8], at: usize, line: &[u8], skip: usize) -> usize
    requires room { at ≤ length out.old }
    requires part { skip < length line.now + 2 }
    ensures end { result ≡ at + min (length out.old - at) (length line.now + 2 - skip) }
    ensures within { result ≤ length out.new }
    ensures bytes { take result out.new ≡ take at out.old ++ take (length out.old - at) (drop skip (ended_line line.now)) }
    ensures rest { drop result out.new ≡ drop result out.old }
{
    if skip > line.len() {
        return put(out, at, b"\n");
    }
    put_line(out, at, from_place(line, skip))
}
