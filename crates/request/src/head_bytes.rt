// The bytes of a head.
ghost use Rattle.std.specs.Prelude.{◌≡◌};
ghost use Rattle.request.specs.Request.{bytes_right};

// Whether CR and LF stand only as pairs, and no other byte below 32 except HTAB, nor 127. Most bytes are 32..126, so they are tested first.
pub(crate) fn bytes_right(h: &[u8]) -> bool
    ensures { result ≡ bytes_right h.now }
{
    let mut i: usize = 0;
    while i < h.len() {
        let b = h[i];
        if (32 <= b) & (b <= 126) {
            i += 1;
        } else {
            if b == b'\r' {
                if octets::byte_at(h, i + 1) != b'\n' {
                    return false;
                }
                i += 2;
            } else {
                if !((b == b'\t') | (128 <= b)) {
                    return false;
                }
                i += 1;
            }
        }
    }
    true
}
