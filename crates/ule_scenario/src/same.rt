// Whether a few bytes are a text.
ghost use Rattle.std.specs.Prelude.{◌≡◌, bytes_eq};

/// Whether these bytes are that text. It is compiled anew for each text, and so into a few
/// instructions, where `==` is a call.
#[inline(always)]
pub(crate) fn is_text(bytes: &[u8], text: &[u8]) -> bool
    ensures { result ≡ bytes_eq bytes.now text.now }
{
    if bytes.len() != text.len() {
        return false;
    }
    for at in 0..text.len() {
        if bytes[at] != text[at] {
            return false;
        }
    }
    true
}
