// Cutting bytes at the first of a kind.
ghost use Rattle.std.specs.Prelude.{◌≡◌};
ghost use Rattle.texts.specs.Splits.{up_to, behind};

/// The bytes before the first `mark`, and those behind it. Where no `mark` stands, all of them and none.
pub fn split(bytes: &[u8], mark: u8) -> (&[u8], &[u8])
    ensures front { result.0.now ≡ up_to mark bytes.now }
    ensures back { result.1.now ≡ behind mark bytes.now }
{
    match bytes.iter().position(|&byte| byte == mark) {
        Some(at) => (&bytes[..at], &bytes[at + 1..]),
        None => (bytes, &bytes[bytes.len()..]),
    }
}
