// The bytes of a text at a place.
ghost use Rattle.std.specs.Prelude.{◌≡◌};
ghost use Rattle.fields.specs.Fields.{has_byte};

// Whether byte b stands at place k.
pub fn has_byte(text: &[u8], k: usize, b: u8) -> bool
    ensures tested { result ≡ has_byte b text.now k }
{
    text.get(k) == Some(&b)
}
