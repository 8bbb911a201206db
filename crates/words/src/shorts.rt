ghost use Rattle.std.specs.Prelude.{◌≡◌, ◌≤◌, length, if◌then◌else◌, Some, None, nat_le};
ghost use Rattle.std.specs.Option.{option_map};

// Bytes of a session text: at most 16,384.
#[derive(Clone, Copy)]
pub struct Short<'a> {
    bytes: &'a [u8],
    ghost short: { length bytes.now ≤ 16384 },
}

impl<'a> Short<'a> {
    // The bytes, where they are at most 16,384.
    pub fn new(bytes: &'a [u8]) -> Option<Short<'a>>
        ensures { option_map (λ s. s.bytes.now) result ≡ (if nat_le (length bytes.now) 16384 then Some bytes.now else None) }
    {
        if bytes.len() > 16384 {
            return None;
        }
        Some(Short { bytes })
    }

    pub fn bytes(self) -> &'a [u8]
        ensures value { result.now ≡ self.entry.bytes.now }
        ensures bound { length result.now ≤ 16384 }
    {
        self.bytes
    }
}
