//! The bytes between values, and those of which values are made.

ghost use Rattle.std.specs.Prelude.{◌≡◌};
ghost use Rattle.dc_lists.specs.Input.{is_space, is_gap, is_part};

pub(crate) fn is_space(byte: u8) -> bool
    ensures { result ≡ is_space byte }
{
    byte == b' ' || byte == b'\t' || byte == b'\r'
}

pub(crate) fn is_gap(byte: u8) -> bool
    ensures { result ≡ is_gap byte }
{
    is_space(byte) || byte == b'\n'
}

pub(crate) fn is_part(byte: u8) -> bool
    ensures { result ≡ is_part byte }
{
    !(is_gap(byte) || byte == b',')
}
