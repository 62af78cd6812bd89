//! How many octets a canonical text stands for.
ghost use Rattle.std.specs.Prelude.{◌≡◌};
ghost use Rattle.csvw_binary.specs.Octets.{padding_count, base64_octets, hex_octets};

fn padding_count(text: &[u8]) -> u64
    ensures { result ≡ padding_count text.now }
{
    if text.ends_with(b"==") {
        2
    } else if text.ends_with(b"=") {
        1
    } else {
        0
    }
}

pub(crate) fn base64_octets(text: &str) -> u64
    ensures { result ≡ base64_octets text.now }
{
    let whole = 3 * (text.len() as u64 / 4);
    whole.saturating_sub(padding_count(text.as_bytes()))
}

pub(crate) fn hex_octets(text: &str) -> u64
    ensures { result ≡ hex_octets text.now }
{
    text.len() as u64 / 2
}
