// Addresses: four octets, the highest first.
ghost use Rattle.std.specs.Prelude.{◌≡◌};
ghost use Rattle.text.specs.Addresses.{octets_fit, address_of};

// Whether the four are octets.
#[tactic(auto, unfolding(crate::specs::Addresses::octets_fit))]
pub fn octets_fit(a: u32, b: u32, c: u32, d: u32) -> bool
    ensures { result ≡ octets_fit a b c d }
{
    a <= 255 && b <= 255 && c <= 255 && d <= 255
}

// The address of four octets; 0 where they are not octets.
pub fn address_of(a: u32, b: u32, c: u32, d: u32) -> u32
    ensures { result ≡ address_of a b c d }
{
    if octets_fit(a, b, c, d) {
        return u32::from_be_bytes([a as u8, b as u8, c as u8, d as u8]);
    }
    0
}
