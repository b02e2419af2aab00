// Prefixes: an address and how many of its first bits count.
ghost use Rattle.std.specs.Prelude.{◌/◌, ◌^◌, ◌≡◌};
ghost use Rattle.fields.specs.Words.{address_bits};
ghost use Rattle.fields.specs.Prefixes.{span, prefix_good, prefix_agrees, prefix_last, prefix_meets};

// The number of an address's bits.
pub const ADDRESS_BITS: u32 = u32::BITS;

// The number of words of `ADDRESS_BITS` bits.
const ALL_WORDS: u64 = 1 << ADDRESS_BITS;

// Whether the length is at most that of an address, and the bits past it are zero: the address then ends in at least as
// many zeros as there are such bits. An address of zero ends in `ADDRESS_BITS` zeros, so it is good at every length.
pub fn prefix_good(address: u32, len: u32) -> bool
    ensures { result ≡ prefix_good address_bits address len }
{
    len <= ADDRESS_BITS && ADDRESS_BITS - len <= address.trailing_zeros()
}

// Whether the first `len` bits of the address and of the word agree. The bits in which the two differ then are none of
// the first, so they make a number below `sharing(len)`. A length over that of an address agrees with nothing, and
// length 0 with everything.
pub fn prefix_agrees(address: u32, len: u32, word: u32) -> bool
    ensures { result ≡ prefix_agrees address_bits address len word }
{
    u64::from(address ^ word) < sharing(len)
}

// How many words share their first `len` bits; none where the length is over that of an address.
fn sharing(len: u32) -> u64
    ensures { result ≡ 2 ^ address_bits / 2 ^ len }
{
    ALL_WORDS >> len.min(u64::BITS - 1)
}

// Whether the range that begins at the address, and has as many words as share its first `len` bits, meets another.
pub fn prefix_meets(address: u32, len: u32, from: u32, to: u32) -> bool
    ensures { result ≡ prefix_meets address_bits address len from to }
{
    address <= to && u64::from(from) <= u64::from(address) + span_of(len) - 1
}

// The last word of the range that begins at the address and has as many words as share its first `len` bits; the last
// word of all, where the range would go on past it.
pub(crate) fn prefix_last(address: u32, len: u32) -> u32
    ensures { result ≡ prefix_last address_bits address len }
{
    let last = u64::from(address) + span_of(len) - 1;
    u32::try_from(last).unwrap_or(u32::MAX)
}

// How many words share their first `len` bits; one where the length is that of an address, or over it.
fn span_of(len: u32) -> u64
    ensures { result ≡ span address_bits len }
{
    ALL_WORDS >> len.min(ADDRESS_BITS)
}
