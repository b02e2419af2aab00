// Ranges of ports. A header's port may be absent: a later fragment has none, nor has an ICMP packet.
ghost use Rattle.std.specs.Prelude.{◌≡◌};
ghost use Rattle.fields.specs.Ports.{whole_ports, ports_match, ports_end};

// The largest port, and so the largest end of a rule's range.
pub(crate) const LARGEST_PORT: u32 = 65_535;

// A header's port that is absent. It is the top of the field.
pub(crate) const ABSENT_PORT: u32 = 65_536;

// Whether a port matches the range: an absent one matches the whole range alone, whatever the words, and any other lies
// in the range. Most rules that do not match are told by the first test.
pub(crate) fn ports_match(low: u32, high: u32, port: u32) -> bool
    ensures { result ≡ ports_match low high port }
{
    if port < low {
        return false;
    }
    if port == ABSENT_PORT {
        return whole_ports(low, high);
    }
    port <= high
}

// The last value that a good range matches: its high end, or the absent port where the range is whole.
pub(crate) fn ports_end(low: u32, high: u32) -> u32
    ensures { result ≡ ports_end low high }
{
    if whole_ports(low, high) {
        ABSENT_PORT
    } else {
        high
    }
}

// Whether the range is that of all ports.
fn whole_ports(low: u32, high: u32) -> bool
    ensures { result ≡ whole_ports low high }
{
    low == 0 && high == LARGEST_PORT
}
